// Octets in hex read and written.
ghost use Rattle.std.specs.Prelude.{◌≡◌, ◌++◌, true, ◌*◌, ◌/◌, ◌≤◌, ◌<◌, length, drop};
ghost use Rattle.text.specs.Put.{written, past};
ghost use Rattle.text_hex.specs.Hex as Hex;

// Puts the octets that the text says at the start of the area and answers how many; none where it isn't pairs of hex digits or has
// more than the area holds: then the area stays as it was.
#[tactic(auto, using(crate::proofs::Octets::octets_length))]
pub fn hex(text: &[u8], out: &mut [u8]) -> Option<usize>
    ensures value { result ≡ Hex.count_of text.now out.old }
    ensures out_after { out.new ≡ Hex.filled text.now out.old }
{
    let count = text.len() / 2;
    if out.len() < count {
        return None;
    }
    if !is_hex(text) {
        return None;
    }
    fill(text, out);
    Some(count)
}

// What a hex digit says; 16 of an octet that is none.
fn nibble(octet: u8) -> u8
    ensures { result ≡ Hex.nibble octet }
{
    if b'0' <= octet && octet <= b'9' {
        octet - b'0'
    } else if b'a' <= octet && octet <= b'f' {
        octet - b'a' + 10
    } else if b'A' <= octet && octet <= b'F' {
        octet - b'A' + 10
    } else {
        16
    }
}

fn is_hex(text: &[u8]) -> bool
    ensures { result ≡ Hex.is_hex text.now }
{
    for i in 0..text.len() / 2 {
        if 15 < nibble(text[2 * i]) {
            return false;
        }
        if 15 < nibble(text[2 * i + 1]) {
            return false;
        }
    }
    text.len() % 2 == 0
}

fn fill(text: &[u8], out: &mut [u8])
    requires text_value { Hex.is_hex text.now ≡ true }
    requires text_in_bounds { length text.now / 2 ≤ length out.old }
    ensures { out.new ≡ Hex.octets_of text.now ++ drop (length (Hex.octets_of text.now)) out.old }
{
    for i in 0..text.len() / 2 {
        out[i] = nibble(text[2 * i]) * 16 + nibble(text[2 * i + 1]);
    }
}

// Writes the octets as pairs of hex digits, as `put` does.
#[tactic(auto, using(crate::proofs::Octets::hex_length))]
pub fn put_hex(out: &mut [u8], at: usize, octets: &[u8]) -> usize
    ensures value { result ≡ past out.old at (Hex.hex_of octets.now) }
    ensures out_after { out.new ≡ written out.old at (Hex.hex_of octets.now) }
{
    if out.len() < at {
        return at;
    }
    if (out.len() - at) / 2 < octets.len() {
        return at;
    }
    spell(octets, &mut out[at..]);
    at + 2 * octets.len()
}

fn glyph(n: u8) -> u8
    requires { n < 16 }
    ensures { result ≡ Hex.glyph n }
{
    if n < 10 { b'0' + n } else { b'a' + (n - 10) }
}

fn spell(octets: &[u8], out: &mut [u8])
    requires { 2 * length octets.now ≤ length out.old }
    ensures { out.new ≡ Hex.hex_of octets.now ++ drop (length (Hex.hex_of octets.now)) out.old }
{
    for (i, octet) in octets.iter().enumerate() {
        out[2 * i] = glyph(*octet / 16);
        out[2 * i + 1] = glyph(*octet % 16);
    }
}
