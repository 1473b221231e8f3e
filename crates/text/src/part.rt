// The next line of a text, the next field of a line.
ghost use Rattle.std.specs.Prelude.{◌≡◌};
ghost use Rattle.std.proofs.Math.Seq.{slice};
ghost use Rattle.text.specs.Index.{index_of};
ghost use Rattle.text.specs.Part as Part·;

// Where a line or a field ends, whether its mark (LF, the tab) stands there, and where the next one begins.
#[derive(Clone, Copy)]
pub struct Part {
    pub end: usize,
    pub next: usize,
    pub closed: bool,
}

// The octets from a place up to another, of those that are there.
pub fn between(text: &[u8], at: usize, to: usize) -> &[u8]
    ensures { result.now ≡ slice at to text.now }
{
    let end = if to < text.len() { to } else { text.len() };
    if at < end { &text[at..end] } else { &text[..0] }
}

// The line that begins at a place.
pub fn line(text: &[u8], at: usize) -> Part
    ensures { result ≡ Part·.line_at text.now at }
{
    until(text, at, text.len(), b'\n')
}

// The field that begins at a place of the line that ends at `to`.
pub fn field(text: &[u8], at: usize, to: usize) -> Part
    ensures { result ≡ Part·.field_at text.now at to }
{
    until(text, at, to, b'\t')
}

fn until(text: &[u8], at: usize, to: usize, mark: u8) -> Part
    ensures { result ≡ Part·.until mark text.now at to }
{
    let part = between(text, at, to);
    let length = index(part, mark);
    let end = at + length;
    if length < part.len() {
        Part {
            end,
            next: end + 1,
            closed: true,
        }
    } else {
        Part {
            end,
            next: end,
            closed: false,
        }
    }
}

// The place of the first mark; the text's length where there is none.
fn index(text: &[u8], mark: u8) -> usize
    ensures { result ≡ index_of mark text.now }
{
    for (i, x) in text.iter().enumerate() {
        if *x == mark {
            return i;
        }
    }
    text.len()
}

// Whether two texts are the same.
#[tactic(auto, using(crate::proofs::Same::same_by_octets))]
pub fn same(a: &[u8], b: &[u8]) -> bool
    ensures { result ≡ Part·.same_text a.now b.now }
{
    a == b
}
