// Octets put into a lent area from a place on.
ghost use Rattle.std.specs.Prelude.{◌≡◌};
ghost use Rattle.text.specs.Put.{written, past};

// Writes the octets and answers the place past them; where they have no room it writes nothing and answers the same place.
pub fn put(out: &mut [u8], at: usize, octets: &[u8]) -> usize
    ensures value { result ≡ past out.old at octets.now }
    ensures out_after { out.new ≡ written out.old at octets.now }
{
    if out.len() < at {
        return at;
    }
    if out.len() - at < octets.len() {
        return at;
    }
    let end = at + octets.len();
    out[at..end].copy_from_slice(octets);
    end
}
