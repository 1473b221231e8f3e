// The flags of a destination: eight words for each of 64 destinations, 0 where a flag isn't set. Words 0 to 3 are the marks of its
// routes (while one stands, its T10 runs), word 4 is T6, word 5 is T8.
#![tactic(auto)]

ghost use Rattle.std.specs.Prelude.{◌≡◌};
ghost use Rattle.area_flags.specs.Flags as Flags;

// The word of a flag.
pub fn word(on: bool) -> u32
    ensures { result ≡ Flags.word on }
{
    u32::from(on)
}

pub fn flag(marks: &[u32; 512], destination: usize, place: usize) -> bool
    ensures { result ≡ Flags.flag_at marks.now destination place }
{
    destination < 64 && place < 8 && 0 < marks[8 * destination + place]
}

pub fn set_flag(marks: &mut [u32; 512], destination: usize, place: usize, on: bool)
    ensures { marks.new ≡ Flags.with_flag marks.old destination place on }
{
    if destination < 64 && place < 8 {
        marks[8 * destination + place] = word(on);
    }
}
