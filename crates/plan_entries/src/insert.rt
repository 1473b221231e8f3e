// A value put in among the values of an array.
ghost use Rattle.std.specs.Prelude.{◌≡◌};
ghost use Rattle.plan_entries.specs.Insert as Insert;

// The values with one more at a place: those from there on move up by one, and the last falls off.
pub fn inserted<T: Copy, const N: usize>(values: [T; N], place: usize, value: T) -> [T; N]
    ensures { result ≡ Insert.inserted place value values }
{
    let mut table = values;
    let mut moved = value;
    for at in place..N {
        let pushed = table[at];
        table[at] = moved;
        moved = pushed;
    }
    table
}
