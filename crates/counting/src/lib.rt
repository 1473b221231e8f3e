// Sequence numbers modulo 128: a wrapping subtract on u8, then the remainder by 128. Every octet is taken: a top bit that is
// set doesn't count.
#![tactic(auto)]

ghost use Rattle.std.specs.Prelude.{◌≡◌};
ghost use Rattle.counting.specs.Counting as Counting;

// How many steps lead from one number on to the other.
pub fn distance(from: u8, to: u8) -> u8
    ensures { result ≡ Counting.distance 128 from to }
{
    std::num::wrapping_sub_u8(to, from) % 128
}

// The number that many steps on. From `from` it is distance(from, 0) steps to 0, and what is left of the steps from there on.
pub fn onward(from: u8, steps: u8) -> u8
    ensures { result ≡ Counting.onward 128 from steps }
{
    distance(distance(from, 0), steps)
}

// The number after the last.
pub fn next(last: u8) -> u8
    ensures { result ≡ Counting.next 128 last }
{
    onward(last, 1)
}

// Whether b is the last acknowledged number or that of one of the `sent` messages after it.
pub fn in_range(acknowledged: u8, sent: u8, b: u8) -> bool
    ensures { result ≡ Counting.in_range 128 acknowledged sent b }
{
    distance(acknowledged, b) <= sent
}
