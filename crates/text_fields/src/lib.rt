// The first four fields of a line, and how many it has.
#![tactic(auto)]

ghost use Rattle.std.specs.Prelude.{◌≡◌};
ghost use Rattle.text_fields.specs.Fields.{counted, fields_at};

use text::part::{Part, field};

// Each field's end and where the next begins, of a line that has it; 5 counts for more than four.
#[derive(Clone, Copy)]
pub struct Found {
    pub count: u8,
    pub zero: Part,
    pub one: Part,
    pub two: Part,
    pub three: Part,
}

// The fields of the line between two places of a text.
pub fn first_four(text: &[u8], at: usize, to: usize) -> Found
    ensures { result ≡ fields_at text.now at to }
{
    let zero = field(text, at, to);
    let one = field(text, zero.next, to);
    let two = field(text, one.next, to);
    let three = field(text, two.next, to);
    let count = counted(zero.closed, one.closed, two.closed, three.closed);
    Found {
        count,
        zero,
        one,
        two,
        three,
    }
}

fn counted(zero: bool, one: bool, two: bool, three: bool) -> u8
    ensures { result ≡ counted zero one two three }
{
    if !zero {
        return 1;
    }
    if !one {
        return 2;
    }
    if !two {
        return 3;
    }
    if !three {
        return 4;
    }
    5
}
