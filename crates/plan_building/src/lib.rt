// What every statement leaves that is put into the plan, the plan with it or its fault. How each is put in stands in `plan_sets`, `plan_links`
// and `plan_routes`.
#![tactic(auto)]

ghost use Rattle.std.specs.Prelude.{◌≡◌};
ghost use Rattle.plan_building.specs.Building as Building;

// Why a line, or a text, is refused.
#[derive(Clone, Copy)]
pub enum Fault {
    // Wrong word, field count or no LF.
    WrongLine,
    // Not a plain decimal, or out of range.
    OutOfRange,
    // A repeat, or our own code.
    Repeat,
    // Names something not given above.
    NotGiven,
    // A table is full, or the text too long.
    Full,
    // The first line isn't the node's.
    NoNode,
}

impl Fault {
    // The number that is told of it.
    pub fn number(self) -> u8
        ensures { result ≡ Building.number self }
    {
        match self {
            Fault::WrongLine => 20,
            Fault::OutOfRange => 21,
            Fault::Repeat => 22,
            Fault::NotGiven => 23,
            Fault::Full => 24,
            Fault::NoNode => 25,
        }
    }
}
