// What a call answers.
#![tactic(auto)]

ghost use Rattle.std.specs.Prelude.{◌≡◌};
ghost use Rattle.replies.specs.Reply as Reply;

// Why an event is refused: the paper's table of replies, but for 0, which is that it is done.
#[derive(Clone, Copy)]
pub enum Refusal {
    // An argument is out of range, or a lent area too short.
    OutOfRange,
    // The link, set or destination isn't configured.
    NotConfigured,
    // The message is malformed.
    Malformed,
    // The network indicator isn't ours.
    Foreign,
    // The event doesn't fit the state of the link or timer.
    Unfit,
    // The number isn't the next, or not in range.
    NotNext,
    // 192 user messages are held.
    NoUserPlace,
    // No management place is free.
    NoManagementPlace,
    // The destination isn't configured or inaccessible.
    Inaccessible,
    // No arrival number is left.
    NoNumber,
    // The management message names nothing or fits no state.
    NamesNothing,
}

#[repr(C)]
#[derive(Clone, Copy)]
pub struct Answer {
    // How many octets are written to the output, and how many records to the report area. The wide numbers stand first, so that no hole is
    // copied along between the fields.
    pub octets: usize,
    pub reports: usize,
    // The reply's number in the paper's table.
    pub reply: u8,
    // Of a send: the number that the message leaves with.
    pub fsn: u8,
    // Whether the message is delivered to the host.
    pub delivers: bool,
}

impl Refusal {
    // Its number in the table.
    pub fn number(self) -> u8
        ensures { result ≡ Reply.number self }
    {
        match self {
            Refusal::OutOfRange => 1,
            Refusal::NotConfigured => 2,
            Refusal::Malformed => 3,
            Refusal::Foreign => 4,
            Refusal::Unfit => 5,
            Refusal::NotNext => 6,
            Refusal::NoUserPlace => 7,
            Refusal::NoManagementPlace => 8,
            Refusal::Inaccessible => 9,
            Refusal::NoNumber => 10,
            Refusal::NamesNothing => 11,
        }
    }
}

// The reply's number: 0 where nothing is refused.
pub fn number(told: Result<(), Refusal>) -> u8
    ensures { result ≡ Reply.number_of told }
{
    match told {
        Ok(()) => 0,
        Err(refusal) => refusal.number(),
    }
}

// A reply that writes nothing.
pub fn plain(reply: u8) -> Answer
    ensures { result ≡ Reply.plain reply }
{
    Answer { reply, ..done(0) }
}

// What was decided, with nothing written.
pub fn answered(told: Result<(), Refusal>) -> Answer
    ensures { result ≡ Reply.plain (Reply.number_of told) }
{
    plain(number(told))
}

// Refused, with nothing written.
pub fn refused(refusal: Refusal) -> Answer
    ensures { result ≡ Reply.plain (Reply.number refusal) }
{
    plain(refusal.number())
}

// Done, with so many reports.
pub fn done(reports: usize) -> Answer
    ensures { result ≡ Reply.done reports }
{
    Answer {
        reply: 0,
        fsn: 0,
        octets: 0,
        reports,
        delivers: false,
    }
}
