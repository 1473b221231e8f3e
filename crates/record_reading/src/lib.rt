// A record of calls and questions: what one of its lines says.
#![tactic(auto)]

ghost use Rattle.std.specs.Prelude.{◌≡◌, min};
ghost use Rattle.std.proofs.Math.Seq.{slice};
ghost use Rattle.record_reading.specs.Record as Record;

use node::ask::Question;
use node::call::Event;
use record_entry::read_entry;
use record_kinds::Kind;

// A call: the event, and how many octets its message has.
#[derive(Clone, Copy)]
pub struct Line {
    pub event: Event,
    pub octets: usize,
}

#[derive(Clone, Copy)]
pub enum Reading {
    Call(Line),
    Asks(Question),
    Unreadable,
}

// The call or question that the line between two places of a text says; a call's octets are put at the start of the lent area, which
// holds as many as a field may have.
pub fn read_line(text: &[u8], at: usize, to: usize, message: &mut [u8]) -> Reading
    ensures value { result ≡ Record.read_line message.old (slice at to text.now) }
    ensures message_after { message.new ≡ Record.message_after message.old (slice at to text.now) }
{
    let Some(said) = read_entry(text, at, to, message) else {
        return Reading::Unreadable;
    };
    let kind = said.kind;
    call(
        kind,
        octet(said.first),
        octet(said.second),
        code(said.first),
        said.octets,
    )
}

// The call or question of a kind, of the numbers that it has.
fn call(kind: Kind, link: u8, number: u8, destination: u16, octets: usize) -> Reading
    ensures { result ≡ Record.call_of kind link number destination octets }
{
    match kind {
        Kind::Service => says(Event::IntoService(link), octets),
        Kind::Failure => says(Event::Failure(link), octets),
        Kind::Send => says(Event::Send(link), octets),
        Kind::Acknowledged => says(Event::Acknowledgement(link, number), octets),
        Kind::Received => says(Event::Received(link, number), octets),
        Kind::Host => says(Event::FromHost, octets),
        Kind::Routes => Reading::Asks(Question::RouteList),
        Kind::T1 => says(Event::T1(link), octets),
        Kind::T2 => says(Event::T2(link), octets),
        Kind::T3 => says(Event::T3(link), octets),
        Kind::T4 => says(Event::T4(link), octets),
        Kind::T6 => says(Event::T6(destination), octets),
        Kind::T8 => says(Event::T8(destination), octets),
        Kind::T10 => says(Event::T10(destination, number), octets),
    }
}

fn says(event: Event, octets: usize) -> Reading
    ensures { result ≡ Record.says event octets }
{
    Reading::Call(Line { event, octets })
}

// A number out of a call's range stays out of it: 255 is no link, no number of a message and no set.
fn octet(number: u64) -> u8
    ensures { result ≡ min number 255 }
{
    if number < 255 { number as u8 } else { 255 }
}

// 65,535 is no code.
fn code(number: u64) -> u16
    ensures { result ≡ min number 65535 }
{
    if number < 65535 { number as u16 } else { 65535 }
}
