// The line of a call or a question as C names it, so that a host in C can keep its shift.
#![tactic(auto)]

ghost use Rattle.std.specs.Prelude.{◌≡◌, min};
ghost use Rattle.text_pages.specs.Page.{page};
ghost use Rattle.library_keeping.specs.Kept as Kept;

use node::ask::Question;
use node::call::Event;
use record_keeping::{put_call, put_question};

// Writes the line at the start of an area and gives its length; 0, and nothing is written, where the kind isn't listed, the message
// is longer than a line can carry, or the area is too short.
#[unsafe(no_mangle)]
pub extern "C" fn transfer_point_keep_lent(
    out: &mut [u8],
    kind: u8,
    first: u16,
    second: u8,
    message: &[u8],
) -> usize
    ensures { page out.new result ≡ Kept.kept out.old kind first second message.now }
{
    if !keeps(out.len(), kind, message.len()) {
        return 0;
    }
    if kind == 13 {
        return put_question(out, 0, Question::RouteList);
    }
    put_call(out, 0, event_of(kind, first, second), message)
}

// Whether the kind is listed and the line has room.
fn keeps(room: usize, kind: u8, octets: usize) -> bool
    ensures { result ≡ Kept.keeps room kind octets }
{
    kind <= 13 && (octets <= 1024 && 18 + 2 * octets <= room)
}

// The event of a kind of events and its numbers.
fn event_of(kind: u8, first: u16, second: u8) -> Event
    ensures { result ≡ Kept.event_of kind first second }
{
    let link = octet(first);
    match kind {
        0 => Event::IntoService(link),
        1 => Event::Failure(link),
        2 => Event::Send(link),
        3 => Event::Acknowledgement(link, second),
        4 => Event::Received(link, second),
        5 => Event::FromHost,
        6 => Event::T1(link),
        7 => Event::T2(link),
        8 => Event::T3(link),
        9 => Event::T4(link),
        10 => Event::T6(first),
        11 => Event::T8(first),
        _ => Event::T10(first, second),
    }
}

// 255 is no link.
fn octet(number: u16) -> u8
    ensures { result ≡ min number 255 }
{
    if number < 255 { number as u8 } else { 255 }
}
