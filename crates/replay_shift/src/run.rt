// The lines of a record, in order: each is read, called or asked, and answered.
ghost use Rattle.plan_words.specs.Words.{plan_of};
ghost use Rattle.std.specs.Prelude.{◌≡◌, ◌≤◌, ◌&&◌, length, drop, ◌==◌, nat_le};
ghost use Rattle.std.proofs.Math.Seq.{slice};
ghost use Rattle.areas.specs.Lent.{Stays};
ghost use Rattle.node.specs.Memory.{memory_of};
ghost use Rattle.replay_shift.specs.Shift.{ran_from, ran_line, desk_at, place_at, page_with};

use areas::Areas;
use record_reading::{Reading, read_line};
pub use replay_answers::view::View;
use replay_calls::{put_asked, put_called};
use replay_refusals::put_unreadable;
use std::num::wrapping_add_u64;
use text::part::{Part, between, line};

// Where a run stands: the next line's place in the text and its number, how much of the page isn't written out yet, and whether every
// line so far could be read.
#[derive(Clone, Copy)]
pub struct Place {
    pub at: usize,
    pub number: u64,
    pub pending: usize,
    pub readable: bool,
}

// The lines that end in a text, from a place on, until one can't be read or the page has its fill: it holds 65,536 octets and
// then the longest answer. With areas of other lengths nothing is run.
pub fn run_lines(
    plan: &[u16; 1024],
    areas: &mut Areas,
    text: &[u8],
    from: Place,
    view: View,
    message: &mut [u8],
    sent: &mut [u8],
    reports: &mut [u64],
    out: &mut [u8],
) -> Place
    ensures stays { Stays areas.old areas.new }
    ensures value { result ≡
        place_at from out.old
        (ran_from (plan_of plan) view text.now from (memory_of areas.old reports.old sent.old) message.old out.old) }
    ensures out_after { out.new ≡
        page_with (ran_from (plan_of plan) view text.now from (memory_of areas.old reports.old sent.old) message.old out.old)
        out.old }
    ensures sent_value { memory_of areas.new reports.new sent.new ≡
        (ran_from (plan_of plan) view text.now from (memory_of areas.old reports.old sent.old) message.old out.old).memory }
    ensures message_after { message.new ≡
        (ran_from (plan_of plan) view text.now from (memory_of areas.old reports.old sent.old) message.old out.old).message }
{
    if !fit(message.len(), sent.len(), reports.len(), out.len()) {
        return from;
    }
    let mut place = from;
    loop {
        let at = place.at;
        let part = line(text, at);
        if !goes_on(part.closed, place.readable, place.pending) {
            break;
        }
        place = run_line(
            plan, areas, text, at, part, place, view, message, sent, reports, out,
        );
    }
    place
}

// Whether there is a line to run and it may be run: every line before it could be read, and the page hasn't its fill.
fn goes_on(closed: bool, readable: bool, pending: usize) -> bool
    ensures { result ≡ (closed && (readable && nat_le pending 65536)) }
{
    closed && (readable && pending <= 65536)
}

// Whether the areas have the lengths that a run needs: those of the longest field of octets, of a route list, of 512 records, and of a page.
fn fit(message: usize, sent: usize, reports: usize, out: usize) -> bool
    ensures { result ≡ (message == 1024 && (sent == 4096 && (reports == 1024 && out == 262144))) }
{
    message == 1024 && (sent == 4096 && (reports == 1024 && out == 262144))
}

// One line: read, called or asked, answered.
fn run_line(
    plan: &[u16; 1024],
    areas: &mut Areas,
    text: &[u8],
    at: usize,
    part: Part,
    place: Place,
    view: View,
    message: &mut [u8],
    sent: &mut [u8],
    reports: &mut [u64],
    out: &mut [u8],
) -> Place
    requires pending_bound { place.pending ≤ 65536 }
    requires message_len { length message.old ≡ 1024 }
    requires sent_len { length sent.old ≡ 4096 }
    requires reports_len { length reports.old ≡ 1024 }
    requires out_len { length out.old ≡ 262144 }
    ensures stays { Stays areas.old areas.new }
    ensures result_after { desk_at (memory_of areas.new reports.new sent.new) message.new out.new result ≡
        ran_line (plan_of plan) view (slice at part.end text.now) part.next
        (desk_at (memory_of areas.old reports.old sent.old) message.old out.old place) }
    ensures pending_bound_2 { result.pending ≤ 262144 }
    ensures out_unchanged { drop result.pending out.new ≡ drop result.pending out.old }
{
    let number = place.number;
    match read_line(text, at, part.end, message) {
        Reading::Call(said) => {
            let event = said.event;
            let octets_of = between(message, 0, said.octets);
            let pending = put_called(
                plan,
                areas,
                event,
                octets_of,
                view,
                number,
                sent,
                reports,
                out,
                place.pending,
            );
            Place {
                at: part.next,
                number: wrapping_add_u64(number, 1),
                pending,
                readable: true,
            }
        }
        Reading::Asks(question) => Place {
            at: part.next,
            number: wrapping_add_u64(number, 1),
            pending: put_asked(
                plan,
                areas.links,
                areas.marks,
                question,
                view,
                number,
                sent,
                reports,
                out,
                place.pending,
            ),
            readable: true,
        },
        Reading::Unreadable => Place {
            at: part.next,
            number,
            pending: put_unreadable(out, place.pending, number),
            readable: false,
        },
    }
}
