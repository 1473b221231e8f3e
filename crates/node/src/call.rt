// The single entry: every event of the node.
ghost use Rattle.plan_words.specs.Words.{plan_of};
ghost use Rattle.areas.specs.Lent.{Stays};
ghost use Rattle.node.specs.Memory.{memory_of, Gives};
ghost use Rattle.node.specs.Call.{call_of};

use acknowledging::acknowledge;
use areas::Areas;
use changeback::into_service;
use changeback_waiting::expire_wait;
use changeover::fail;
use changeover_overdue::expire;
use passing_offering::send_host;
use receiving::receive;
use replies::{Answer, answered};
use rerouting::timer::{expire_t6, expire_t10};
use rerouting_expiry::expire_t8;
use sending::send;

#[derive(Clone, Copy)]
pub enum Event {
    // Of a link: it comes into service, it fails, level 2 asks for its next message.
    IntoService(u8),
    Failure(u8),
    Send(u8),
    // Of a link, with a number: level 2 acknowledges up to it; a message came in with it.
    Acknowledgement(u8, u8),
    Received(u8, u8),
    // The host hands a message over.
    FromHost,
    // A timer of a link expires.
    T1(u8),
    T2(u8),
    T3(u8),
    T4(u8),
    // A timer of a destination expires, by its code, and that of a route, by its destination's code and its set.
    T6(u16),
    T8(u16),
    T10(u16, u8),
}

// One call of the node: the message is that received or handed over, the output that of a send.
pub fn call(
    plan: &[u16; 1024],
    areas: &mut Areas,
    event: Event,
    message: &[u8],
    out: &mut [u8],
    reports: &mut [u64],
) -> Answer
    ensures stays { Stays areas.old areas.new }
    ensures gives { Gives (call_of (plan_of plan) event message.now (memory_of areas.old reports.old out.old)) result
        (memory_of areas.new reports.new out.new) }
{
    let links = &mut *areas.links;
    let marks = &mut *areas.marks;
    let spans = &mut *areas.spans;
    let rings = &mut *areas.rings;
    let rows = &mut *areas.rows;
    let octets = &mut *areas.octets;
    let arrivals = &mut *areas.arrivals;
    match event {
        Event::IntoService(link) => into_service(
            plan, links, marks, spans, rings, rows, arrivals, link, reports,
        ),
        Event::Failure(link) => fail(
            plan, links, marks, spans, rings, rows, arrivals, link, reports,
        ),
        Event::Send(link) => send(plan, links, spans, rings, rows, octets, link, out),
        Event::Acknowledgement(link, b) => answered(acknowledge(
            plan, links, spans, rings, link, b,
        )),
        Event::Received(link, fsn) => receive(
            plan, links, marks, spans, rings, rows, octets, arrivals, link, fsn, message, reports,
        ),
        Event::FromHost => send_host(
            plan, links, marks, spans, rings, rows, octets, arrivals, message,
        ),
        Event::T1(link) => expire(plan, links, marks, spans, rings, rows, link, 1, reports),
        Event::T2(link) => expire(plan, links, marks, spans, rings, rows, link, 2, reports),
        Event::T3(link) => answered(expire_wait(plan, links, link, 3)),
        Event::T4(link) => answered(expire_wait(plan, links, link, 4)),
        Event::T6(x) => expire_t6(plan, links, marks, spans, rings, rows, x, reports),
        Event::T8(x) => answered(expire_t8(plan, marks, x)),
        Event::T10(x, set) => expire_t10(plan, links, marks, spans, rings, rows, arrivals, x, set),
    }
}
