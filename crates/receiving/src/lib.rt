// A message received over a link: by its reply (`receiving_acceptance`), then by what it is, and then it is taken.
#![tactic(auto)]

ghost use Rattle.plan_words.specs.Words.{plan_of};
ghost use Rattle.std.specs.Prelude.{◌≡◌, length};
ghost use Rattle.replies.specs.Areas.{Leaves, before, after};
ghost use Rattle.discrimination.specs.Discrimination.{from_link};
ghost use Rattle.receiving.specs.Receive as Receive;

use discrimination::{Came, from_link};
use managing::manage;
use numbers::{is_taken, take_message};
use passing::pass_on;
use receiving_acceptance::receive_reply;
use replies::{Answer, Refusal, done, refused};

// The message is delivered.
fn delivery() -> Answer
    ensures { result ≡ Receive.delivery }
{
    Answer {
        delivers: true,
        ..done(0)
    }
}

// What becomes of a message, by what it is.
fn receive_by(
    plan: &[u16; 1024],
    links: &mut [u32; 256],
    marks: &mut [u32; 512],
    spans: &mut [u16; 70],
    rings: &mut [u8; 8960],
    rows: &mut [u64; 2048],
    octets: &mut [u8; 52416],
    arrivals: &mut [u64; 1],
    link: u8,
    fsn: u8,
    message: &[u8],
    reports: &mut [u64],
) -> Answer
    ensures leaves { Leaves
        (Receive.received_by (plan_of plan) link fsn (length message.now) (from_link (plan_of plan) message.now)
        (before links.old marks.old spans.old rings.old rows.old arrivals.old reports.old)) result
        (after links.new marks.new spans.new rings.new rows.new arrivals.new reports.new) }
    ensures octets_value { octets.new ≡
        Receive.octets_by (plan_of plan) (from_link (plan_of plan) message.now) (before links.old marks.old spans.old rings.old rows.old arrivals.old reports.old) octets.old message.now }
{
    match from_link(plan, message) {
        Came::Malformed => refused(Refusal::Malformed),
        Came::Foreign => refused(Refusal::Foreign),
        Came::Delivered => delivery(),
        Came::Managed(order) => manage(
            plan, links, marks, spans, rings, rows, arrivals, link, fsn, order, reports,
        ),
        Came::Passed(label) => pass_on(
            plan, links, marks, spans, rings, rows, octets, arrivals, link, label, message, reports,
        ),
    }
}

// A message came in over a link.
pub fn receive(
    plan: &[u16; 1024],
    links: &mut [u32; 256],
    marks: &mut [u32; 512],
    spans: &mut [u16; 70],
    rings: &mut [u8; 8960],
    rows: &mut [u64; 2048],
    octets: &mut [u8; 52416],
    arrivals: &mut [u64; 1],
    link: u8,
    fsn: u8,
    message: &[u8],
    reports: &mut [u64],
) -> Answer
    ensures leaves { Leaves (Receive.received (plan_of plan) link fsn message.now (before links.old marks.old spans.old rings.old rows.old arrivals.old reports.old)) result
        (after links.new marks.new spans.new rings.new rows.new arrivals.new reports.new) }
    ensures octets_value { octets.new ≡
        Receive.octets_received (plan_of plan) link fsn message.now (before links.old marks.old spans.old rings.old rows.old arrivals.old reports.old) octets.old }
{
    if let Err(refusal) = receive_reply(plan, links, link, fsn, reports) {
        return refused(refusal);
    }
    let answer = receive_by(
        plan, links, marks, spans, rings, rows, octets, arrivals, link, fsn, message, reports,
    );
    if is_taken(answer.reply) {
        take_message(links, link, fsn);
    }
    answer
}
