// A message that the host hands over: queued, or refused for what it is or for want of a way or a place.
#![tactic(auto)]

ghost use Rattle.plan_words.specs.Words.{plan_of};
ghost use Rattle.std.specs.Prelude.{◌≡◌, [], length};
ghost use Rattle.replies.specs.Areas.{Leaves, before_unreported, after_unreported};
ghost use Rattle.passing_offering.specs.Host as Host;

use constants::NO_LINK;
use discrimination::{Came, from_host};
use passing_passage::ring_of;
use plan_words::read::{code, given};
use queue_joining::queue_user;
use replies::{Answer, Refusal, answered, refused};
use route_ways::{directed, for_users};
use wire::header::Label;

// A message with a label that the host offers.
fn offer(
    plan: &[u16; 1024],
    links: &[u32; 256],
    marks: &[u32; 512],
    spans: &mut [u16; 70],
    rings: &mut [u8; 8960],
    rows: &mut [u64; 2048],
    octets: &mut [u8; 52416],
    arrivals: &mut [u64; 1],
    label: Label,
    message: &[u8],
) -> Answer
    ensures leaves { Leaves (Host.offered (plan_of plan) label (length message.now) (before_unreported links.now marks.now spans.old rings.old rows.old arrivals.old)) result
        (after_unreported links.now marks.now spans.new rings.new rows.new arrivals.new) }
    ensures octets_value { octets.new ≡
        Host.octets_offered (plan_of plan) label (before_unreported links.now marks.now spans.old rings.old rows.old arrivals.old) octets.old message.now }
{
    if label.dpc == code(plan) {
        return refused(Refusal::Inaccessible);
    }
    let to = directed(plan, links, marks, for_users(), label.dpc, label.sls);
    if NO_LINK <= to.link {
        return refused(Refusal::Inaccessible);
    }
    let ring = ring_of(marks, to);
    answered(queue_user(
        spans, rings, rows, octets, arrivals, ring, label.dpc, label.sls, message,
    ))
}

// The host hands over a message of its own.
pub fn send_host(
    plan: &[u16; 1024],
    links: &[u32; 256],
    marks: &[u32; 512],
    spans: &mut [u16; 70],
    rings: &mut [u8; 8960],
    rows: &mut [u64; 2048],
    octets: &mut [u8; 52416],
    arrivals: &mut [u64; 1],
    message: &[u8],
) -> Answer
    ensures leaves { Leaves (Host.sent (plan_of plan) message.now (before_unreported links.now marks.now spans.old rings.old rows.old arrivals.old)) result
        (after_unreported links.now marks.now spans.new rings.new rows.new arrivals.new) }
    ensures octets_value { octets.new ≡
        Host.octets_sent (plan_of plan) message.now (before_unreported links.now marks.now spans.old rings.old rows.old arrivals.old) octets.old }
{
    if !given(plan) {
        return refused(Refusal::NotConfigured);
    }
    match from_host(plan, message) {
        Came::Passed(label) => offer(
            plan, links, marks, spans, rings, rows, octets, arrivals, label, message,
        ),
        Came::Foreign => refused(Refusal::Foreign),
        Came::Malformed => refused(Refusal::Malformed),
        Came::Delivered => refused(Refusal::Malformed),
        Came::Managed(_) => refused(Refusal::Malformed),
    }
}
