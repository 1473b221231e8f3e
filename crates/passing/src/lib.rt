// A message for another point that came over a link: queued, or told to be out of reach.
#![tactic(auto)]

ghost use Rattle.plan_words.specs.Words.{plan_of};
ghost use Rattle.std.specs.Prelude.{◌≡◌, length};
ghost use Rattle.replies.specs.Areas.{Leaves, before, after};
ghost use Rattle.passing.specs.Pass as Pass;

use constants::NO_LINK;
use management_making::make;
use passing_passage::{prohibited_to, ring_of, start_t8, tells};
use queue_joining::queue_user;
use replies::{Answer, Refusal, answered, refused};
use route_ways::{directed, for_users};
use wire::header::Label;

// A message for a point that can't be reached.
fn not_reached(
    plan: &[u16; 1024],
    links: &[u32; 256],
    marks: &mut [u32; 512],
    spans: &mut [u16; 70],
    rings: &mut [u8; 8960],
    rows: &mut [u64; 2048],
    arrivals: &mut [u64; 1],
    arriving: u8,
    x: u16,
    reports: &[u64],
) -> Answer
    ensures { Leaves (Pass.not_reached (plan_of plan) arriving x (before links.now marks.old spans.old rings.old rows.old arrivals.old reports.now)) result
        (after links.now marks.new spans.new rings.new rows.new arrivals.new reports.now) }
{
    let due = tells(plan, marks, x);
    if !due {
        return refused(Refusal::Inaccessible);
    }
    let told = prohibited_to(plan, arriving, x);
    let made = match make(plan, links, marks, spans, rings, rows, arrivals, told) {
        Ok(made) => made,
        Err(refusal) => return refused(refusal),
    };
    if made {
        start_t8(plan, marks, x);
    }
    refused(Refusal::Inaccessible)
}

// A message for another point that came over a link.
pub fn pass_on(
    plan: &[u16; 1024],
    links: &[u32; 256],
    marks: &mut [u32; 512],
    spans: &mut [u16; 70],
    rings: &mut [u8; 8960],
    rows: &mut [u64; 2048],
    octets: &mut [u8; 52416],
    arrivals: &mut [u64; 1],
    arriving: u8,
    label: Label,
    message: &[u8],
    reports: &[u64],
) -> Answer
    ensures leaves { Leaves (Pass.passed (plan_of plan) arriving label (length message.now) (before links.now marks.old spans.old rings.old rows.old arrivals.old reports.now)) result
        (after links.now marks.new spans.new rings.new rows.new arrivals.new reports.now) }
    ensures octets_value { octets.new ≡
        Pass.octets_passed (plan_of plan) label (before links.now marks.old spans.old rings.old rows.old arrivals.old reports.now) octets.old message.now }
{
    let to = directed(plan, links, marks, for_users(), label.dpc, label.sls);
    if NO_LINK <= to.link {
        return not_reached(
            plan, links, marks, spans, rings, rows, arrivals, arriving, label.dpc, reports,
        );
    }
    let ring = ring_of(marks, to);
    answered(queue_user(
        spans, rings, rows, octets, arrivals, ring, label.dpc, label.sls, message,
    ))
}
