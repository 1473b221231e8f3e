// TFP and TFA carried out: a route's mark is set or cleared, and the access that changed is told.
ghost use Rattle.plan_words.specs.Words.{plan_of};
ghost use Rattle.std.specs.Prelude.{◌≡◌};
ghost use Rattle.replies.specs.Areas.{Leaves, before, after};
ghost use Rattle.rerouting.specs.Transfer as Transfer;

use replies::{Answer, Refusal, done, refused};
use rerouting_marking::{counts, mark};
use route_access::{accesses, report_changes};

// A TFP, or a TFA, about X came from a point.
pub fn transfer(
    plan: &[u16; 1024],
    links: &[u32; 256],
    marks: &mut [u32; 512],
    spans: &[u16; 70],
    rings: &[u8; 8960],
    rows: &[u64; 2048],
    arrivals: &[u64; 1],
    point: u16,
    x: u16,
    prohibits: bool,
    reports: &mut [u64],
) -> Answer
    ensures { Leaves (Transfer.transferred (plan_of plan) point x prohibits (before links.now marks.old spans.now rings.now rows.now arrivals.now reports.old)) result
        (after links.now marks.new spans.now rings.now rows.now arrivals.now reports.new) }
{
    if !counts(plan, marks, point, x, prohibits) {
        return refused(Refusal::NamesNothing);
    }
    let before = accesses(plan, links, marks);
    mark(plan, links, marks, point, x, prohibits);
    let told = report_changes(plan, links, marks, before, reports, 0);
    done(told)
}
