// Changeover: a link fails.
#![tactic(auto)]

ghost use Rattle.plan_words.specs.Words.{plan_of};
ghost use Rattle.std.specs.Prelude.{◌≡◌};
ghost use Rattle.replies.specs.Areas.{Leaves, before, after};
ghost use Rattle.changeover.specs.Fail as Fail;

use area_links::{load_link, store_link};
use changeover_cuts::cut_none;
use changeover_ending::end_service;
use changeover_failure::{changing, fail_reply, order_of};
use constants::WAITING;
use management_making::make;
use replies::{Answer, done, refused};

// An open link fails: a COO and T2, or T1.
#[tactic(auto, unfolding(crate::specs::Fail::open_failed, crate::specs::Fail::timer_of))]
fn fail_open(
    plan: &[u16; 1024],
    links: &mut [u32; 256],
    marks: &[u32; 512],
    spans: &mut [u16; 70],
    rings: &mut [u8; 8960],
    rows: &mut [u64; 2048],
    arrivals: &mut [u64; 1],
    link: u8,
    reports: &[u64],
) -> Answer
    ensures { Leaves (Fail.open_failed (plan_of plan) (before links.old marks.now spans.old rings.old rows.old arrivals.old reports.now) link) result
        (after links.new marks.now spans.new rings.new rows.new arrivals.new reports.now) }
{
    let order = order_of(plan, links, link);
    let sent = make(plan, links, marks, spans, rings, rows, arrivals, order);
    let known = load_link(links, link);
    store_link(links, link, changing(known, sent.unwrap_or(false)));
    done(0)
}

// The link fails.
#[tactic(auto, unfolding(crate::specs::Fail::failed, changeover_ending::specs::End::out_of_service))]
pub fn fail(
    plan: &[u16; 1024],
    links: &mut [u32; 256],
    marks: &[u32; 512],
    spans: &mut [u16; 70],
    rings: &mut [u8; 8960],
    rows: &mut [u64; 2048],
    arrivals: &mut [u64; 1],
    link: u8,
    reports: &mut [u64],
) -> Answer
    ensures { Leaves (Fail.failed (plan_of plan) (before links.old marks.now spans.old rings.old rows.old arrivals.old reports.old) link) result
        (after links.new marks.now spans.new rings.new rows.new arrivals.new reports.new) }
{
    if let Err(refusal) = fail_reply(plan, links, link, reports) {
        return refused(refusal);
    }
    let known = load_link(links, link);
    if known.state == WAITING {
        return done(end_service(
            plan,
            links,
            marks,
            spans,
            rings,
            rows,
            link,
            cut_none(),
            reports,
        ));
    }
    fail_open(
        plan, links, marks, spans, rings, rows, arrivals, link, reports,
    )
}
