// The end of a changeover by its timers: T1 or T2 of a link expires.
#![tactic(auto)]

ghost use Rattle.plan_words.specs.Words.{plan_of};
ghost use Rattle.std.specs.Prelude.{◌≡◌, []};
ghost use Rattle.replies.specs.Areas.{Leaves, before_unnumbered, after_unnumbered};
ghost use Rattle.changeover_overdue.specs.Expire as Expire;

use changeover_cuts::cut_none;
use changeover_ending::end_service;
use changeover_failure::expire_reply;
use replies::{Answer, done, refused};

// T1 or T2 of a link expires.
#[tactic(auto, unfolding(crate::specs::Expire::expired, changeover_ending::specs::End::out_of_service))]
pub fn expire(
    plan: &[u16; 1024],
    links: &mut [u32; 256],
    marks: &[u32; 512],
    spans: &mut [u16; 70],
    rings: &mut [u8; 8960],
    rows: &[u64; 2048],
    link: u8,
    timer: u8,
    reports: &mut [u64],
) -> Answer
    ensures { Leaves (Expire.expired (plan_of plan) (before_unnumbered links.old marks.now spans.old rings.old rows.now reports.old) link timer) result
        (after_unnumbered links.new marks.now spans.new rings.new rows.now reports.new) }
{
    if let Err(refusal) = expire_reply(plan, links, link, timer, reports) {
        return refused(refusal);
    }
    done(end_service(
        plan,
        links,
        marks,
        spans,
        rings,
        rows,
        link,
        cut_none(),
        reports,
    ))
}
