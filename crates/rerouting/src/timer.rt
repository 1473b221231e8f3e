// T6 and T10 carried out: what is held apart moves, and the RST is made.
ghost use Rattle.plan_words.specs.Words.{plan_of};
ghost use Rattle.std.specs.Prelude.{◌≡◌, []};
ghost use Rattle.replies.specs.Areas.{Leaves, before_unreported, after_unreported, before_unnumbered, after_unnumbered};
ghost use Rattle.rerouting.specs.Timer as Timer;

use area_flags::set_flag;
use constants::T6;
use management_making::make;
use plan_words::find::place_of;
use replies::{Answer, Refusal, done, refused};
use reports::short;
use rerouting_expiry::{t10_reply, test_of, timer_reply};
use rerouting_releasing::release;

// T6 of a destination expires: what is held apart for it moves.
pub fn expire_t6(
    plan: &[u16; 1024],
    links: &[u32; 256],
    marks: &mut [u32; 512],
    spans: &mut [u16; 70],
    rings: &mut [u8; 8960],
    rows: &[u64; 2048],
    x: u16,
    reports: &mut [u64],
) -> Answer
    ensures { Leaves (Timer.expired_t6 (plan_of plan) (before_unnumbered links.now marks.old spans.old rings.old rows.now reports.old) x) result
        (after_unnumbered links.now marks.new spans.new rings.new rows.now reports.new) }
{
    if short(reports) {
        return refused(Refusal::OutOfRange);
    }
    if let Err(refusal) = timer_reply(plan, marks, x, T6) {
        return refused(refusal);
    }
    set_flag(marks, place_of(plan, x), T6, false);
    done(release(plan, links, marks, spans, rings, rows, x, reports, 0))
}

// T10 of the route to X by a set expires.
pub fn expire_t10(
    plan: &[u16; 1024],
    links: &[u32; 256],
    marks: &[u32; 512],
    spans: &mut [u16; 70],
    rings: &mut [u8; 8960],
    rows: &mut [u64; 2048],
    arrivals: &mut [u64; 1],
    x: u16,
    set: u8,
) -> Answer
    ensures { Leaves (Timer.expired_t10 (plan_of plan) (before_unreported links.now marks.now spans.old rings.old rows.old arrivals.old) x set) result
        (after_unreported links.now marks.now spans.new rings.new rows.new arrivals.new) }
{
    if let Err(refusal) = t10_reply(plan, marks, x, set) {
        return refused(refusal);
    }
    let test = test_of(plan, x, set);
    if let Err(refusal) = make(plan, links, marks, spans, rings, rows, arrivals, test) {
        return refused(refusal);
    }
    done(0)
}
