// The expiry of each timer, as C calls it.
ghost use Rattle.std.specs.Prelude.{◌≡◌, []};
ghost use Rattle.plan_words.specs.Words.{plan_of};
ghost use Rattle.replies.specs.Areas.{Leaves, before_unreported, after_unreported, before_unnumbered, after_unnumbered};
ghost use Rattle.changeover_overdue.specs.Expire as Changeover;
ghost use Rattle.changeback_waiting.specs.Wait as Wait;
ghost use Rattle.rerouting.specs.Timer as Rerouting;
ghost use Rattle.rerouting_expiry.specs.Expiry as Expiry;

use changeback_waiting::expire_wait;
use changeover_overdue::expire;
use replies::{Answer, number};
use rerouting::timer::{expire_t6, expire_t10};
use rerouting_expiry::expire_t8;

// T1 or T2 of a link expires.
#[unsafe(no_mangle)]
pub extern "C" fn transfer_point_expire_lent(
    plan: &[u16; 1024],
    links: &mut [u32; 256],
    marks: &[u32; 512],
    spans: &mut [u16; 70],
    rings: &mut [u8; 8960],
    rows: &[u64; 2048],
    link: u8,
    timer: u8,
    reports: &mut [u64],
) -> Answer
    ensures { Leaves (Changeover.expired (plan_of plan) (before_unnumbered links.old marks.now spans.old rings.old rows.now reports.old) link timer) result
        (after_unnumbered links.new marks.now spans.new rings.new rows.now reports.new) }
{
    expire(plan, links, marks, spans, rings, rows, link, timer, reports)
}

// T3 or T4 of a link expires.
#[unsafe(no_mangle)]
pub extern "C" fn transfer_point_expire_wait_lent(
    plan: &[u16; 1024],
    links: &mut [u32; 256],
    link: u8,
    timer: u8,
) -> u8
    ensures value { result ≡ Wait.reply_of (plan_of plan) links.old link timer }
    ensures links_after { links.new ≡ Wait.expired (plan_of plan) links.old link timer }
{
    number(expire_wait(plan, links, link, timer))
}

// T6 of a destination expires.
#[unsafe(no_mangle)]
pub extern "C" fn transfer_point_expire_t6_lent(
    plan: &[u16; 1024],
    links: &[u32; 256],
    marks: &mut [u32; 512],
    spans: &mut [u16; 70],
    rings: &mut [u8; 8960],
    rows: &[u64; 2048],
    x: u16,
    reports: &mut [u64],
) -> Answer
    ensures { Leaves (Rerouting.expired_t6 (plan_of plan) (before_unnumbered links.now marks.old spans.old rings.old rows.now reports.old) x) result
        (after_unnumbered links.now marks.new spans.new rings.new rows.now reports.new) }
{
    expire_t6(plan, links, marks, spans, rings, rows, x, reports)
}

// T8 of a destination expires.
#[unsafe(no_mangle)]
pub extern "C" fn transfer_point_expire_t8_lent(
    plan: &[u16; 1024],
    marks: &mut [u32; 512],
    x: u16,
) -> u8
    ensures value { result ≡ Expiry.reply_of (plan_of plan) marks.old x 5 }
    ensures marks_after { marks.new ≡ Expiry.expired_t8 (plan_of plan) marks.old x }
{
    number(expire_t8(plan, marks, x))
}

// T10 of a route expires.
#[unsafe(no_mangle)]
pub extern "C" fn transfer_point_expire_t10_lent(
    plan: &[u16; 1024],
    links: &[u32; 256],
    marks: &[u32; 512],
    spans: &mut [u16; 70],
    rings: &mut [u8; 8960],
    rows: &mut [u64; 2048],
    arrivals: &mut [u64; 1],
    x: u16,
    set: u8,
) -> Answer
    ensures { Leaves (Rerouting.expired_t10 (plan_of plan) (before_unreported links.now marks.now spans.old rings.old rows.old arrivals.old) x set) result
        (after_unreported links.now marks.now spans.new rings.new rows.new arrivals.new) }
{
    expire_t10(plan, links, marks, spans, rings, rows, arrivals, x, set)
}
