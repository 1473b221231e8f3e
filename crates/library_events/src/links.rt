// A link comes into service or fails, as C calls it.
ghost use Rattle.plan_words.specs.Words.{plan_of};
ghost use Rattle.replies.specs.Areas.{Leaves, before, after};
ghost use Rattle.changeback.specs.Service as Service;
ghost use Rattle.changeover.specs.Fail as Fail;

use changeback::into_service;
use changeover::fail;
use replies::Answer;

// A link comes into service.
#[unsafe(no_mangle)]
pub extern "C" fn transfer_point_into_service_lent(
    plan: &[u16; 1024],
    links: &mut [u32; 256],
    marks: &[u32; 512],
    spans: &mut [u16; 70],
    rings: &mut [u8; 8960],
    rows: &mut [u64; 2048],
    arrivals: &mut [u64; 1],
    link: u8,
    reports: &mut [u64],
) -> Answer
    ensures { Leaves (Service.into_service (plan_of plan) (before links.old marks.now spans.old rings.old rows.old arrivals.old reports.old) link) result
        (after links.new marks.now spans.new rings.new rows.new arrivals.new reports.new) }
{
    into_service(
        plan, links, marks, spans, rings, rows, arrivals, link, reports,
    )
}

// A link fails.
#[unsafe(no_mangle)]
pub extern "C" fn transfer_point_fail_lent(
    plan: &[u16; 1024],
    links: &mut [u32; 256],
    marks: &[u32; 512],
    spans: &mut [u16; 70],
    rings: &mut [u8; 8960],
    rows: &mut [u64; 2048],
    arrivals: &mut [u64; 1],
    link: u8,
    reports: &mut [u64],
) -> Answer
    ensures { Leaves (Fail.failed (plan_of plan) (before links.old marks.now spans.old rings.old rows.old arrivals.old reports.old) link) result
        (after links.new marks.now spans.new rings.new rows.new arrivals.new reports.new) }
{
    fail(
        plan, links, marks, spans, rings, rows, arrivals, link, reports,
    )
}
