// How a link goes out of service: its queue cleared as `changeover_cuts` says, and what is reported.
#![tactic(auto)]

ghost use Rattle.plan_words.specs.Words.{plan_of};
ghost use Rattle.std.specs.Prelude.{◌≡◌};
ghost use Rattle.queue_retiring.specs.Leave.{state_before, state_after};
ghost use Rattle.changeover_ending.specs.End as End;

use area_links::{load_link, store_link};
use changeover_cuts::{Cut, out_of};
use queue_moving::move_all;
use queue_retiring::{drop_first, retire};
use route_access::{accesses, report_changes};

// The queue of a link that is out is cleared, those cut off dropped with reason 2; how many reports there are now.
fn clear(
    plan: &[u16; 1024],
    links: &[u32; 256],
    marks: &[u32; 512],
    spans: &mut [u16; 70],
    rings: &mut [u8; 8960],
    rows: &[u64; 2048],
    link: u8,
    parts: Cut,
    reports: &mut [u64],
    told: usize,
) -> usize
    ensures { state_after spans.new rings.new reports.new result ≡
        End.cleared (plan_of plan) links.now marks.now rows.now link parts (state_before spans.old rings.old reports.old told) }
{
    retire(spans, rings, link, parts.retired);
    let dropped = drop_first(spans, rings, rows, link, parts.dropped, 2, reports, told);
    move_all(
        plan, links, marks, spans, rings, rows, link, reports, dropped,
    )
}

// A link goes out: its queue is cleared and the access that changed reported; how many reports there are.
pub fn end_service(
    plan: &[u16; 1024],
    links: &mut [u32; 256],
    marks: &[u32; 512],
    spans: &mut [u16; 70],
    rings: &mut [u8; 8960],
    rows: &[u64; 2048],
    link: u8,
    parts: Cut,
    reports: &mut [u64],
) -> usize
    ensures result_value { state_after spans.new rings.new reports.new result ≡
        End.ended (plan_of plan) links.old marks.now rows.now link parts (state_before spans.old rings.old reports.old 0) }
    ensures links_value { links.new ≡ End.links_out links.old link }
{
    let before = accesses(plan, links, marks);
    let known = load_link(links, link);
    store_link(links, link, out_of(known));
    let told = clear(
        plan, links, marks, spans, rings, rows, link, parts, reports, 0,
    );
    report_changes(plan, links, marks, before, reports, told)
}
