// Changeback: a link comes into service, with a CBD where its own set has carried its traffic.
#![tactic(auto)]

ghost use Rattle.plan_words.specs.Words.{plan_of};
ghost use Rattle.std.specs.Prelude.{◌≡◌};
ghost use Rattle.replies.specs.Areas.{Leaves, before, after};
ghost use Rattle.queue_joining.specs.Queue.{held_before, held_after};
ghost use Rattle.replies.specs.Reply.{number_of};
ghost use Rattle.changeback.specs.Service as Service;

use area_links::store_link;
use changeback_pairs::Sources;
use changeback_service::{comes_as, service_reply, sources_in};
use constants::NO_LINK;
use lookup::{adjacent_of, slc_of};
use queue_joining::queue_management;
use replies::{Answer, Refusal, done, refused};
use route_access::{accesses, report_changes};
use wire_messages::management::Message;

// The CBD, where one is to be sent; refused where it finds no place or number.
fn declare(
    plan: &[u16; 1024],
    spans: &mut [u16; 70],
    rings: &mut [u8; 8960],
    rows: &mut [u64; 2048],
    arrivals: &mut [u64; 1],
    link: u8,
    from: Sources,
) -> Result<(), Refusal>
    ensures value { number_of result ≡ Service.declare_reply spans.old arrivals.old from }
    ensures arrivals_value { held_after spans.new rings.new rows.new arrivals.new ≡
        Service.declared (plan_of plan) link from (held_before spans.old rings.old rows.old arrivals.old) }
{
    let own = from.own;
    if NO_LINK <= own {
        return Ok(());
    }
    queue_management(
        spans,
        rings,
        rows,
        arrivals,
        own,
        Message::CBD(own),
        adjacent_of(plan, link),
        slc_of(plan, link),
    )
}

// The link comes into service.
pub fn into_service(
    plan: &[u16; 1024],
    links: &mut [u32; 256],
    marks: &[u32; 512],
    spans: &mut [u16; 70],
    rings: &mut [u8; 8960],
    rows: &mut [u64; 2048],
    arrivals: &mut [u64; 1],
    link: u8,
    reports: &mut [u64],
) -> Answer
    ensures { Leaves (Service.into_service (plan_of plan) (before links.old marks.now spans.old rings.old rows.old arrivals.old reports.old) link) result
        (after links.new marks.now spans.new rings.new rows.new arrivals.new reports.new) }
{
    if let Err(refusal) = service_reply(plan, links, link, reports) {
        return refused(refusal);
    }
    let from = sources_in(plan, links, marks, link);
    if let Err(refusal) = declare(plan, spans, rings, rows, arrivals, link, from) {
        return refused(refusal);
    }
    let before = accesses(plan, links, marks);
    store_link(links, link, comes_as(from));
    done(report_changes(plan, links, marks, before, reports, 0))
}
