// A management message of the node's own: made and queued where there is a path for it.
#![tactic(auto)]

ghost use Rattle.plan_words.specs.Words.{plan_of};
ghost use Rattle.std.specs.Prelude.{◌≡◌};
ghost use Rattle.queue_joining.specs.Queue.{held_before, held_after};
ghost use Rattle.replies.specs.Reply.{number_of};
ghost use Rattle.management_making.specs.Make as Make;

use constants::NO_LINK;
use queue_joining::queue_management;
use replies::Refusal;
use route_ways::{for_management, way};
use wire_messages::management::Message;

// What it says, where it goes, and the link that it never uses (32 where there is none).
#[derive(Clone, Copy)]
pub struct Draft {
    pub message: Message,
    pub point: u16,
    pub slc: u8,
    pub never: u8,
}

// Whether it was made: it isn't where it has no path, and it is refused where it finds no place or number.
#[tactic(auto, unfolding(crate::specs::Make::path_of, crate::specs::Make::reply_of, crate::specs::Make::is_made, crate::specs::Make::made, replies::specs::Reply::refusal_of))]
pub fn make(
    plan: &[u16; 1024],
    links: &[u32; 256],
    marks: &[u32; 512],
    spans: &mut [u16; 70],
    rings: &mut [u8; 8960],
    rows: &mut [u64; 2048],
    arrivals: &mut [u64; 1],
    draft: Draft,
) -> Result<bool, Refusal>
    ensures value { result ≡ Make.outcome (plan_of plan) links.now marks.now spans.old arrivals.old draft }
    ensures number { number_of result ≡ Make.reply_of (plan_of plan) links.now marks.now spans.old arrivals.old draft }
    ensures arrivals_value { held_after spans.new rings.new rows.new arrivals.new ≡
        Make.made (plan_of plan) links.now marks.now draft (held_before spans.old rings.old rows.old arrivals.old) }
{
    let need = for_management(draft.never);
    let path = way(plan, links, marks, need, draft.point, draft.slc);
    if NO_LINK <= path {
        return Ok(false);
    }
    let message = draft.message;
    queue_management(
        spans,
        rings,
        rows,
        arrivals,
        path,
        message,
        draft.point,
        draft.slc,
    )?;
    Ok(true)
}
