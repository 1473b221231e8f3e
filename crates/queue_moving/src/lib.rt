// To move: each message of a queue goes, in order and with its arrival number, to the link that the rule gives it now.
#![tactic(auto)]

ghost use Rattle.plan_words.specs.Words.{plan_of};
ghost use Rattle.std.specs.Prelude.{◌≡◌};
ghost use Rattle.queue_retiring.specs.Leave.{state_before, state_after};
ghost use Rattle.queue_moving.specs.Move as Move;

use area_slots::load_slot;
use constants::NO_LINK;
use queue_heads::move_head;
use queue_retiring::drop_head;
use queue_rings::ring::{at, count};
use route_ways::{for_management, for_users, way};

// The link that the message in a slot goes to, 32 where it has none.
#[tactic(auto, unfolding(crate::specs::Move::goes_to))]
fn goes_to(
    plan: &[u16; 1024],
    links: &[u32; 256],
    marks: &[u32; 512],
    rows: &[u64; 2048],
    slot: u8,
) -> u8
    ensures { result ≡ Move.goes_to (plan_of plan) links.now marks.now rows.now slot }
{
    let known = load_slot(rows, slot);
    let point = (known.point % 16384) as u16;
    let sls = (known.sls % 16) as u8;
    if slot < 192 {
        way(plan, links, marks, for_users(), point, sls)
    } else {
        way(plan, links, marks, for_management(NO_LINK), point, sls)
    }
}

// The first message of a ring moves, or is dropped with reason 1; how many reports there are now.
#[tactic(auto, unfolding(crate::specs::Move::moved_one, queue_heads::specs::Head::head_of, queue_rings::specs::Ring::take_of))]
pub fn move_one(
    plan: &[u16; 1024],
    links: &[u32; 256],
    marks: &[u32; 512],
    spans: &mut [u16; 70],
    rings: &mut [u8; 8960],
    rows: &[u64; 2048],
    ring: u8,
    reports: &mut [u64],
    told: usize,
) -> usize
    ensures { state_after spans.new rings.new reports.new result ≡
        Move.moved_one (plan_of plan) links.now marks.now rows.now ring (state_before spans.old rings.old reports.old told) }
{
    let head = at(spans, rings, ring, 0);
    if !head.found {
        return told;
    }
    let link = goes_to(plan, links, marks, rows, head.slot);
    if NO_LINK <= link {
        return drop_head(spans, rings, rows, ring, 1, reports, told);
    }
    move_head(spans, rings, ring, link);
    told
}

// All messages of a ring move; how many reports there are now.
#[tactic(auto, unfolding(crate::specs::Move::moved_all))]
pub fn move_all(
    plan: &[u16; 1024],
    links: &[u32; 256],
    marks: &[u32; 512],
    spans: &mut [u16; 70],
    rings: &mut [u8; 8960],
    rows: &[u64; 2048],
    ring: u8,
    reports: &mut [u64],
    told: usize,
) -> usize
    ensures { state_after spans.new rings.new reports.new result ≡
        Move.moved_all (plan_of plan) links.now marks.now rows.now ring (state_before spans.old rings.old reports.old told) }
{
    let mut reported = told;
    for _ in 0..count(spans, ring) {
        reported = move_one(
            plan, links, marks, spans, rings, rows, ring, reports, reported,
        );
    }
    reported
}
