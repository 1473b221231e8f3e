// To release: the messages held apart for a point move when its T6 ends, and the others keep their order.
#![tactic(auto)]

ghost use Rattle.plan_words.specs.Words.{plan_of};
ghost use Rattle.std.specs.Prelude.{◌≡◌};
ghost use Rattle.queue_retiring.specs.Leave.{state_before, state_after};
ghost use Rattle.rerouting_releasing.specs.Release as Release;

use area_slots::load_slot;
use constants::HELD_APART;
use queue_heads::move_head;
use queue_moving::move_one;
use queue_rings::ring::{at, count};

// The first message held apart moves if it is for the point, and else goes to the end of those held apart.
#[tactic(auto, unfolding(crate::specs::Release::released_one, queue_heads::specs::Head::head_of, queue_rings::specs::Ring::take_of))]
fn release_one(
    plan: &[u16; 1024],
    links: &[u32; 256],
    marks: &[u32; 512],
    spans: &mut [u16; 70],
    rings: &mut [u8; 8960],
    rows: &[u64; 2048],
    point: u16,
    reports: &mut [u64],
    told: usize,
) -> usize
    ensures { state_after spans.new rings.new reports.new result ≡
        Release.released_one (plan_of plan) links.now marks.now rows.now point (state_before spans.old rings.old reports.old told) }
{
    let head = at(spans, rings, HELD_APART, 0);
    let known = load_slot(rows, head.slot);
    if known.point % 16384 == point as u64 {
        return move_one(
            plan, links, marks, spans, rings, rows, HELD_APART, reports, told,
        );
    }
    move_head(spans, rings, HELD_APART, HELD_APART);
    told
}

// The messages held apart for a point move, and the others keep their order; how many reports there are now.
#[tactic(auto, unfolding(crate::specs::Release::released))]
pub fn release(
    plan: &[u16; 1024],
    links: &[u32; 256],
    marks: &[u32; 512],
    spans: &mut [u16; 70],
    rings: &mut [u8; 8960],
    rows: &[u64; 2048],
    point: u16,
    reports: &mut [u64],
    told: usize,
) -> usize
    ensures { state_after spans.new rings.new reports.new result ≡
        Release.released (plan_of plan) links.now marks.now rows.now point (state_before spans.old rings.old reports.old told) }
{
    let mut reported = told;
    for _ in 0..count(spans, HELD_APART) {
        reported = release_one(
            plan, links, marks, spans, rings, rows, point, reports, reported,
        );
    }
    reported
}
