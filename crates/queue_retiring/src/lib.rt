// Messages that leave a queue for good: retired, or dropped with a report.
#![tactic(auto)]

ghost use Rattle.std.specs.Prelude.{◌≡◌};
ghost use Rattle.queue_heads.specs.Head.{queues_before, queues_after};
ghost use Rattle.queue_retiring.specs.Leave.{state_before, state_after};
ghost use Rattle.queue_retiring.specs.Leave as Leave;

use area_slots::load_slot;
use queue_heads::free_head;
use reports::report;

// The first messages of a ring are retired.
#[tactic(auto, unfolding(crate::specs::Leave::retired))]
pub fn retire(spans: &mut [u16; 70], rings: &mut [u8; 8960], ring: u8, many: u8)
    ensures { queues_after spans.new rings.new ≡ Leave.retired ring many (queues_before spans.old rings.old) }
{
    for _ in 0..many {
        free_head(spans, rings, ring);
    }
}

// The first message of a ring is dropped and reported; how many reports there are now.
#[tactic(auto, unfolding(crate::specs::Leave::dropped_one), using(crate::proofs::Drops::freed_none))]
pub fn drop_head(
    spans: &mut [u16; 70],
    rings: &mut [u8; 8960],
    rows: &[u64; 2048],
    ring: u8,
    reason: u64,
    reports: &mut [u64],
    count: usize,
) -> usize
    ensures { state_after spans.new rings.new reports.new result ≡ Leave.dropped_one rows.now ring reason (state_before spans.old rings.old reports.old count) }
{
    let head = free_head(spans, rings, ring);
    if !head.found {
        return count;
    }
    let known = load_slot(rows, head.slot);
    report(reports, count, reason, known.arrival)
}

// The first messages of a ring are dropped and reported; how many reports there are now.
#[tactic(auto, unfolding(crate::specs::Leave::dropped))]
pub fn drop_first(
    spans: &mut [u16; 70],
    rings: &mut [u8; 8960],
    rows: &[u64; 2048],
    ring: u8,
    many: u8,
    reason: u64,
    reports: &mut [u64],
    count: usize,
) -> usize
    ensures { state_after spans.new rings.new reports.new result ≡ Leave.dropped rows.now ring reason many (state_before spans.old rings.old reports.old count) }
{
    let mut told = count;
    for _dropped in 0..many {
        told = drop_head(spans, rings, rows, ring, reason, reports, told);
    }
    told
}
