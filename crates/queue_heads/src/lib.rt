// The head of a ring: moved to the end of another, or given up.
#![tactic(auto)]

ghost use Rattle.std.specs.Prelude.{◌≡◌};
ghost use Rattle.queue_heads.specs.Head.{queues_before, queues_after};
ghost use Rattle.queue_heads.specs.Head as Head;

use constants::{FREE_MANAGEMENT, FREE_USER};
use queue_rings::ring::{Taken, at, put, take};

// The head of a ring goes to the end of a ring; an empty one stays as it is.
#[tactic(auto, unfolding(crate::specs::Head::head_of, crate::specs::Head::moved, queue_rings::specs::Move::spans_moved, queue_rings::specs::Move::rings_moved), using(queue_rings::proofs::Queues::taken_none))]
pub fn move_head(spans: &mut [u16; 70], rings: &mut [u8; 8960], from: u8, to: u8) -> Taken
    ensures value { result ≡ Head.head_of (queues_before spans.old rings.old) from }
    ensures rings_value { queues_after spans.new rings.new ≡ Head.moved (queues_before spans.old rings.old) from to }
{
    let head = take(spans, rings, from);
    if head.found {
        put(spans, rings, to, head.slot);
    }
    head
}

// The ring of free slots that a slot goes back to.
pub fn free_ring(slot: u8) -> u8
    ensures { result ≡ Head.free_ring slot }
{
    if slot < 192 {
        FREE_USER
    } else {
        FREE_MANAGEMENT
    }
}

// The head of a ring is given up, and its slot is free.
#[tactic(auto, unfolding(crate::specs::Head::head_of, crate::specs::Head::freed, queue_rings::specs::Ring::take_of))]
pub fn free_head(spans: &mut [u16; 70], rings: &mut [u8; 8960], ring: u8) -> Taken
    ensures value { result ≡ Head.head_of (queues_before spans.old rings.old) ring }
    ensures rings_value { queues_after spans.new rings.new ≡ Head.freed (queues_before spans.old rings.old) ring }
{
    let head = at(spans, rings, ring, 0);
    move_head(spans, rings, ring, free_ring(head.slot))
}
