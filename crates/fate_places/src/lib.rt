// Where a message is after a call, by its arrival number.
#![tactic(auto)]

ghost use Rattle.std.specs.Prelude.{◌≡◌, ◌&&◌, eqb, ltb};
ghost use Rattle.fate_places.specs.Places as Places;
ghost use Rattle.fate_places.specs.Places.{held_of};

use area_slots::{Slot, load_slot};
use queue_rings::ring::{at, count};

// The queues of a node, and what is known of the messages in them.
#[derive(Clone, Copy)]
pub struct Held<'a> {
    pub spans: &'a [u16; 70],
    pub rings: &'a [u8; 8960],
    pub rows: &'a [u64; 2048],
}

// How many places of a queue there are.
#[tactic(auto, unfolding(crate::specs::Places::places))]
pub fn places(held: Held, queue: u8) -> u16
    ensures { result ≡ Places.places (held_of held.entry) queue }
{
    count(held.spans, queue).min(256)
}

// The message at a place of a queue.
pub fn message_at(held: Held, queue: u8, place: u16) -> Slot
    ensures { result ≡ Places.message_at (held_of held.entry) queue place }
{
    let taken = at(held.spans, held.rings, queue, place);
    load_slot(held.rows, taken.slot)
}

// Whether a message stands in a queue.
fn stands(held: Held, queue: u8, arrival: u64) -> bool
    ensures { result ≡ Places.stands (held_of held.entry) queue arrival }
{
    let many = places(held, queue);
    for place in 0..many {
        let known = message_at(held, queue, place);
        if known.arrival == arrival {
            return true;
        }
    }
    false
}

// The same, where a place is known at which it may well stand.
fn stands_near(held: Held, queue: u8, place: u16, arrival: u64) -> bool
    ensures { result ≡ Places.stands (held_of held.entry) queue arrival }
{
    let many = places(held, queue);
    if place < many {
        let known = message_at(held, queue, place);
        if known.arrival == arrival {
            return true;
        }
    }
    stands(held, queue, arrival)
}

// The queue that a message stands in, 33 for none.
fn queue_of(held: Held, arrival: u64) -> u8
    ensures { result ≡ Places.queue_with (held_of held.entry) arrival }
{
    for queue in 0..33 {
        if stands(held, queue, arrival) {
            return queue;
        }
    }
    33
}

// Whether a message is reported dropped.
fn dropped(reports: &[u64], count: usize, arrival: u64) -> bool
    ensures { result ≡ Places.dropped reports.now count arrival }
{
    let count = count.min(reports.len() / 2);
    for k in 0..count {
        if tells_drop(reports[2 * k], reports[2 * k + 1], arrival) {
            return true;
        }
    }
    false
}

// Whether a record is a drop of that message.
fn tells_drop(kind: u64, about: u64, arrival: u64) -> bool
    ensures { result ≡ (ltb kind 4 && eqb about arrival) }
{
    kind < 4 && about == arrival
}

// Where a message is that stood in a queue, at a place: 34 where it stays in it, another queue, 35 where it is reported dropped, else 33.
#[tactic(auto, unfolding(crate::specs::Places::whither))]
pub fn whither(held: Held, reports: &[u64], count: usize, queue: u8, place: u16, arrival: u64) -> u8
    ensures { result ≡
        Places.whither (held_of held.entry) reports.now count queue arrival }
{
    if stands_near(held, queue, place, arrival) {
        return 34;
    }
    let other = queue_of(held, arrival);
    if other < 33 {
        return other;
    }
    if dropped(reports, count, arrival) {
        return 35;
    }
    33
}
