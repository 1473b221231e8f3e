// A ring: a queue of slots, of which `spans` has the head and the count and `rings` the 256 places.
ghost use Rattle.std.specs.Prelude.{◌≡◌};
ghost use Rattle.queue_rings.specs.Ring as Ring;

use area_spans::{Span, load_span, store_span};

// A slot of a ring, or that there is none.
#[derive(Clone, Copy)]
pub struct Taken {
    pub found: bool,
    pub slot: u8,
}

// How many slots a ring holds.
#[tactic(auto, unfolding(crate::specs::Ring::count_of))]
pub fn count(spans: &[u16; 70], ring: u8) -> u16
    ensures { result ≡ Ring.count_of spans.now ring }
{
    let held = load_span(spans, ring);
    held.count
}

// Where a ring's entry stands, counted from the head: past the last place the first follows.
fn cell(ring: u8, head: u16, place: u16) -> usize
    ensures { result ≡ Ring.cell ring head place }
{
    256 * (ring as usize) + (head as usize + place as usize) % 256
}

// The slot at a place of a ring, counted from the head.
#[tactic(auto, unfolding(crate::specs::Ring::at_of, crate::specs::Ring::entry, crate::specs::Ring::count_of))]
pub fn at(spans: &[u16; 70], rings: &[u8; 8960], ring: u8, place: u16) -> Taken
    ensures { result ≡ Ring.at_of spans.now rings.now ring place }
{
    if 35 <= ring {
        return Taken {
            found: false,
            slot: 0,
        };
    }
    let span = load_span(spans, ring);
    if span.count <= place {
        return Taken {
            found: false,
            slot: 0,
        };
    }
    let from = cell(ring, span.head, place);
    Taken {
        found: true,
        slot: rings[from],
    }
}

// The head of a ring leaves it.
#[tactic(auto, unfolding(crate::specs::Ring::take_of, crate::specs::Ring::at_of, crate::specs::Ring::spans_taken, crate::specs::Ring::entry, crate::specs::Ring::count_of))]
pub fn take(spans: &mut [u16; 70], rings: &[u8; 8960], ring: u8) -> Taken
    ensures value { result ≡ Ring.take_of spans.old rings.now ring }
    ensures spans_after { spans.new ≡ Ring.spans_taken spans.old ring }
{
    if 35 <= ring {
        return Taken {
            found: false,
            slot: 0,
        };
    }
    let span = load_span(spans, ring);
    if span.count == 0 {
        return Taken {
            found: false,
            slot: 0,
        };
    }
    let from = cell(ring, span.head, 0);
    let slot = rings[from];
    let head = (span.head % 256 + 1) % 256;
    store_span(
        spans,
        ring,
        Span {
            head,
            count: span.count - 1,
        },
    );
    Taken { found: true, slot }
}

// A slot goes to the end of a ring; a full ring has no room, and stays as it is.
#[tactic(auto, unfolding(crate::specs::Ring::spans_put, crate::specs::Ring::rings_put, crate::specs::Ring::room_in, crate::specs::Ring::count_of))]
pub fn put(spans: &mut [u16; 70], rings: &mut [u8; 8960], ring: u8, slot: u8) -> bool
    ensures value { result ≡ Ring.room_in spans.old ring }
    ensures spans_after { spans.new ≡ Ring.spans_put spans.old ring }
    ensures rings_after { rings.new ≡ Ring.rings_put spans.old rings.old ring slot }
{
    if 35 <= ring {
        return false;
    }
    let span = load_span(spans, ring);
    if 256 <= span.count {
        return false;
    }
    let to = cell(ring, span.head, span.count);
    rings[to] = slot;
    store_span(
        spans,
        ring,
        Span {
            head: span.head,
            count: span.count + 1,
        },
    );
    true
}
