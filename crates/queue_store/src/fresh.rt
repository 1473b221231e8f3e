// The store before its first message: every slot is free.
ghost use Rattle.std.specs.Prelude.{◌≡◌};
ghost use Rattle.queue_store.specs.Fresh as Fresh;

use area_spans::{Span, store_span};
use constants::{FREE_MANAGEMENT, FREE_USER};

// Every ring is empty.
fn empty(spans: &mut [u16; 70])
    ensures { spans.new ≡ Fresh.emptied spans.old 70 }
{
    spans.fill(0);
}

// The places of a ring from its first on hold the slots from `first` on.
#[tactic(auto, unfolding(crate::specs::Fresh::ring_filled))]
fn list(rings: &mut [u8; 8960], ring: u8, first: u8, size: u8)
    ensures { rings.new ≡ Fresh.ring_filled rings.old ring first size }
{
    if 35 <= ring {
        return;
    }
    let from = 256 * (ring as usize);
    for place in 0..size {
        rings[from + place as usize] = std::num::wrapping_add_u8(first, place);
    }
}

// Every slot is free: 0 to 191 in ring 33, 192 to 255 in ring 34.
#[tactic(auto, unfolding(crate::specs::Fresh::fresh_spans, crate::specs::Fresh::fresh_rings))]
pub fn fresh(spans: &mut [u16; 70], rings: &mut [u8; 8960])
    ensures spans_after { spans.new ≡ Fresh.fresh_spans spans.old }
    ensures rings_after { rings.new ≡ Fresh.fresh_rings rings.old }
{
    empty(spans);
    store_span(
        spans,
        FREE_USER,
        Span {
            head: 0,
            count: 192,
        },
    );
    store_span(spans, FREE_MANAGEMENT, Span { head: 0, count: 64 });
    list(rings, FREE_USER, 0, 192);
    list(rings, FREE_MANAGEMENT, 192, 64);
}
