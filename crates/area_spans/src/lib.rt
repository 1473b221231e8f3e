// A ring's row: two words for each of 35 rings.
#![tactic(auto)]

ghost use Rattle.std.specs.Prelude.{◌≡◌};
ghost use Rattle.area_spans.specs.SpanRows.{span_at, with_span};

// Where a ring begins, and how many slots it holds.
#[derive(Clone, Copy)]
pub struct Span {
    pub head: u16,
    pub count: u16,
}

pub fn load_span(spans: &[u16; 70], ring: u8) -> Span
    ensures { result ≡ span_at spans.now ring }
{
    if 35 <= ring {
        return Span { head: 0, count: 0 };
    }
    let at = 2 * (ring as usize);
    Span {
        head: spans[at],
        count: spans[at + 1],
    }
}

pub fn store_span(spans: &mut [u16; 70], ring: u8, span: Span)
    ensures { spans.new ≡ with_span spans.old ring span }
{
    if 35 <= ring {
        return;
    }
    let at = 2 * (ring as usize);
    spans[at] = span.head;
    spans[at + 1] = span.count;
}
