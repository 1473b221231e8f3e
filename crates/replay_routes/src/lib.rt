// The lines of a route list: each behind the number of its call.
#![tactic(auto)]

ghost use Rattle.std.specs.Prelude.{◌≡◌, [], ◌∷◌};
ghost use Rattle.text_decimals.specs.Decimal.{decimal_of};
ghost use Rattle.text.specs.Part.{split, lf};
ghost use Rattle.text_pages.specs.Page.{page, puts, ended};
ghost use Rattle.replay_routes.specs.Routed.{routed, route_word};

use text::part::{between, line};
use text::put::put;
use text_pages::put_number;

// Each line of a list behind the number of the call.
pub fn put_routes(out: &mut [u8], at: usize, number: u64, list: &[u8]) -> usize
    ensures { page out.new result ≡ puts (page out.old at) (routed number (split lf list.now)) }
{
    let mut at = at;
    let mut from = 0;
    loop {
        let part = line(list, from);
        if !part.closed {
            return at;
        }
        at = put_route(out, at, number, between(list, from, part.end));
        from = part.next;
    }
}

#[tactic(auto, unfolding(text_pages::specs::Page::puts))]
fn put_route(out: &mut [u8], at: usize, number: u64, route: &[u8]) -> usize
    ensures { page out.new result ≡ puts (page out.old at) (decimal_of number ∷ route_word ∷ route.now ∷ ended ∷ []) }
{
    let at = put_number(out, at, number, b"\troute\t");
    let at = put(out, at, route);
    put(out, at, b"\n")
}
