// Which of a set's links serve, as a pattern: a bit for each of eight places, the first place's the last.
#![tactic(auto)]

ghost use Rattle.std.specs.Prelude.{◌≡◌, length, take};
ghost use Rattle.plan.specs.Data.{set_at, links_of};
ghost use Rattle.plan_words.specs.Words.{plan_of};
ghost use Rattle.route_serving.specs.State as State;
ghost use Rattle.route_round.specs.Table as Table;

use plan_words::read::{set_count, set_link};
use route_serving::{Need, serves};

// How many links a set has.
pub fn places_of(plan: &[u16; 1024], set: u8) -> u8
    ensures { result ≡ length (links_of (plan_of plan) set) }
{
    let count = set_count(plan, set);
    if count < 8 { count } else { 8 }
}

// The pattern of the first m of eight links. A set of four has no more to look at.
pub fn pattern_of(links: &[u32; 256], need: Need, m: u8, plan: &[u16; 1024], set: u8) -> u8
    ensures { result ≡ Table.pattern_of (State.serves links.now need) (take m (set_at (plan_of plan) set).links) }
{
    let first = bit_at(links, need, m, plan, set, 0)
        + 2 * bit_at(links, need, m, plan, set, 1)
        + 4 * bit_at(links, need, m, plan, set, 2)
        + 8 * bit_at(links, need, m, plan, set, 3);
    if m <= 4 {
        return first;
    }
    first
        + 16 * bit_at(links, need, m, plan, set, 4)
        + 32 * bit_at(links, need, m, plan, set, 5)
        + 64 * bit_at(links, need, m, plan, set, 6)
        + 128 * bit_at(links, need, m, plan, set, 7)
}

// The bit of a place: 1 if its link serves, 0 if it doesn't or there is none.
fn bit_at(links: &[u32; 256], need: Need, m: u8, plan: &[u16; 1024], set: u8, place: u8) -> u8
    ensures { result ≡ Table.bit_at (State.serves links.now need) (take m (set_at (plan_of plan) set).links) place }
{
    if 8 <= set {
        return 0;
    }
    if 8 <= place {
        return 0;
    }
    if m <= place {
        return 0;
    }
    if serves(links, need, set_link(plan, set, place)) {
        1
    } else {
        0
    }
}
