// The set that a destination uses.
#![tactic(auto)]

ghost use Rattle.plan_words.specs.Words.{plan_of};
ghost use Rattle.std.specs.Prelude.{◌≡◌};
ghost use Rattle.route_current.specs.Current.{current_set};

use lookup::set_of;
use route_ways::current;

// The set of a destination's current link, 8 where there is none.
#[tactic(auto, unfolding(crate::specs::Current::current_set))]
pub fn current_set(
    plan: &[u16; 1024],
    links: &[u32; 256],
    marks: &[u32; 512],
    destination: usize,
) -> u8
    ensures { result ≡ current_set (plan_of plan) links.now marks.now destination }
{
    set_of(plan, current(plan, links, marks, destination, 0))
}
