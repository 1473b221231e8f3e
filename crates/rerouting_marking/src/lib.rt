// What a TFP or TFA does to a route's mark: whether it counts, whether it diverts, and the flags after it.
#![tactic(auto)]

ghost use Rattle.plan_words.specs.Words.{plan_of};
ghost use Rattle.std.specs.Prelude.{◌≡◌};
ghost use Rattle.rerouting_marking.specs.Mark as Mark;

use area_flags::{flag, set_flag};
use constants::T6;
use lookup::{rank_by, set_to};
use plan_words::find::{find, place_of};
use plan_words::read::code;
use route_access::accessible;
use route_current::current_set;

// The rank of the route to X by the set of the point, 4 where there is none.
#[tactic(auto, unfolding(crate::specs::Mark::rank_for))]
fn rank_for(plan: &[u16; 1024], point: u16, x: u16) -> usize
    ensures { result ≡ Mark.rank_for (plan_of plan) point x }
{
    let set = set_to(plan, point);
    if 8 <= set {
        return 4;
    }
    match find(plan, x) {
        Ok(place) => rank_by(plan, place, set),
        Err(_) => 4,
    }
}

// Whether a TFP or TFA counts.
#[tactic(auto, unfolding(crate::specs::Mark::counts))]
pub fn counts(plan: &[u16; 1024], marks: &[u32; 512], point: u16, x: u16, prohibits: bool) -> bool
    ensures { result ≡ Mark.counts (plan_of plan) marks.now point x prohibits }
{
    if x == point {
        return false;
    }
    if x == code(plan) {
        return false;
    }
    let rank = rank_for(plan, point, x);
    if 4 <= rank {
        return false;
    }
    let stands = flag(marks, place_of(plan, x), rank);
    if prohibits { !stands } else { stands }
}

// Whether a TFA has X use another set than the one it used before.
#[tactic(auto, unfolding(crate::specs::Mark::diverts))]
fn diverts(
    plan: &[u16; 1024],
    links: &[u32; 256],
    before: &[u32; 512],
    after: &[u32; 512],
    x: u16,
    prohibits: bool,
) -> bool
    ensures { result ≡ Mark.diverts (plan_of plan) links.now before.now after.now x prohibits }
{
    if prohibits {
        return false;
    }
    let place = place_of(plan, x);
    if !accessible(plan, links, before, place) {
        return false;
    }
    current_set(plan, links, before, place) != current_set(plan, links, after, place)
}

// The mark is set or cleared, and T6 started.
#[tactic(auto, unfolding(crate::specs::Mark::marks_after, crate::specs::Mark::marked))]
pub fn mark(
    plan: &[u16; 1024],
    links: &[u32; 256],
    marks: &mut [u32; 512],
    point: u16,
    x: u16,
    prohibits: bool,
)
    ensures { marks.new ≡ Mark.marks_after (plan_of plan) links.now marks.old point x prohibits }
{
    let before = *marks;
    let place = place_of(plan, x);
    let rank = rank_for(plan, point, x);
    set_flag(marks, place, rank, prohibits);
    if diverts(plan, links, &before, marks, x, prohibits) {
        set_flag(marks, place, T6, true);
    }
}
