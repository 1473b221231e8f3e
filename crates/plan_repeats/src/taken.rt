// Whether something is taken already.
ghost use Rattle.std.specs.Prelude.{◌≡◌, take};
ghost use Rattle.plan.specs.Data.{link_at, links_of};
ghost use Rattle.plan_repeats.specs.Taken as Taken;

use constants::LINKS;
use plan::data::{LinkSet, Plan, Route};

// Whether one of the sets has the adjacent code.
pub fn adjacent_taken(sets: [LinkSet; 8], adjacent: u16) -> bool
    ensures { result ≡ Taken.adjacent_taken sets adjacent }
{
    sets.iter()
        .any(|those| those.given && those.adjacent == adjacent)
}

// Whether one of the routes goes by the set.
pub fn set_taken(routes: [Route; 4], set: u8) -> bool
    ensures { result ≡ Taken.set_taken routes set }
{
    routes.iter().any(|route| route.given && route.set == set)
}

// The place of a new SLC among those of a set, behind the lower ones; none where one of its links has it.
pub fn place_among(plan: Plan, set: usize, slc: u8) -> Option<usize>
    ensures { result ≡ Taken.place_among plan (links_of plan set) slc }
{
    among(plan, set, slc).ok()
}

// How many links of a set have a lower SLC than a new one, whose place that is; `Err` where one of its links has it.
pub fn among(plan: Plan, set: usize, slc: u8) -> Result<usize, usize>
    ensures { result ≡ Taken.among plan (links_of plan set) slc }
{
    if 8 <= set {
        return Ok(0);
    }
    let those = plan.sets[set];
    let links = those.links;
    beside_each(plan, links, those.count, slc)
}

// How many of the first `count` of eight links have a lower SLC, and whether one has it.
fn beside_each(plan: Plan, links: [u8; 8], count: u8, slc: u8) -> Result<usize, usize>
    ensures { result ≡ Taken.among plan (take count links) slc }
{
    let m = (count as usize).min(8);
    let mut lower = 0;
    let mut taken = false;
    for i in 0..m {
        let of = slc_of(plan, links[i]);
        if of < slc {
            lower += 1;
        }
        taken = taken || of == slc;
    }
    if taken { Err(lower) } else { Ok(lower) }
}

// The SLC of a link, 0 past the table's end.
fn slc_of(plan: Plan, link: u8) -> u8
    ensures { result ≡ (link_at plan link).slc }
{
    if link < LINKS {
        let l = plan.links[link as usize];
        l.slc
    } else {
        0
    }
}
