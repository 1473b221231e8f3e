// The way of a message to a point: the link that the rule gives it.
#![tactic(auto)]

ghost use Rattle.plan_words.specs.Words.{plan_of};
ghost use Rattle.std.specs.Prelude.{◌≡◌};
ghost use Rattle.route_ways.specs.Way as Way;

use constants::NO_LINK;
use plan_words::find::find;
use route_choice::choose;
use route_serving::Need;

// What user messages need: a carrying link.
pub fn for_users() -> Need
    ensures { result ≡ Way.for_users }
{
    Need {
        open: false,
        never: NO_LINK,
    }
}

// What the node's own messages need: an open link, and never the one given.
pub fn for_management(never: u8) -> Need
    ensures { result ≡ Way.for_management never }
{
    Need { open: true, never }
}

// The link to a point, 32 where there is none, and the place of that point among the destinations.
#[derive(Clone, Copy)]
pub struct Direction {
    pub link: u8,
    pub place: usize,
}

// Both for an SLS, by one search.
#[tactic(auto, using(crate::proofs::Ways::no_way, crate::proofs::Ways::way_there))]
pub fn directed(
    plan: &[u16; 1024],
    links: &[u32; 256],
    marks: &[u32; 512],
    need: Need,
    point: u16,
    sls: u8,
) -> Direction
    ensures { result ≡ Way.direction_of (plan_of plan) links.now marks.now need point sls }
{
    match find(plan, point) {
        Ok(place) => {
            let link = choose(plan, links, marks, need, place, sls);
            Direction { link, place }
        }
        Err(place) => Direction {
            link: NO_LINK,
            place,
        },
    }
}

// The link to a point for an SLS, 32 where there is none.
pub fn way(
    plan: &[u16; 1024],
    links: &[u32; 256],
    marks: &[u32; 512],
    need: Need,
    point: u16,
    sls: u8,
) -> u8
    ensures { result ≡ Way.way_of (plan_of plan) links.now marks.now need point sls }
{
    directed(plan, links, marks, need, point, sls).link
}

// The link of a destination for an SLS, as user messages need it, 32 where there is none.
#[tactic(auto, using(crate::proofs::Ways::link_there))]
pub fn current(
    plan: &[u16; 1024],
    links: &[u32; 256],
    marks: &[u32; 512],
    destination: usize,
    sls: u8,
) -> u8
    ensures { result ≡ Way.current_link (plan_of plan) links.now marks.now destination sls }
{
    choose(plan, links, marks, for_users(), destination, sls)
}
