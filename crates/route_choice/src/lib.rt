// Which link a message takes: over the ranks, best first, and round the set of each route.
#![tactic(auto)]

ghost use Rattle.std.specs.Prelude.{◌≡◌};
ghost use Rattle.plan.specs.Data.{links_of};
ghost use Rattle.plan_words.specs.Words.{plan_of};
ghost use Rattle.route_serving.specs.State as State;
ghost use Rattle.route_choice.specs.Which as Which;

use constants::NO_LINK;
use plan::data::Route;
use plan_words::read::{destination_routes, set_link};
use route_pattern::{pattern_of, places_of};
use route_round::table::place_for;
use route_serving::{Need, marked, serves};

// The set of a route, 8 where there is no route or it is marked prohibited.
fn set_for(route: Route, prohibited: bool) -> u8
    ensures { result ≡ Which.set_for route prohibited }
{
    if !route.given {
        return 8;
    }
    if prohibited {
        return 8;
    }
    if 8 <= route.set {
        return 8;
    }
    route.set
}

// The link of a set for an SLS, 32 where none serves: its normal link, and the table's where that one doesn't serve.
fn link_for(plan: &[u16; 1024], links: &[u32; 256], need: Need, set: u8, sls: u8) -> u8
    ensures { result ≡ Which.link_of_set (State.serves links.now need) (links_of (plan_of plan) set) sls }
{
    if 8 <= set {
        return NO_LINK;
    }
    let m = places_of(plan, set);
    if m == 0 {
        return NO_LINK;
    }
    let start = sls % m;
    let normal = set_link(plan, set, start);
    if serves(links, need, normal) {
        return normal;
    }
    let place = place_for(pattern_of(links, need, m, plan, set), start);
    if m <= place {
        return NO_LINK;
    }
    set_link(plan, set, place)
}

// The link that a message for a destination with an SLS takes, 32 where there is none.
pub fn choose(
    plan: &[u16; 1024],
    links: &[u32; 256],
    marks: &[u32; 512],
    need: Need,
    destination: usize,
    sls: u8,
) -> u8
    ensures { result ≡
        Which.chosen (State.serves links.now need) (State.is_marked marks.now destination) (plan_of plan) destination sls }
{
    if 64 <= destination {
        return NO_LINK;
    }
    let routes = destination_routes(plan, destination);
    choose_by(plan, routes, links, marks, need, destination, sls)
}

// The same by the destination's routes.
pub fn choose_by(
    plan: &[u16; 1024],
    routes: [Route; 4],
    links: &[u32; 256],
    marks: &[u32; 512],
    need: Need,
    destination: usize,
    sls: u8,
) -> u8
    ensures { result ≡
        Which.link_from (State.serves links.now need) (State.is_marked marks.now destination) (plan_of plan) sls 0 routes }
{
    let mut rank = 0;
    let found = 'ranks: loop {
        if 4 <= rank {
            break 'ranks NO_LINK;
        }
        let route = routes[rank];
        let prohibited = marked(marks, destination, rank);
        rank += 1;
        let link = link_for(plan, links, need, set_for(route, prohibited), sls);
        if link < NO_LINK {
            break 'ranks link;
        }
    };
    found
}
