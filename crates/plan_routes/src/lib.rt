// A route line put into the plan: to a destination that is given, or to a new one.
#![tactic(auto)]

ghost use Rattle.std.specs.Prelude.{◌≡◌, ◌<◌};
ghost use Rattle.plan_routes.specs.RouteLines as RouteLines;

use plan::data::{Destination, NO_ROUTE, Plan, Route};
use plan::find::find;
use plan_building::Fault;
use plan_entries::insert::inserted;
use plan_repeats::taken::set_taken;

pub fn add_route(plan: Plan, destination: u64, set: u64, rank: u64) -> Result<Plan, Fault>
    ensures { result ≡ RouteLines.add_route plan destination set rank }
{
    if 16383 < destination || 7 < set || 3 < rank {
        return Err(Fault::OutOfRange);
    }
    let s = set as usize;
    let code = destination as u16;
    let those = plan.sets[s];
    if !those.given {
        return Err(Fault::NotGiven);
    }
    if code == plan.code {
        return Err(Fault::Repeat);
    }
    match find(plan, code) {
        Ok(place) => known_route(plan, place, code, set as u8, rank as usize),
        Err(_) if 64 <= plan.count => Err(Fault::Full),
        Err(place) => new_route(plan, place, code, set as u8, rank as usize),
    }
}

// One more route of the destination that stands at a place.
fn known_route(plan: Plan, place: usize, code: u16, set: u8, rank: usize) -> Result<Plan, Fault>
    requires { (place < 64) × (rank < 4) }
    ensures { result ≡ RouteLines.add_known plan place code set rank }
{
    let d = plan.destinations[place];
    let mut routes = d.routes;
    let route = routes[rank];
    if set_taken(routes, set) || route.given {
        return Err(Fault::Repeat);
    }
    routes[rank] = Route { given: true, set };
    let mut next = plan;
    next.destinations[place] = Destination { code, routes };
    Ok(next)
}

// The first route of a destination, which is put in at its place.
fn new_route(plan: Plan, place: usize, code: u16, set: u8, rank: usize) -> Result<Plan, Fault>
    requires { (plan.count < 64) × (rank < 4) }
    ensures { result ≡ Ok (RouteLines.new_route plan place code set rank) }
{
    let mut routes = [NO_ROUTE; 4];
    routes[rank] = Route { given: true, set };
    let before = plan.destinations;
    let destinations = inserted(before, place, Destination { code, routes });
    let mut next = plan;
    next.destinations = destinations;
    next.count = plan.count + 1;
    Ok(next)
}
