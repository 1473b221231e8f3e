// Destinations are in ascending code: one is found by halving.
ghost use Rattle.std.specs.Prelude.{◌≡◌};
ghost use Rattle.plan.specs.Find.{place_of, found_of, there_of};

use crate::data::{NO_ROUTE, Plan, Route};

// What `find` answers, with the routes of the destination at that place: none where no destination is given there.
#[derive(Clone, Copy)]
pub struct There {
    pub found: Result<usize, usize>,
    pub routes: [Route; 4],
}

// The place of the destination that has a code. If none has, the place where one would have to be put in.
pub fn find(plan: Plan, code: u16) -> Result<usize, usize>
    ensures { result ≡ found_of plan code }
{
    let place = place_of(plan, code);
    if place < (plan.count as usize).min(64) && plan.destinations[place].code == code {
        Ok(place)
    } else {
        Err(place)
    }
}

// The same search, whose routes come along.
pub fn seek(plan: Plan, code: u16) -> There
    ensures { result ≡ there_of plan code }
{
    let found = find(plan, code);
    let (Ok(place) | Err(place)) = found;
    let routes = if place < (plan.count as usize).min(64) {
        plan.destinations[place].routes
    } else {
        [NO_ROUTE; 4]
    };
    There { found, routes }
}

// The first of the given destinations whose code isn't below the one looked for; how many are given, where all are.
fn place_of(plan: Plan, code: u16) -> usize
    ensures { result ≡ place_of plan code }
{
    let destinations = plan.destinations;
    let count = (plan.count as usize).min(64);
    let mut low = 0;
    let mut high = count;
    while low < high {
        let middle = low + (high - low) / 2;
        let d = destinations[middle];
        if d.code < code {
            low = middle + 1;
        } else {
            high = middle;
        }
    }
    low
}
