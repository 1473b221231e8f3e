// Destinations are in ascending code: one is found by halving.
ghost use Rattle.std.specs.Prelude.{◌≡◌};
ghost use Rattle.plan.specs.Find.{place_of, found_of, there_of};
ghost use Rattle.plan_words.specs.Words.{plan_of};

use crate::read::{count, destination_routes};
use plan::data::NO_ROUTE;
use plan::find::There;

// The place of the destination that has a code. If none has, the place where one would have to be put in.
pub fn find(plan: &[u16; 1024], code: u16) -> Result<usize, usize>
    ensures { result ≡ found_of (plan_of plan) code }
{
    let place = place_of(plan, code);
    if place < (count(plan) as usize).min(64) && plan[272 + place] == code {
        Ok(place)
    } else {
        Err(place)
    }
}

// The same search, whose routes come along.
pub fn seek(plan: &[u16; 1024], code: u16) -> There
    ensures { result ≡ there_of (plan_of plan) code }
{
    let found = find(plan, code);
    let (Ok(place) | Err(place)) = found;
    let routes = if place < (count(plan) as usize).min(64) {
        destination_routes(plan, place)
    } else {
        [NO_ROUTE; 4]
    };
    There { found, routes }
}

// The first of the given destinations whose code isn't below the one looked for; how many are given, where all are. It reads the
// codes where they stand: within the table no place needs a test.
pub fn place_of(plan: &[u16; 1024], code: u16) -> usize
    ensures { result ≡ place_of (plan_of plan) code }
{
    let count = (count(plan) as usize).min(64);
    let mut low = 0;
    let mut high = count;
    while low < high {
        let middle = low + (high - low) / 2;
        if plan[272 + middle] < code {
            low = middle + 1;
        } else {
            high = middle;
        }
    }
    low
}
