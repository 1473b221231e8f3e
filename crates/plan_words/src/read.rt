// What stands in a plan, word by word.
ghost use Rattle.std.specs.Prelude.{◌≡◌, get_or};
ghost use Rattle.plan.specs.Data.{set_at, link_at, destination_at};
ghost use Rattle.plan_words.specs.Words.{plan_of, route_of, routes_at};

use constants::LINKS;
use plan::data::{NO_ROUTE, Route};

// The node: whether there is one, its code, its network indicator, how many destinations are given.
pub fn given(plan: &[u16; 1024]) -> bool
    ensures { result ≡ (plan_of plan).given }
{
    0 < plan[0]
}

pub fn code(plan: &[u16; 1024]) -> u16
    ensures { result ≡ (plan_of plan).code }
{
    plan[1]
}

pub fn ni(plan: &[u16; 1024]) -> u8
    ensures { result ≡ (plan_of plan).ni }
{
    (plan[2] % 256) as u8
}

pub fn count(plan: &[u16; 1024]) -> u8
    ensures { result ≡ (plan_of plan).count }
{
    (plan[3] % 256) as u8
}

// A link: whether it is given, its set, its SLC.
pub fn link_given(plan: &[u16; 1024], link: u8) -> bool
    ensures { result ≡ (link_at (plan_of plan) link).given }
{
    if LINKS <= link {
        return false;
    }
    0 < plan[144 + 4 * (link as usize)]
}

pub fn link_set(plan: &[u16; 1024], link: u8) -> u8
    ensures { result ≡ (link_at (plan_of plan) link).set }
{
    if LINKS <= link {
        return 0;
    }
    (plan[145 + 4 * (link as usize)] % 256) as u8
}

pub fn link_slc(plan: &[u16; 1024], link: u8) -> u8
    ensures { result ≡ (link_at (plan_of plan) link).slc }
{
    if LINKS <= link {
        return 0;
    }
    (plan[146 + 4 * (link as usize)] % 256) as u8
}

// A set: whether it is given, its adjacent point, how many links it has, its link at a place.
pub fn set_given(plan: &[u16; 1024], set: u8) -> bool
    ensures { result ≡ (set_at (plan_of plan) set).given }
{
    if 8 <= set {
        return false;
    }
    0 < plan[16 + 16 * (set as usize)]
}

pub fn set_adjacent(plan: &[u16; 1024], set: u8) -> u16
    ensures { result ≡ (set_at (plan_of plan) set).adjacent }
{
    if 8 <= set {
        return 0;
    }
    plan[17 + 16 * (set as usize)]
}

pub fn set_count(plan: &[u16; 1024], set: u8) -> u8
    ensures { result ≡ (set_at (plan_of plan) set).count }
{
    if 8 <= set {
        return 0;
    }
    (plan[18 + 16 * (set as usize)] % 256) as u8
}

pub fn set_link(plan: &[u16; 1024], set: u8, place: u8) -> u8
    ensures { result ≡ get_or (set_at (plan_of plan) set).links place 0 }
{
    if 8 <= set {
        return 0;
    }
    if 8 <= place {
        return 0;
    }
    (plan[20 + 16 * (set as usize) + (place as usize)] % 256) as u8
}

// A destination: its code, its four routes.
pub fn destination_code(plan: &[u16; 1024], place: usize) -> u16
    ensures { result ≡ (destination_at (plan_of plan) place).code }
{
    if 64 <= place {
        return 0;
    }
    plan[272 + place]
}

fn route(word: u16) -> Route
    ensures { result ≡ route_of word }
{
    Route {
        given: 256 <= word,
        set: (word % 256) as u8,
    }
}

pub fn destination_routes(plan: &[u16; 1024], place: usize) -> [Route; 4]
    ensures { result ≡ routes_at (plan_of plan) place }
{
    if 64 <= place {
        return [NO_ROUTE; 4];
    }
    let at = 336 + 4 * place;
    let first = route(plan[at]);
    let second = route(plan[at + 1]);
    let third = route(plan[at + 2]);
    let fourth = route(plan[at + 3]);
    [first, second, third, fourth]
}
