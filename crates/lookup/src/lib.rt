// What messages and calls name: a link by its adjacent point and SLC, a route by its destination and set, a link by its number.
#![tactic(auto)]

ghost use Rattle.std.specs.Prelude.{◌≡◌, position};
ghost use Rattle.plan.specs.Data.{set_at};
ghost use Rattle.plan_words.specs.Words.{plan_of};
ghost use Rattle.lookup.specs.Lookup as Lookup;

use constants::{LINKS, NO_LINK};
use plan::data::Route;
use plan_words::read::{
    destination_routes, given, link_given, link_set, link_slc, set_adjacent, set_count, set_given,
    set_link,
};

// The set to an adjacent point, 8 where there is none.
pub fn set_to(plan: &[u16; 1024], point: u16) -> u8
    ensures { result ≡ Lookup.set_to (plan_of plan) point }
{
    for set in 0..8 {
        if set_given(plan, set) && set_adjacent(plan, set) == point {
            return set;
        }
    }
    8
}

// The link of a set with an SLC, 32 where there is none.
fn link_with(plan: &[u16; 1024], set: u8, slc: u8) -> u8
    ensures { result ≡ Lookup.link_with (plan_of plan) slc (Lookup.all_of (set_at (plan_of plan) set)) }
{
    for place in 0..set_count(plan, set).min(8) {
        let link = set_link(plan, set, place);
        if link < NO_LINK && link_slc(plan, link) == slc {
            return link;
        }
    }
    NO_LINK
}

// The link that a message names by its OPC and SLC, 32 where there is none.
#[tactic(auto, unfolding(crate::specs::Lookup::link_named))]
pub fn link_named(plan: &[u16; 1024], point: u16, slc: u8) -> u8
    ensures { result ≡ Lookup.link_named (plan_of plan) point slc }
{
    let set = set_to(plan, point);
    if 8 <= set {
        return NO_LINK;
    }
    link_with(plan, set, slc)
}

// The rank of the route to a destination by a set, 4 where there is none.
pub fn rank_by(plan: &[u16; 1024], destination: usize, set: u8) -> usize
    ensures { result ≡ Lookup.rank_by (plan_of plan) destination set }
{
    if 64 <= destination {
        return 4;
    }
    rank_among(destination_routes(plan, destination), set).unwrap_or(4)
}

// The rank of the one among a destination's routes that goes by a set.
fn rank_among(routes: [Route; 4], set: u8) -> Option<usize>
    ensures { result ≡ position (Lookup.by_set set) routes }
{
    routes
        .iter()
        .position(|route| route.given && route.set == set)
}

// Whether a link is configured.
#[tactic(auto, unfolding(crate::specs::Lookup::is_link))]
pub fn is_link(plan: &[u16; 1024], link: u8) -> bool
    ensures { result ≡ Lookup.is_link (plan_of plan) link }
{
    if !given(plan) {
        return false;
    }
    if LINKS <= link {
        return false;
    }
    link_given(plan, link)
}

// Whether a set is configured.
#[tactic(auto, unfolding(crate::specs::Lookup::is_set))]
pub fn is_set(plan: &[u16; 1024], set: u8) -> bool
    ensures { result ≡ Lookup.is_set (plan_of plan) set }
{
    if !given(plan) {
        return false;
    }
    if 8 <= set {
        return false;
    }
    set_given(plan, set)
}

// The set of a link, 8 where there is none.
#[tactic(auto, unfolding(crate::specs::Lookup::set_of))]
pub fn set_of(plan: &[u16; 1024], link: u8) -> u8
    ensures { result ≡ Lookup.set_of (plan_of plan) link }
{
    if LINKS <= link {
        return 8;
    }
    link_set(plan, link)
}

// The SLC of a link.
#[tactic(auto, unfolding(crate::specs::Lookup::slc_of))]
pub fn slc_of(plan: &[u16; 1024], link: u8) -> u8
    ensures { result ≡ Lookup.slc_of (plan_of plan) link }
{
    if LINKS <= link {
        return 0;
    }
    link_slc(plan, link)
}

// The adjacent point of a link.
#[tactic(auto, unfolding(crate::specs::Lookup::adjacent_of))]
pub fn adjacent_of(plan: &[u16; 1024], link: u8) -> u16
    ensures { result ≡ Lookup.adjacent_of (plan_of plan) link }
{
    let set = set_of(plan, link);
    if 8 <= set {
        return 0;
    }
    set_adjacent(plan, set)
}
