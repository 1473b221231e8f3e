// Which timers run, for the host to read after a call.
#![tactic(auto)]

ghost use Rattle.plan_words.specs.Words.{plan_of};
ghost use Rattle.std.specs.Prelude.{◌≡◌};
ghost use Rattle.timers.specs.Timers as Timers;

use area_flags::flag;
use area_links::{LinkRecord, load_link};
use constants::{T6, T8};
use lookup::{is_link, rank_by};
use plan_words::find::find;

// Whether a timer of a link runs, by its number, 1 to 4.
#[tactic(auto, unfolding(crate::specs::Timers::runs_on))]
fn runs_on(known: LinkRecord, timer: u8) -> bool
    ensures { result ≡ Timers.runs_on known timer }
{
    match timer {
        1 => known.timer == 1,
        2 => known.timer == 2,
        3 => known.t3,
        4 => 0 < known.code,
        _ => false,
    }
}

// Whether T1, T2, T3 or T4 of a link runs.
#[tactic(auto, unfolding(crate::specs::Timers::link_timer))]
pub fn link_timer(plan: &[u16; 1024], links: &[u32; 256], link: u8, timer: u8) -> bool
    ensures { result ≡ Timers.link_timer (plan_of plan) links.now link timer }
{
    if !is_link(plan, link) {
        return false;
    }
    runs_on(load_link(links, link), timer)
}

// Whether T6 or T8 of a destination runs.
#[tactic(auto, unfolding(crate::specs::Timers::destination_timer))]
pub fn destination_timer(plan: &[u16; 1024], marks: &[u32; 512], x: u16, timer: u8) -> bool
    ensures { result ≡ Timers.destination_timer (plan_of plan) marks.now x timer }
{
    if !plan_words::read::given(plan) {
        return false;
    }
    let Ok(place) = find(plan, x) else {
        return false;
    };
    match timer {
        6 => flag(marks, place, T6),
        8 => flag(marks, place, T8),
        _ => false,
    }
}

// Whether T10 of the route to a destination by a set runs.
#[tactic(auto, unfolding(crate::specs::Timers::route_timer))]
pub fn route_timer(plan: &[u16; 1024], marks: &[u32; 512], x: u16, set: u8) -> bool
    ensures { result ≡ Timers.route_timer (plan_of plan) marks.now x set }
{
    if !plan_words::read::given(plan) {
        return false;
    }
    let Ok(place) = find(plan, x) else {
        return false;
    };
    let rank = rank_by(plan, place, set);
    if 4 <= rank {
        return false;
    }
    flag(marks, place, rank)
}
