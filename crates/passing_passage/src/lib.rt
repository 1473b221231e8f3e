// What is decided about a message for another point: the ring that it goes to, and whether the point that it came from is told.
#![tactic(auto)]

ghost use Rattle.plan_words.specs.Words.{plan_of};
ghost use Rattle.std.specs.Prelude.{◌≡◌};
ghost use Rattle.passing_passage.specs.Passage as Passage;

use area_flags::{flag, set_flag};
use constants::{HELD_APART, NO_LINK, T6, T8};
use lookup::adjacent_of;
use management_making::Draft;
use plan_words::find::{find, place_of};
use route_ways::Direction;
use wire_messages::management::Message;

// The ring of a message whose direction is given: its link's, or that of the messages held apart.
pub fn ring_of(marks: &[u32; 512], to: Direction) -> u8
    ensures { result ≡ Passage.ring_at marks.now to }
{
    if flag(marks, to.place, T6) {
        HELD_APART
    } else {
        to.link
    }
}

// The TFP about X to the adjacent point of a link.
#[tactic(auto, unfolding(crate::specs::Passage::prohibited_to))]
pub fn prohibited_to(plan: &[u16; 1024], arriving: u8, x: u16) -> Draft
    ensures { result ≡ Passage.prohibited_to (plan_of plan) arriving x }
{
    Draft {
        message: Message::TFP(x),
        point: adjacent_of(plan, arriving),
        slc: 0,
        never: NO_LINK,
    }
}

// Whether a TFP is due: X is configured and its T8 isn't running.
#[tactic(auto, unfolding(crate::specs::Passage::tells))]
pub fn tells(plan: &[u16; 1024], marks: &[u32; 512], x: u16) -> bool
    ensures { result ≡ Passage.tells (plan_of plan) marks.now x }
{
    match find(plan, x) {
        Ok(place) => !flag(marks, place, T8),
        Err(_) => false,
    }
}

// T8 of a destination starts.
#[tactic(auto, unfolding(crate::specs::Passage::with_t8))]
pub fn start_t8(plan: &[u16; 1024], marks: &mut [u32; 512], x: u16)
    ensures { marks.new ≡ Passage.with_t8 (plan_of plan) marks.old x }
{
    set_flag(marks, place_of(plan, x), T8, true);
}
