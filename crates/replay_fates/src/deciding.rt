// What became of a message, by where it is after a call.
ghost use Rattle.std.specs.Prelude.{◌≡◌};
ghost use Rattle.fate_places.specs.Places.{held_of};
ghost use Rattle.replay_fates.specs.Fates as Fates;

use area_links::load_link;
use area_slots::Slot;
use fate_lines::Fate;
use fate_places::{Held, message_at};

// The parts of what is told of a call: the messages from a number on, those that it takes out of the queues, and those that it moves.
#[derive(Clone, Copy)]
pub enum Part {
    Arriving(u64),
    Acknowledging,
    Retiring,
    Moving,
}

// What is known of a call: the next arrival number before it, whether it is an acknowledgement, the link that it sends on (32 for none) and the
// number that the message leaves with, and how many reports it wrote.
#[derive(Clone, Copy)]
pub struct Told {
    pub next: u64,
    pub acknowledges: bool,
    pub sender: u8,
    pub fsn: u8,
    pub reports: usize,
}

// One message of a queue, in one part.
pub fn fate_of(part: Part, queue: u8, known: Slot, to: u8) -> Fate
    ensures { result ≡ Fates.fate_of part queue known to }
{
    match part {
        Part::Arriving(next) => {
            if known.arrival < next {
                return Fate::Unchanged;
            }
            Fate::Queued(known.arrival, queue, known.heading)
        }
        Part::Acknowledging => {
            if to == 33 {
                return Fate::Acknowledged(known.arrival, queue);
            }
            Fate::Unchanged
        }
        Part::Retiring => {
            if to == 33 {
                return Fate::Retired(known.arrival, queue);
            }
            Fate::Unchanged
        }
        Part::Moving => {
            if to < 33 {
                return Fate::Moved(known.arrival, queue, to);
            }
            Fate::Unchanged
        }
    }
}

// The message that leaves.
#[tactic(auto, unfolding(crate::specs::Fates::sent_fate))]
pub fn sent_fate(told: Told, links: &[u32; 256], held: Held) -> Fate
    ensures { result ≡ Fates.sent_fate told links.now (held_of held.entry) }
{
    if 32 <= told.sender {
        return Fate::Unchanged;
    }
    let known = load_link(links, told.sender);
    let place = if known.sent == 0 { 0 } else { known.sent - 1 };
    let message = message_at(held, told.sender, place as u16);
    Fate::Sent(message.arrival, told.sender, told.fsn)
}

// What the messages are told as that a call takes out of the queues.
pub fn leaving(told: Told) -> Part
    ensures { result ≡ Fates.leaving_part told }
{
    if told.acknowledges {
        return Part::Acknowledging;
    }
    Part::Retiring
}
