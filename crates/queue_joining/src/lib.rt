// A new message is queued: it gets a free slot and the next arrival number.
#![tactic(auto)]

ghost use Rattle.std.specs.Prelude.{◌≡◌, length};
ghost use Rattle.queue_heads.specs.Head.{queues_before};
ghost use Rattle.replies.specs.Reply.{number_of, refusal_of};
ghost use Rattle.queue_joining.specs.Queue.{held_before, held_after};
ghost use Rattle.queue_joining.specs.Queue as Queue;

use constants::{FREE_MANAGEMENT, FREE_USER};
use queue_heads::move_head;
use queue_rings::ring::count;
use queue_slots::message::{write_management, write_user};
use replies::Refusal;
use wire_messages::management::Message;

// A user message goes to the end of a ring, or is refused where it finds no place or number.
#[tactic(auto, unfolding(replies::specs::Reply::refusal_of, crate::specs::Queue::user_reply, crate::specs::Queue::user_queues, crate::specs::Queue::rows_with_user, crate::specs::Queue::user_octets, crate::specs::Queue::user_arrivals, replies::specs::Reply::first))]
pub fn queue_user(
    spans: &mut [u16; 70],
    rings: &mut [u8; 8960],
    rows: &mut [u64; 2048],
    octets: &mut [u8; 52416],
    arrivals: &mut [u64; 1],
    ring: u8,
    point: u16,
    sls: u8,
    message: &[u8],
) -> Result<(), Refusal>
    ensures value { result ≡ refusal_of (Queue.user_reply spans.old arrivals.old) }
    ensures number { number_of result ≡ Queue.user_reply spans.old arrivals.old }
    ensures arrivals_value { held_after spans.new rings.new rows.new arrivals.new ≡
        Queue.with_user ring point sls (length message.now) (held_before spans.old rings.old rows.old arrivals.old) }
    ensures octets_value { octets.new ≡ Queue.user_octets (queues_before spans.old rings.old) arrivals.old octets.old message.now }
{
    if count(spans, FREE_USER) == 0 {
        return Err(Refusal::NoUserPlace);
    }
    let next = arrivals[0];
    if 9223372036854775808 <= next {
        return Err(Refusal::NoNumber);
    }
    let free = move_head(spans, rings, FREE_USER, ring);
    write_user(
        rows,
        octets,
        free.slot,
        next,
        point as u64,
        sls as u64,
        message,
    );
    arrivals[0] = next + 1;
    Ok(())
}

// A management message goes to the end of a ring, or is refused where it finds no place or number.
#[tactic(auto, unfolding(replies::specs::Reply::refusal_of, crate::specs::Queue::management_reply, crate::specs::Queue::management_queues, crate::specs::Queue::rows_with_management, crate::specs::Queue::management_arrivals, replies::specs::Reply::first))]
pub fn queue_management(
    spans: &mut [u16; 70],
    rings: &mut [u8; 8960],
    rows: &mut [u64; 2048],
    arrivals: &mut [u64; 1],
    ring: u8,
    message: Message,
    point: u16,
    slc: u8,
) -> Result<(), Refusal>
    ensures value { result ≡ refusal_of (Queue.management_reply spans.old arrivals.old) }
    ensures number { number_of result ≡ Queue.management_reply spans.old arrivals.old }
    ensures arrivals_value { held_after spans.new rings.new rows.new arrivals.new ≡
        Queue.with_management ring message point slc (held_before spans.old rings.old rows.old arrivals.old) }
{
    if count(spans, FREE_MANAGEMENT) == 0 {
        return Err(Refusal::NoManagementPlace);
    }
    let next = arrivals[0];
    if 9223372036854775808 <= next {
        return Err(Refusal::NoNumber);
    }
    let free = move_head(spans, rings, FREE_MANAGEMENT, ring);
    write_management(
        rows,
        free.slot,
        next,
        message.heading() as u64,
        point as u64,
        slc as u64,
        message.field() as u64,
    );
    arrivals[0] = next + 1;
    Ok(())
}
