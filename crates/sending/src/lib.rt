// Send: the first unsent message of a link leaves, and stays in the queue.
#![tactic(auto)]

ghost use Rattle.plan_words.specs.Words.{plan_of};
ghost use Rattle.std.specs.Prelude.{◌≡◌, length, IfOk};
ghost use Rattle.replies.specs.Reply.{number_of};
ghost use Rattle.area_links.specs.LinkRecords.{record_at};
ghost use Rattle.sending.specs.Send as Send;

use area_links::{LinkRecord, load_link};
use area_numbers::store_sent;
use area_slots::{Slot, load_slot};
use constants::{LINKS, OPEN};
use counting::next;
use lookup::is_link;
use numbers::next_number;
use plan_words::read::{code, ni};
use queue_rings::ring::{at, count};
use queue_slots::message::copy_octets;
use replies::{Answer, Refusal, done, refused};
use wire::header::Label;
use wire_messages::management::listed;
use wire_writing::write_message;

// The record of the link, where the send isn't refused.
#[tactic(auto, unfolding(crate::specs::Send::reply_of, replies::specs::Reply::first))]
fn sending_link(
    plan: &[u16; 1024],
    links: &[u32; 256],
    spans: &[u16; 70],
    link: u8,
    room: usize,
) -> Result<LinkRecord, Refusal>
    ensures number { number_of result ≡ Send.reply_of (plan_of plan) links.now spans.now link room }
    ensures known { IfOk result (λ known. known ≡ record_at links.now link) }
{
    if LINKS <= link {
        return Err(Refusal::OutOfRange);
    }
    if room < 273 {
        return Err(Refusal::OutOfRange);
    }
    if !is_link(plan, link) {
        return Err(Refusal::NotConfigured);
    }
    let known = load_link(links, link);
    if known.state != OPEN {
        return Err(Refusal::Unfit);
    }
    if count(spans, link) <= known.sent as u16 {
        return Err(Refusal::Unfit);
    }
    if 127 <= known.sent {
        return Err(Refusal::Unfit);
    }
    Ok(known)
}

// A management message as octets; how many they are.
#[tactic(auto, unfolding(crate::specs::Send::held_count_by, crate::specs::Send::held_out_by))]
fn write_held(plan: &[u16; 1024], known: Slot, out: &mut [u8]) -> usize
    ensures value { result ≡ Send.held_count (plan_of plan) known out.old }
    ensures out_value { out.new ≡ Send.held_out (plan_of plan) known out.old }
{
    let heading = (known.heading % 256) as u8;
    let low = (known.field % 256) as u8;
    let high = (known.field / 256 % 256) as u8;
    let Some(message) = listed(heading, low, high) else {
        return 0;
    };
    let opc = code(plan);
    let ni = ni(plan);
    let label = Label {
        dpc: (known.point % 16384) as u16,
        opc,
        sls: (known.sls % 16) as u8,
    };
    write_message(ni, label, message, out)
}

// The message in a slot as octets; how many they are.
#[tactic(auto, unfolding(crate::specs::Send::slot_count, crate::specs::Send::slot_out))]
fn write_slot(
    plan: &[u16; 1024],
    rows: &[u64; 2048],
    octets: &[u8; 52416],
    slot: u8,
    out: &mut [u8],
) -> usize
    ensures value { result ≡ Send.slot_count (plan_of plan) rows.now slot out.old }
    ensures out_value { out.new ≡ Send.slot_out (plan_of plan) rows.now octets.now slot out.old }
{
    let known = load_slot(rows, slot);
    if slot < 192 {
        return copy_octets(octets, slot, known.field as usize, out);
    }
    write_held(plan, known, out)
}

// Level 2 asks for the next message of a link.
#[tactic(auto, unfolding(crate::specs::Send::answer_of, crate::specs::Send::links_after, crate::specs::Send::out_after, crate::specs::Send::first_unsent))]
pub fn send(
    plan: &[u16; 1024],
    links: &mut [u32; 256],
    spans: &[u16; 70],
    rings: &[u8; 8960],
    rows: &[u64; 2048],
    octets: &[u8; 52416],
    link: u8,
    out: &mut [u8],
) -> Answer
    ensures value { result ≡ Send.answer_of (plan_of plan) links.old spans.now rings.now rows.now link out.old }
    ensures links_value { links.new ≡ Send.links_after (plan_of plan) links.old spans.now link (length out.old) }
    ensures out_value { out.new ≡ Send.out_after (plan_of plan) links.old spans.now rings.now rows.now octets.now link out.old }
{
    let known = match sending_link(plan, links, spans, link, out.len()) {
        Ok(known) => known,
        Err(refusal) => return refused(refusal),
    };
    let first = at(spans, rings, link, known.sent as u16);
    let many = write_slot(plan, rows, octets, first.slot, out);
    store_sent(links, link, next(known.sent));
    Answer {
        fsn: next_number(known),
        octets: many,
        ..done(0)
    }
}
