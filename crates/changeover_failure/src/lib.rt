// What is decided where a link fails, or T1 or T2 of its changeover expires: the reply, the COO, and the record of the link.
#![tactic(auto)]

ghost use Rattle.plan_words.specs.Words.{plan_of};
ghost use Rattle.std.specs.Prelude.{◌≡◌};
ghost use Rattle.replies.specs.Reply.{number_of, refusal_of};
ghost use Rattle.changeover_failure.specs.Failure as Failure;
ghost use Rattle.changeover_failure.specs.Overdue as Overdue;

use area_links::{LinkRecord, load_link};
use constants::{CHANGING, LINKS, OPEN, WAITING};
use lookup::{adjacent_of, is_link, slc_of};
use management_making::Draft;
use replies::Refusal;
use reports::short;
use wire_messages::management::Message;

// The reply to a link's failure.
#[tactic(auto, unfolding(crate::specs::Failure::reply_of, replies::specs::Reply::first, replies::specs::Reply::refusal_of))]
pub fn fail_reply(
    plan: &[u16; 1024],
    links: &[u32; 256],
    link: u8,
    reports: &[u64],
) -> Result<(), Refusal>
    ensures value { result ≡ refusal_of (Failure.reply_of (plan_of plan) links.now link reports.now) }
    ensures number { number_of result ≡ Failure.reply_of (plan_of plan) links.now link reports.now }
{
    if LINKS <= link {
        return Err(Refusal::OutOfRange);
    }
    if short(reports) {
        return Err(Refusal::OutOfRange);
    }
    if !is_link(plan, link) {
        return Err(Refusal::NotConfigured);
    }
    let known = load_link(links, link);
    if known.state == OPEN {
        return Ok(());
    }
    if known.state == WAITING {
        return Ok(());
    }
    Err(Refusal::Unfit)
}

// The COO of a link.
#[tactic(auto, unfolding(crate::specs::Failure::order_of))]
pub fn order_of(plan: &[u16; 1024], links: &[u32; 256], link: u8) -> Draft
    ensures { result ≡ Failure.order_of (plan_of plan) links.now link }
{
    let known = load_link(links, link);
    Draft {
        message: Message::COO(known.received),
        point: adjacent_of(plan, link),
        slc: slc_of(plan, link),
        never: link,
    }
}

// The record of a link in changeover: T2 runs with a COO, else T1.
pub fn changing(known: LinkRecord, told: bool) -> LinkRecord
    ensures { result ≡ Failure.changing known (Failure.timer_by told) }
{
    let timer = if told { 2 } else { 1 };
    LinkRecord {
        state: CHANGING,
        timer,
        t3: false,
        code: 0,
        ..known
    }
}

// The reply to the expiry of T1 or T2.
#[tactic(auto, unfolding(crate::specs::Overdue::reply_of, replies::specs::Reply::first, replies::specs::Reply::refusal_of))]
pub fn expire_reply(
    plan: &[u16; 1024],
    links: &[u32; 256],
    link: u8,
    timer: u8,
    reports: &[u64],
) -> Result<(), Refusal>
    ensures value { result ≡ refusal_of (Overdue.reply_of (plan_of plan) links.now link timer reports.now) }
    ensures number { number_of result ≡ Overdue.reply_of (plan_of plan) links.now link timer reports.now }
{
    if LINKS <= link {
        return Err(Refusal::OutOfRange);
    }
    if timer < 1 {
        return Err(Refusal::OutOfRange);
    }
    if 2 < timer {
        return Err(Refusal::OutOfRange);
    }
    if short(reports) {
        return Err(Refusal::OutOfRange);
    }
    if !is_link(plan, link) {
        return Err(Refusal::NotConfigured);
    }
    let known = load_link(links, link);
    if known.timer != timer {
        return Err(Refusal::Unfit);
    }
    Ok(())
}
