// Whether a message that came over a link is accepted: its reply before it is looked at, by the link, its state and the number.
#![tactic(auto)]

ghost use Rattle.plan_words.specs.Words.{plan_of};
ghost use Rattle.std.specs.Prelude.{◌≡◌};
ghost use Rattle.replies.specs.Reply.{number_of, refusal_of};
ghost use Rattle.receiving_acceptance.specs.Acceptance as Acceptance;

use area_links::load_link;
use constants::{LINKS, OPEN, WAITING};
use counting::next;
use lookup::is_link;
use replies::Refusal;
use reports::short;

// The reply before the message is looked at.
#[tactic(auto, unfolding(crate::specs::Acceptance::reply_of, replies::specs::Reply::first, replies::specs::Reply::refusal_of))]
pub fn receive_reply(
    plan: &[u16; 1024],
    links: &[u32; 256],
    link: u8,
    fsn: u8,
    reports: &[u64],
) -> Result<(), Refusal>
    ensures value { result ≡ refusal_of (Acceptance.reply_of (plan_of plan) links.now link fsn reports.now) }
    ensures number { number_of result ≡ Acceptance.reply_of (plan_of plan) links.now link fsn reports.now }
{
    if LINKS <= link {
        return Err(Refusal::OutOfRange);
    }
    if 128 <= fsn {
        return Err(Refusal::OutOfRange);
    }
    if short(reports) {
        return Err(Refusal::OutOfRange);
    }
    if !is_link(plan, link) {
        return Err(Refusal::NotConfigured);
    }
    let known = load_link(links, link);
    if known.state != OPEN && known.state != WAITING {
        return Err(Refusal::Unfit);
    }
    if fsn != next(known.received) {
        return Err(Refusal::NotNext);
    }
    Ok(())
}
