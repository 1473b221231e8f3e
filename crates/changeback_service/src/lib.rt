// What is decided where a link comes into service: the reply, which links its pairs come from, and the record that it gets.
#![tactic(auto)]

ghost use Rattle.plan_words.specs.Words.{plan_of};
ghost use Rattle.std.specs.Prelude.{◌≡◌};
ghost use Rattle.replies.specs.Reply.{number_of, refusal_of};
ghost use Rattle.changeback_service.specs.InService as InService;

use area_links::{LinkRecord, load_link, store_link};
use changeback_pairs::{Sources, sources_of};
use constants::{LINKS, NO_LINK, OPEN, OUT, WAITING};
use lookup::is_link;
use replies::Refusal;
use reports::short;

// The record of a link that has come into service.
pub fn in_service(state: u8, t3: bool, code: u8) -> LinkRecord
    ensures { result ≡ InService.in_service_record state t3 code }
{
    LinkRecord {
        state,
        acknowledged: 127,
        received: 127,
        sent: 0,
        timer: 0,
        t3,
        code,
    }
}

// Waiting, or open where no pair comes from another link.
pub fn comes_as(from: Sources) -> LinkRecord
    ensures { result ≡ InService.comes_as from }
{
    let declares = from.own < NO_LINK;
    let state = if declares || from.other {
        WAITING
    } else {
        OPEN
    };
    let code = if declares { from.own + 1 } else { 0 };
    in_service(state, from.other, code)
}

// Which links its pairs come from.
#[tactic(auto, unfolding(crate::specs::InService::sources_in))]
pub fn sources_in(plan: &[u16; 1024], links: &[u32; 256], marks: &[u32; 512], link: u8) -> Sources
    ensures { result ≡ InService.sources_in (plan_of plan) links.now marks.now link }
{
    let mut after = *links;
    store_link(&mut after, link, in_service(2, false, 0));
    sources_of(plan, links, &after, marks, link)
}

// The reply to a link that comes into service, before its pairs are looked at.
#[tactic(auto, using(crate::proofs::Replying::no_such_link, crate::proofs::Replying::area_short, crate::proofs::Replying::not_configured, crate::proofs::Replying::not_out, crate::proofs::Replying::can_come))]
pub fn service_reply(
    plan: &[u16; 1024],
    links: &[u32; 256],
    link: u8,
    reports: &[u64],
) -> Result<(), Refusal>
    ensures value { result ≡ refusal_of (InService.reply_first (plan_of plan) links.now link reports.now) }
    ensures number { number_of result ≡ InService.reply_first (plan_of plan) links.now link reports.now }
{
    if LINKS <= link {
        return Err(Refusal::OutOfRange);
    }
    if short(reports) {
        return Err(Refusal::OutOfRange);
    }
    if !is_link(plan, link) {
        return Err(Refusal::NotConfigured);
    }
    let known = load_link(links, link);
    if OUT < known.state {
        return Err(Refusal::Unfit);
    }
    Ok(())
}
