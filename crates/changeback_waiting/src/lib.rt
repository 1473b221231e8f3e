// A waiting link: T3 and T4 expire, and a CBA answers its CBD.
#![tactic(auto)]

ghost use Rattle.std.specs.Prelude.{◌≡◌, []};
ghost use Rattle.plan_words.specs.Words.{plan_of};
ghost use Rattle.replies.specs.Areas.{areas, Leaves};
ghost use Rattle.replies.specs.Reply.{number_of, refusal_of};
ghost use Rattle.changeback_waiting.specs.Wait as Wait;

use area_links::{load_link, store_link};
use changeback_opening::{runs, stopped};
use constants::{LINKS, NO_LINK};
use lookup::{is_link, link_named};
use replies::{Answer, Refusal, done, refused};

// The reply to an expiry.
#[tactic(auto, using(crate::proofs::Expiry::past_the_last_link, crate::proofs::Expiry::another_timer, crate::proofs::Expiry::no_such_link, crate::proofs::Expiry::by_running))]
fn wait_reply(plan: &[u16; 1024], links: &[u32; 256], link: u8, timer: u8) -> Result<(), Refusal>
    ensures { number_of result ≡ Wait.reply_of (plan_of plan) links.now link timer }
{
    if LINKS <= link {
        return Err(Refusal::OutOfRange);
    }
    if timer < 3 {
        return Err(Refusal::OutOfRange);
    }
    if 4 < timer {
        return Err(Refusal::OutOfRange);
    }
    if !is_link(plan, link) {
        return Err(Refusal::NotConfigured);
    }
    let known = load_link(links, link);
    if !runs(known, timer) {
        return Err(Refusal::Unfit);
    }
    Ok(())
}

// T3 or T4 of a link expires.
#[tactic(auto, using(replies::proofs::Numbers::over, replies::proofs::Numbers::none, replies::proofs::Rows::refused, replies::proofs::Rows::done, crate::proofs::Expiry::leaves_all, crate::proofs::Expiry::stops_one))]
pub fn expire_wait(
    plan: &[u16; 1024],
    links: &mut [u32; 256],
    link: u8,
    timer: u8,
) -> Result<(), Refusal>
    ensures value { result ≡ refusal_of (Wait.reply_of (plan_of plan) links.old link timer) }
    ensures number { number_of result ≡ Wait.reply_of (plan_of plan) links.old link timer }
    ensures links_after { links.new ≡ Wait.expired (plan_of plan) links.old link timer }
{
    wait_reply(plan, links, link, timer)?;
    let known = load_link(links, link);
    store_link(links, link, stopped(known, timer));
    Ok(())
}

// Whether a CBA answers an unanswered CBD.
#[tactic(auto, unfolding(crate::specs::Wait::answers))]
fn answers(plan: &[u16; 1024], links: &[u32; 256], point: u16, slc: u8, code: u8) -> bool
    ensures { result ≡ Wait.answers (plan_of plan) links.now point slc code }
{
    let link = link_named(plan, point, slc);
    if NO_LINK <= link {
        return false;
    }
    let known = load_link(links, link);
    known.code as u16 == code as u16 + 1
}

// The CBD is answered.
#[tactic(auto, unfolding(crate::specs::Wait::answered))]
fn answer_wait(plan: &[u16; 1024], links: &mut [u32; 256], point: u16, slc: u8)
    ensures { links.new ≡ Wait.answered (plan_of plan) links.old point slc }
{
    let link = link_named(plan, point, slc);
    let known = load_link(links, link);
    store_link(links, link, stopped(known, 4));
}

// A CBA that came from a point.
#[tactic(auto, using(crate::proofs::Answering::not_counted, crate::proofs::Answering::counted))]
pub fn answer_by(
    plan: &[u16; 1024],
    links: &mut [u32; 256],
    point: u16,
    slc: u8,
    code: u8,
) -> Answer
    ensures { Leaves (Wait.answered_by (plan_of plan) point slc code (areas links.old [] [] [] [] [] [])) result
        (areas links.new [] [] [] [] [] []) }
{
    if !answers(plan, links, point, slc, code) {
        return refused(Refusal::NamesNothing);
    }
    answer_wait(plan, links, point, slc);
    done(0)
}
