// What the expiry of a destination's or a route's timer asks: the reply to that of T6, T8 and T10, T8 stopped, and the RST of T10.
#![tactic(auto)]

ghost use Rattle.plan_words.specs.Words.{plan_of};
ghost use Rattle.std.specs.Prelude.{◌≡◌};
ghost use Rattle.replies.specs.Reply.{number_of, refusal_of};
ghost use Rattle.rerouting_expiry.specs.Expiry as Expiry;

use area_flags::{flag, set_flag};
use constants::{NO_LINK, T8};
use lookup::{is_set, rank_by};
use management_making::Draft;
use plan_words::find::{find, place_of};
use plan_words::read::{given, set_adjacent};
use replies::Refusal;
use wire_messages::management::Message;

// Whether a destination is configured.
#[tactic(auto, unfolding(crate::specs::Expiry::is_destination))]
pub fn is_destination(plan: &[u16; 1024], x: u16) -> bool
    ensures { result ≡ Expiry.is_destination (plan_of plan) x }
{
    given(plan) && find(plan, x).is_ok()
}

// The reply to the expiry of a destination's timer, by the word of its flag.
#[tactic(auto, unfolding(crate::specs::Expiry::reply_of, replies::specs::Reply::first, replies::specs::Reply::refusal_of))]
pub fn timer_reply(
    plan: &[u16; 1024],
    marks: &[u32; 512],
    x: u16,
    timer: usize,
) -> Result<(), Refusal>
    ensures value { result ≡ refusal_of (Expiry.reply_of (plan_of plan) marks.now x timer) }
    ensures number { number_of result ≡ Expiry.reply_of (plan_of plan) marks.now x timer }
{
    if 16384 <= x {
        return Err(Refusal::OutOfRange);
    }
    if !is_destination(plan, x) {
        return Err(Refusal::NotConfigured);
    }
    if !flag(marks, place_of(plan, x), timer) {
        return Err(Refusal::Unfit);
    }
    Ok(())
}

// T8 of a destination expires.
#[tactic(auto, using(replies::proofs::Numbers::over, replies::proofs::Numbers::none, replies::proofs::Rows::refused, replies::proofs::Rows::done), unfolding(crate::specs::Expiry::expired_t8))]
pub fn expire_t8(plan: &[u16; 1024], marks: &mut [u32; 512], x: u16) -> Result<(), Refusal>
    ensures value { result ≡ refusal_of (Expiry.reply_of (plan_of plan) marks.old x 5) }
    ensures number { number_of result ≡ Expiry.reply_of (plan_of plan) marks.old x 5 }
    ensures marks_after { marks.new ≡ Expiry.expired_t8 (plan_of plan) marks.old x }
{
    timer_reply(plan, marks, x, T8)?;
    set_flag(marks, place_of(plan, x), T8, false);
    Ok(())
}

// The reply to T10's expiry before its RST is made.
#[tactic(auto, unfolding(crate::specs::Expiry::reply_t10, replies::specs::Reply::first, replies::specs::Reply::refusal_of))]
pub fn t10_reply(plan: &[u16; 1024], marks: &[u32; 512], x: u16, set: u8) -> Result<(), Refusal>
    ensures value { result ≡ refusal_of (Expiry.reply_t10 (plan_of plan) marks.now x set) }
    ensures number { number_of result ≡ Expiry.reply_t10 (plan_of plan) marks.now x set }
{
    if 16384 <= x {
        return Err(Refusal::OutOfRange);
    }
    if 8 <= set {
        return Err(Refusal::OutOfRange);
    }
    if !is_destination(plan, x) {
        return Err(Refusal::NotConfigured);
    }
    if !is_set(plan, set) {
        return Err(Refusal::NotConfigured);
    }
    let place = place_of(plan, x);
    let rank = rank_by(plan, place, set);
    if 4 <= rank {
        return Err(Refusal::Unfit);
    }
    if !flag(marks, place, rank) {
        return Err(Refusal::Unfit);
    }
    Ok(())
}

// The RST about X to the adjacent point of a set.
#[tactic(auto, unfolding(crate::specs::Expiry::test_of))]
pub fn test_of(plan: &[u16; 1024], x: u16, set: u8) -> Draft
    ensures { result ≡ Expiry.test_of (plan_of plan) x set }
{
    let point = set_adjacent(plan, set);
    Draft {
        message: Message::RST(x),
        point,
        slc: 0,
        never: NO_LINK,
    }
}
