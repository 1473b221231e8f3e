// What a management message asks of the node, as a value: an answer, and that a link goes out. What a changeover message asks is decided
// by the record of the link that it names.
#![tactic(auto)]

ghost use Rattle.std.specs.Prelude.{◌≡◌};
ghost use Rattle.management_steps.specs.Step as Steps;

use area_links::LinkRecord;
use changeover_cuts::{Cut, cut_none};
use constants::{NO_LINK, OUT, WAITING};
use management_making::Draft;
use wire_messages::management::Message;

#[derive(Clone, Copy)]
pub struct Step {
    // 0, or 11 where it names nothing or fits no state.
    pub reply: u8,
    pub answers: bool,
    pub draft: Draft,
    pub ends: bool,
    pub link: u8,
    pub parts: Cut,
}

fn no_draft() -> Draft
    ensures { result ≡ Steps.no_draft }
{
    Draft {
        message: Message::ECO,
        point: 0,
        slc: 0,
        never: NO_LINK,
    }
}

// It asks nothing.
pub fn nothing() -> Step
    ensures { result ≡ Steps.nothing }
{
    Step {
        reply: 11,
        answers: false,
        draft: no_draft(),
        ends: false,
        link: NO_LINK,
        parts: cut_none(),
    }
}

// An answer alone.
pub fn answer(draft: Draft) -> Step
    ensures { result ≡ Steps.answer draft }
{
    Step {
        reply: 0,
        answers: true,
        draft,
        ends: false,
        link: NO_LINK,
        parts: cut_none(),
    }
}

// An answer, and a link goes out.
pub fn answer_and_end(draft: Draft, link: u8, parts: Cut) -> Step
    ensures { result ≡ Steps.answer_and_end draft link parts }
{
    Step {
        reply: 0,
        answers: true,
        draft,
        ends: true,
        link,
        parts,
    }
}

// A link goes out, with no answer.
pub fn end(link: u8, parts: Cut) -> Step
    ensures { result ≡ Steps.end link parts }
{
    Step {
        reply: 0,
        answers: false,
        draft: no_draft(),
        ends: true,
        link,
        parts,
    }
}

// A COO or ECO on the link that it names, by its answer on a link in service, its answer on one that is out, and what becomes
// of the queue.
#[tactic(auto, unfolding(crate::specs::Step::order_step))]
pub fn order_step(known: LinkRecord, link: u8, own: Draft, emergency: Draft, parts: Cut) -> Step
    ensures { result ≡ Steps.order_step known link own emergency parts }
{
    if known.state == OUT {
        return answer(emergency);
    }
    if known.state == WAITING {
        return answer_and_end(own, link, cut_none());
    }
    answer_and_end(own, link, parts)
}

// A COA or ECA: it counts only while T2 runs.
#[tactic(auto, unfolding(crate::specs::Step::ack_step))]
pub fn ack_step(link: u8, known: LinkRecord, parts: Cut) -> Step
    ensures { result ≡ Steps.ack_step link known parts }
{
    if NO_LINK <= link {
        return nothing();
    }
    if known.timer != 2 {
        return nothing();
    }
    end(link, parts)
}
