// How a step is carried out: the answer is queued, and then the link goes out.
#![tactic(auto)]

ghost use Rattle.plan_words.specs.Words.{plan_of};
ghost use Rattle.std.specs.Prelude.{◌≡◌};
ghost use Rattle.replies.specs.Areas.{Leaves, before, after};
ghost use Rattle.replies.specs.Reply.{plain, number_of};
ghost use Rattle.management_orders.specs.Carry as Carry;

use changeover_ending::end_service;
use management_making::make;
use management_steps::Step;
use replies::{Answer, Refusal, done, plain, refused};

// The answer of a step, if it has one; refused where it finds no place or number.
fn give_answer(
    plan: &[u16; 1024],
    links: &[u32; 256],
    marks: &[u32; 512],
    spans: &mut [u16; 70],
    rings: &mut [u8; 8960],
    rows: &mut [u64; 2048],
    arrivals: &mut [u64; 1],
    step: Step,
    reports: &[u64],
) -> Result<(), Refusal>
    ensures { Leaves (Carry.answered (plan_of plan) step (before links.now marks.now spans.old rings.old rows.old arrivals.old reports.now)) (plain (number_of result))
        (after links.now marks.now spans.new rings.new rows.new arrivals.new reports.now) }
{
    if !step.answers {
        return Ok(());
    }
    let draft = step.draft;
    make(plan, links, marks, spans, rings, rows, arrivals, draft)?;
    Ok(())
}

// The step of a message that came over a link.
pub fn carry_out(
    plan: &[u16; 1024],
    links: &mut [u32; 256],
    marks: &[u32; 512],
    spans: &mut [u16; 70],
    rings: &mut [u8; 8960],
    rows: &mut [u64; 2048],
    arrivals: &mut [u64; 1],
    step: Step,
    reports: &mut [u64],
) -> Answer
    ensures { Leaves (Carry.carried (plan_of plan) step (before links.old marks.now spans.old rings.old rows.old arrivals.old reports.old)) result
        (after links.new marks.now spans.new rings.new rows.new arrivals.new reports.new) }
{
    if 0 < step.reply {
        return plain(step.reply);
    }
    if let Err(refusal) = give_answer(
        plan, links, marks, spans, rings, rows, arrivals, step, reports,
    ) {
        return refused(refusal);
    }
    if !step.ends {
        return done(0);
    }
    let parts = step.parts;
    done(end_service(
        plan, links, marks, spans, rings, rows, step.link, parts, reports,
    ))
}
