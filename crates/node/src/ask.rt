// The single entry for questions: what a host asks, which changes nothing of the node.
ghost use Rattle.std.specs.Prelude.{◌≡◌};
ghost use Rattle.plan_words.specs.Words.{plan_of};
ghost use Rattle.node.specs.Ask.{answer_to, written_for};

use replies::Answer;
use route_list::list::route_list;

#[derive(Clone, Copy)]
pub enum Question {
    // The current link of each pair.
    RouteList,
}

// One question: its answer, and the output with what was asked for.
#[tactic(auto, unfolding(crate::specs::Ask::answer_to, crate::specs::Ask::written_for))]
pub fn ask(
    plan: &[u16; 1024],
    links: &[u32; 256],
    marks: &[u32; 512],
    question: Question,
    out: &mut [u8],
) -> Answer
    ensures value { result ≡ answer_to (plan_of plan) links.now marks.now out.old question }
    ensures out_after { out.new ≡ written_for (plan_of plan) links.now marks.now out.old question }
{
    match question {
        Question::RouteList => route_list(plan, links, marks, out),
    }
}
