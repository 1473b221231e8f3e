// A call made or a question asked, and what is shown of its answer.
#![tactic(auto)]

ghost use Rattle.plan_words.specs.Words.{plan_of};
ghost use Rattle.std.specs.Prelude.{◌≡◌, []};
ghost use Rattle.areas.specs.Lent.{Stays};
ghost use Rattle.node.specs.Memory.{memory_of};
ghost use Rattle.node.specs.Call.{call_of};
ghost use Rattle.node.specs.Ask.{answer_to, written_for};
ghost use Rattle.text_pages.specs.Page.{page, puts};
ghost use Rattle.replay_answers.specs.Answers.{shows_for};
ghost use Rattle.replay_answers.specs.Shown as Shown;
ghost use Rattle.replay_calls.specs.Called.{fated_lines, called_lines};

use areas::Areas;
use fate_places::Held;
use node::ask::{Question, ask};
use node::call::{Event, call};
use replay_answers::answer::{put_told, shown, shown_for, told};
use replay_answers::view::{View, put_shown, tells};

// A call, and what is shown of its answer, on the page.
pub fn put_called(
    plan: &[u16; 1024],
    areas: &mut Areas,
    event: Event,
    message: &[u8],
    view: View,
    number: u64,
    sent: &mut [u8],
    reports: &mut [u64],
    out: &mut [u8],
    at: usize,
) -> usize
    ensures stays { Stays areas.old areas.new }
    ensures result_after { page out.new result ≡
        puts (page out.old at)
        (called_lines (plan_of plan) view number event message.now (memory_of areas.old reports.old sent.old)) }
    ensures sent_value { memory_of areas.new reports.new sent.new ≡
        (call_of (plan_of plan) event message.now (memory_of areas.old reports.old sent.old)).after }
{
    if tells(view, number) {
        return put_fated(plan, areas, event, message, number, sent, reports, out, at);
    }
    let answer = call(plan, areas, event, message, sent, reports);
    put_shown(
        out,
        at,
        number,
        view,
        shown(event),
        answer,
        message,
        sent,
        reports,
    )
}

// A call and all that is written of it, on the page, with its fates: for them its queues are kept as they were before it.
fn put_fated(
    plan: &[u16; 1024],
    areas: &mut Areas,
    event: Event,
    message: &[u8],
    number: u64,
    sent: &mut [u8],
    reports: &mut [u64],
    out: &mut [u8],
    at: usize,
) -> usize
    ensures stays { Stays areas.old areas.new }
    ensures result_after { page out.new result ≡
        puts (page out.old at)
        (fated_lines (plan_of plan) number event message.now (memory_of areas.old reports.old sent.old)) }
    ensures sent_value { memory_of areas.new reports.new sent.new ≡
        (call_of (plan_of plan) event message.now (memory_of areas.old reports.old sent.old)).after }
{
    let spans = *areas.spans;
    let rings = *areas.rings;
    let rows = *areas.rows;
    let next = areas.arrivals[0];
    let answer = call(plan, areas, event, message, sent, reports);
    let told = told(event, answer, next);
    let before = Held {
        spans: &spans,
        rings: &rings,
        rows: &rows,
    };
    let after = Held {
        spans: areas.spans,
        rings: areas.rings,
        rows: areas.rows,
    };
    put_told(
        out,
        at,
        number,
        shown(event),
        answer,
        message,
        sent,
        reports,
        told,
        areas.links,
        before,
        after,
    )
}

// A question, and what is shown of its answer, on the page; the node is read and not changed.
pub fn put_asked(
    plan: &[u16; 1024],
    links: &[u32; 256],
    marks: &[u32; 512],
    question: Question,
    view: View,
    number: u64,
    sent: &mut [u8],
    reports: &[u64],
    out: &mut [u8],
    at: usize,
) -> usize
    ensures result_after { page out.new result ≡
        puts (page out.old at)
        (Shown.shown view number (shows_for question)
        (answer_to (plan_of plan) links.now marks.now sent.old question) []
        (written_for (plan_of plan) links.now marks.now sent.old question) [] reports.now) }
    ensures sent_after { sent.new ≡ written_for (plan_of plan) links.now marks.now sent.old question }
{
    let answer = ask(plan, links, marks, question, sent);
    let shows = shown_for(question);
    put_shown(out, at, number, view, shows, answer, b"", sent, reports)
}
