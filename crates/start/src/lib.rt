// A fresh node: what an accepted configuration leaves in the lent areas.
#![tactic(auto)]

ghost use Rattle.std.specs.Prelude.{◌≡◌};
ghost use Rattle.plan_words.specs.Words.{plan_at};
ghost use Rattle.plan_store.specs.Layout.{words_of};
ghost use Rattle.plan_configuration.specs.Configure.{configured};
ghost use Rattle.replies.specs.Reply.{if_done};
ghost use Rattle.start.specs.Start as Start;

use plan_configuration::configure::configure;
use plan_store::store;
use queue_store::fresh::fresh;

// Every link is out.
fn empty_links(links: &mut [u32; 256])
    ensures { links.new ≡ Start.fresh_links links.old }
{
    links.fill(0);
}

// No mark stands.
fn empty_marks(marks: &mut [u32; 512])
    ensures { marks.new ≡ Start.fresh_marks marks.old }
{
    marks.fill(0);
}

// What a configuration answers: fault 0, or the first faulty line and its first fault.
#[repr(C)]
#[derive(Clone, Copy)]
pub struct Started {
    pub line: usize,
    pub fault: u8,
}

// The node that a text makes, its plan stored in the words; a refused text touches nothing.
pub fn start(
    plan: &mut [u16; 1024],
    links: &mut [u32; 256],
    marks: &mut [u32; 512],
    spans: &mut [u16; 70],
    rings: &mut [u8; 8960],
    arrivals: &mut [u64; 1],
    text: &[u8],
) -> Started
    ensures value { result ≡ Start.started (configured text.now) }
    ensures plan_after { plan.new ≡ if_done (configured text.now).fault (words_of (configured text.now).plan) plan.old }
    ensures links_after { links.new ≡ if_done (configured text.now).fault (Start.fresh_links links.old) links.old }
    ensures marks_after { marks.new ≡ if_done (configured text.now).fault (Start.fresh_marks marks.old) marks.old }
    ensures spans_after { spans.new ≡ if_done (configured text.now).fault (Start.fresh_spans spans.old) spans.old }
    ensures rings_after { rings.new ≡ if_done (configured text.now).fault (Start.fresh_rings rings.old) rings.old }
    ensures arrivals_after { arrivals.new ≡
        if_done (configured text.now).fault (Start.fresh_arrivals arrivals.old) arrivals.old }
    ensures plan_after_2 { plan_at plan.new ≡ if_done (configured text.now).fault (configured text.now).plan (plan_at plan.old) }
{
    let made = configure(text);
    let answer = Started {
        line: made.line,
        fault: made.fault,
    };
    if 0 < made.fault {
        return answer;
    }
    let new = made.plan;
    store(plan, new);
    empty_links(links);
    empty_marks(marks);
    fresh(spans, rings);
    arrivals[0] = 0;
    answer
}
