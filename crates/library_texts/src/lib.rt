// The configuration and the route list, as C calls it.
#![tactic(auto)]

ghost use Rattle.std.specs.Prelude.{◌≡◌, length};
ghost use Rattle.plan_words.specs.Words.{plan_at, plan_of};
ghost use Rattle.plan_configuration.specs.Configure.{configured};
ghost use Rattle.replies.specs.Reply.{if_done};
ghost use Rattle.plan_store.specs.Layout.{words_of};
ghost use Rattle.start.specs.Start as Start;
ghost use Rattle.route_list.specs.RouteList as RouteList;

use replies::Answer;
use route_list::list::route_list;
use start::{Started, start};

// The node that a text makes, or its first faulty line and that line's fault; a refused text touches nothing.
#[unsafe(no_mangle)]
pub extern "C" fn transfer_point_start_lent(
    plan: &mut [u16; 1024],
    links: &mut [u32; 256],
    marks: &mut [u32; 512],
    spans: &mut [u16; 70],
    rings: &mut [u8; 8960],
    arrivals: &mut [u64; 1],
    text: &[u8],
) -> Started
    ensures value { result ≡ Start.started (configured text.now) }
    ensures plan_after { plan.new ≡ if_done (configured text.now).fault (words_of (configured text.now).plan) plan.old }
    ensures links_after { links.new ≡ if_done (configured text.now).fault (Start.fresh_links links.old) links.old }
    ensures marks_after { marks.new ≡ if_done (configured text.now).fault (Start.fresh_marks marks.old) marks.old }
    ensures spans_after { spans.new ≡ if_done (configured text.now).fault (Start.fresh_spans spans.old) spans.old }
    ensures rings_after { rings.new ≡ if_done (configured text.now).fault (Start.fresh_rings rings.old) rings.old }
    ensures arrivals_after { arrivals.new ≡
        if_done (configured text.now).fault (Start.fresh_arrivals arrivals.old) arrivals.old }
    ensures plan_after_2 { plan_at plan.new ≡ if_done (configured text.now).fault (configured text.now).plan (plan_at plan.old) }
{
    start(plan, links, marks, spans, rings, arrivals, text)
}

// The route list.
#[unsafe(no_mangle)]
pub extern "C" fn transfer_point_route_list_lent(
    plan: &[u16; 1024],
    links: &[u32; 256],
    marks: &[u32; 512],
    out: &mut [u8],
) -> Answer
    ensures value { result ≡
        RouteList.list_answer (RouteList.list_reply out.old (plan_of plan))
        (length (RouteList.list_written out.old links.now marks.now (plan_of plan))) }
    ensures out_after { out.new ≡
        RouteList.laid out.old 0 (RouteList.list_written out.old links.now marks.now (plan_of plan)) }
{
    route_list(plan, links, marks, out)
}
