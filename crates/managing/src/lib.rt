// A management message for us: what each of the nine does.
#![tactic(auto)]

ghost use Rattle.plan_words.specs.Words.{plan_of};
ghost use Rattle.std.specs.Prelude.{◌≡◌};
ghost use Rattle.replies.specs.Areas.{Leaves, before, after};
ghost use Rattle.managing.specs.Managed as Managed;

use changeback_waiting::answer_by;
use discrimination::Order;
use management_asking::{ask_coa, ask_coo, ask_eca, ask_eco};
use management_orders::carry_out;
use management_requests::{ask_cbd, ask_rst};
use management_steps::Step;
use replies::Answer;
use rerouting::transfer::transfer;
use wire_messages::management::Message;

// That a destination can't be reached by the sender of a TFP, or can again by that of a TFA.
#[derive(Clone, Copy)]
pub struct Prohibition {
    pub x: u16,
    pub prohibits: bool,
}

// What a message does.
#[derive(Clone, Copy)]
pub enum Effect {
    // It is answered, or ends a changeover.
    Carries(Step),
    // A CBA, with its code.
    Answers(u8),
    // A TFP, or a TFA.
    Transfers(Prohibition),
}

// What a message does, by what it is.
#[tactic(auto, unfolding(crate::specs::Managed::asked))]
fn ask(
    plan: &[u16; 1024],
    links: &[u32; 256],
    marks: &[u32; 512],
    arriving: u8,
    fsn: u8,
    order: Order,
) -> Effect
    ensures { result ≡ Managed.asked (plan_of plan) links.now marks.now arriving fsn order.point order.slc order.message }
{
    let point = order.point;
    let slc = order.slc;
    let message = order.message;
    match message {
        Message::COO(f) => Effect::Carries(ask_coo(plan, links, arriving, fsn, point, slc, f)),
        Message::COA(f) => Effect::Carries(ask_coa(plan, links, point, slc, f)),
        Message::ECO => Effect::Carries(ask_eco(plan, links, point, slc)),
        Message::ECA => Effect::Carries(ask_eca(plan, links, point, slc)),
        Message::CBD(code) => Effect::Carries(ask_cbd(plan, point, slc, code)),
        Message::RST(x) => Effect::Carries(ask_rst(plan, links, marks, point, x)),
        Message::CBA(code) => Effect::Answers(code),
        Message::TFP(x) => Effect::Transfers(Prohibition {
            x: x,
            prohibits: true,
        }),
        Message::TFA(x) => Effect::Transfers(Prohibition {
            x: x,
            prohibits: false,
        }),
    }
}

// What a message does that came over a link with a number.
pub fn manage(
    plan: &[u16; 1024],
    links: &mut [u32; 256],
    marks: &mut [u32; 512],
    spans: &mut [u16; 70],
    rings: &mut [u8; 8960],
    rows: &mut [u64; 2048],
    arrivals: &mut [u64; 1],
    arriving: u8,
    fsn: u8,
    order: Order,
    reports: &mut [u64],
) -> Answer
    ensures { Leaves
        (Managed.managed (plan_of plan) arriving fsn order.point order.slc order.message (before links.old marks.old spans.old rings.old rows.old arrivals.old reports.old)) result
        (after links.new marks.new spans.new rings.new rows.new arrivals.new reports.new) }
{
    match ask(plan, links, marks, arriving, fsn, order) {
        Effect::Carries(step) => carry_out(
            plan, links, marks, spans, rings, rows, arrivals, step, reports,
        ),
        Effect::Answers(code) => answer_by(plan, links, order.point, order.slc, code),
        Effect::Transfers(about) => transfer(
            plan,
            links,
            marks,
            spans,
            rings,
            rows,
            arrivals,
            order.point,
            about.x,
            about.prohibits,
            reports,
        ),
    }
}
