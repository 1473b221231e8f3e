// What a changeover message asks of the link that it names: COO and ECO, which order a changeover, COA and ECA, which acknowledge one.
#![tactic(auto)]

ghost use Rattle.plan_words.specs.Words.{plan_of};
ghost use Rattle.std.specs.Prelude.{◌≡◌};
ghost use Rattle.management_asking.specs.Ask as Ask;

use area_links::load_link;
use changeover_cuts::{cut_at, cut_unknown};
use constants::NO_LINK;
use lookup::link_named;
use management_making::Draft;
use management_steps::{Step, ack_step, nothing, order_step};
use wire_messages::management::Message;

// The last received number of a link, a message just taken included.
#[tactic(auto, unfolding(crate::specs::Ask::last_received))]
fn last_received(links: &[u32; 256], arriving: u8, fsn: u8, link: u8) -> u8
    ensures { result ≡ Ask.last_received links.now arriving fsn link }
{
    if link == arriving {
        return fsn;
    }
    let known = load_link(links, link);
    known.received
}

// An ECA.
#[tactic(auto, unfolding(crate::specs::Ask::emergency_of))]
fn emergency_of(point: u16, slc: u8, link: u8) -> Draft
    ensures { result ≡ Ask.emergency_of point slc link }
{
    Draft {
        message: Message::ECA,
        point,
        slc,
        never: link,
    }
}

#[tactic(auto, unfolding(crate::specs::Ask::ask_coo))]
pub fn ask_coo(
    plan: &[u16; 1024],
    links: &[u32; 256],
    arriving: u8,
    fsn: u8,
    point: u16,
    slc: u8,
    f: u8,
) -> Step
    ensures { result ≡ Ask.ask_coo (plan_of plan) links.now arriving fsn point slc f }
{
    let link = link_named(plan, point, slc);
    if NO_LINK <= link {
        return nothing();
    }
    let known = load_link(links, link);
    let own = Draft {
        message: Message::COA(last_received(links, arriving, fsn, link)),
        point,
        slc,
        never: link,
    };
    let emergency = emergency_of(point, slc, link);
    order_step(known, link, own, emergency, cut_at(known, f))
}

#[tactic(auto, unfolding(crate::specs::Ask::ask_eco))]
pub fn ask_eco(plan: &[u16; 1024], links: &[u32; 256], point: u16, slc: u8) -> Step
    ensures { result ≡ Ask.ask_eco (plan_of plan) links.now point slc }
{
    let link = link_named(plan, point, slc);
    if NO_LINK <= link {
        return nothing();
    }
    let known = load_link(links, link);
    let own = emergency_of(point, slc, link);
    order_step(known, link, own, own, cut_unknown(known))
}

#[tactic(auto, unfolding(crate::specs::Ask::ask_coa))]
pub fn ask_coa(plan: &[u16; 1024], links: &[u32; 256], point: u16, slc: u8, f: u8) -> Step
    ensures { result ≡ Ask.ask_coa (plan_of plan) links.now point slc f }
{
    let link = link_named(plan, point, slc);
    let known = load_link(links, link);
    ack_step(link, known, cut_at(known, f))
}

#[tactic(auto, unfolding(crate::specs::Ask::ask_eca))]
pub fn ask_eca(plan: &[u16; 1024], links: &[u32; 256], point: u16, slc: u8) -> Step
    ensures { result ≡ Ask.ask_eca (plan_of plan) links.now point slc }
{
    let link = link_named(plan, point, slc);
    let known = load_link(links, link);
    ack_step(link, known, cut_unknown(known))
}
