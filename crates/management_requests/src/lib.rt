// What is only answered: CBD, from any link's point, and RST, the test of a route set.
#![tactic(auto)]

ghost use Rattle.plan_words.specs.Words.{plan_of};
ghost use Rattle.std.specs.Prelude.{◌≡◌};
ghost use Rattle.management_requests.specs.Request as Request;

use constants::NO_LINK;
use lookup::{link_named, set_to};
use management_making::Draft;
use management_steps::{Step, answer, nothing};
use plan_words::find::find;
use route_access::accessible;
use route_current::current_set;
use wire_messages::management::Message;

#[tactic(auto, unfolding(crate::specs::Request::ask_cbd))]
pub fn ask_cbd(plan: &[u16; 1024], point: u16, slc: u8, code: u8) -> Step
    ensures { result ≡ Request.ask_cbd (plan_of plan) point slc code }
{
    if NO_LINK <= link_named(plan, point, slc) {
        return nothing();
    }
    answer(Draft {
        message: Message::CBA(code),
        point,
        slc,
        never: NO_LINK,
    })
}

// Whether a route set test is answered.
#[tactic(auto, unfolding(crate::specs::Request::allows))]
fn allows(plan: &[u16; 1024], links: &[u32; 256], marks: &[u32; 512], point: u16, x: u16) -> bool
    ensures { result ≡ Request.allows (plan_of plan) links.now marks.now point x }
{
    let asker = set_to(plan, point);
    if 8 <= asker {
        return false;
    }
    let Ok(place) = find(plan, x) else {
        return false;
    };
    if !accessible(plan, links, marks, place) {
        return false;
    }
    current_set(plan, links, marks, place) != asker
}

#[tactic(auto, unfolding(crate::specs::Request::ask_rst))]
pub fn ask_rst(
    plan: &[u16; 1024],
    links: &[u32; 256],
    marks: &[u32; 512],
    point: u16,
    x: u16,
) -> Step
    ensures { result ≡ Request.ask_rst (plan_of plan) links.now marks.now point x }
{
    if !allows(plan, links, marks, point, x) {
        return nothing();
    }
    answer(Draft {
        message: Message::TFA(x),
        point,
        slc: 0,
        never: NO_LINK,
    })
}
