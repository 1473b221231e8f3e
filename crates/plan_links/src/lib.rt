// A link line put into the plan.
#![tactic(auto)]

ghost use Rattle.std.specs.Prelude.{◌≡◌};
ghost use Rattle.plan_links.specs.LinkLines as LinkLines;

use plan::data::{Link, LinkSet, Plan};
use plan_building::Fault;
use plan_entries::insert::inserted;
use plan_repeats::taken::place_among;

pub fn add_link(plan: Plan, number: u64, set: u64, slc: u64) -> Result<Plan, Fault>
    ensures { result ≡ LinkLines.add_link plan number set slc }
{
    if 31 < number || 7 < set || 15 < slc {
        return Err(Fault::OutOfRange);
    }
    let n = number as usize;
    let s = set as usize;
    let those = plan.sets[s];
    if !those.given {
        return Err(Fault::NotGiven);
    }
    let link = plan.links[n];
    if link.given {
        return Err(Fault::Repeat);
    }
    let Some(place) = place_among(plan, s, slc as u8) else {
        return Err(Fault::Repeat);
    };
    if 8 <= those.count {
        return Err(Fault::Full);
    }
    let before = those.links;
    let links = inserted(before, place, number as u8);
    let mut next = plan;
    next.links[n] = Link {
        given: true,
        set: set as u8,
        slc: slc as u8,
    };
    next.sets[s] = LinkSet {
        given: true,
        adjacent: those.adjacent,
        count: those.count + 1,
        links,
    };
    Ok(next)
}
