// A node line and a set line put into the plan.
#![tactic(auto)]

ghost use Rattle.std.specs.Prelude.{◌≡◌};
ghost use Rattle.plan_sets.specs.SetLines as SetLines;

use plan::data::{LinkSet, Plan};
use plan_building::Fault;
use plan_repeats::taken::adjacent_taken;

pub fn add_node(plan: Plan, code: u64, ni: u64) -> Result<Plan, Fault>
    ensures { result ≡ SetLines.add_node plan code ni }
{
    if 16383 < code || 3 < ni {
        return Err(Fault::OutOfRange);
    }
    if plan.given {
        return Err(Fault::Repeat);
    }
    let mut next = plan;
    next.given = true;
    next.code = code as u16;
    next.ni = ni as u8;
    Ok(next)
}

pub fn add_set(plan: Plan, number: u64, adjacent: u64) -> Result<Plan, Fault>
    ensures { result ≡ SetLines.add_set plan number adjacent }
{
    if 7 < number || 16383 < adjacent {
        return Err(Fault::OutOfRange);
    }
    let n = number as usize;
    let code = adjacent as u16;
    let sets = plan.sets;
    let those = sets[n];
    if those.given || adjacent_taken(sets, code) || code == plan.code {
        return Err(Fault::Repeat);
    }
    let mut next = plan;
    next.sets[n] = LinkSet {
        given: true,
        adjacent: code,
        count: 0,
        links: [0; 8],
    };
    Ok(next)
}
