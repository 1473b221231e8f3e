// Which destinations are accessible, and the report of those whose access changed.
#![tactic(auto)]

ghost use Rattle.plan_words.specs.Words.{plan_of};
ghost use Rattle.std.specs.Prelude.{◌≡◌, false, ℕ, get_or};
ghost use Rattle.plan.specs.Find.{given};
ghost use Rattle.reports.specs.Report.{log};
ghost use Rattle.route_access.specs.Change as Change;

use constants::NO_LINK;
use plan_words::read::{count, destination_code};
use reports::report;
use route_ways::current;

// How many destinations are given, of 64.
pub fn given_of(plan: &[u16; 1024]) -> usize
    ensures { result ≡ given (plan_of plan) }
{
    (count(plan) as usize).min(64)
}

// Whether a destination is accessible.
#[tactic(auto, unfolding(crate::specs::Change::is_accessible))]
pub fn accessible(
    plan: &[u16; 1024],
    links: &[u32; 256],
    marks: &[u32; 512],
    destination: usize,
) -> bool
    ensures { result ≡ Change.is_accessible (plan_of plan) links.now marks.now destination }
{
    current(plan, links, marks, destination, 0) < NO_LINK
}

// Which of the given destinations are accessible.
pub fn accesses(plan: &[u16; 1024], links: &[u32; 256], marks: &[u32; 512]) -> [bool; 64]
    ensures { result ≡ Change.accesses_of (plan_of plan) links.now marks.now }
{
    let mut each = [false; 64];
    for destination in 0..given_of(plan) {
        each[destination] = accessible(plan, links, marks, destination);
    }
    each
}

// The report of one destination, if its access changed.
#[tactic(auto, unfolding(crate::specs::Change::told_one))]
fn report_one(before: bool, after: bool, code: u16, reports: &mut [u64], count: usize) -> usize
    ensures value { result ≡ (Change.told_one before after code (log reports.old count)).count }
    ensures reports_after { reports.new ≡ (Change.told_one before after code (log reports.old count)).area }
{
    if before && !after {
        return report(reports, count, 4, code as u64);
    }
    if after && !before {
        return report(reports, count, 5, code as u64);
    }
    count
}

// The code of a destination.
#[tactic(auto, using(crate::proofs::Told::code_there, crate::proofs::Told::code_past))]
fn code_of(plan: &[u16; 1024], destination: usize) -> u16
    ensures { result ≡ Change.code_of (plan_of plan) destination }
{
    if 64 <= destination {
        return 0;
    }
    destination_code(plan, destination)
}

// The report of each destination whose access isn't what it was before; how many records there are now.
pub fn report_changes(
    plan: &[u16; 1024],
    links: &[u32; 256],
    marks: &[u32; 512],
    before: [bool; 64],
    reports: &mut [u64],
    count: usize,
) -> usize
    ensures value { result ≡
        (Change.changes_told (plan_of plan) (λ (d : ℕ). get_or before d false)
        (Change.is_accessible (plan_of plan) links.now marks.now) (log reports.old count)).count }
    ensures reports_after { reports.new ≡
        (Change.changes_told (plan_of plan) (λ (d : ℕ). get_or before d false)
        (Change.is_accessible (plan_of plan) links.now marks.now) (log reports.old count)).area }
{
    let mut told = count;
    for destination in 0..given_of(plan) {
        let after = accessible(plan, links, marks, destination);
        let code = code_of(plan, destination);
        told = report_one(before[destination], after, code, reports, told);
    }
    told
}
