// A configuration read line by line.
ghost use Rattle.std.specs.Prelude.{◌≡◌, ◌&&◌, leb};
ghost use Rattle.std.proofs.Math.Seq.{slice};
ghost use Rattle.plan_building.specs.Building.{number};
ghost use Rattle.plan_configuration.specs.Configure as Configure;

use plan::data::{Plan, empty_plan};
use plan_building::Fault;
use plan_keywords::{Word, read_word};
use plan_links::add_link;
use plan_routes::add_route;
use plan_sets::{add_node, add_set};
use plan_statement::{Statement, read_statement};
use text::part::{between, field};
use text_lines::line_from;

// Fault 0 and the plan; or the first faulty line, its first fault, and a plan with no node.
#[repr(C)]
#[derive(Clone, Copy)]
pub struct Configured {
    pub line: usize,
    pub fault: u8,
    pub plan: Plan,
}

// The plan that a text makes, whatever the text.
pub fn configure(text: &[u8]) -> Configured
    ensures { result ≡ Configure.configured text.now }
{
    if 16384 < text.len() {
        return faulty(0, Fault::Full);
    }
    let mut plan = empty_plan();
    let mut number = 1;
    let mut at = 0;
    loop {
        let end = line_from(text, at);
        if is_done(plan.given, at, text.len()) {
            return Configured {
                line: 0,
                fault: 0,
                plan,
            };
        }
        match add_line(plan, text, at, end.end, end.closed) {
            Ok(next) => plan = next,
            Err(fault) => return faulty(number, fault),
        }
        number += 1;
        at = end.next;
    }
}

// Whether all of a text is read: its node line, and nothing behind the last LF.
fn is_done(given: bool, at: usize, length: usize) -> bool
    ensures { result ≡ given && leb length at }
{
    if given { length <= at } else { false }
}

// The line between two places of a text put into the plan.
fn add_line(plan: Plan, text: &[u8], at: usize, to: usize, ended: bool) -> Result<Plan, Fault>
    ensures { result ≡ Configure.add_line plan (slice at to text.now) ended }
{
    if !plan.given && !is_node(first_word(text, at, to)) {
        return Err(Fault::NoNode);
    }
    if !ended {
        return Err(Fault::WrongLine);
    }
    let statement = read_statement(text, at, to)?;
    add(plan, statement)
}

fn add(plan: Plan, statement: Statement) -> Result<Plan, Fault>
    ensures { result ≡ Configure.add plan statement }
{
    let word = statement.word;
    let first = statement.first;
    let second = statement.second;
    let third = statement.third;
    match word {
        Word::Node => add_node(plan, first, second),
        Word::Set => add_set(plan, first, second),
        Word::Link => add_link(plan, first, second, third),
        Word::Route => add_route(plan, first, second, third),
    }
}

fn first_word(text: &[u8], at: usize, to: usize) -> Option<Word>
    ensures { result ≡ Configure.first_word (slice at to text.now) }
{
    let first = field(text, at, to);
    read_word(between(text, at, first.end))
}

fn is_node(word: Option<Word>) -> bool
    ensures { result ≡ Configure.is_node word }
{
    matches!(word, Some(Word::Node))
}

fn faulty(line: usize, fault: Fault) -> Configured
    ensures { result ≡ Configure.faulty line (number fault) }
{
    Configured {
        line,
        fault: fault.number(),
        plan: empty_plan(),
    }
}
