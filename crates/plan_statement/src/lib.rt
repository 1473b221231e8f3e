// What a line of a configuration says, before any of it is put into the plan.
#![tactic(auto)]

ghost use Rattle.std.specs.Prelude.{◌≡◌};
ghost use Rattle.std.proofs.Math.Seq.{slice};
ghost use Rattle.plan_statement.specs.Statement as Statement·;

use plan_building::Fault;
use plan_keywords::{Word, fields, read_word};
use text::part::between;
use text_decimals::decimal::decimal;
use text_fields::first_four;

// A line's word and its numbers, whatever their range; a third that the word doesn't take is 0.
#[derive(Clone, Copy)]
pub struct Statement {
    pub word: Word,
    pub first: u64,
    pub second: u64,
    pub third: u64,
}

// What the line between two places of a text says, or its fault.
pub fn read_statement(text: &[u8], at: usize, to: usize) -> Result<Statement, Fault>
    ensures { result ≡ Statement·.read_statement (slice at to text.now) }
{
    let found = first_four(text, at, to);
    let word = read_word(between(text, at, found.zero.end));
    let first = between(text, found.zero.next, found.one.end);
    let second = between(text, found.one.next, found.two.end);
    let third = between(text, found.two.next, found.three.end);
    says_counted(found.count, word, first, second, third)
}

fn says_counted(
    count: u8,
    word: Option<Word>,
    first: &[u8],
    second: &[u8],
    third: &[u8],
) -> Result<Statement, Fault>
    ensures { result ≡ Statement·.says_counted count word first.now second.now third.now }
{
    let Some(word) = word else {
        return Err(Fault::WrongLine);
    };
    if count != fields(word) {
        return Err(Fault::WrongLine);
    }
    if count == 3 {
        return says(word, first, second, b"0");
    }
    says(word, first, second, third)
}

fn says(word: Word, first: &[u8], second: &[u8], third: &[u8]) -> Result<Statement, Fault>
    ensures { result ≡ Statement·.says word first.now second.now third.now }
{
    let Some(first) = decimal(first, u64::MAX) else {
        return Err(Fault::OutOfRange);
    };
    let Some(second) = decimal(second, u64::MAX) else {
        return Err(Fault::OutOfRange);
    };
    let Some(third) = decimal(third, u64::MAX) else {
        return Err(Fault::OutOfRange);
    };
    Ok(Statement {
        word,
        first,
        second,
        third,
    })
}
