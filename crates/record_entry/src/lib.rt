// What a line of a record says, before it is made a call.
#![tactic(auto)]

ghost use Rattle.std.specs.Prelude.{◌≡◌};
ghost use Rattle.std.proofs.Math.Seq.{slice};
ghost use Rattle.record_entry.specs.Entry as Entry·;

use record_kinds::{Form, Kind, fields_of, form_of};
use record_words::read_kind;
use text::part::between;
use text_decimals::decimal::decimal;
use text_fields::first_four;
use text_hex::hex::hex;

// A line's kind, its numbers, whatever their range, and how many octets it has; a number that the kind doesn't take is 0.
#[derive(Clone, Copy)]
pub struct Said {
    pub kind: Kind,
    pub first: u64,
    pub second: u64,
    pub octets: usize,
}

// What the line between two places of a text says; none where it can't be read. Its octets are put at the start of the lent area,
// which holds as many as a field may have.
pub fn read_entry(text: &[u8], at: usize, to: usize, message: &mut [u8]) -> Option<Said>
    ensures value { result ≡ Entry·.read_entry message.old (slice at to text.now) }
    ensures message_after { message.new ≡ Entry·.area_after message.old (slice at to text.now) }
{
    let found = first_four(text, at, to);
    let kind = read_kind(between(text, at, found.zero.end))?;
    if found.count != fields_of(form_of(kind)) {
        return None;
    }
    let one = between(text, found.zero.next, found.one.end);
    let two = between(text, found.one.next, found.two.end);
    let three = between(text, found.two.next, found.three.end);
    read_fields(kind, one, two, three, message)
}

// The fields behind a kind, as many as it has.
fn read_fields<'a>(
    kind: Kind,
    one: &'a [u8],
    two: &[u8],
    three: &'a [u8],
    message: &mut [u8],
) -> Option<Said>
    ensures value { result ≡ Entry·.read_by message.old kind one.now two.now three.now }
    ensures message_after { message.new ≡ Entry·.kept_by message.old kind one.now two.now three.now }
{
    let form = form_of(kind);
    let first = number_in(form, 0, one)?;
    let second = number_in(form, 1, two)?;
    let octets = hex(octets_in(form, one, three), message)?;
    Some(Said {
        kind,
        first,
        second,
        octets,
    })
}

// The number that a field says, if the form has one more than so many before it; else 0.
fn number_in(form: Form, before: u8, field: &[u8]) -> Option<u64>
    ensures { result ≡ Entry·.number_in form before field.now }
{
    if numbers_of(form) <= before {
        return Some(0);
    }
    decimal(field, u64::MAX)
}

// How many numbers a line of a form has; they stand before its octets.
fn numbers_of(form: Form) -> u8
    ensures { result ≡ Entry·.numbers_of form }
{
    match form {
        Form::Bare => 0,
        Form::OneNumber => 1,
        Form::TwoNumbers => 2,
        Form::Message => 0,
        Form::TwoNumbersAndMessage => 2,
    }
}

// The field of a form's octets; none where it has none.
fn octets_in<'a>(form: Form, one: &'a [u8], three: &'a [u8]) -> &'a [u8]
    ensures { result.now ≡ Entry·.octets_in form one.now three.now }
{
    match form {
        Form::Bare => &one[..0],
        Form::OneNumber => &one[..0],
        Form::TwoNumbers => &one[..0],
        Form::Message => one,
        Form::TwoNumbersAndMessage => three,
    }
}
