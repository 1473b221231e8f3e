// The kinds of a record's lines, and what stands behind the word of each.
#![tactic(auto)]

ghost use Rattle.std.specs.Prelude.{◌≡◌};
ghost use Rattle.record_kinds.specs.Kind as Kind·;

#[derive(Clone, Copy)]
pub enum Kind {
    Service,
    Failure,
    Send,
    Acknowledged,
    Received,
    Host,
    Routes,
    T1,
    T2,
    T3,
    T4,
    T6,
    T8,
    T10,
}

// What stands behind the word.
#[derive(Clone, Copy)]
pub enum Form {
    Bare,
    OneNumber,
    TwoNumbers,
    Message,
    TwoNumbersAndMessage,
}

// What a line of a kind has behind its word.
pub fn form_of(kind: Kind) -> Form
    ensures { result ≡ Kind·.form_of kind }
{
    match kind {
        Kind::Service => Form::OneNumber,
        Kind::Failure => Form::OneNumber,
        Kind::Send => Form::OneNumber,
        Kind::Acknowledged => Form::TwoNumbers,
        Kind::Received => Form::TwoNumbersAndMessage,
        Kind::Host => Form::Message,
        Kind::Routes => Form::Bare,
        Kind::T1 => Form::OneNumber,
        Kind::T2 => Form::OneNumber,
        Kind::T3 => Form::OneNumber,
        Kind::T4 => Form::OneNumber,
        Kind::T6 => Form::OneNumber,
        Kind::T8 => Form::OneNumber,
        Kind::T10 => Form::TwoNumbers,
    }
}

// How many fields a line of a form has, its word among them.
pub fn fields_of(form: Form) -> u8
    ensures { result ≡ Kind·.fields_of form }
{
    match form {
        Form::Bare => 1,
        Form::OneNumber => 2,
        Form::TwoNumbers => 3,
        Form::Message => 2,
        Form::TwoNumbersAndMessage => 4,
    }
}

// How many fields a line has whose first word was read as a kind, that word among them; 0 where no line begins with it.
pub fn fields_in(kind: Option<Kind>) -> u8
    ensures { result ≡ Kind·.fields_in kind }
{
    match kind {
        Some(kind) => fields_of(form_of(kind)),
        None => 0,
    }
}
