// The word that a record's line begins with: the kind that it names.
#![tactic(auto)]

ghost use Rattle.std.specs.Prelude.{◌≡◌};
ghost use Rattle.record_words.specs.KindWords.{kind_of, timer_of};

use record_kinds::Kind;
use text::part::same;

// The kind that a text names; none where no line begins with it.
pub fn read_kind(text: &[u8]) -> Option<Kind>
    ensures { result ≡ kind_of text.now }
{
    if same(text, b"service") {
        return Some(Kind::Service);
    }
    if same(text, b"failure") {
        return Some(Kind::Failure);
    }
    if same(text, b"send") {
        return Some(Kind::Send);
    }
    if same(text, b"ack") {
        return Some(Kind::Acknowledged);
    }
    if same(text, b"received") {
        return Some(Kind::Received);
    }
    if same(text, b"host") {
        return Some(Kind::Host);
    }
    if same(text, b"routes") {
        return Some(Kind::Routes);
    }
    timer_kind(text)
}

#[tactic(auto, unfolding(crate::specs::KindWords::timer_of))]
fn timer_kind(text: &[u8]) -> Option<Kind>
    ensures { result ≡ timer_of text.now }
{
    if same(text, b"t1") {
        return Some(Kind::T1);
    }
    if same(text, b"t2") {
        return Some(Kind::T2);
    }
    if same(text, b"t3") {
        return Some(Kind::T3);
    }
    if same(text, b"t4") {
        return Some(Kind::T4);
    }
    if same(text, b"t6") {
        return Some(Kind::T6);
    }
    if same(text, b"t8") {
        return Some(Kind::T8);
    }
    if same(text, b"t10") {
        return Some(Kind::T10);
    }
    None
}
