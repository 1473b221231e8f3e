// The line of a record for a call or a question, so that a host can keep its shift: what `record` reads, written.
#![tactic(auto)]

ghost use Rattle.std.specs.Prelude.{◌≡◌, [], ◌∷◌};
ghost use Rattle.text_decimals.specs.Decimal.{decimal_of};
ghost use Rattle.text_hex.specs.Hex.{hex_of};
ghost use Rattle.text_pages.specs.Page.{page, puts, parted, ended};
ghost use Rattle.record_keeping.specs.Recorder.{as_line, calls, asks, line_of};

use node::ask::Question;
use node::call::Event;
use text::put::put;
use text_hex::hex::put_hex;
use text_pages::put_number;

// Writes the line of a call behind those written before; the message is that received or handed over.
pub fn put_call(out: &mut [u8], at: usize, event: Event, message: &[u8]) -> usize
    ensures { page out.new result ≡ puts (page out.old at) (line_of (calls event message.now)) }
{
    match event {
        Event::IntoService(link) => put_one(out, at, b"service", link as u64),
        Event::Failure(link) => put_one(out, at, b"failure", link as u64),
        Event::Send(link) => put_one(out, at, b"send", link as u64),
        Event::Acknowledgement(link, b) => put_two(out, at, b"ack", link as u64, b as u64),
        Event::Received(link, fsn) => put_two_and_message(
            out,
            at,
            b"received",
            link as u64,
            fsn as u64,
            message,
        ),
        Event::FromHost => put_message(out, at, b"host", message),
        Event::T1(link) => put_one(out, at, b"t1", link as u64),
        Event::T2(link) => put_one(out, at, b"t2", link as u64),
        Event::T3(link) => put_one(out, at, b"t3", link as u64),
        Event::T4(link) => put_one(out, at, b"t4", link as u64),
        Event::T6(destination) => put_one(out, at, b"t6", destination as u64),
        Event::T8(destination) => put_one(out, at, b"t8", destination as u64),
        Event::T10(destination, set) => put_two(out, at, b"t10", destination as u64, set as u64),
    }
}

// Writes the line of a question.
pub fn put_question(out: &mut [u8], at: usize, question: Question) -> usize
    ensures { page out.new result ≡ puts (page out.old at) (line_of (asks question)) }
{
    match question {
        Question::RouteList => put_bare(out, at, b"routes"),
    }
}

// The line of a word alone.
#[tactic(auto, unfolding(text_pages::specs::Page::puts, crate::specs::Recorder::as_line))]
fn put_bare(out: &mut [u8], at: usize, word: &[u8]) -> usize
    ensures { page out.new result ≡ puts (page out.old at) (as_line (word.now ∷ [])) }
{
    let at = put(out, at, word);
    put(out, at, b"\n")
}

// The line of a word and a number.
#[tactic(auto, unfolding(text_pages::specs::Page::puts, crate::specs::Recorder::as_line))]
fn put_one(out: &mut [u8], at: usize, word: &[u8], number: u64) -> usize
    ensures { page out.new result ≡ puts (page out.old at) (as_line (word.now ∷ decimal_of number ∷ [])) }
{
    let at = put_word(out, at, word);
    put_number(out, at, number, b"\n")
}

// The line of a word and two numbers.
#[tactic(auto, unfolding(text_pages::specs::Page::puts, crate::specs::Recorder::as_line))]
fn put_two(out: &mut [u8], at: usize, word: &[u8], first: u64, second: u64) -> usize
    ensures { page out.new result ≡ puts (page out.old at) (as_line (word.now ∷ decimal_of first ∷ decimal_of second ∷ [])) }
{
    let at = put_word(out, at, word);
    let at = put_number(out, at, first, b"\t");
    put_number(out, at, second, b"\n")
}

// The line of a word and octets.
#[tactic(auto, unfolding(text_pages::specs::Page::puts, crate::specs::Recorder::as_line))]
fn put_message(out: &mut [u8], at: usize, word: &[u8], message: &[u8]) -> usize
    ensures { page out.new result ≡ puts (page out.old at) (as_line (word.now ∷ hex_of message.now ∷ [])) }
{
    let at = put_word(out, at, word);
    put_octets(out, at, message)
}

// The line of a word, two numbers and octets.
#[tactic(auto, unfolding(text_pages::specs::Page::puts, crate::specs::Recorder::as_line))]
fn put_two_and_message(
    out: &mut [u8],
    at: usize,
    word: &[u8],
    first: u64,
    second: u64,
    message: &[u8],
) -> usize
    ensures { page out.new result ≡
        puts (page out.old at) (as_line (word.now ∷ decimal_of first ∷ decimal_of second ∷ hex_of message.now ∷ [])) }
{
    let at = put_word(out, at, word);
    let at = put_number(out, at, first, b"\t");
    let at = put_number(out, at, second, b"\t");
    put_octets(out, at, message)
}

// A word that has fields behind it.
#[tactic(auto, unfolding(text_pages::specs::Page::puts))]
fn put_word(out: &mut [u8], at: usize, word: &[u8]) -> usize
    ensures { page out.new result ≡ puts (page out.old at) (word.now ∷ parted ∷ []) }
{
    let at = put(out, at, word);
    put(out, at, b"\t")
}

// The octets that end a line.
#[tactic(auto, unfolding(text_pages::specs::Page::puts))]
fn put_octets(out: &mut [u8], at: usize, octets: &[u8]) -> usize
    ensures { page out.new result ≡ puts (page out.old at) (hex_of octets.now ∷ ended ∷ []) }
{
    let at = put_hex(out, at, octets);
    put(out, at, b"\n")
}
