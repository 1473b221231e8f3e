// The line of what became of a message by a call.
#![tactic(auto, unfolding(text_pages::specs::Page::puts))]

ghost use Rattle.std.specs.Prelude.{◌≡◌, [], ◌∷◌};
ghost use Rattle.text_decimals.specs.Decimal.{decimal_of};
ghost use Rattle.text_pages.specs.Page.{page, puts, parted};
ghost use Rattle.fate_lines.specs.Lines as Lines;

use text::put::put;
use text_decimals::decimal::put_decimal;
use text_pages::put_number;

// What became of a message, by its arrival number: it was queued on a link, 32 where it is held apart, with its heading, 0 for a user message;
// left over a link with a number; was acknowledged or retired there; or left one queue for another.
#[derive(Clone, Copy)]
pub enum Fate {
    Unchanged,
    Queued(u64, u8, u64),
    Sent(u64, u8, u8),
    Acknowledged(u64, u8),
    Retired(u64, u8),
    Moved(u64, u8, u8),
}

// The line of a fate, behind those written before.
pub fn put_fate(out: &mut [u8], at: usize, number: u64, fate: Fate) -> usize
    ensures { page out.new result ≡ puts (page out.old at) (Lines.fate_line number fate) }
{
    match fate {
        Fate::Unchanged => at,
        Fate::Queued(arrival, queue, heading) => {
            let at = put_start(out, at, number, b"\tqueued\t", arrival);
            put_queued(out, at, queue, heading)
        }
        Fate::Sent(arrival, link, fsn) => {
            let at = put_start(out, at, number, b"\tsent\t", arrival);
            let at = put_place(out, at, link, b"\t");
            put_number(out, at, fsn as u64, b"\n")
        }
        Fate::Acknowledged(arrival, link) => {
            let at = put_start(out, at, number, b"\tacknowledged\t", arrival);
            put_place(out, at, link, b"\n")
        }
        Fate::Retired(arrival, link) => {
            let at = put_start(out, at, number, b"\tretired\t", arrival);
            put_place(out, at, link, b"\n")
        }
        Fate::Moved(arrival, from, to) => {
            let at = put_start(out, at, number, b"\tmoved\t", arrival);
            let at = put_place(out, at, from, b"\t");
            put_place(out, at, to, b"\n")
        }
    }
}

// How each line begins: the call's number, what became of the message, its arrival number.
fn put_start(out: &mut [u8], at: usize, number: u64, word: &[u8], arrival: u64) -> usize
    ensures { page out.new result ≡
        puts (page out.old at) (decimal_of number ∷ word.now ∷ decimal_of arrival ∷ parted ∷ []) }
{
    let at = put_number(out, at, number, word);
    put_number(out, at, arrival, b"\t")
}

// A link, or `apart`, and what stands behind it.
fn put_place(out: &mut [u8], at: usize, queue: u8, behind: &[u8]) -> usize
    ensures { page out.new result ≡ puts (page out.old at) (Lines.placed queue ∷ behind.now ∷ []) }
{
    if queue == 32 {
        let at = put(out, at, b"apart");
        return put(out, at, behind);
    }
    put_number(out, at, queue as u64, behind)
}

// Where a message was queued, and its name if the node made it.
fn put_queued(out: &mut [u8], at: usize, queue: u8, heading: u64) -> usize
    ensures { page out.new result ≡ puts (page out.old at) (Lines.queued_at queue heading) }
{
    if heading == 0 {
        return put_place(out, at, queue, b"\n");
    }
    let name = name(heading);
    let at = put_place(out, at, queue, b"\t");
    let at = put(out, at, &name);
    put(out, at, b"\n")
}

// The name of a management message.
fn name(heading: u64) -> [u8; 3]
    ensures { result ≡ Lines.name_of heading }
{
    match heading {
        0x11 => *b"COO",
        0x21 => *b"COA",
        0x51 => *b"CBD",
        0x61 => *b"CBA",
        0x12 => *b"ECO",
        0x22 => *b"ECA",
        0x14 => *b"TFP",
        0x54 => *b"TFA",
        0x15 => *b"RST",
        _ => *b"???",
    }
}
