// What put a link out, and whether it tells what the far end took.
use crate::changeover::Gone;
use area_links::LinkRecord;
use constants::WAITING;
use counting::in_range;
use text::part::{between, field, same};
use text::put::put;
use text_pages::put_number;
use wire_messages::management::{Message as Management, read_message};

// A timer of its changeover; a changeover message, with its number, and whether that tells what the far end took; or the failure of a waiting link.
#[derive(Clone, Copy)]
pub enum Cause {
    T1,
    T2,
    COO { number: u8, tells: bool },
    COA { number: u8, tells: bool },
    ECO,
    ECA,
    Failure,
}

// By the link's record before the call, the call's line, and the octets of the message that it brought.
pub fn cause_of(before: LinkRecord, text: &[u8], octets: &[u8]) -> Cause {
    let kind = field(text, 0, text.len());
    let word = between(text, 0, kind.end);
    if same(word, b"t1") {
        return Cause::T1;
    }
    if same(word, b"t2") {
        return Cause::T2;
    }
    let Some(message) = read_message(octets) else {
        return Cause::Failure;
    };
    match message {
        Management::COO(number) => Cause::COO {
            number,
            tells: tells(before, number),
        },
        Management::COA(number) => Cause::COA {
            number,
            tells: tells(before, number),
        },
        Management::ECO => Cause::ECO,
        _ => Cause::ECA,
    }
}

// A number tells it where it is in range. A waiting link has sent nothing.
fn tells(before: LinkRecord, number: u8) -> bool {
    before.state == WAITING || in_range(before.acknowledged, before.sent, number)
}

// The link that went out and is left in doubt, so that what was sent on it is sent again. An ECO or ECA doesn't tell either what the far end took, but
// then nothing that was sent moves.
pub fn doubted_by(gone: Gone, cause: Cause) -> Option<u64> {
    if known_by(cause) {
        return None;
    }
    Some(gone.link as u64)
}

fn known_by(cause: Cause) -> bool {
    match cause {
        Cause::T1 => false,
        Cause::T2 => false,
        Cause::COO { tells, .. } => tells,
        Cause::COA { tells, .. } => tells,
        _ => true,
    }
}

pub fn put_cause(out: &mut [u8], at: usize, cause: Cause) -> usize {
    match cause {
        Cause::T1 => put(out, at, b"T1"),
        Cause::T2 => put(out, at, b"T2"),
        Cause::COO { number, tells } => put_numbered(out, at, b"COO", number, tells),
        Cause::COA { number, tells } => put_numbered(out, at, b"COA", number, tells),
        Cause::ECO => put(out, at, b"ECO"),
        Cause::ECA => put(out, at, b"ECA"),
        Cause::Failure => put(out, at, b"its failure while waiting"),
    }
}

fn put_numbered(out: &mut [u8], at: usize, name: &[u8], number: u8, tells: bool) -> usize {
    let at = put(out, at, name);
    let at = put(out, at, b" with number ");
    if tells {
        return put_number(out, at, number as u64, b"");
    }
    put_number(out, at, number as u64, b" not in range")
}
