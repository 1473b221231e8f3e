// The line of a message: where it came from and goes, what it is, and what became of it.
use crate::kind::put_kind;
use text::put::put;
use text_pages::put_number;
use tool_words::words::put_reason;
use trace_rows::held::{Message, Move, Place, load, load_move};

// What became of a message: acknowledged at a line; retired by a changeover number at a line; dropped for a reason at a line; still held.
#[derive(Clone, Copy)]
pub enum Ending {
    Acknowledged { line: u64 },
    Retired { by: u64, line: u64 },
    Dropped { reason: u64, line: u64 },
    Held,
}

// The line, from the start of the area on; how long it is.
pub fn put_line(out: &mut [u8], rows: &[u64; 8192], row: u8, ending: Ending) -> usize {
    let message = load(rows, row);
    let at = put_numbers(out, message);
    let at = put(out, at, b"\t");
    let at = put_moves(out, at, rows, row, message.moves);
    put_ending(out, at, message, ending)
}

fn put_numbers(out: &mut [u8], message: Message) -> usize {
    let at = put_number(out, 0, message.arrival, b"\t");
    let at = put_number(out, at, message.line, b"\t");
    let at = put_number(out, at, message.origin, b"\t");
    let at = put_number(out, at, message.destination, b"\t");
    let at = put_number(out, at, message.sls, b"\t");
    put_kind(out, at, message)
}

// The last eight moves, and how many there were before them.
fn put_moves(out: &mut [u8], from: usize, rows: &[u64; 8192], row: u8, moves: u64) -> usize {
    let before = moves.saturating_sub(8);
    let mut at = put_before(out, from, before);
    for number in before..moves {
        at = put_move(out, at, load_move(rows, row, number));
    }
    at
}

fn put_before(out: &mut [u8], at: usize, count: u64) -> usize {
    if count == 0 {
        return at;
    }
    let at = put(out, at, b"moved ");
    put_number(out, at, count, b" times before; ")
}

fn put_move(out: &mut [u8], at: usize, made: Move) -> usize {
    if let Some(fsn) = made.resent {
        return put_resent(out, at, made, fsn);
    }
    let at = put(out, at, b"moved ");
    let at = put_place(out, at, made.from, b" to ");
    let at = put_place(out, at, made.to, b" at ");
    put_number(out, at, made.line, b"; ")
}

// A move off a link whose far end may have the message already.
fn put_resent(out: &mut [u8], at: usize, made: Move, fsn: u64) -> usize {
    let at = put(out, at, b"sent");
    let at = put_sent(out, at, made.from, fsn, b", moved to ");
    let at = put_place(out, at, made.to, b" at ");
    put_number(out, at, made.line, b", may arrive twice; ")
}

// A link, or `apart`.
fn put_place(out: &mut [u8], at: usize, place: Place, behind: &[u8]) -> usize {
    match place {
        Place::Link(link) => put_number(out, at, link, behind),
        Place::Apart => {
            let at = put(out, at, b"apart");
            put(out, at, behind)
        }
    }
}

fn put_ending(out: &mut [u8], at: usize, message: Message, ending: Ending) -> usize {
    match ending {
        Ending::Acknowledged { line } => {
            let at = put(out, at, b"acknowledged");
            let at = put_left(out, at, message, b" at ");
            put_number(out, at, line, b"\n")
        }
        Ending::Retired { by, line } => {
            let at = put(out, at, b"retired");
            let at = put_left(out, at, message, b" by ");
            let at = put_number(out, at, by, b" at ");
            put_number(out, at, line, b"\n")
        }
        Ending::Dropped { reason, line } => {
            let at = put(out, at, b"dropped at ");
            let at = put_number(out, at, line, b": ");
            let at = put_reason(out, at, reason);
            put(out, at, b"\n")
        }
        Ending::Held => put_held(out, at, message),
    }
}

// The link that a message left on, and its number there.
fn put_left(out: &mut [u8], at: usize, message: Message, behind: &[u8]) -> usize {
    match message.sent {
        Some(sent) => put_sent(out, at, message.place, sent.fsn, behind),
        None => put(out, at, behind),
    }
}

fn put_sent(out: &mut [u8], at: usize, place: Place, fsn: u64, behind: &[u8]) -> usize {
    let at = put(out, at, b" on ");
    let at = put_place(out, at, place, b" as ");
    put_number(out, at, fsn, behind)
}

fn put_held(out: &mut [u8], at: usize, message: Message) -> usize {
    if let Some(sent) = message.sent {
        let at = put(out, at, b"sent");
        let at = put_sent(out, at, message.place, sent.fsn, b" at ");
        return put_number(out, at, sent.line, b", not acknowledged\n");
    }
    match message.place {
        Place::Link(link) => {
            let at = put(out, at, b"held on ");
            put_number(out, at, link, b"\n")
        }
        Place::Apart => put(out, at, b"held apart\n"),
    }
}
