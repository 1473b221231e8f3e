// A row of a ladder: the record's lines on the left, the arrow, and words on the right.
use crate::groups::{Alike, Group, Manner, Taking};
use crate::shapes::{OURS, put_end, put_line, put_text, words_at, x_of};
use text::put::put;
use text_pages::put_number;
use tool_words::words::put_reason;
use trace_messages::kind::put_kind;
use trace_rows::held::{Message, Sent};

// What a row needs to know: its height, how many columns stand behind our point, the column that messages move to, and the record's line of the changeover.
#[derive(Clone, Copy)]
pub struct Row {
    pub y: u64,
    pub columns: u64,
    pub goal: u64,
    pub call: u64,
}

// A group of messages, by its first and its last; how long what is drawn is.
pub fn put_group(out: &mut [u8], row: Row, group: Group, first: Message, last: Message) -> usize {
    let at = match group.alike {
        Alike::Sent(taking) => put_sent(out, row, group.count, taking, first, last),
        _ => put_gone(out, row, group),
    };
    let at = put_kinds(out, at, group.count, first, last);
    put_end(out, at)
}

// Messages above the failure: the lines at which they were sent, with which numbers, and whether the far end took them.
fn put_sent(
    out: &mut [u8],
    row: Row,
    count: u64,
    taking: Taking,
    first: Message,
    last: Message,
) -> usize {
    let from = sent_of(first);
    let to = sent_of(last);
    let at = put_lines(out, 0, row.y, from.line, to.line);
    let at = put_leaving(out, at, row, taking);
    let at = put_text(out, at, b"w", words_at(row.columns), row.y);
    let at = put_number(out, at, count, b" sent as ");
    let at = put_number(out, at, from.fsn, b"");
    let at = put_to(out, at, from.fsn, to.fsn);
    match taking {
        Taking::Taken => put(out, at, b", taken: "),
        Taking::NotTaken => put(out, at, b", not taken: "),
        Taking::NotKnown => put(out, at, b", not known whether taken: "),
    }
}

// How a message left: each of such a group has.
fn sent_of(message: Message) -> Sent {
    message.sent.unwrap_or(Sent { fsn: 0, line: 0 })
}

// Messages below the changeover: where they went.
fn put_gone(out: &mut [u8], row: Row, group: Group) -> usize {
    let at = put_lines(out, 0, row.y, row.call, row.call);
    let at = put_going(out, at, row, group.alike);
    let at = put_text(out, at, b"w", words_at(row.columns), row.y);
    put_goal(out, at, group)
}

// The record's lines, one or from one to another.
pub fn put_lines(out: &mut [u8], at: usize, y: u64, first: u64, last: u64) -> usize {
    let at = put_text(out, at, b"n", 16, y);
    let at = put_number(out, at, first, b"");
    let at = put_to(out, at, first, last);
    put_end(out, at)
}

fn put_to(out: &mut [u8], at: usize, first: u64, last: u64) -> usize {
    if first == last {
        return at;
    }
    let at = put(out, at, b" to ");
    put_number(out, at, last, b"")
}

// Those that were taken go to the far point; the others end behind the link.
fn put_leaving(out: &mut [u8], at: usize, row: Row, taking: Taking) -> usize {
    match taking {
        Taking::Taken => put_line(out, at, b"taken", OURS, row.y, x_of(row.columns), row.y),
        Taking::NotTaken => put_line(out, at, b"cut", OURS, row.y, 385, row.y),
        Taking::NotKnown => put_line(out, at, b"unknown", OURS, row.y, 385, row.y),
    }
}

fn put_going(out: &mut [u8], at: usize, row: Row, alike: Alike) -> usize {
    match alike {
        Alike::Moved {
            manner: Manner::Twice,
            ..
        } => put_line(out, at, b"twice", x_of(0), row.y, x_of(row.goal), row.y),
        Alike::Moved { .. } => put_line(out, at, b"moved", x_of(0), row.y, x_of(row.goal), row.y),
        _ => put_line(out, at, b"dropped", x_of(0), row.y, 385, row.y),
    }
}

fn put_goal(out: &mut [u8], at: usize, group: Group) -> usize {
    match group.alike {
        Alike::Moved { link, manner } => {
            let at = put_number(out, at, group.count, b" moved to link ");
            let at = put_number(out, at, link, b"");
            put_manner(out, at, manner)
        }
        Alike::Dropped { reason } => {
            let at = put_number(out, at, group.count, b" dropped, ");
            let at = put_reason(out, at, reason);
            put(out, at, b": ")
        }
        _ => put_number(out, at, group.count, b" more, not drawn one by one: "),
    }
}

fn put_manner(out: &mut [u8], at: usize, manner: Manner) -> usize {
    match manner {
        Manner::NotSent => put(out, at, b", not sent before: "),
        Manner::Sent => put(out, at, b", sent before: "),
        Manner::Twice => put(out, at, b", may arrive twice: "),
    }
}

// What the first message is, and the last.
fn put_kinds(out: &mut [u8], at: usize, count: u64, first: Message, last: Message) -> usize {
    let at = put_kind(out, at, first);
    if count < 2 {
        return at;
    }
    let at = put(out, at, b" to ");
    put_kind(out, at, last)
}
