// What the answer to a call says of messages: they are kept from their queueing on, and written when it is known what became of them.
use crate::asked::{Asked, shows};
use crate::brought::made;
use area_slots::load_slot;
use std::io::Write;
use text::part::between;
use tool_files::writer::{Writer, add};
use trace_messages::fate::{Ending, put_line};
use trace_messages::told::{Fate, Told, is_of, read, repeats};
use trace_rows::held::{Message, Move, Place, Sent, load, store, store_move};
use trace_rows::order::{place_of, row_at, set_free};

// How many messages are held, and what is written.
#[derive(Drop)]
pub struct Books<W> {
    pub count: usize,
    pub lines: Writer<W>,
}

// A call: its line's number, the message that it brings, the changeover number in that, our code, and the link that it leaves in doubt.
#[derive(Clone, Copy)]
pub struct Call {
    pub line: u64,
    pub message: Message,
    pub number: Option<u64>,
    pub code: u64,
    pub doubted: Option<u64>,
}

// The answer to a call, line by line.
pub fn take<W: Write>(
    books: Books<W>,
    asked: Asked,
    call: Call,
    answer: &[u8],
    slots: &[u64; 2048],
    order: &mut [u8; 256],
    held: &mut [u64; 8192],
    area: &mut [u8; 65536],
) -> Books<W> {
    let mut next = books;
    for line in answer.split_inclusive(|octet| *octet == b'\n') {
        next = take_line(next, asked, call, read(line), slots, order, held, area);
    }
    next
}

fn take_line<W: Write>(
    books: Books<W>,
    asked: Asked,
    call: Call,
    told: Told,
    slots: &[u64; 2048],
    order: &mut [u8; 256],
    held: &mut [u64; 8192],
    area: &mut [u8; 65536],
) -> Books<W> {
    let Some(fate) = told.fate else {
        return books;
    };
    if let Fate::Queued { at, name } = fate {
        let message = queued(asked, call, told.arrival, at, name, slots);
        return kept(books, message, order, held);
    }
    let count = books.count;
    let place = place_of(order, held, count, told.arrival);
    if count <= place {
        return books;
    }
    let row = row_at(order, place);
    let Some(ending) = ending_of(call, fate) else {
        change(asked, call, told, held, row);
        return books;
    };
    let lines = written(books.lines, asked, ending, held, row, area);
    set_free(order, count, place);
    Books {
        count: count - 1,
        lines,
    }
}

// A message that was queued: the one that the call brings, or one that the node made.
fn queued(
    asked: Asked,
    call: Call,
    arrival: u64,
    place: Place,
    name: Option<[u8; 3]>,
    slots: &[u64; 2048],
) -> Message {
    let mut message = call.message;
    if name.is_some() {
        let slot = load_slot(slots, slot_of(slots, arrival));
        message = made(call.line, call.code, slot.point, slot.sls, name);
    }
    message.arrival = arrival;
    message.place = place;
    message.stood = is_of(place, asked.link);
    message
}

// The slot of a management message, by its arrival number: slots 192 to 255 hold them.
fn slot_of(slots: &[u64; 2048], arrival: u64) -> u8 {
    for slot in 192..255u8 {
        let row = load_slot(slots, slot);
        if row.arrival == arrival && 0 < row.heading {
            return slot;
        }
    }
    255
}

// A message more is held, in a row that was free.
fn kept<W>(
    books: Books<W>,
    message: Message,
    order: &[u8; 256],
    held: &mut [u64; 8192],
) -> Books<W> {
    let count = books.count;
    if 256 <= count {
        return books;
    }
    let row = row_at(order, count);
    store(held, row, message);
    Books {
        count: count + 1,
        lines: books.lines,
    }
}

// A message that is held was sent, or moved.
fn change(asked: Asked, call: Call, told: Told, held: &mut [u64; 8192], row: u8) {
    let mut message = load(held, row);
    match told.fate {
        Some(Fate::Sent { fsn }) => {
            let line = call.line;
            message.sent = Some(Sent { fsn, line });
        }
        Some(Fate::Moved { from, to }) => {
            let twice = repeats(told, message, call.doubted);
            let made = Move {
                from,
                to,
                line: call.line,
                resent: resent(message, twice),
            };
            store_move(held, row, message.moves, made);
            message.moves = message.moves.saturating_add(1);
            message.place = to;
            message.sent = None;
            message.stood = message.stood || is_of(to, asked.link);
            message.twice = message.twice || twice;
        }
        _ => {}
    }
    store(held, row, message);
}

// The number that a message had left with, where it may arrive twice.
fn resent(message: Message, twice: bool) -> Option<u64> {
    match message.sent {
        Some(sent) if twice => Some(sent.fsn),
        _ => None,
    }
}

// How a message ends, if it does.
fn ending_of(call: Call, fate: Fate) -> Option<Ending> {
    let line = call.line;
    match fate {
        Fate::Acknowledged => Some(Ending::Acknowledged { line }),
        Fate::Retired => {
            let by = call.number.unwrap_or(0);
            Some(Ending::Retired { by, line })
        }
        Fate::Dropped { reason } => Some(Ending::Dropped { reason, line }),
        _ => None,
    }
}

// The line of a message, where it is shown.
fn written<W: Write>(
    lines: Writer<W>,
    asked: Asked,
    ending: Ending,
    held: &[u64; 8192],
    row: u8,
    area: &mut [u8; 65536],
) -> Writer<W> {
    let message = load(held, row);
    if !shows(asked, message, lost(message, ending)) {
        return lines;
    }
    let mut out = [0u8; 1024];
    let length = put_line(&mut out, held, row, ending);
    add(lines, area, between(&out, 0, length))
}

// Whether a message may be lost: dropped, or held at the end and sent.
fn lost(message: Message, ending: Ending) -> bool {
    match ending {
        Ending::Dropped { .. } => true,
        Ending::Held => message.sent.is_some(),
        _ => false,
    }
}

// The run has ended: the messages that are still held.
pub fn end<W: Write>(
    books: Books<W>,
    asked: Asked,
    order: &[u8; 256],
    held: &[u64; 8192],
    area: &mut [u8; 65536],
) -> Writer<W> {
    let count = books.count;
    let mut lines = books.lines;
    for place in 0..count {
        lines = written(lines, asked, Ending::Held, held, row_at(order, place), area);
    }
    lines
}
