// What a line of a page tells: behind its number stand a word, an arrival number, and up to two fields more.
use text::part::{between, field, line, same};
use tool_words::lines::value;
use trace_rows::held::{Message, Place};

// What became of a message: queued at a place, with the letters of its name if the node made it; sent with a number; acknowledged; retired; moved from
// one place to another; dropped for a reason.
#[derive(Clone, Copy)]
pub enum Fate {
    Queued { at: Place, name: Option<[u8; 3]> },
    Sent { fsn: u64 },
    Acknowledged,
    Retired,
    Moved { from: Place, to: Place },
    Dropped { reason: u64 },
}

// A message's arrival number, and what became of it; other lines tell nothing of a message, and have another number there.
#[derive(Clone, Copy)]
pub struct Told {
    pub arrival: u64,
    pub fate: Option<Fate>,
}

// A line with its LF.
pub fn read(text: &[u8]) -> Told {
    let to = line(text, 0).end;
    let number = field(text, 0, to);
    let word = field(text, number.next, to);
    let arrival = field(text, word.next, to);
    let first = field(text, arrival.next, to);
    Told {
        arrival: value(between(text, word.next, arrival.end), 0),
        fate: fate_of(
            between(text, number.next, word.end),
            between(text, arrival.next, first.end),
            between(text, first.next, to),
        ),
    }
}

// By the word, and the fields behind the arrival number.
fn fate_of(word: &[u8], first: &[u8], last: &[u8]) -> Option<Fate> {
    if same(word, b"queued") {
        let at = place_of(first);
        return Some(Fate::Queued {
            at,
            name: letters(last),
        });
    }
    if same(word, b"sent") {
        let fsn = value(last, 0);
        return Some(Fate::Sent { fsn });
    }
    if same(word, b"moved") {
        let from = place_of(first);
        return Some(Fate::Moved {
            from,
            to: place_of(last),
        });
    }
    if same(word, b"drop") {
        let reason = value(first, 0);
        return Some(Fate::Dropped { reason });
    }
    ended(word)
}

fn ended(word: &[u8]) -> Option<Fate> {
    if same(word, b"acknowledged") {
        return Some(Fate::Acknowledged);
    }
    if same(word, b"retired") {
        return Some(Fate::Retired);
    }
    None
}

// A link's number, or `apart`.
fn place_of(text: &[u8]) -> Place {
    if same(text, b"apart") {
        return Place::Apart;
    }
    Place::Link(value(text, 0))
}

// A name has three letters.
fn letters(text: &[u8]) -> Option<[u8; 3]> {
    if text.len() != 3 {
        return None;
    }
    Some([text[0], text[1], text[2]])
}

// Whether a line tells that a message may arrive twice: it moved off the link in doubt, and had been sent there.
pub fn repeats(told: Told, message: Message, doubted: Option<u64>) -> bool {
    match told.fate {
        Some(Fate::Moved { from, .. }) => message.sent.is_some() && is_of(from, doubted),
        _ => false,
    }
}

// Whether a place is the queue of a link, if there is one.
pub fn is_of(place: Place, link: Option<u64>) -> bool {
    match (place, link) {
        (Place::Link(at), Some(link)) => at == link,
        _ => false,
    }
}
