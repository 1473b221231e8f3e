// Messages alike that stand in a row in an answer are drawn as one, with their count.
use trace_messages::told::{Fate, Told, is_of, repeats};
use trace_rows::held::{Message, Place};

// How they are alike: sent; dropped for a reason; moved to a link; or behind so many groups that they aren't told apart any more.
#[derive(Clone, Copy, PartialEq, Eq)]
pub enum Alike {
    Sent(Taking),
    Dropped { reason: u64 },
    Moved { link: u64, manner: Manner },
    More,
}

// Whether the far end took what was sent.
#[derive(Clone, Copy, PartialEq, Eq)]
pub enum Taking {
    Taken,
    NotTaken,
    NotKnown,
}

// Never sent before, sent before, or sent before so that they may arrive twice.
#[derive(Clone, Copy, PartialEq, Eq)]
pub enum Manner {
    NotSent,
    Sent,
    Twice,
}

// The reason of a drop where it isn't known what the far end took.
const UNKNOWN: u64 = 2;

// How many groups are told apart.
const GROUPS: u64 = 24;

// What is alike, how many there are, the rows of the first and the last.
#[derive(Clone, Copy)]
pub struct Group {
    pub alike: Alike,
    pub count: u64,
    pub first: u8,
    pub last: u8,
}

// A group that begins with a message.
pub fn beginning(alike: Alike, row: u8) -> Group {
    Group {
        alike,
        count: 1,
        first: row,
        last: row,
    }
}

// The group with one message more.
pub fn longer(group: Group, row: u8) -> Group {
    Group {
        alike: group.alike,
        count: group.count.saturating_add(1),
        first: group.first,
        last: row,
    }
}

// What is drawn of a message above the failure: how it left, if it did.
pub fn leaving(told: Told, message: Message, doubted: Option<u64>) -> Option<Alike> {
    if message.sent.is_none() {
        return None;
    }
    let in_doubt = is_of(message.place, doubted);
    match told.fate {
        Some(Fate::Retired) => Some(Alike::Sent(Taking::Taken)),
        Some(Fate::Dropped { reason }) => Some(Alike::Sent(untaken(in_doubt || reason == UNKNOWN))),
        Some(Fate::Moved { .. }) => Some(Alike::Sent(untaken(in_doubt))),
        _ if in_doubt => Some(Alike::Sent(Taking::NotKnown)),
        _ => None,
    }
}

fn untaken(unknown: bool) -> Taking {
    if unknown {
        Taking::NotKnown
    } else {
        Taking::NotTaken
    }
}

// What is drawn of it below the changeover: where it went, if it did.
pub fn going(told: Told, message: Message, doubted: Option<u64>) -> Option<Alike> {
    match told.fate {
        Some(Fate::Dropped { reason }) => Some(Alike::Dropped { reason }),
        Some(
            Fate::Moved {
                to: Place::Link(link),
                ..
            },
        ) => {
            let manner = manner_of(told, message, doubted);
            Some(Alike::Moved { link, manner })
        }
        _ => None,
    }
}

fn manner_of(told: Told, message: Message, doubted: Option<u64>) -> Manner {
    if repeats(told, message, doubted) {
        return Manner::Twice;
    }
    if message.sent.is_some() {
        Manner::Sent
    } else {
        Manner::NotSent
    }
}

// Behind so many groups no more are told apart.
pub fn limited(alike: Alike, before: u64) -> Alike {
    if before < GROUPS { alike } else { Alike::More }
}
