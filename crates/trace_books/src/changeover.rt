// Links that go out: what is known of each link from call to call, and the sentence of one that went out.
use crate::cause::{Cause, put_cause};
use area_links::{LinkRecord, load_link, store_link};
use constants::{CHANGING, OUT};
use text::put::put;
use text_pages::put_number;
use trace_messages::told::{Fate, Told, read, repeats};
use trace_rows::held::{Place, load};
use trace_rows::order::row_of;

// A link that a call has put out, the line at which it had failed, and its record before the call.
#[derive(Clone, Copy)]
pub struct Gone {
    pub link: u8,
    pub failed: Option<u64>,
    pub before: LinkRecord,
}

// What is known of a link, its record and the line of its failure, is brought up to date behind a call. Answers the link that it has put out.
pub fn follow(
    links: &[u32; 256],
    known: &mut [u32; 256],
    failures: &mut [Option<u64>; 32],
    call: u64,
) -> Option<Gone> {
    let mut gone = None;
    for link in 0..32u8 {
        let after = load_link(links, link);
        let before = load_link(known, link);
        let failed = failures[link as usize];
        if after.state == OUT && before.state != OUT {
            gone = Some(Gone {
                link,
                failed,
                before,
            });
        }
        failures[link as usize] = failure(after.state, before.state, failed, call);
        store_link(known, link, after);
    }
    gone
}

// The line at which a link failed: it is changing from then on.
fn failure(state: u8, before: u8, known: Option<u64>, call: u64) -> Option<u64> {
    if state != CHANGING {
        return None;
    }
    if before == CHANGING {
        return known;
    }
    Some(call)
}

// How many messages were retired, moved and dropped by a call, how many may arrive twice, and how many moved to each link.
#[derive(Clone, Copy)]
pub struct Counts {
    pub retired: u64,
    pub moved: u64,
    pub dropped: u64,
    pub twice: u64,
    pub to: [u64; 32],
}

// By the lines of its answer, the link that it leaves in doubt, and what was known of so many messages before it.
pub fn count(
    answer: &[u8],
    doubted: Option<u64>,
    messages: usize,
    order: &[u8; 256],
    held: &[u64; 8192],
) -> Counts {
    let mut counts = Counts {
        retired: 0,
        moved: 0,
        dropped: 0,
        twice: 0,
        to: [0; 32],
    };
    for line in answer.split_inclusive(|octet| *octet == b'\n') {
        let told = read(line);
        let message = load(held, row_of(order, held, messages, told.arrival));
        count_line(told, repeats(told, message, doubted), &mut counts);
    }
    counts
}

fn count_line(told: Told, twice: bool, counts: &mut Counts) {
    match told.fate {
        Some(Fate::Retired) => add_one(&mut counts.retired),
        Some(Fate::Dropped { .. }) => add_one(&mut counts.dropped),
        Some(Fate::Moved { to, .. }) => {
            add_one(&mut counts.moved);
            count_to(to, &mut counts.to);
        }
        _ => {}
    }
    if twice {
        add_one(&mut counts.twice);
    }
}

// Messages move to links alone.
fn count_to(place: Place, counts: &mut [u64; 32]) {
    match place {
        Place::Link(link) if link < 32 => add_one(&mut counts[link as usize]),
        _ => {}
    }
}

fn add_one(count: &mut u64) {
    *count = count.saturating_add(1);
}

// The sentence of a link that a call has put out, from the start of the area on; how long it is.
pub fn put_sentence(out: &mut [u8], gone: Gone, call: u64, cause: Cause, counts: &Counts) -> usize {
    let at = put_start(out, gone, call);
    let at = put_cause(out, at, cause);
    let at = put_count(out, at, b"; ", counts.retired, b" retired, ");
    let at = put_count(out, at, b"", counts.moved, b" moved");
    let at = put_goals(out, at, &counts.to);
    let at = put_count(out, at, b", ", counts.dropped, b" dropped");
    put_twice(out, at, counts.twice)
}

fn put_twice(out: &mut [u8], at: usize, count: u64) -> usize {
    if count == 0 {
        return at;
    }
    put_count(out, at, b", ", count, b" may arrive twice")
}

fn put_start(out: &mut [u8], gone: Gone, call: u64) -> usize {
    let at = put(out, 0, b"link ");
    let at = put_number(out, at, gone.link as u64, b": ");
    let at = put_failed(out, at, gone.failed);
    let at = put(out, at, b"changed over at line ");
    put_number(out, at, call, b" by ")
}

fn put_failed(out: &mut [u8], at: usize, failed: Option<u64>) -> usize {
    match failed {
        Some(line) => put_count(out, at, b"failed at line ", line, b", "),
        None => at,
    }
}

fn put_count(out: &mut [u8], at: usize, before: &[u8], count: u64, behind: &[u8]) -> usize {
    let at = put(out, at, before);
    put_number(out, at, count, behind)
}

// How many moved to each link, in brackets, where something moved.
fn put_goals(out: &mut [u8], from: usize, counts: &[u64; 32]) -> usize {
    let mut at = from;
    let mut first = true;
    for (link, count) in counts.iter().enumerate() {
        if 0 < *count {
            at = put_goal(out, at, first, *count, link as u64);
            first = false;
        }
    }
    close(out, at, first)
}

fn put_goal(out: &mut [u8], at: usize, first: bool, count: u64, link: u64) -> usize {
    let at = open(out, at, first);
    let at = put_number(out, at, count, b" to link ");
    put_number(out, at, link, b"")
}

fn open(out: &mut [u8], at: usize, first: bool) -> usize {
    if first {
        return put(out, at, b" (");
    }
    put(out, at, b", ")
}

fn close(out: &mut [u8], at: usize, none: bool) -> usize {
    if none {
        return at;
    }
    put(out, at, b")")
}
