// How many lines of each kind were shown: replies by their number, drops by their reason, pauses, resumes, and the five fates.
use std::num::wrapping_add_u64;
use std::rt::Stdout;
use text::part::{between, field};
use tool_files::writer::{Writer, add, add_decimal, flush};
use tool_words::lines::{lines_of, value};

// What each count is of.
const KINDS: [&str; 21] = [
    "reply\t0",
    "reply\t1",
    "reply\t2",
    "reply\t3",
    "reply\t4",
    "reply\t5",
    "reply\t6",
    "reply\t7",
    "reply\t8",
    "reply\t9",
    "reply\t10",
    "reply\t11",
    "drop\t1",
    "drop\t2",
    "pause",
    "resume",
    "queued",
    "sent",
    "acknowledged",
    "retired",
    "moved",
];

// The place of the first drop, and that of the first fate.
const DROPS: u64 = 12;

const FATES: usize = 16;

// Counts the lines of a text, each by its kind.
pub fn count(text: &[u8], counts: &mut [u64; 21]) {
    for line in lines_of(text) {
        if let Some(place) = place_of(line)
            && place < 21
        {
            counts[place as usize] = wrapping_add_u64(counts[place as usize], 1);
        }
    }
}

// The place of a line's count: behind its number stands what it tells.
fn place_of(line: &[u8]) -> Option<u64> {
    let to = line.len();
    let number = field(line, 0, to);
    let told = field(line, number.next, to);
    let first = field(line, told.next, to);
    match between(line, number.next, told.end) {
        b"reply" => Some(value(between(line, told.next, first.end), 1000)),
        b"drop" => {
            let second = field(line, first.next, to);
            let reason = value(between(line, first.next, second.end), 1000);
            Some(wrapping_add_u64(reason, DROPS - 1))
        }
        b"pause" => Some(14),
        b"resume" => Some(15),
        b"queued" => Some(16),
        b"sent" => Some(17),
        b"acknowledged" => Some(18),
        b"retired" => Some(19),
        b"moved" => Some(20),
        _ => None,
    }
}

// A line for each of the counts, of the fates only where they are shown.
pub fn write(output: Writer<Stdout>, fates: bool, counts: &[u64; 21]) -> Writer<Stdout> {
    let mut area = [0u8; 65536];
    let mut next = output;
    let shown = if fates { KINDS.len() } else { FATES };
    for place in 0..shown {
        next = add_total(next, &mut area, KINDS[place].as_bytes(), counts[place]);
    }
    flush(next, &area)
}

// A line of the summary: its kind, and how many there were.
fn add_total(
    output: Writer<Stdout>,
    area: &mut [u8; 65536],
    kind: &[u8],
    count: u64,
) -> Writer<Stdout> {
    let output = add(output, area, b"total\t");
    let output = add(output, area, kind);
    let output = add(output, area, b"\t");
    let output = add_decimal(output, area, count);
    add(output, area, b"\n")
}
