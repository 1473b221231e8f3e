// Lines of a text by their number, and the fields of a line.
ghost use Rattle.std.specs.Prelude.{length};
ghost use Rattle.std.specs.Iterator.{at_most};

use std::num::{wrapping_add_u64, wrapping_add_usize};
use text::part::{between, field, line};
use text_decimals::decimal::decimal;

// The lines that end in a text, one after the other, each without its LF. Octets behind the last LF are no line.
#[derive(Clone, Copy, Drop)]
pub struct Lines<'a> {
    rest: &'a [u8],
}

pub fn lines_of(text: &[u8]) -> Lines<'_> {
    Lines { rest: text }
}

impl<'a> Iterator for Lines<'a> {
    type Item = &'a [u8];

    ghost remaining = { λ lines. at_most (length lines.rest.now) };

    fn next(&mut self) -> Option<&'a [u8]> {
        let text = self.rest;
        let part = line(text, 0);
        if !part.closed {
            return None;
        }
        self.rest = &text[part.next..];
        Some(&text[..part.end])
    }
}

// A line: its place in a text, and its number.
#[derive(Clone, Copy)]
pub struct Entry {
    pub at: usize,
    pub number: u64,
}

// The line of a number, at a line's place or behind it; the last place where a line begins, if the text ends before.
pub fn entry_of(text: &[u8], from: Entry, number: u64) -> Entry {
    let mut entry = from;
    for line in lines_of(between(text, from.at, text.len())) {
        if number <= entry.number {
            break;
        }
        entry = Entry {
            at: wrapping_add_usize(entry.at, wrapping_add_usize(line.len(), 1)),
            number: wrapping_add_u64(entry.number, 1),
        };
    }
    entry
}

// Where the third field from a place on begins.
pub fn past_two(text: &[u8], at: usize) -> usize {
    let first = field(text, at, text.len());
    field(text, first.next, text.len()).next
}

// The number that a field says; another where it says none.
pub fn value(text: &[u8], otherwise: u64) -> u64 {
    decimal(text, u64::MAX).unwrap_or(otherwise)
}
