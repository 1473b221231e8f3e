// What is shown of the answers: as they stand, or with the calls and the words that are asked for.
use crate::words::add_words;
use std::rt::Stdout;
use text::part::{between, field, line, same};
use text_decimals::decimal::decimal;
use tool_files::writer::{Writer, add, flush, write};
use tool_words::lines::{Entry, entry_of, lines_of};

// What is asked for: the call before each answer, and words behind what is a number.
#[derive(Clone, Copy)]
pub struct Asked {
    pub calls: bool,
    pub words: bool,
}

// Where the showing stands: what is written, and the line of the record that was answered last.
#[derive(Clone, Copy)]
struct Shown {
    output: Writer<Stdout>,
    entry: Entry,
}

// The answers of a page, which are to lines of the record from a number on.
pub fn show(
    output: Writer<Stdout>,
    asked: Asked,
    lines: &[u8],
    first: u64,
    page: &[u8],
) -> Writer<Stdout> {
    if !asked.calls && !asked.words {
        return write(output, page);
    }
    let mut area = [0u8; 65536];
    let mut shown = Shown {
        output,
        entry: Entry {
            at: 0,
            number: first,
        },
    };
    for answer in lines_of(page) {
        shown = show_line(shown, &mut area, asked, lines, answer);
    }
    flush(shown.output, &area)
}

// A line of the page, behind the call that it is the first to answer.
fn show_line(
    shown: Shown,
    area: &mut [u8; 65536],
    asked: Asked,
    lines: &[u8],
    answer: &[u8],
) -> Shown {
    let number = field(answer, 0, answer.len());
    let word = field(answer, number.next, answer.len());
    let word = between(answer, number.next, word.end);
    let mut next = shown;
    if asked.calls && same(word, b"reply") {
        next = show_call(shown, area, lines, between(answer, 0, number.end));
    }
    let mut output = add(next.output, area, answer);
    if asked.words {
        output = add_words(output, area, word, answer);
    }
    let entry = next.entry;
    Shown {
        output: add(output, area, b"\n"),
        entry,
    }
}

// The line of the record that has a number.
fn show_call(shown: Shown, area: &mut [u8; 65536], lines: &[u8], number: &[u8]) -> Shown {
    let Some(told) = decimal(number, u64::MAX) else {
        return shown;
    };
    let entry = entry_of(lines, shown.entry, told);
    let at = entry.at;
    let part = line(lines, at);
    let output = add(shown.output, area, number);
    let output = add(output, area, b"\tcall\t");
    let output = add(output, area, between(lines, at, part.end));
    Shown {
        output: add(output, area, b"\n"),
        entry,
    }
}
