// What went wrong, in one line on standard error that begins with the program's name.
use std::fmt::Display;
use std::io::{Cursor, Write};
use std::{io, str};
use text::part::between;

// A word, and what to do about it.
pub fn complain<D: Display + Drop>(rt: &HostRuntime, program: &[u8], word: &[u8], advice: D) {
    name(rt, program);
    say(rt, word);
    let _ = rt.eprintln(advice);
}

// What failed just now, and the system's word for it.
pub fn complain_of(rt: &HostRuntime, program: &[u8], what: &[u8], error: io::Error) {
    name(rt, program);
    say(rt, what);
    say(rt, b": ");
    say_error(rt, error);
    say(rt, b"\n");
}

fn name(rt: &HostRuntime, program: &[u8]) {
    say(rt, program);
    say(rt, b": ");
}

// Octets on standard error. Where that can't be written there is nobody to tell.
pub fn say(rt: &HostRuntime, octets: &[u8]) {
    let _ = Print::write_all(&rt.stderr(), octets);
}

// The system's word for an error, without the number that stands behind it.
fn say_error(rt: &HostRuntime, error: io::Error) {
    let mut text = Cursor::new([0u8; 320]);
    let _ = write!(text, "{error}");
    let length = usize::try_from(text.position()).unwrap_or(0);
    let area = text.into_inner();
    let Ok(words) = str::from_utf8(between(&area, 0, length)) else {
        return;
    };
    let words = match words.split_once(" (os error ") {
        Some((plain, _)) => plain,
        None => words,
    };
    say(rt, words.as_bytes());
}
