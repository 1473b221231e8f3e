// The words of a reply but 0, of a drop's reason, of a fault: one field more behind a line of the answers.
use std::rt::Stdout;
use text::part::{between, field};
use tool_files::writer::{Writer, add};
use tool_words::lines::{past_two, value};
use tool_words::words::{words_of_fault, words_of_reason, words_of_reply};

// One field more, where there are words.
pub fn add_words(
    output: Writer<Stdout>,
    area: &mut [u8; 65536],
    word: &[u8],
    answer: &[u8],
) -> Writer<Stdout> {
    let words = words_of(word, answer);
    if words.is_empty() {
        return output;
    }
    let output = add(output, area, b"\t");
    add(output, area, words)
}

// What stands behind the number of an answer's line says whether and where it has a number that has words.
fn words_of(word: &[u8], answer: &[u8]) -> &'static [u8] {
    let at = past_two(answer, 0);
    match word {
        b"reply" => words_of_reply(code(answer, at)),
        b"drop" => words_of_reason(code(answer, field(answer, at, answer.len()).next)),
        b"refused" => words_of_fault(code(answer, at)),
        _ if answer.starts_with(b"config") => words_of_fault(code(answer, at)),
        _ => b"",
    }
}

// The number that a field says, from a place on; 0 where it says none.
fn code(answer: &[u8], at: usize) -> u64 {
    let part = field(answer, at, answer.len());
    value(between(answer, at, part.end), 0)
}
