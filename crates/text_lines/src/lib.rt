// The line reader: it keeps the lent text and its place in it; one call gives the next line's bounds and the reader onward.
// The borrow checker covers no function over a struct that holds a slice, so each of them is thin and proved by hand.
#![tactic(auto)]

ghost use Rattle.std.specs.Prelude.{◌≡◌};
ghost use Rattle.text.specs.Part.{line_at};

use text::part::{Part, line};

// A lent text and a place in it.
#[derive(Clone, Copy)]
pub struct Reader<'a> {
    pub text: &'a [u8],
    pub at: usize,
}

// A line's bounds, and the reader onward.
#[derive(Clone, Copy)]
pub struct Turn<'a> {
    pub line: Part,
    pub reader: Reader<'a>,
}

// A reader at the start of a text.
pub fn start<'a>(text: &'a [u8]) -> Reader<'a>
    ensures { (result.text ≡ text.entry) × (result.at ≡ 0) }
{
    Reader { text, at: 0 }
}

// The line at a reader's place, and the reader behind that line and its LF.
pub fn next<'a>(r: Reader<'a>) -> Turn<'a>
    ensures { (result.line ≡ line_at r.entry.text.now r.entry.at) × (result.reader.text ≡ r.entry.text) ×
        (result.reader.at ≡ (line_at r.entry.text.now r.entry.at).next) }
{
    let found = line(r.text, r.at);
    Turn {
        line: found,
        reader: Reader {
            text: r.text,
            at: found.next,
        },
    }
}

// The line that begins at a place of a text, read through a reader there. Who calls this needs no walk.
pub fn line_from(text: &[u8], at: usize) -> Part
    ensures { result ≡ line_at text.now at }
{
    next(Reader { text, at }).line
}
