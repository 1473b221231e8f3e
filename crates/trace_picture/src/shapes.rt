// Texts and lines of a drawing. What is written into it are numbers and words of our own, none of which needs an escape.
use text::put::put;
use text_pages::put_number;

// A text that begins at a place; its words and `put_end` follow.
pub fn put_text(out: &mut [u8], at: usize, class: &[u8], x: u64, y: u64) -> usize {
    let at = put(out, at, b"<text class=\"");
    let at = put(out, at, class);
    let at = put(out, at, b"\" x=\"");
    let at = put_number(out, at, x, b"\" y=\"");
    put_number(out, at, y, b"\">")
}

pub fn put_end(out: &mut [u8], at: usize) -> usize {
    put(out, at, b"</text>\n")
}

// A line from one place to another; its class says how it looks, and whether it is an arrow.
pub fn put_line(
    out: &mut [u8],
    at: usize,
    class: &[u8],
    x: u64,
    y: u64,
    to_x: u64,
    to_y: u64,
) -> usize {
    let at = put(out, at, b"<line class=\"");
    let at = put(out, at, class);
    let at = put(out, at, b"\" x1=\"");
    let at = put_number(out, at, x, b"\" y1=\"");
    let at = put_number(out, at, y, b"\" x2=\"");
    let at = put_number(out, at, to_x, b"\" y2=\"");
    put_number(out, at, to_y, b"\"/>\n")
}

// The place of our point's line, and of the lines behind it: the link that went out (0), the links that messages moved to, and the far point.
pub const OURS: u64 = 190;

pub fn x_of(column: u64) -> u64 {
    330 + 110 * (column % 64)
}

// Where words stand that are about a row: behind the far point's line.
pub fn words_at(columns: u64) -> u64 {
    354 + 110 * (columns % 64)
}
