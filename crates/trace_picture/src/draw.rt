// The ladder of a link that went out, drawn from the call that put it out: what is held of each message of its queue, and the answer.
use crate::file::Picture;
use crate::groups::{Alike, Group, beginning, going, leaving, limited, longer};
use crate::rows::{Row, put_group, put_lines};
use crate::shapes::{OURS, put_end, put_line, put_text, words_at, x_of};
use std::fs::File;
use std::num::wrapping_add_u64;
use text::part::between;
use text::put::put;
use text_pages::put_number;
use tool_files::writer::{Writer, add};
use trace_messages::told::{Told, read};
use trace_rows::held::load;
use trace_rows::order::row_of;

// What is drawn: our code, the far point's, the link that went out, the lines of its failure, if it had failed, and of the call, whether a message put it
// out, and the link if it is left in doubt; the answer, how many messages moved to each link, and so many messages as they were held before the call.
#[derive(Clone, Copy)]
pub struct Scene<'a> {
    pub code: u64,
    pub far: u64,
    pub link: u64,
    pub failed: Option<u64>,
    pub call: u64,
    pub by_message: bool,
    pub doubted: Option<u64>,
    pub answer: &'a [u8],
    pub counts: &'a [u64; 32],
    pub messages: usize,
    pub order: &'a [u8; 256],
    pub held: &'a [u64; 8192],
}

// Space between rows.
const STEP: u64 = 28;

// The ladder, below what is drawn already, with a sentence for its title and the words for what put the link out.
pub fn draw(
    picture: Picture,
    area: &mut [u8; 65536],
    scene: Scene<'_>,
    sentence: &[u8],
    cause: &[u8],
) -> Picture {
    let columns = wrapping_add_u64(goals_before(scene.counts, 32), 1);
    let mut next = with_title(picture, area, sentence, words_at(columns));
    let top = next.y;
    next = with_heads(next, area, scene, columns);
    next = with_groups(next, area, scene, false, columns);
    next = with_failure(next, area, scene, columns);
    next = with_cause(next, area, scene, columns, cause);
    next = with_groups(next, area, scene, true, columns);
    let bottom = next.y;
    next.file = with_verticals(
        next.file,
        area,
        columns,
        wrapping_add_u64(top, STEP),
        bottom,
    );
    next.y = wrapping_add_u64(bottom, 40);
    next
}

// How many of the links below one messages moved to.
fn goals_before(counts: &[u64; 32], link: usize) -> u64 {
    let goals = counts.iter().take(link).filter(|count| 0 < **count);
    goals.count() as u64
}

fn with_title(picture: Picture, area: &mut [u8; 65536], sentence: &[u8], words: u64) -> Picture {
    let y = wrapping_add_u64(picture.y, STEP);
    let mut out = [0u8; 2048];
    let length = put_text(&mut out, 0, b"t", 16, y);
    let mut file = add(picture.file, area, between(&out, 0, length));
    file = add(file, area, sentence);
    file = add(file, area, b"</text>\n");
    let wide = wrapping_add_u64(words, 640);
    Picture {
        file,
        y,
        wide: picture.wide.max(wide),
    }
}

// The heads of the columns: our point, the link, those that messages moved to, the far point.
fn with_heads(picture: Picture, area: &mut [u8; 65536], scene: Scene<'_>, columns: u64) -> Picture {
    let y = wrapping_add_u64(picture.y, STEP);
    let mut file = picture.file;
    file = with_head(file, area, b"our point ", scene.code, OURS, y);
    file = with_head(file, area, b"link ", scene.link, x_of(0), y);
    file = with_goals(file, area, scene.counts, y);
    file = with_head(file, area, b"point ", scene.far, x_of(columns), y);
    Picture {
        file,
        y: wrapping_add_u64(y, STEP),
        wide: picture.wide,
    }
}

fn with_head(
    file: Writer<File>,
    area: &mut [u8; 65536],
    word: &[u8],
    number: u64,
    x: u64,
    y: u64,
) -> Writer<File> {
    let mut out = [0u8; 2048];
    let length = put_head(&mut out, word, number, x, y);
    add(file, area, between(&out, 0, length))
}

fn put_head(out: &mut [u8], word: &[u8], number: u64, x: u64, y: u64) -> usize {
    let at = put_text(out, 0, b"h", x, y);
    let at = put(out, at, word);
    let at = put_number(out, at, number, b"");
    put_end(out, at)
}

fn with_goals(
    file: Writer<File>,
    area: &mut [u8; 65536],
    counts: &[u64; 32],
    y: u64,
) -> Writer<File> {
    let mut next = file;
    let mut column = 0;
    for (link, count) in counts.iter().enumerate() {
        if 0 < *count {
            column = wrapping_add_u64(column, 1);
            next = with_head(next, area, b"link ", link as u64, x_of(column), y);
        }
    }
    next
}

// The groups of an answer: how messages left, or where they went.
fn with_groups(
    picture: Picture,
    area: &mut [u8; 65536],
    scene: Scene<'_>,
    gone: bool,
    columns: u64,
) -> Picture {
    let mut next = picture;
    let mut group = None;
    let mut before = 0;
    for line in scene.answer.split_inclusive(|octet| *octet == b'\n') {
        let told = read(line);
        let row = row_of(scene.order, scene.held, scene.messages, told.arrival);
        let Some(alike) = alike_of(scene, gone, told, row) else {
            continue;
        };
        let alike = limited(alike, before);
        match group {
            Some(known) if is_alike(known, alike) => group = Some(longer(known, row)),
            _ => {
                next = with_group(next, area, scene, columns, group);
                group = Some(beginning(alike, row));
                before = wrapping_add_u64(before, 1);
            }
        }
    }
    with_group(next, area, scene, columns, group)
}

fn alike_of(scene: Scene<'_>, gone: bool, told: Told, row: u8) -> Option<Alike> {
    let message = load(scene.held, row);
    if gone {
        going(told, message, scene.doubted)
    } else {
        leaving(told, message, scene.doubted)
    }
}

fn is_alike(group: Group, alike: Alike) -> bool {
    group.alike == alike
}

fn with_group(
    picture: Picture,
    area: &mut [u8; 65536],
    scene: Scene<'_>,
    columns: u64,
    group: Option<Group>,
) -> Picture {
    let Some(group) = group else {
        return picture;
    };
    let row = Row {
        y: picture.y,
        columns,
        goal: column_of(scene.counts, group.alike),
        call: scene.call,
    };
    let mut out = [0u8; 2048];
    let length = put_group(
        &mut out,
        row,
        group,
        load(scene.held, group.first),
        load(scene.held, group.last),
    );
    below(picture, area, between(&out, 0, length))
}

// The column of the link that a group moved to, behind that of the link that went out.
fn column_of(counts: &[u64; 32], alike: Alike) -> u64 {
    match alike {
        Alike::Moved { link, .. } => wrapping_add_u64(goals_before(counts, link as usize), 1),
        _ => 0,
    }
}

// A row is drawn: the next stands below.
fn below(picture: Picture, area: &mut [u8; 65536], row: &[u8]) -> Picture {
    Picture {
        file: add(picture.file, area, row),
        y: wrapping_add_u64(picture.y, STEP),
        wide: picture.wide,
    }
}

fn with_failure(
    picture: Picture,
    area: &mut [u8; 65536],
    scene: Scene<'_>,
    columns: u64,
) -> Picture {
    let Some(failed) = scene.failed else {
        return picture;
    };
    let mut out = [0u8; 2048];
    let length = put_failure(&mut out, scene.link, failed, picture.y, columns);
    below(picture, area, between(&out, 0, length))
}

fn put_failure(out: &mut [u8], link: u64, failed: u64, y: u64, columns: u64) -> usize {
    let at = put_lines(out, 0, y, failed, failed);
    let at = put_line(out, at, b"fails", 320, y, 340, y);
    let at = put_text(out, at, b"w", words_at(columns), y);
    let at = put(out, at, b"link ");
    let at = put_number(out, at, link, b" fails");
    put_end(out, at)
}

// What put the link out: a message from the far point, or an event of ours.
fn with_cause(
    picture: Picture,
    area: &mut [u8; 65536],
    scene: Scene<'_>,
    columns: u64,
    cause: &[u8],
) -> Picture {
    let mut out = [0u8; 2048];
    let length = put_cause(&mut out, scene, picture.y, columns, cause);
    below(picture, area, between(&out, 0, length))
}

fn put_cause(out: &mut [u8], scene: Scene<'_>, y: u64, columns: u64, cause: &[u8]) -> usize {
    let at = put_lines(out, 0, y, scene.call, scene.call);
    let at = put_told(out, at, scene.by_message, y, columns);
    let at = put_text(out, at, b"w", words_at(columns), y);
    let at = put(out, at, cause);
    put_end(out, at)
}

fn put_told(out: &mut [u8], at: usize, by_message: bool, y: u64, columns: u64) -> usize {
    if by_message {
        return put_line(out, at, b"told", x_of(columns), y, OURS, y);
    }
    put_line(out, at, b"told", OURS, y, x_of(0), y)
}

// The vertical lines, our point's and those of the columns.
fn with_verticals(
    file: Writer<File>,
    area: &mut [u8; 65536],
    columns: u64,
    top: u64,
    bottom: u64,
) -> Writer<File> {
    let mut next = with_vertical(file, area, OURS, top, bottom);
    for column in 0..=columns {
        next = with_vertical(next, area, x_of(column), top, bottom);
    }
    next
}

fn with_vertical(
    file: Writer<File>,
    area: &mut [u8; 65536],
    x: u64,
    top: u64,
    bottom: u64,
) -> Writer<File> {
    let mut out = [0u8; 2048];
    let length = put_line(&mut out, 0, b"v", x, wrapping_add_u64(top, 8), x, bottom);
    add(file, area, between(&out, 0, length))
}
