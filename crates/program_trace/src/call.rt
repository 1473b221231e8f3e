// A call and its answer, brought into the books; and what is told and drawn of a link that it has put out.
use lookup::adjacent_of;
use plan_words::read::code;
use std::rt::Stdout;
use text::part::{between, line};
use tool_files::writer::add;
use trace_books::asked::Asked;
use trace_books::brought::{changeover_number, message_of, octets_of};
use trace_books::cause::{Cause, cause_of, doubted_by, put_cause};
use trace_books::changeover::{Gone, count, follow, put_sentence};
use trace_books::take::{Books, Call, take};
use trace_picture::draw::{Scene, draw};
use trace_picture::file::Picture;

// What is written: the lines with their books, and the picture, where one is asked for.
#[derive(Drop)]
pub struct Outputs {
    pub books: Books<Stdout>,
    pub picture: Option<Picture>,
}

// A call and its answer: the books, and a link that it has put out.
pub fn take_call(
    plan: &[u16; 1024],
    links: &[u32; 256],
    rows: &[u64; 2048],
    text: &[u8],
    number: u64,
    answer: &[u8],
    asked: Asked,
    outputs: Outputs,
    known: &mut [u32; 256],
    failures: &mut [Option<u64>; 32],
    order: &mut [u8; 256],
    held: &mut [u64; 8192],
    area: &mut [u8; 65536],
    drawing: &mut [u8; 65536],
) -> Outputs {
    let entry = between(text, 0, line(text, 0).end);
    let gone = follow(links, known, failures, number);
    let mut brought = [0u8; 1024];
    let octets = octets_of(entry, &mut brought);
    let mut call = call_of(octets, number, code(plan) as u64);
    let mut next = outputs;
    if let Some(gone) = gone {
        let cause = cause_of(gone.before, entry, octets);
        call.doubted = doubted_by(gone, cause);
        let end = Ending {
            gone,
            cause,
            call,
            far: adjacent_of(plan, gone.link) as u64,
            by_message: !octets.is_empty(),
            sentences: asked.changeovers,
        };
        next = take_ending(next, end, answer, order, held, area, drawing);
    }
    let picture = next.picture;
    let books = take(next.books, asked, call, answer, rows, order, held, area);
    Outputs { books, picture }
}

fn call_of(octets: &[u8], number: u64, code: u64) -> Call {
    Call {
        line: number,
        message: message_of(octets, number),
        number: changeover_number(octets),
        code,
        doubted: None,
    }
}

// A link that a call has put out, and by what; the far point's code, whether the call brought a message, and whether sentences are asked for.
#[derive(Clone, Copy)]
struct Ending {
    gone: Gone,
    cause: Cause,
    call: Call,
    far: u64,
    by_message: bool,
    sentences: bool,
}

// The sentence of a link that went out, and its part of the picture.
fn take_ending(
    outputs: Outputs,
    end: Ending,
    answer: &[u8],
    order: &[u8; 256],
    held: &[u64; 8192],
    area: &mut [u8; 65536],
    drawing: &mut [u8; 65536],
) -> Outputs {
    let call = end.call;
    let cause = end.cause;
    let mut books = outputs.books;
    let counts = count(answer, call.doubted, books.count, order, held);
    let mut out = [0u8; 2048];
    let length = put_sentence(&mut out, end.gone, call.line, cause, &counts);
    let sentence = between(&out, 0, length);
    if end.sentences {
        books.lines = add(books.lines, area, sentence);
        books.lines = add(books.lines, area, b"\n");
    }
    let Some(picture) = outputs.picture else {
        return Outputs {
            books,
            picture: None,
        };
    };
    let scene = Scene {
        code: call.code,
        far: end.far,
        link: end.gone.link as u64,
        failed: end.gone.failed,
        call: call.line,
        by_message: end.by_message,
        doubted: call.doubted,
        answer,
        counts: &counts.to,
        messages: books.count,
        order,
        held,
    };
    let picture = drawn(picture, drawing, scene, sentence, cause);
    Outputs {
        books,
        picture: Some(picture),
    }
}

fn drawn(
    picture: Picture,
    drawing: &mut [u8; 65536],
    scene: Scene<'_>,
    sentence: &[u8],
    cause: Cause,
) -> Picture {
    let mut out = [0u8; 64];
    let length = put_cause(&mut out, 0, cause);
    draw(picture, drawing, scene, sentence, between(&out, 0, length))
}
