// The calls of a record, in order, one line after the other.
use crate::call::{Outputs, take_call};
use crate::options::Options;
use replay_refusals::{put_fault, put_unreadable};
use replay_shift::run::{Place, View};
use std::fs;
use std::num::wrapping_add_usize;
use std::rt::Stdout;
use text::part::{between, line};
use tool_files::complaint::complain_of;
use tool_files::file::{File, next_piece, size};
use tool_files::program::Program;
use tool_files::progress::Progress;
use tool_files::status::Status;
use tool_files::target;
use tool_files::target::{Inputs, Manner};
use tool_files::writer::{Writer, add, flush, onto, write};
use tool_shift::{Node, beginning};
use trace_books::asked::Asked;
use trace_books::take::{Books, end};
use trace_picture::file::Picture;
use trace_rows::order::begin;

impl Program for Options {
    fn run(
        self,
        rt: &HostRuntime,
        configuration: &[u8],
        record: File,
        piece: &mut [u8; 65536],
    ) -> Status {
        let mut record = record;
        let mut node = Node::empty();
        if let Err(made) = node.start(configuration) {
            return refuse(rt, made.line, made.fault);
        }
        match opened(rt, self.picture, configuration, piece, &mut record) {
            Ok(picture) => run_pieces(rt, &mut node, self.asked, picture, record, piece),
            Err(status) => status,
        }
    }
}

// The file of the picture, where one is asked for.
fn opened(
    rt: &HostRuntime,
    picture: Option<usize>,
    configuration: &[u8],
    piece: &[u8; 65536],
    record: &mut File,
) -> Result<Option<fs::File>, Status> {
    let Some(argument) = picture else {
        return Ok(None);
    };
    let inputs = Inputs {
        configuration,
        piece: between(piece, 0, record.count),
        size_of_record: size(&mut record.handle),
    };
    match target::open(rt, b"trace", argument, Manner::InPlaces, inputs) {
        Some(file) => Ok(Some(file)),
        None => Err(Status::Failed),
    }
}

// A configuration that is refused, alone in the output.
fn refuse(rt: &HostRuntime, line: usize, fault: u8) -> Status {
    let mut out = [0u8; 64];
    let length = put_fault(&mut out, 0, line, fault);
    let last = write(onto(rt.stdout()), between(&out, 0, length));
    told(rt, last, Status::Refused)
}

// The status; another where standard output couldn't be written, which is told.
fn told(rt: &HostRuntime, last: Writer<Stdout>, status: Status) -> Status {
    if let Some(error) = last.failed {
        complain_of(rt, b"trace", b"standard output", error);
        return Status::Failed;
    }
    status
}

// Where a run stands: the next line, what is written, how far it is, how much of the piece is filled; its status, where nothing more is run.
#[derive(Drop)]
struct Turn {
    place: Place,
    outputs: Outputs,
    progress: Progress,
    filled: usize,
    ended: Option<Status>,
}

// What is kept between the lines: the links and when they failed, the messages that are held, and what isn't written yet.
#[derive(Drop)]
struct Areas {
    known: [u32; 256],
    failures: [Option<u64>; 32],
    order: [u8; 256],
    held: [u64; 8192],
    area: [u8; 65536],
    drawing: [u8; 65536],
}

// Turn after turn, up to the record's end or a line that can't be read.
fn run_pieces(
    rt: &HostRuntime,
    node: &mut Node,
    asked: Asked,
    picture: Option<fs::File>,
    record: File,
    piece: &mut [u8; 65536],
) -> Status {
    let mut record = record;
    let mut page = [0u8; 262144];
    let mut areas = Areas {
        known: [0; 256],
        failures: [None; 32],
        order: [0; 256],
        held: [0; 8192],
        area: [0; 65536],
        drawing: [0; 65536],
    };
    let mut turn = first_turn(rt, picture, &mut record, &mut areas);
    for _ in 0..u64::MAX {
        turn = run_turn(
            rt,
            node,
            asked,
            turn,
            &mut record.handle,
            piece,
            &mut page,
            &mut areas,
        );
        if turn.ended.is_some() {
            break;
        }
    }
    finish(rt, turn, asked, &mut areas)
}

// Nothing is run yet: no message is held, and the picture has its head.
fn first_turn(
    rt: &HostRuntime,
    picture: Option<fs::File>,
    record: &mut File,
    areas: &mut Areas,
) -> Turn {
    begin(&mut areas.order);
    Turn {
        place: beginning(),
        outputs: Outputs {
            books: Books {
                count: 0,
                lines: onto(rt.stdout()),
            },
            picture: begun(picture, &mut areas.drawing),
        },
        progress: Progress::begin(rt, size(&mut record.handle)),
        filled: record.count,
        ended: None,
    }
}

// The picture with its head, where one is asked for.
fn begun(picture: Option<fs::File>, drawing: &mut [u8; 65536]) -> Option<Picture> {
    match picture {
        Some(file) => Some(trace_picture::file::begin(file, drawing)),
        None => None,
    }
}

// The next line that ends in the piece, and its answer brought into the books; with none left, the next piece.
fn run_turn(
    rt: &HostRuntime,
    node: &mut Node,
    asked: Asked,
    turn: Turn,
    handle: &mut fs::File,
    piece: &mut [u8; 65536],
    page: &mut [u8; 262144],
    areas: &mut Areas,
) -> Turn {
    let before = turn.place;
    let end_of_line = next_line(piece, turn.filled, before.at);
    let place = node.run(between(piece, 0, end_of_line), before, all(), page);
    if place.at <= before.at {
        return read_on(rt, turn, handle, piece);
    }
    let mut next = turn;
    next.outputs = take_call(
        &node.plan,
        &node.links,
        &node.rows,
        between(piece, before.at, end_of_line),
        before.number,
        between(page, 0, place.pending),
        asked,
        next.outputs,
        &mut areas.known,
        &mut areas.failures,
        &mut areas.order,
        &mut areas.held,
        &mut areas.area,
        &mut areas.drawing,
    );
    taken(next, place)
}

// A trace looks at every answer, with its fates.
fn all() -> View {
    View {
        first: 0,
        last: u64::MAX,
        only: false,
        fates: true,
    }
}

// A line was run, and its answer taken.
fn taken(turn: Turn, place: Place) -> Turn {
    let mut next = turn;
    next.place = place;
    next.place.pending = 0;
    if is_failed(&next.outputs) {
        next.ended = Some(Status::Failed);
    } else if !place.readable {
        next.ended = Some(Status::Refused);
    }
    next
}

// Whether something couldn't be written.
fn is_failed(outputs: &Outputs) -> bool {
    if outputs.books.lines.failed.is_some() {
        return true;
    }
    match &outputs.picture {
        Some(picture) => picture.file.failed.is_some(),
        None => false,
    }
}

// What the piece cuts goes to the front of the next; with no next one the run has ended, and octets behind the record's last LF are no line.
fn read_on(rt: &HostRuntime, turn: Turn, handle: &mut fs::File, piece: &mut [u8; 65536]) -> Turn {
    let mut next = turn;
    let found = next_piece(handle, piece, next.place.at, next.filled);
    next.place.at = 0;
    match found {
        Ok(found) if 0 < found.count => {
            next.progress.go_on(rt, b"trace", found.count);
            next.filled = wrapping_add_usize(found.rest, found.count);
        }
        Ok(found) => {
            next.ended = Some(if found.rest == 0 {
                Status::Done
            } else {
                Status::Refused
            });
        }
        Err(error) => {
            next.progress.clear(rt);
            complain_of(rt, b"trace", b"the record", error);
            next.ended = Some(Status::Failed);
        }
    }
    next
}

// Where the line that begins at a place of a piece ends, its LF among it; the piece's end where it cuts the line.
fn next_line(piece: &[u8; 65536], length: usize, at: usize) -> usize {
    line(between(piece, 0, length), at).next
}

// The run has ended, and the picture with it: one that couldn't be written has told so.
fn finish(rt: &HostRuntime, turn: Turn, asked: Asked, areas: &mut Areas) -> Status {
    turn.progress.clear(rt);
    let number = turn.place.number;
    let ended = turn.ended.unwrap_or(Status::Done);
    let outputs = turn.outputs;
    let status = finish_lines(rt, ended, number, asked, outputs.books, areas);
    if is_drawn(rt, outputs.picture, &mut areas.drawing) {
        status
    } else {
        Status::Failed
    }
}

// Whether the picture, where one is asked for, could be ended.
fn is_drawn(rt: &HostRuntime, picture: Option<Picture>, drawing: &mut [u8; 65536]) -> bool {
    match picture {
        Some(picture) => trace_picture::file::end(rt, picture, drawing),
        None => true,
    }
}

// The messages that are still held, and the line that couldn't be read.
fn finish_lines(
    rt: &HostRuntime,
    status: Status,
    number: u64,
    asked: Asked,
    books: Books<Stdout>,
    areas: &mut Areas,
) -> Status {
    let mut lines = match status {
        Status::Failed => books.lines,
        _ => end(books, asked, &areas.order, &areas.held, &mut areas.area),
    };
    if status == Status::Refused {
        lines = with_refused(lines, &mut areas.area, number);
    }
    told(rt, flush(lines, &areas.area), status)
}

fn with_refused(lines: Writer<Stdout>, area: &mut [u8; 65536], number: u64) -> Writer<Stdout> {
    let mut out = [0u8; 64];
    let length = put_unreadable(&mut out, 0, number);
    add(lines, area, between(&out, 0, length))
}
