// The calls of a record, in order, read piece by piece.
use crate::options::Options;
use crate::outputs::Outputs;
use crate::show::{Asked, show};
use crate::{capture, outputs};
use replay_refusals::{put_fault, put_unreadable};
use replay_shift::run::{Place, View};
use std::fs;
use std::num::wrapping_add_usize;
use text::part::between;
use tool_files::complaint::complain_of;
use tool_files::file::{File, next_piece, size};
use tool_files::program::Program;
use tool_files::progress::Progress;
use tool_files::status::Status;
use tool_files::target;
use tool_files::target::{Inputs, Manner};
use tool_files::writer::onto;
use tool_shift::{Node, beginning};
use tool_words::lines::{Entry, entry_of};

impl Program for Options {
    fn run(
        self,
        rt: &HostRuntime,
        configuration: &[u8],
        record: File,
        piece: &mut [u8; 65536],
    ) -> Status {
        let mut record = record;
        let mut node = Node::empty();
        if let Err(made) = node.start(configuration) {
            return refuse(rt, self, made.line, made.fault);
        }
        match opened(rt, self, configuration, piece, &mut record) {
            Some(outputs) => run_pieces(rt, &mut node, self, outputs, record, piece),
            None => Status::Failed,
        }
    }
}

// Where the run writes to: standard output and the file of a capture, which has its head; none where that can't be opened. Of the record the first piece
// is read.
fn opened(
    rt: &HostRuntime,
    options: Options,
    configuration: &[u8],
    piece: &[u8; 65536],
    record: &mut File,
) -> Option<Outputs> {
    let inputs = Inputs {
        configuration,
        piece: between(piece, 0, record.count),
        size_of_record: size(&mut record.handle),
    };
    let mut packets = None;
    if let Some(argument) = options.capture {
        let file = target::open(rt, b"replay", argument, Manner::FrontToBack, inputs)?;
        packets = Some(capture::begin(onto(file), options.link_type));
    }
    Some(Outputs {
        answers: onto(rt.stdout()),
        packets,
        progress: Progress::begin(rt, inputs.size_of_record),
        status: Status::Done,
    })
}

// A configuration that is refused, alone in the output.
fn refuse(rt: &HostRuntime, options: Options, line: usize, fault: u8) -> Status {
    let mut out = [0u8; 64];
    let count = put_fault(&mut out, 0, line, fault);
    let asked = Asked {
        calls: false,
        words: options.words,
    };
    let answers = show(onto(rt.stdout()), asked, b"", 0, between(&out, 0, count));
    if let Some(error) = answers.failed {
        complain_of(rt, b"replay", b"standard output", error);
        return Status::Failed;
    }
    Status::Refused
}

// Where a run stands: the next line, what is written, how much of the piece is filled, and whether nothing more is run.
#[derive(Drop)]
struct Turn {
    place: Place,
    outputs: Outputs,
    filled: usize,
    ended: bool,
}

// Turn after turn, up to the record's end, a line that can't be read, or the last that is shown.
fn run_pieces(
    rt: &HostRuntime,
    node: &mut Node,
    options: Options,
    begun: Outputs,
    record: File,
    piece: &mut [u8; 65536],
) -> Status {
    let mut record = record;
    let mut page = [0u8; 262144];
    let mut counts = [0u64; 21];
    let mut turn = Turn {
        place: beginning(),
        outputs: begun,
        filled: record.count,
        ended: false,
    };
    for _ in 0..u64::MAX {
        turn = run_turn(
            rt,
            node,
            options,
            turn,
            &mut record.handle,
            piece,
            &mut page,
            &mut counts,
        );
        if turn.ended {
            break;
        }
    }
    outputs::end(rt, turn.outputs, options, &counts)
}

// The lines that end in the piece, as far as a page holds what they write; with none left, the next piece.
fn run_turn(
    rt: &HostRuntime,
    node: &mut Node,
    options: Options,
    turn: Turn,
    handle: &mut fs::File,
    piece: &mut [u8; 65536],
    page: &mut [u8; 262144],
    counts: &mut [u64; 21],
) -> Turn {
    let before = turn.place;
    let limit = limit_of(piece, turn.filled, before, options);
    let place = node.run(between(piece, 0, limit), before, view_of(options), page);
    let outputs = outputs::take(
        rt,
        turn.outputs,
        options,
        between(piece, before.at, place.at),
        before.number,
        between(page, 0, place.pending),
        place.readable,
        counts,
    );
    let next = taken(turn.filled, options, place, outputs);
    if next.ended || before.at < place.at {
        return next;
    }
    read_on(rt, next, options, handle, piece, counts)
}

// Lines were run, and their answers taken.
fn taken(filled: usize, options: Options, after: Place, outputs: Outputs) -> Turn {
    let mut place = after;
    place.pending = 0;
    let ended = ends(options, outputs.status, place.number);
    Turn {
        place,
        outputs,
        filled,
        ended,
    }
}

// What the piece cuts goes to the front of the next; with no next one the run has ended.
fn read_on(
    rt: &HostRuntime,
    turn: Turn,
    options: Options,
    handle: &mut fs::File,
    piece: &mut [u8; 65536],
    counts: &mut [u64; 21],
) -> Turn {
    let mut next = turn;
    let found = next_piece(handle, piece, next.place.at, next.filled);
    next.place.at = 0;
    match found {
        Ok(found) if 0 < found.count => {
            next.outputs.progress.go_on(rt, b"replay", found.count);
            next.filled = wrapping_add_usize(found.rest, found.count);
        }
        Ok(found) => {
            let rest = between(piece, 0, found.rest);
            next.outputs = read_out(rt, next.outputs, options, rest, next.place.number, counts);
            next.ended = true;
        }
        Err(error) => {
            next.outputs = outputs::fail(rt, next.outputs, b"the record", error);
            next.ended = true;
        }
    }
    next
}

fn view_of(options: Options) -> View {
    View {
        first: options.first,
        last: options.last.unwrap_or(u64::MAX),
        only: options.only.is_some(),
        fates: options.fates,
    }
}

// Where the lines that are run end: behind the last that is shown, unless a summary is asked for.
fn limit_of(piece: &[u8; 65536], count: usize, place: Place, options: Options) -> usize {
    match options.last {
        Some(last) if !options.summary => {
            let from = Entry {
                at: place.at,
                number: place.number,
            };
            entry_of(between(piece, 0, count), from, last.saturating_add(1)).at
        }
        _ => count,
    }
}

// Whether a run ends before a line of the record: something is refused or failed, or nothing more is shown or counted.
fn ends(options: Options, status: Status, number: u64) -> bool {
    status != Status::Done || (!options.summary && options.last.is_some_and(|last| last < number))
}

// The record has no more octets: those behind its last LF are no line.
fn read_out(
    rt: &HostRuntime,
    outputs: Outputs,
    options: Options,
    rest: &[u8],
    number: u64,
    counts: &mut [u64; 21],
) -> Outputs {
    if rest.is_empty() {
        return outputs;
    }
    let mut out = [0u8; 64];
    let count = put_unreadable(&mut out, 0, number);
    outputs::take(
        rt,
        outputs,
        options,
        rest,
        number,
        between(&out, 0, count),
        false,
        counts,
    )
}
