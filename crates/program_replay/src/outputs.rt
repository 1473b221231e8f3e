// What is written while a record is run: the answers, the capture, and how far the run is.
use crate::options::Options;
use crate::show::{Asked, show};
use crate::{capture, summary};
use std::fs::File;
use std::io;
use std::rt::Stdout;
use tool_files::complaint::complain_of;
use tool_files::progress::Progress;
use tool_files::status::Status;
use tool_files::writer::{Writer, closed};

// There are packets only where a capture is asked for.
#[derive(Drop)]
pub struct Outputs {
    pub answers: Writer<Stdout>,
    pub packets: Option<Writer<File>>,
    pub progress: Progress,
    pub status: Status,
}

// A page of answers, which are to lines of the record from a number on: counted, shown and captured as is asked for.
pub fn take(
    rt: &HostRuntime,
    outputs: Outputs,
    options: Options,
    lines: &[u8],
    first: u64,
    page: &[u8],
    readable: bool,
    counts: &mut [u64; 21],
) -> Outputs {
    if options.summary {
        summary::count(page, counts);
    }
    let asked = Asked {
        calls: options.calls,
        words: options.words,
    };
    let mut next = outputs;
    next.answers = show(next.answers, asked, lines, first, page);
    next.packets = match next.packets {
        Some(packets) => Some(capture::take(packets, options.link_type, lines, first, page)),
        None => None,
    };
    next.status = if readable {
        Status::Done
    } else {
        Status::Refused
    };
    told(rt, next)
}

// A write that failed just now is told, and ends the run.
fn told(rt: &HostRuntime, outputs: Outputs) -> Outputs {
    if let Some(error) = outputs.answers.failed {
        return fail(rt, outputs, b"standard output", error);
    }
    if let Some(packets) = &outputs.packets
        && let Some(error) = packets.failed
    {
        return fail(rt, outputs, b"the capture", error);
    }
    outputs
}

// Says what failed just now, and ends the run.
pub fn fail(rt: &HostRuntime, outputs: Outputs, what: &[u8], error: io::Error) -> Outputs {
    let mut next = outputs;
    next.progress.clear(rt);
    complain_of(rt, b"replay", what, error);
    next.status = Status::Failed;
    next
}

// The run ends: its summary, where one is asked for and can be written; and the capture is closed.
pub fn end(rt: &HostRuntime, outputs: Outputs, options: Options, counts: &[u64; 21]) -> Status {
    let mut next = outputs;
    next.progress.clear(rt);
    if options.summary && next.answers.failed.is_none() {
        next.answers = summary::write(next.answers, options.fates, counts);
    }
    next.packets = match next.packets {
        Some(packets) => Some(closed(packets)),
        None => None,
    };
    if next.status == Status::Failed {
        return Status::Failed;
    }
    told(rt, next).status
}
