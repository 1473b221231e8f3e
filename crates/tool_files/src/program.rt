// What every program of a shift does first: its arguments and both files are read.
use crate::arguments::{Files, OwnOptions, Request, read, tell};
use crate::file::File;
use crate::status::Status;
use crate::{file, help};
use std::fmt::Display;
use text::part::between;

// A program, by its options.
pub trait Program: OwnOptions {
    // The node that a configuration makes, and the calls of a record on it, of which the first piece is read.
    fn run(
        self,
        rt: &HostRuntime,
        configuration: &[u8],
        record: File,
        piece: &mut [u8; 65536],
    ) -> Status;
}

// What is asked for is done. The options are those that hold where none is named.
pub fn run<P: Program + Drop>(rt: &HostRuntime, name: &[u8], help: &[u8], options: P) -> Status
where
    P::Fault: Display + Drop,
{
    match read(rt, options) {
        Ok(Request::Help) => help::write(rt, name, help),
        Ok(Request::Run(files, options)) => {
            run_files(rt, name, files, options).unwrap_or(Status::Failed)
        }
        Err(wrong) => {
            tell(rt, name, wrong);
            Status::Failed
        }
    }
}

// Both files are read before anything is written: of the record as much as one piece holds. None where one can't be read, which is told.
fn run_files<P: Program + Drop>(
    rt: &HostRuntime,
    name: &[u8],
    files: Files,
    options: P,
) -> Option<Status> {
    let mut text = [0u8; 65536];
    let length = file::read(rt, name, files.configuration, &mut text)?;
    let mut piece = [0u8; 65536];
    let record = file::begin(rt, name, files.record, &mut piece)?;
    Some(options.run(rt, between(&text, 0, length), record, &mut piece))
}
