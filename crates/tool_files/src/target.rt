// A file that is written beside standard output. It is opened as it is, and emptied only when it is known not to be what is read.
use crate::arguments::word_at;
use crate::complaint::{complain, complain_of};
use crate::file::{File, name_of, rest, size};
use std::fs::OpenOptions;
use std::{fs, io};
use text::part::{between, same};

// How a file is written: front to back, or with something put into its place later.
#[derive(Clone, Copy, PartialEq, Eq)]
pub enum Manner {
    FrontToBack,
    InPlaces,
}

// What is read, and may not be written over: all of the configuration, of the record its first octets and how many it has.
#[derive(Clone, Copy)]
pub struct Inputs<'a> {
    pub configuration: &'a [u8],
    pub piece: &'a [u8],
    pub size_of_record: u64,
}

// The file that an argument names, empty; none where it can't be written or holds what is read, which is told.
pub fn open(
    rt: &HostRuntime,
    program: &[u8],
    argument: usize,
    manner: Manner,
    inputs: Inputs<'_>,
) -> Option<fs::File> {
    let mut area = [0u8; 4096];
    let path = word_at(rt, argument, &mut area).unwrap_or(b"");
    match emptied(rt, path, manner, inputs) {
        Ok(Some(handle)) => Some(handle),
        Ok(None) => {
            complain(rt, program, path, ": holds what is read; name another file");
            None
        }
        Err(error) => {
            complain_of(rt, program, path, error);
            None
        }
    }
}

// A file by its name, empty; none where it holds what is read.
fn emptied(
    rt: &HostRuntime,
    path: &[u8],
    manner: Manner,
    inputs: Inputs<'_>,
) -> io::Result<Option<fs::File>> {
    if let Ok(new) = create(rt, path) {
        return Ok(Some(new));
    }
    let mut handle = open_old(rt, path, manner)?;
    let held = size(&mut handle);
    let configuration = inputs.configuration;
    if holds(
        rt,
        &handle,
        path,
        held,
        configuration,
        configuration.len() as u64,
    ) || holds(rt, &handle, path, held, inputs.piece, inputs.size_of_record)
    {
        return Ok(None);
    }
    if 0 < held {
        handle.set_len(0)?;
    }
    Ok(Some(handle))
}

// A file that isn't there yet.
fn create(rt: &HostRuntime, path: &[u8]) -> io::Result<fs::File> {
    OpenOptions::new()
        .write(true)
        .create_new(true)
        .open(rt, name_of(path)?)
}

// A pipe can be written front to back; what is put into its place later can't be appended.
fn open_old(rt: &HostRuntime, path: &[u8], manner: Manner) -> io::Result<fs::File> {
    let name = name_of(path)?;
    match manner {
        Manner::FrontToBack => OpenOptions::new().append(true).open(rt, name),
        Manner::InPlaces => OpenOptions::new().read(true).write(true).open(rt, name),
    }
}

// Whether a file holds an input, of which the first octets are given: it is that file, by whatever
// name, or a copy. One that has no places, as a pipe, can't be emptied and has nothing to lose.
fn holds(
    rt: &HostRuntime,
    handle: &fs::File,
    path: &[u8],
    held: u64,
    first: &[u8],
    size_of_input: u64,
) -> bool {
    if held != size_of_input {
        return false;
    }
    if held == 0 {
        return first.is_empty() && handle.set_len(0).is_ok();
    }
    let mut area = [0u8; 65536];
    let _ = read_again(rt, path, &mut area);
    begins(&area, first)
}

// What a file holds, as far as the area has room for it.
fn read_again(rt: &HostRuntime, path: &[u8], area: &mut [u8; 65536]) -> io::Result<()> {
    let mut file = File {
        handle: fs::open(rt, name_of(path)?)?,
        count: 0,
    };
    rest(&mut file, area)
}

fn begins(area: &[u8; 65536], first: &[u8]) -> bool {
    same(between(area, 0, first.len()), first)
}
