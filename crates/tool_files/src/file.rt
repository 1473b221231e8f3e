// Files named by arguments and read in large pieces. What can't be opened or read is told.
use crate::arguments::word_at;
use crate::complaint::complain_of;
use std::io::{ErrorKind, Read, Seek, SeekFrom};
use std::num::wrapping_add_usize;
use std::{fs, io, str};

// An open file and how many octets of it came.
#[derive(Drop)]
pub struct File {
    pub handle: fs::File,
    pub count: usize,
}

// The file that an argument names, and its first piece; none where that failed.
pub fn begin(rt: &HostRuntime, program: &[u8], argument: usize, area: &mut [u8]) -> Option<File> {
    let mut octets = [0u8; 4096];
    let path = word_at(rt, argument, &mut octets).unwrap_or(b"");
    match first(rt, path, area) {
        Ok(file) => Some(file),
        Err(error) => {
            complain_of(rt, program, path, error);
            None
        }
    }
}

// A file by its name, and its first piece.
fn first(rt: &HostRuntime, path: &[u8], area: &mut [u8]) -> io::Result<File> {
    let mut handle = fs::open(rt, name_of(path)?)?;
    let count = more(&mut handle, area, 0)?;
    Ok(File { handle, count })
}

// The system's files have names of any octets, those that can be opened a text.
pub fn name_of(path: &[u8]) -> io::Result<&str> {
    match str::from_utf8(path) {
        Ok(name) => Ok(name),
        Err(_) => Err(io::Error::new(ErrorKind::InvalidFilename, "No name in UTF-8")),
    }
}

// All of the file that an argument names, as far as the area holds it: how many octets; none where that failed.
pub fn read(
    rt: &HostRuntime,
    program: &[u8],
    argument: usize,
    area: &mut [u8; 65536],
) -> Option<usize> {
    let mut file = begin(rt, program, argument, area)?;
    match rest(&mut file, area) {
        Ok(()) => Some(file.count),
        Err(error) => {
            complain_of(rt, program, b"the configuration", error);
            None
        }
    }
}

// What is behind a first piece.
pub fn rest(file: &mut File, area: &mut [u8; 65536]) -> io::Result<()> {
    for _ in 0..65536 {
        let count = more(&mut file.handle, area, file.count)?;
        if count == 0 {
            break;
        }
        file.count = wrapping_add_usize(file.count, count);
    }
    Ok(())
}

// The next piece of a file, from a place of the area on.
fn more(handle: &mut fs::File, area: &mut [u8], from: usize) -> io::Result<usize> {
    if area.len() < from {
        return Err(io::Error::from(ErrorKind::InvalidInput));
    }
    handle.read(&mut area[from..])
}

// How many octets a file has; 0 where that isn't known, as of a pipe.
pub fn size(handle: &mut fs::File) -> u64 {
    end_of(handle).unwrap_or(0)
}

fn end_of(handle: &mut fs::File) -> io::Result<u64> {
    let at = handle.stream_position()?;
    let end = handle.seek(SeekFrom::End(0))?;
    let _ = handle.seek(SeekFrom::Start(at));
    Ok(end)
}

// How many octets were left of a piece, and how many came behind them.
#[derive(Clone, Copy)]
pub struct Piece {
    pub rest: usize,
    pub count: usize,
}

// The octets of a piece from a place up to another go to its front, and the next of the file stand behind them.
pub fn next_piece(
    handle: &mut fs::File,
    piece: &mut [u8; 65536],
    from: usize,
    to: usize,
) -> io::Result<Piece> {
    let rest = move_to_front(piece, from, to);
    let count = more(handle, piece, rest)?;
    Ok(Piece { rest, count })
}

// The octets of a piece from a place up to another, at its front; how many there are.
fn move_to_front(piece: &mut [u8; 65536], from: usize, to: usize) -> usize {
    let end = if to < 65536 { to } else { 65536 };
    if end <= from {
        return 0;
    }
    piece.copy_within(from..end, 0);
    end - from
}
