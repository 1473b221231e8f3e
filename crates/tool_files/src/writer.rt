// What is written to a file in large pieces.
use std::io::{ErrorKind, Write};
use std::num::wrapping_add_usize;
use std::{fs, io};
use text::part::between;
use text::put::put;
use text_decimals::decimal::put_decimal;

// The file, how much of the area isn't written yet, and why something couldn't be written: then nothing more is.
#[derive(Clone, Copy, Drop)]
pub struct Writer<W> {
    pub file: W,
    pub held: usize,
    pub failed: Option<io::Error>,
}

pub fn onto<W>(file: W) -> Writer<W> {
    Writer {
        file,
        held: 0,
        failed: None,
    }
}

// Octets behind those in the area, which is written out first where it hasn't the room.
pub fn add<W: Write>(writer: Writer<W>, area: &mut [u8; 65536], octets: &[u8]) -> Writer<W> {
    let mut next = writer;
    if 65536 < wrapping_add_usize(next.held, octets.len()) {
        next = flush(next, area);
    }
    if 65536 < octets.len() {
        return write(next, octets);
    }
    next.held = put(area, next.held, octets);
    next
}

pub fn add_decimal<W: Write>(writer: Writer<W>, area: &mut [u8; 65536], number: u64) -> Writer<W> {
    let mut digits = [0u8; 20];
    let length = put_decimal(&mut digits, 0, number);
    add(writer, area, between(&digits, 0, length))
}

// What the area holds is written.
pub fn flush<W: Write>(writer: Writer<W>, area: &[u8; 65536]) -> Writer<W> {
    let held = writer.held;
    let mut next = write(writer, between(area, 0, held));
    next.held = 0;
    next
}

// Octets straight from where they are. The area holds none.
pub fn write<W: Write>(writer: Writer<W>, octets: &[u8]) -> Writer<W> {
    let mut next = writer;
    if next.failed.is_none() {
        next.failed = next.file.write_all(octets).err();
    }
    next
}

// The file is written to its end: what the system has put off until then may fail too. A pipe has no such end.
pub fn closed(writer: Writer<fs::File>) -> Writer<fs::File> {
    let mut next = writer;
    next.held = 0;
    if next.failed.is_none()
        && let Err(error) = next.file.sync_all()
        && error.kind() != ErrorKind::InvalidInput
    {
        next.failed = Some(error);
    }
    next
}
