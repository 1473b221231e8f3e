// How far a long run is, in one line on standard error where that is a terminal.
use crate::complaint::say;
use std::io::IsTerminal;
use std::num::wrapping_add_u64;
use text::part::between;
use text::put::put;
use text_pages::put_number;

// Whether it is shown; how many octets of the record were read, of how many (0 where that isn't known); how many millions were told last.
#[derive(Clone, Copy)]
pub struct Progress {
    shown: bool,
    read: u64,
    size: u64,
    told: u64,
}

const MILLION: u64 = 1000000;

impl Progress {
    pub fn begin(rt: &HostRuntime, size: u64) -> Progress {
        Progress {
            shown: rt.stderr().is_terminal(),
            read: 0,
            size,
            told: 0,
        }
    }

    // Octets more were read. The line is written anew for each ten millions, some times a second.
    pub fn go_on(&mut self, rt: &HostRuntime, program: &[u8], octets: usize) {
        self.read = wrapping_add_u64(self.read, octets as u64);
        let millions = self.read / MILLION;
        if self.shown && wrapping_add_u64(self.told, 10) <= millions {
            write_line(rt, program, millions, self.size / MILLION);
            self.told = millions;
        }
    }

    // The line goes, so that another can stand in its place.
    pub fn clear(&self, rt: &HostRuntime) {
        if 0 < self.told {
            say(
                rt,
                b"\r                                                                               \r",
            );
        }
    }
}

fn write_line(rt: &HostRuntime, program: &[u8], read: u64, size: u64) {
    let mut out = [0u8; 80];
    let at = put(&mut out, 0, b"\r");
    let at = put(&mut out, at, program);
    let at = put(&mut out, at, b": ");
    let at = put_number(&mut out, at, read, b" ");
    let at = put_size(&mut out, at, size);
    say(rt, between(&out, 0, at));
}

// Of how much, where that is known.
fn put_size(out: &mut [u8; 80], at: usize, size: u64) -> usize {
    let mut next = at;
    if 0 < size {
        let behind = put(out, at, b"of ");
        next = put_number(out, behind, size, b" ");
    }
    put(out, next, b"million octets of the record")
}
