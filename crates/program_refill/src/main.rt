// Fills the store until no slot is free, reads every message back, empties it, and does so again, past its size several times.
// A line for each round: its number, the user and the management messages that had room, how many of them read back as they were
// written, and the user and the management slots that are free in the end.
#![tactic(auto)]

use std::io;
use std::num::{wrapping_add_u64, wrapping_sub_u64};

fn main(rt: HostRuntime) -> io::Result<()> {
    let mut spans = [0u16; 70];
    let mut rings = [0u8; 8960];
    let mut rows = [0u64; 2048];
    let mut octets = [0u8; 52416];
    queue_store::fresh::fresh(&mut spans, &mut rings);
    let mut arrival = 0;
    for round in 1..6 {
        arrival = show_round(
            &rt,
            round,
            arrival,
            &mut spans,
            &mut rings,
            &mut rows,
            &mut octets,
        )?;
    }
    Ok(())
}

// Fills and empties the store once, and answers the next arrival number.
fn show_round(
    rt: &impl Print,
    round: u64,
    arrival: u64,
    spans: &mut [u16; 70],
    rings: &mut [u8; 8960],
    rows: &mut [u64; 2048],
    octets: &mut [u8; 52416],
) -> io::Result<u64> {
    let users = fill_users(arrival, spans, rings, rows, octets);
    let all = fill_management(users, spans, rings, rows);
    print_number(rt, round, "\t")?;
    print_number(rt, wrapping_sub_u64(users, arrival), "\t")?;
    print_number(rt, wrapping_sub_u64(all, users), "\t")?;
    print_number(rt, count_right(spans, rings, rows, octets), "\t")?;
    empty_all(spans, rings);
    print_number(rt, queue_rings::ring::count(spans, 33) as u64, "\t")?;
    print_number(rt, queue_rings::ring::count(spans, 34) as u64, "\n")?;
    Ok(all)
}

// User messages with the arrival numbers from one on, to the links in turn, until no slot is free; the next arrival number.
fn fill_users(
    first: u64,
    spans: &mut [u16; 70],
    rings: &mut [u8; 8960],
    rows: &mut [u64; 2048],
    octets: &mut [u8; 52416],
) -> u64 {
    let mut arrival = first;
    for _ in 0..300 {
        let free = queue_rings::ring::take(spans, rings, 33);
        if !free.found {
            break;
        }
        let message = message_of(arrival);
        queue_slots::message::write_user(
            rows,
            octets,
            free.slot,
            arrival,
            arrival % 16384,
            arrival % 16,
            text::part::between(&message, 0, size_of(arrival)),
        );
        queue_rings::ring::put(spans, rings, (arrival % 32) as u8, free.slot);
        arrival = wrapping_add_u64(arrival, 1);
    }
    arrival
}

// The same with management messages.
fn fill_management(
    first: u64,
    spans: &mut [u16; 70],
    rings: &mut [u8; 8960],
    rows: &mut [u64; 2048],
) -> u64 {
    let mut arrival = first;
    for _ in 0..300 {
        let free = queue_rings::ring::take(spans, rings, 34);
        if !free.found {
            break;
        }
        queue_slots::message::write_management(
            rows,
            free.slot,
            arrival,
            0x11,
            arrival % 16384,
            arrival % 16,
            arrival % 128,
        );
        queue_rings::ring::put(spans, rings, (arrival % 32) as u8, free.slot);
        arrival = wrapping_add_u64(arrival, 1);
    }
    arrival
}

// How many octets the message with an arrival number has, 5 to 273.
fn size_of(arrival: u64) -> usize {
    (5 + arrival % 269) as usize
}

// Octets that tell messages apart.
fn message_of(arrival: u64) -> [u8; 273] {
    let mut message = [0u8; 273];
    for (i, octet) in message.iter_mut().enumerate() {
        *octet = (wrapping_add_u64(arrival, i as u64) % 251) as u8;
    }
    message
}

// How many of the messages on the links' rings are as they were written.
fn count_right(
    spans: &[u16; 70],
    rings: &[u8; 8960],
    rows: &[u64; 2048],
    octets: &[u8; 52416],
) -> u64 {
    let mut right = 0;
    for looked in 0u64..8192 {
        let held = queue_rings::ring::at(spans, rings, (looked % 32) as u8, (looked / 32) as u16);
        if held.found && is_right(rows, octets, held.slot) {
            right = wrapping_add_u64(right, 1);
        }
    }
    right
}

fn is_right(rows: &[u64; 2048], octets: &[u8; 52416], slot: u8) -> bool {
    let known = area_slots::load_slot(rows, slot);
    let arrival = known.arrival;
    if known.point != arrival % 16384 || known.sls != arrival % 16 {
        return false;
    }
    if known.heading == 0x11 {
        return known.field == arrival % 128;
    }
    let mut out = [0u8; 273];
    let count = queue_slots::message::copy_octets(octets, slot, size_of(arrival), &mut out);
    let message = message_of(arrival);
    known.heading == 0
        && text::part::same(
            text::part::between(&out, 0, count),
            text::part::between(&message, 0, size_of(arrival)),
        )
}

// Every message of the links' rings is given up, and its slot is free again.
fn empty_all(spans: &mut [u16; 70], rings: &mut [u8; 8960]) {
    for tried in 0u64..8192 {
        let held = queue_rings::ring::take(spans, rings, (tried % 32) as u8);
        if held.found {
            queue_rings::ring::put(
                spans,
                rings,
                if held.slot < 192 { 33 } else { 34 },
                held.slot,
            );
        }
    }
}

fn print_number(rt: &impl Print, n: u64, end: &str) -> io::Result<()> {
    print!(rt; "{n}{end}")
}
