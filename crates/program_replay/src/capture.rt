// A capture of what was received and sent, which Wireshark opens: the time of a packet is its line in the record.
use std::fs::File;
use std::num::wrapping_add_usize;
use text::part::{between, field, line, same};
use text_decimals::decimal::decimal;
use text_hex::hex::hex;
use tool_files::writer::{Writer, add, flush};
use tool_words::lines::{Entry, entry_of, lines_of, past_two, value};

// What stands before each message: a header of MTP2 with its direction, or nothing.
#[derive(Clone, Copy, PartialEq, Eq)]
pub enum LinkType {
    Mtp2,
    Mtp3,
}

impl LinkType {
    // The number that a capture says it by.
    fn number(self) -> u64 {
        match self {
            LinkType::Mtp2 => 139,
            LinkType::Mtp3 => 141,
        }
    }

    // How many octets stand before each message.
    fn length_before(self) -> usize {
        match self {
            LinkType::Mtp2 => 7,
            LinkType::Mtp3 => 0,
        }
    }
}

#[derive(Clone, Copy)]
enum Direction {
    Received,
    Sent,
}

// Where the capture stands: what is written, and the line of the record that was answered last.
#[derive(Drop)]
struct Captured {
    packets: Writer<File>,
    entry: Entry,
}

// A message that was received or sent: its line of the record, its direction and its link.
#[derive(Clone, Copy)]
struct Packet {
    line: u64,
    direction: Direction,
    link: u64,
}

// The head of a capture, with its link type.
pub fn begin(packets: Writer<File>, link_type: LinkType) -> Writer<File> {
    let mut area = [0u8; 65536];
    let head = b"\xd4\xc3\xb2\xa1\x02\x00\x04\x00\x00\x00\x00\x00\x00\x00\x00\x00\x00\x00\x04\x00";
    let packets = add(packets, &mut area, head);
    let packets = add_word(packets, &mut area, link_type.number());
    flush(packets, &area)
}

// The packets of a turn: lines of the record from a number on, and the answers that are shown of them.
pub fn take(
    packets: Writer<File>,
    link_type: LinkType,
    lines: &[u8],
    first: u64,
    page: &[u8],
) -> Writer<File> {
    let mut area = [0u8; 65536];
    let mut captured = Captured {
        packets,
        entry: Entry {
            at: 0,
            number: first,
        },
    };
    for answer in lines_of(page) {
        captured = take_answer(captured, &mut area, link_type, lines, answer);
    }
    flush(captured.packets, &area)
}

// A reply, whose line of the record stands at the last one's place or behind it.
fn take_answer(
    captured: Captured,
    area: &mut [u8; 65536],
    link_type: LinkType,
    lines: &[u8],
    answer: &[u8],
) -> Captured {
    let number = field(answer, 0, answer.len());
    let word = field(answer, number.next, answer.len());
    if !same(between(answer, number.next, word.end), b"reply") {
        return captured;
    }
    let Some(told) = decimal(between(answer, 0, number.end), u64::MAX) else {
        return captured;
    };
    let entry = entry_of(lines, captured.entry, told);
    let at = entry.at;
    let part = line(lines, at);
    let call = between(lines, at, part.end);
    Captured {
        packets: take_call(captured.packets, area, link_type, told, call, answer),
        entry,
    }
}

// A call and its reply: of `send LINK` the FSN and the octets stand in the reply, of `received LINK FSN OCTETS` in the call.
fn take_call(
    packets: Writer<File>,
    area: &mut [u8; 65536],
    link_type: LinkType,
    line: u64,
    call: &[u8],
    reply: &[u8],
) -> Writer<File> {
    let kind = field(call, 0, call.len());
    let link = field(call, kind.next, call.len());
    let of_link = value(between(call, kind.next, link.end), 0);
    let at = past_two(reply, 0);
    let told = field(reply, at, reply.len());
    let (direction, message) = match between(call, 0, kind.end) {
        b"send" => (Direction::Sent, between(reply, told.next, reply.len())),
        b"received" if is_taken(between(reply, at, told.end)) => {
            (Direction::Received, between(call, link.next, call.len()))
        }
        _ => return packets,
    };
    let packet = Packet {
        line,
        direction,
        link: of_link,
    };
    add_packet(packets, area, link_type, packet, message)
}

// Whether a reply says that the message was taken.
fn is_taken(reply: &[u8]) -> bool {
    matches!(reply, b"0" | b"3" | b"4" | b"9" | b"11")
}

// One packet, of an FSN and octets: its time and its length, twice, and its octets. A reply that sends nothing has none.
fn add_packet(
    packets: Writer<File>,
    area: &mut [u8; 65536],
    link_type: LinkType,
    packet: Packet,
    message: &[u8],
) -> Writer<File> {
    let fsn = field(message, 0, message.len());
    let mut octets = [0u8; 1024];
    let Some(count) = hex(between(message, fsn.next, message.len()), &mut octets) else {
        return packets;
    };
    if count == 0 {
        return packets;
    }
    let before = link_type.length_before();
    let length = wrapping_add_usize(before, count) as u64;
    let header = header_of(packet, value(between(message, 0, fsn.end), 0), count);
    let packets = add_word(packets, area, packet.line);
    let packets = add_word(packets, area, 0);
    let packets = add_word(packets, area, length);
    let packets = add_word(packets, area, length);
    let packets = add(packets, area, between(&header, 0, before));
    add_octets(packets, area, &octets, count)
}

fn add_octets(
    packets: Writer<File>,
    area: &mut [u8; 65536],
    octets: &[u8; 1024],
    count: usize,
) -> Writer<File> {
    add(packets, area, between(octets, 0, count))
}

// Direction and link, and MTP2's own three octets: the BSN, which isn't known, the FSN, and how many octets follow.
fn header_of(packet: Packet, fsn: u64, count: usize) -> [u8; 7] {
    let follow = if count < 63 { count } else { 63 };
    [
        match packet.direction {
            Direction::Received => 0,
            Direction::Sent => 1,
        },
        0,
        (packet.link / 256 % 256) as u8,
        (packet.link % 256) as u8,
        255,
        (128 + fsn % 128) as u8,
        (follow % 64) as u8,
    ]
}

// A word of 32 bits, its lowest octet first.
fn add_word(packets: Writer<File>, area: &mut [u8; 65536], number: u64) -> Writer<File> {
    add(packets, area, between(&number.to_le_bytes(), 0, 4))
}
