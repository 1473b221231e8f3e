// What a line of the record brings: its octets, and what a trace keeps of the message that they are.
use text::part::{between, field, same};
use text::put::put;
use text_hex::hex::hex;
use trace_rows::held::{Message, Place};
use wire::header::{delivered, read_header};
use wire_messages::management::{Message as Management, read_message};

// The octets of a line, put at the start of the area; none of a line that has none.
pub fn octets_of<'a>(line: &[u8], out: &'a mut [u8; 1024]) -> &'a [u8] {
    let kind = field(line, 0, line.len());
    let word = between(line, 0, kind.end);
    let mut at = line.len();
    if same(word, b"host") {
        at = kind.next;
    }
    if same(word, b"received") {
        let link = field(line, kind.next, line.len());
        at = field(line, link.next, line.len()).next;
    }
    let count = hex(between(line, at, line.len()), out).unwrap_or(0);
    between(out, 0, count)
}

// What is kept of a message, by its octets; its arrival number and place aren't known yet.
pub fn message_of(octets: &[u8], line: u64) -> Message {
    let Some(header) = read_header(octets) else {
        return made(line, 0, 0, 0, None);
    };
    let label = header.label;
    let mut message = made(
        line,
        label.opc as u64,
        label.dpc as u64,
        label.sls as u64,
        None,
    );
    let own = delivered(octets);
    message.si = header.si as u64;
    message.length = own.len() as u64;
    put(&mut message.octets, 0, between(own, 0, 8));
    message
}

// A message that the node made at a line, between two points and with an SLS, by the letters of its name.
pub fn made(line: u64, origin: u64, destination: u64, sls: u64, name: Option<[u8; 3]>) -> Message {
    Message {
        arrival: 0,
        line,
        origin,
        destination,
        sls,
        name,
        si: 0,
        length: 0,
        octets: [0; 8],
        place: Place::Apart,
        sent: None,
        stood: false,
        moves: 0,
        twice: false,
    }
}

// The number that a COO or COA carries.
pub fn changeover_number(octets: &[u8]) -> Option<u64> {
    match read_message(octets) {
        Some(Management::COO(number) | Management::COA(number)) => Some(number as u64),
        _ => None,
    }
}
