// Prints a spread of management messages, sixteen of each kind: a line for each, with what was meant and the octets that say
// it. `stdout` beside this was made by another encoder and taken apart by a third program (tests/dissect.py).
#![tactic(auto)]

use std::{fmt, io};
use wire::header::Label;
use wire_messages::management::Message;

// Codes with every bit set and clear somewhere, and the ends of each range.
const CODES: [u16; 16] = [
    0, 1, 2, 3, 127, 128, 255, 256, 300, 4096, 5461, 8191, 8192, 10922, 16382, 16383,
];

fn main(rt: HostRuntime) -> io::Result<()> {
    for kind in 0..9 {
        print_kind(&rt, kind)?;
    }
    Ok(())
}

fn print_kind(rt: &impl Print, kind: usize) -> io::Result<()> {
    for k in 0..16 {
        let label = Label {
            dpc: CODES[k],
            opc: CODES[15 - k],
            sls: k as u8,
        };
        let messages = nine(CODES[(k + 5) % 16]);
        print_line(rt, (k % 4) as u8, label, messages[kind % 9])?;
    }
    Ok(())
}

// The nine messages, each with as much of a code as its field holds.
fn nine(code: u16) -> [Message; 9] {
    let fsn = (code % 128) as u8;
    let octet = (code % 256) as u8;
    [
        Message::COO(fsn),
        Message::COA(fsn),
        Message::CBD(octet),
        Message::CBA(octet),
        Message::ECO,
        Message::ECA,
        Message::TFP(code),
        Message::TFA(code),
        Message::RST(code),
    ]
}

// A line: NAME NI DPC OPC SLC FIELD OCTETS, with a tab between two.
fn print_line(rt: &impl Print, ni: u8, label: Label, message: Message) -> io::Result<()> {
    let mut out = [0u8; 273];
    let count = wire_writing::write_message(ni, label, message, &mut out);
    let name = name(message);
    let Label { dpc, opc, sls } = label;
    let field = Field(message);
    let octets = Hex(out.get(..count).unwrap_or(&[]));
    println!(rt; "{name}\t{ni}\t{dpc}\t{opc}\t{sls}\t{field}\t{octets}")
}

fn name(message: Message) -> &'static str {
    match message {
        Message::COO(_) => "COO",
        Message::COA(_) => "COA",
        Message::CBD(_) => "CBD",
        Message::CBA(_) => "CBA",
        Message::ECO => "ECO",
        Message::ECA => "ECA",
        Message::TFP(_) => "TFP",
        Message::TFA(_) => "TFA",
        Message::RST(_) => "RST",
    }
}

// The field of a message, `-` where it has none.
#[derive(Drop)]
struct Field(Message);

impl fmt::Display for Field {
    fn fmt<W: fmt::Write>(&self, f: &mut fmt::Formatter<W>) -> fmt::Result {
        match self.0 {
            Message::ECO | Message::ECA => f.write_str("-"),
            message => write!(f, "{}", message.field()),
        }
    }
}

// Octets, two hex digits each.
#[derive(Drop)]
struct Hex<'a>(&'a [u8]);

impl fmt::Display for Hex<'_> {
    fn fmt<W: fmt::Write>(&self, f: &mut fmt::Formatter<W>) -> fmt::Result {
        for octet in self.0 {
            write!(f, "{octet:02x}")?;
        }
        Ok(())
    }
}
