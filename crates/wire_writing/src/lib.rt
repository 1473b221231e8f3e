// The nine messages of signalling network management, written into a lent output.
#![tactic(auto)]

ghost use Rattle.std.specs.Prelude.{◌≡◌};
ghost use Rattle.wire.specs.Header.{label_word};
ghost use Rattle.wire_messages.specs.Management as Management;
ghost use Rattle.wire_writing.specs.Writing as Writing;

use wire::header::Label;
use wire_messages::management::Message;

// Writes the message, SI 0, at the start of the output and answers how many octets it has; 0 for an output under 273 octets.
#[tactic(auto, using(crate::proofs::Written::eight))]
pub fn write_message(ni: u8, label: Label, message: Message, out: &mut [u8]) -> usize
    ensures value { result ≡ Writing.written_count out.old (Writing.octets_of ni label message) }
    ensures out_after { out.new ≡ Writing.written_into out.old (Writing.octets_of ni label message) }
{
    if out.len() < 273 {
        return 0;
    }
    let octets = spell(ni, label, message);
    let total = message.total();
    out[..total].copy_from_slice(&octets[..total]);
    total
}

// The message in its first octets; what stands behind them is 0.
#[tactic(auto, using(crate::proofs::Written::values_some))]
fn spell(ni: u8, label: Label, message: Message) -> [u8; 8]
    ensures { result ≡ Writing.eight_of ni label message }
{
    let [a, b, c, d] = label_word(label).to_le_bytes();
    let [low, high] = (message.field() % values(message)).to_le_bytes();
    [64 * (ni % 4), a, b, c, d, message.heading(), low, high]
}

// The 32 bits of a label.
fn label_word(label: Label) -> u32
    ensures { result ≡ label_word label }
{
    (label.dpc % 16384) as u32
        + 16384 * ((label.opc % 16384) as u32)
        + 268435456 * ((label.sls % 16) as u32)
}

// How many values the field has: an FSN has 7 bits, a destination 14.
fn values(message: Message) -> u16
    ensures { result ≡ Management.values_of message }
{
    match message {
        Message::COO(_) | Message::COA(_) => 128,
        Message::CBD(_) | Message::CBA(_) => 256,
        Message::ECO | Message::ECA => 1,
        Message::TFP(_) | Message::TFA(_) | Message::RST(_) => 16384,
    }
}
