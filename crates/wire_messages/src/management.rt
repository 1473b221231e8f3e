// The nine management messages, read from octets.
ghost use Rattle.std.specs.Prelude.{◌≡◌, get_or};
ghost use Rattle.wire_messages.specs.Management as Management;

#[derive(Clone, Copy)]
pub enum Message {
    // Changeover order and acknowledgement: the last FSN received on that link.
    COO(u8),
    COA(u8),
    // Changeback declaration and acknowledgement: the changeback code.
    CBD(u8),
    CBA(u8),
    // Emergency changeover order and acknowledgement.
    ECO,
    ECA,
    // Transfer prohibited, transfer allowed, route set test: the destination.
    TFP(u16),
    TFA(u16),
    RST(u16),
}

impl Message {
    // How many octets it has, SIO and label among them.
    pub fn total(self) -> usize
        ensures { result ≡ Management.total_of self }
    {
        match self {
            Message::ECO | Message::ECA => 6,
            Message::COO(_) | Message::COA(_) | Message::CBD(_) | Message::CBA(_) => 7,
            Message::TFP(_) | Message::TFA(_) | Message::RST(_) => 8,
        }
    }

    // Its heading octet.
    pub fn heading(self) -> u8
        ensures { result ≡ Management.heading_of self }
    {
        match self {
            Message::COO(_) => 0x11,
            Message::COA(_) => 0x21,
            Message::CBD(_) => 0x51,
            Message::CBA(_) => 0x61,
            Message::ECO => 0x12,
            Message::ECA => 0x22,
            Message::TFP(_) => 0x14,
            Message::TFA(_) => 0x54,
            Message::RST(_) => 0x15,
        }
    }

    // What stands after the heading; nothing counts as 0.
    pub fn field(self) -> u16
        ensures { result ≡ Management.field_of self }
    {
        match self {
            Message::COO(octet) | Message::COA(octet) | Message::CBD(octet) | Message::CBA(octet) =>
                octet as u16,
            Message::ECO | Message::ECA => 0,
            Message::TFP(destination) | Message::TFA(destination) | Message::RST(destination) =>
                destination,
        }
    }
}

// The management message that the octets, SIO and label among them, are; none of a heading that isn't listed or a wrong total.
pub fn read_message(octets: &[u8]) -> Option<Message>
    ensures { result ≡ Management.read_message octets.now }
{
    let low = octet(octets, 6);
    let high = octet(octets, 7);
    let message = listed(octet(octets, 5), low, high)?;
    if octets.len() == message.total() {
        Some(message)
    } else {
        None
    }
}

// The message listed under a heading, if one is, with what the two octets behind it say.
pub fn listed(heading: u8, low: u8, high: u8) -> Option<Message>
    ensures { result ≡ Management.listed heading low high }
{
    let fsn = low % 128;
    let destination = u16::from_le_bytes([low, high]) % 16384;
    let message = match heading {
        0x11 => Message::COO(fsn),
        0x21 => Message::COA(fsn),
        0x51 => Message::CBD(low),
        0x61 => Message::CBA(low),
        0x12 => Message::ECO,
        0x22 => Message::ECA,
        0x14 => Message::TFP(destination),
        0x54 => Message::TFA(destination),
        0x15 => Message::RST(destination),
        _ => return None,
    };
    Some(message)
}

// The octet at a place, 0 past the end.
fn octet(octets: &[u8], at: usize) -> u8
    ensures { result ≡ get_or octets.now at 0 }
{
    octets.get(at).copied().unwrap_or(0)
}
