// SIO and label: the five octets that every message begins with, and the part behind them.
ghost use Rattle.std.specs.Prelude.{◌≡◌};
ghost use Rattle.wire.specs.Header.{label_of, from_low, read_header, after_label};

// Where a message goes and comes from. With SI 0 the SLS is the SLC.
#[derive(Clone, Copy)]
pub struct Label {
    pub dpc: u16,
    pub opc: u16,
    pub sls: u8,
}

#[derive(Clone, Copy)]
pub struct Header {
    pub si: u8,
    pub ni: u8,
    pub label: Label,
}

// SIO and label of a message of any length; none of a malformed one: fewer than 5 or more than 273 octets.
pub fn read_header(message: &[u8]) -> Option<Header>
    ensures { result ≡ read_header message.now }
{
    let &[sio, a, b, c, d, ..] = message else {
        return None;
    };
    if 273 < message.len() {
        return None;
    }
    Some(Header {
        si: sio % 16,
        ni: sio / 64,
        label: read_label([a, b, c, d]),
    })
}

// The label in four octets, the lowest first.
fn read_label(octets: [u8; 4]) -> Label
    ensures { result ≡ label_of (from_low octets) }
{
    let word = u32::from_le_bytes(octets);
    Label {
        dpc: (word % 16384) as u16,
        opc: (word / 16384 % 16384) as u16,
        sls: (word / 268435456 % 16) as u8,
    }
}

// The part of a message that is delivered: its own octets behind SIO and label.
pub fn delivered(message: &[u8]) -> &[u8]
    ensures { result.now ≡ after_label message.now }
{
    message.get(5..).unwrap_or(&[])
}
