// Which messages are shown.
use trace_rows::circuit::circuit_of;
use trace_rows::held::Message;

// The lines that brought them, the link whose queue they stood in, their destination and circuit; whether only those that may be lost or only those that
// may arrive twice are shown, or only sentences about links.
#[derive(Clone, Copy)]
pub struct Asked {
    pub first: u64,
    pub last: u64,
    pub link: Option<u64>,
    pub destination: Option<u64>,
    pub circuit: Option<u64>,
    pub lost: bool,
    pub twice: bool,
    pub changeovers: bool,
}

// Whether a message is shown that may be lost, or isn't.
pub fn shows(asked: Asked, message: Message, lost: bool) -> bool {
    if asked.changeovers || ((asked.lost && !lost) || (asked.twice && !message.twice)) {
        return false;
    }
    if message.line < asked.first || asked.last < message.line {
        return false;
    }
    if asked.link.is_some() && !message.stood {
        return false;
    }
    fits(asked.destination, Some(message.destination)) && fits(asked.circuit, circuit_of(message))
}

// Whether a number is the one that is asked for, where one is.
fn fits(asked: Option<u64>, number: Option<u64>) -> bool {
    asked.is_none() || asked == number
}
