// What a trace knows of a message that is held.
#[derive(Clone, Copy)]
pub struct Message {
    pub arrival: u64,
    // The record's line that brought it.
    pub line: u64,
    pub origin: u64,
    pub destination: u64,
    pub sls: u64,
    // The letters of the name of a message that the node made.
    pub name: Option<[u8; 3]>,
    // SI, how many octets stand behind its label, and the first eight of them.
    pub si: u64,
    pub length: u64,
    pub octets: [u8; 8],
    // Where it stands, and how it left there.
    pub place: Place,
    pub sent: Option<Sent>,
    // Whether it stood at some time in the queue of the link that is asked for, and how often it moved.
    pub stood: bool,
    pub moves: u64,
    // Whether it may arrive twice by one of its moves.
    pub twice: bool,
}

// The link in whose queue a message stands; or it is held apart.
#[derive(Clone, Copy)]
pub enum Place {
    Link(u64),
    Apart,
}

// The number that a message left with, and the record's line.
#[derive(Clone, Copy)]
pub struct Sent {
    pub fsn: u64,
    pub line: u64,
}
