// The areas that a host lends to the calls of a node, together.
#![tactic(auto)]

#[derive(Drop)]
pub struct Areas<'a> {
    // The records of links, and the flags of destinations.
    pub links: &'a mut [u32; 256],
    pub marks: &'a mut [u32; 512],
    // The queues: head and count of each ring, and the rings.
    pub spans: &'a mut [u16; 70],
    pub rings: &'a mut [u8; 8960],
    // What is known of each held message, the octets of those of users, and the next arrival number.
    pub rows: &'a mut [u64; 2048],
    pub octets: &'a mut [u8; 52416],
    pub arrivals: &'a mut [u64; 1],
}
