// A node as programs run it, with areas of its own for what it keeps and for what a call reads and writes.
#![tactic(auto)]

use areas::Areas;
use replay_shift::run::{Place, View, run_lines};
use start::{Started, start};

// The areas of a node: what its configuration says, and what it keeps.
#[derive(Drop)]
pub struct Node {
    pub plan: [u16; 1024],
    pub links: [u32; 256],
    marks: [u32; 512],
    spans: [u16; 70],
    rings: [u8; 8960],
    pub rows: [u64; 2048],
    octets: [u8; 52416],
    arrivals: [u64; 1],
}

impl Node {
    // Nothing is in the areas yet.
    pub fn empty() -> Node {
        Node {
            plan: [0; 1024],
            links: [0; 256],
            marks: [0; 512],
            spans: [0; 70],
            rings: [0; 8960],
            rows: [0; 2048],
            octets: [0; 52416],
            arrivals: [0; 1],
        }
    }

    // The node that a configuration makes; the first faulty line and its fault where it is refused.
    pub fn start(&mut self, configuration: &[u8]) -> Result<(), Started> {
        let made = start(
            &mut self.plan,
            &mut self.links,
            &mut self.marks,
            &mut self.spans,
            &mut self.rings,
            &mut self.arrivals,
            configuration,
        );
        if 0 < made.fault { Err(made) } else { Ok(()) }
    }

    // The lines that end in a text, from a place on: what is shown of their answers stands on the page.
    pub fn run(&mut self, text: &[u8], from: Place, view: View, page: &mut [u8; 262144]) -> Place {
        let mut message = [0u8; 1024];
        let mut sent = [0u8; 4096];
        let mut reports = [0u64; 1024];
        let mut areas = Areas {
            links: &mut self.links,
            marks: &mut self.marks,
            spans: &mut self.spans,
            rings: &mut self.rings,
            rows: &mut self.rows,
            octets: &mut self.octets,
            arrivals: &mut self.arrivals,
        };
        run_lines(
            &self.plan,
            &mut areas,
            text,
            from,
            view,
            &mut message,
            &mut sent,
            &mut reports,
            page,
        )
    }
}

// Before the first line of a record.
pub fn beginning() -> Place {
    Place {
        at: 0,
        number: 1,
        pending: 0,
        readable: true,
    }
}
