// Which links serve and which routes are marked, read from the lent areas: eight words for each link, the first its state, and
// eight for each destination, the first four the marks of its routes.
#![tactic(auto)]

ghost use Rattle.std.specs.Prelude.{◌≡◌};
ghost use Rattle.route_serving.specs.State as State;

use constants::{LINKS, OPEN_WORD, OUT_WORD};

// What a link must be to serve: open, or else carrying, and not the one that is never used (32 where each may be).
#[derive(Clone, Copy)]
pub struct Need {
    pub open: bool,
    pub never: u8,
}

pub fn state(links: &[u32; 256], link: u8) -> u32
    ensures { result ≡ State.state_of links.now link }
{
    if link < LINKS {
        links[8 * link as usize] % 4
    } else {
        0
    }
}

pub fn serves(links: &[u32; 256], need: Need, link: u8) -> bool
    ensures { result ≡ State.serves links.now need link }
{
    if LINKS <= link {
        return false;
    }
    if link == need.never {
        return false;
    }
    let state = state(links, link);
    if need.open {
        state == OPEN_WORD
    } else {
        OUT_WORD < state
    }
}

pub fn marked(marks: &[u32; 512], destination: usize, rank: usize) -> bool
    ensures { result ≡ State.is_marked marks.now destination rank }
{
    if 64 <= destination {
        return false;
    }
    if 4 <= rank {
        return false;
    }
    0 < marks[8 * destination + rank]
}
