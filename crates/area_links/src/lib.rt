// The record of a link: seven words of the eight for each of 32 links.
#![tactic(auto)]

ghost use Rattle.std.specs.Prelude.{◌≡◌};
ghost use Rattle.area_links.specs.LinkRecords.{record_at, with_record};

use area_flags::word;
use constants::LINKS;

// What changes of a link. By default it is out, and nothing runs.
#[derive(Clone, Copy, Default)]
pub struct LinkRecord {
    // 0 out, 1 waiting, 2 open, 3 changing.
    pub state: u8,
    // The last acknowledged number, the last received, and how many messages are sent and unacknowledged.
    pub acknowledged: u8,
    pub received: u8,
    pub sent: u8,
    // The timer of its changeover: 0 none, 1 T1, 2 T2.
    pub timer: u8,
    // Whether T3 runs.
    pub t3: bool,
    // The code of its unanswered CBD and one more, 0 where there is none: T4 runs exactly while there is one.
    pub code: u8,
}

pub fn load_link(links: &[u32; 256], link: u8) -> LinkRecord
    ensures { result ≡ record_at links.now link }
{
    if LINKS <= link {
        return LinkRecord::default();
    }
    let at = 8 * (link as usize);
    LinkRecord {
        state: (links[at] % 4) as u8,
        acknowledged: (links[at + 1] % 128) as u8,
        received: (links[at + 2] % 128) as u8,
        sent: (links[at + 3] % 128) as u8,
        timer: (links[at + 4] % 4) as u8,
        t3: 0 < links[at + 5],
        code: (links[at + 6] % 64) as u8,
    }
}

pub fn store_link(links: &mut [u32; 256], link: u8, known: LinkRecord)
    ensures { links.new ≡ with_record links.old link known }
{
    if LINKS <= link {
        return;
    }
    let at = 8 * (link as usize);
    links[at] = known.state as u32;
    links[at + 1] = known.acknowledged as u32;
    links[at + 2] = known.received as u32;
    links[at + 3] = known.sent as u32;
    links[at + 4] = known.timer as u32;
    links[at + 5] = word(known.t3);
    links[at + 6] = known.code as u32;
}
