// What is decided where a link goes out of service: how its queue is cut, by a number or without one, and its record then.
#![tactic(auto)]

ghost use Rattle.std.specs.Prelude.{◌≡◌};
ghost use Rattle.changeover_cuts.specs.Cuts as Cuts;

use area_links::LinkRecord;
use constants::OUT;
use counting::{distance, in_range};

// What becomes of a queue: how many are retired, and how many then dropped; the rest moves.
#[derive(Clone, Copy)]
pub struct Cut {
    pub retired: u8,
    pub dropped: u8,
}

// At T1's or T2's expiry, and of a waiting link.
pub fn cut_none() -> Cut
    ensures { result ≡ Cuts.cut_none }
{
    Cut {
        retired: 0,
        dropped: 0,
    }
}

// By the number of a COO or COA.
#[tactic(auto, unfolding(crate::specs::Cuts::cut_at))]
pub fn cut_at(known: LinkRecord, f: u8) -> Cut
    ensures { result ≡ Cuts.cut_at known f }
{
    if in_range(known.acknowledged, known.sent, f) {
        Cut {
            retired: distance(known.acknowledged, f),
            dropped: 0,
        }
    } else {
        cut_none()
    }
}

// By an ECO or ECA.
pub fn cut_unknown(known: LinkRecord) -> Cut
    ensures { result ≡ Cuts.cut_unknown known }
{
    Cut {
        retired: 0,
        dropped: known.sent,
    }
}

// The record of a link that is out.
pub fn out_of(known: LinkRecord) -> LinkRecord
    ensures { result ≡ Cuts.out_of known }
{
    LinkRecord {
        state: OUT,
        sent: 0,
        timer: 0,
        t3: false,
        code: 0,
        ..known
    }
}
