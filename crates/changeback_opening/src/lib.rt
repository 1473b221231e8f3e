// When a waiting link opens: what is left to wait for, T3 and the answer to its CBD.
#![tactic(auto)]

ghost use Rattle.std.specs.Prelude.{◌≡◌};
ghost use Rattle.changeback_opening.specs.Opening as Opening;

use area_links::LinkRecord;
use constants::WAITING;

// The state with what is left to wait for: a waiting link opens with nothing left.
fn state_left(known: LinkRecord, t3: bool, code: u8) -> u8
    ensures { result ≡ (Opening.waits known t3 code).state }
{
    if known.state != WAITING {
        return known.state;
    }
    if t3 {
        return 1;
    }
    if 0 < code {
        return 1;
    }
    2
}

// The record with what is left to wait for.
fn waits(known: LinkRecord, t3: bool, code: u8) -> LinkRecord
    ensures { result ≡ Opening.waits known t3 code }
{
    LinkRecord {
        state: state_left(known, t3, code),
        t3,
        code,
        ..known
    }
}

// Whether T3 or T4 runs.
pub fn runs(known: LinkRecord, timer: u8) -> bool
    ensures { result ≡ Opening.runs known timer }
{
    if timer == 3 { known.t3 } else { 0 < known.code }
}

// The record without T3, or without T4.
#[tactic(auto, unfolding(crate::specs::Opening::stopped))]
pub fn stopped(known: LinkRecord, timer: u8) -> LinkRecord
    ensures { result ≡ Opening.stopped known timer }
{
    if timer == 3 {
        waits(known, false, known.code)
    } else {
        waits(known, known.t3, 0)
    }
}
