// The fates of a call on a page, queue by queue.
ghost use Rattle.std.specs.Prelude.{◌≡◌};
ghost use Rattle.text_pages.specs.Page.{page, puts};
ghost use Rattle.fate_places.specs.Places.{held_of};
ghost use Rattle.fate_lines.specs.Lines.{fate_lines};
ghost use Rattle.replay_fates.specs.Fates as Fates;

use crate::deciding::{Part, Told, fate_of, leaving, sent_fate};
use fate_lines::put_fate;
use fate_places::{Held, message_at, places, whither};

// All fates of a call: by the links and queues after it, and by the queues before it.
pub fn put_fates(
    out: &mut [u8],
    at: usize,
    number: u64,
    told: Told,
    links: &[u32; 256],
    before: Held,
    after: Held,
    reports: &[u64],
) -> usize
    ensures { page out.new result ≡
        puts (page out.old at)
        (fate_lines number
        (Fates.fates_of told links.now (held_of before.entry)
        (held_of after.entry) reports.now)) }
{
    let count = told.reports;
    let new = Part::Arriving(told.next);
    let at = put_part(out, at, number, new, after, after, reports, count);
    let at = put_fate(out, at, number, sent_fate(told, links, after));
    put_left(out, at, number, told, before, after, reports)
}

// What left the queues that it stood in: taken out of all of them first, then moved to another.
fn put_left(
    out: &mut [u8],
    at: usize,
    number: u64,
    told: Told,
    before: Held,
    after: Held,
    reports: &[u64],
) -> usize
    ensures { page out.new result ≡
        puts (page out.old at)
        (fate_lines number
        (Fates.left_of told (held_of before.entry)
        (held_of after.entry) reports.now)) }
{
    let count = told.reports;
    let part = leaving(told);
    let at = put_part(out, at, number, part, before, after, reports, count);
    put_part(out, at, number, Part::Moving, before, after, reports, count)
}

// One part of them: of each queue that is walked, by the queues after the call.
fn put_part(
    out: &mut [u8],
    at: usize,
    number: u64,
    part: Part,
    walked: Held,
    after: Held,
    reports: &[u64],
    count: usize,
) -> usize
    ensures { page out.new result ≡
        puts (page out.old at)
        (fate_lines number
        (Fates.fates_in part (held_of walked.entry)
        (held_of after.entry) reports.now count)) }
{
    let mut at = at;
    let mut left = 256u16;
    for queue in 0..33u8 {
        let many = places(walked, queue).min(left);
        at = put_queue(
            out, at, number, part, walked, after, reports, count, queue, many,
        );
        left -= many;
    }
    at
}

// Of one queue, so many places from its first on.
fn put_queue(
    out: &mut [u8],
    at: usize,
    number: u64,
    part: Part,
    walked: Held,
    after: Held,
    reports: &[u64],
    count: usize,
    queue: u8,
    many: u16,
) -> usize
    ensures { page out.new result ≡
        puts (page out.old at)
        (fate_lines number
        (Fates.fates_at part (held_of walked.entry)
        (held_of after.entry) reports.now count queue 0 many)) }
{
    let mut at = at;
    for place in 0..many {
        let known = message_at(walked, queue, place);
        let to = whither(after, reports, count, queue, place, known.arrival);
        at = put_fate(out, at, number, fate_of(part, queue, known, to));
    }
    at
}
