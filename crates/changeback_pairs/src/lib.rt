// Which links the pairs come from that a link takes when it comes back.
#![tactic(auto)]

ghost use Rattle.plan_words.specs.Words.{plan_of};
ghost use Rattle.std.specs.Prelude.{◌≡◌};
ghost use Rattle.changeback_pairs.specs.Pairs as Pairs;

use constants::NO_LINK;
use lookup::set_of;
use route_access::given_of;
use route_ways::current;

// The link of its own set, 32 where there is none, and whether one is of another set.
#[derive(Clone, Copy)]
pub struct Sources {
    pub own: u8,
    pub other: bool,
}

// The link that a pair comes from, 32 where it doesn't come to this link from another.
#[tactic(auto, unfolding(crate::specs::Pairs::came_from))]
fn came_from(
    plan: &[u16; 1024],
    before: &[u32; 256],
    after: &[u32; 256],
    marks: &[u32; 512],
    link: u8,
    destination: usize,
    sls: u8,
) -> u8
    ensures { result ≡ Pairs.came_from (plan_of plan) before.now after.now marks.now link destination sls }
{
    let from = current(plan, before, marks, destination, sls);
    if from == link {
        return NO_LINK;
    }
    if current(plan, after, marks, destination, sls) == link {
        from
    } else {
        NO_LINK
    }
}

// A source more.
#[tactic(auto, unfolding(crate::specs::Pairs::with_source))]
fn with_source(plan: &[u16; 1024], link: u8, from: u8, known: Sources) -> Sources
    ensures { result ≡ Pairs.with_source (plan_of plan) link from known }
{
    if NO_LINK <= from {
        return known;
    }
    if set_of(plan, from) != set_of(plan, link) {
        return Sources {
            own: known.own,
            other: true,
        };
    }
    if known.own < NO_LINK {
        return known;
    }
    Sources {
        own: from,
        other: known.other,
    }
}

// The sources of all pairs.
pub fn sources_of(
    plan: &[u16; 1024],
    before: &[u32; 256],
    after: &[u32; 256],
    marks: &[u32; 512],
    link: u8,
) -> Sources
    ensures { result ≡ Pairs.sources_of (plan_of plan) before.now after.now marks.now link }
{
    let mut known = Sources {
        own: NO_LINK,
        other: false,
    };
    for pair in 0..16 * given_of(plan) {
        let from = came_from(
            plan,
            before,
            after,
            marks,
            link,
            pair / 16,
            (pair % 16) as u8,
        );
        known = with_source(plan, link, from, known);
    }
    known
}
