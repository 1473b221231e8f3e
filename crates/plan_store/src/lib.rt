// A plan is stored word by word.
#![tactic(auto)]

ghost use Rattle.std.specs.Prelude.{◌≡◌, map, ◌+◌, ◌*◌, ◌≤◌, ◌<◌};
ghost use Rattle.std.proofs.lemmas.List.Edits.{sets};
ghost use Rattle.plan_words.specs.Words.{plan_at};
ghost use Rattle.plan_store.specs.Layout.{flag_word, route_word, set_words, link_words, code_words, route_words, placed, words_of};

use plan::data::{Destination, Link, LinkSet, Plan, Route};

// In one word each: whether something is given, and a route.
fn flag_word(given: bool) -> u16
    ensures { result ≡ flag_word given }
{
    if given { 1 } else { 0 }
}

fn route_word(route: Route) -> u16
    ensures { result ≡ route_word route }
{
    let set = route.set as u16;
    if route.given { 256 + set } else { set }
}

// A set: its links stand in a word each, after a word that is 0.
fn store_members(words: &mut [u16; 1024], at: usize, links: [u8; 8])
    requires { at ≤ 1016 }
    ensures { words.new ≡ sets words.old at links }
{
    for (place, link) in links.iter().enumerate() {
        words[at + place] = *link as u16;
    }
}

fn store_set(words: &mut [u16; 1024], set: usize, known: LinkSet)
    requires { set < 8 }
    ensures { words.new ≡ sets words.old (16 + 16 * set) (set_words known) }
{
    let at = 16 + 16 * set;
    words[at] = flag_word(known.given);
    words[at + 1] = known.adjacent;
    words[at + 2] = known.count as u16;
    words[at + 3] = 0;
    store_members(words, at + 4, known.links);
}

fn store_sets(words: &mut [u16; 1024], sets: [LinkSet; 8])
    ensures { words.new ≡ placed set_words 16 16 sets words.old }
{
    for (number, set) in sets.iter().enumerate() {
        store_set(words, number, *set);
    }
}

// A link: its fourth word stays as it was.
fn store_link(words: &mut [u16; 1024], link: usize, known: Link)
    requires { link < 32 }
    ensures { words.new ≡ sets words.old (144 + 4 * link) (link_words known) }
{
    let at = 144 + 4 * link;
    words[at] = flag_word(known.given);
    words[at + 1] = known.set as u16;
    words[at + 2] = known.slc as u16;
}

fn store_links(words: &mut [u16; 1024], links: [Link; 32])
    ensures { words.new ≡ placed link_words 4 144 links words.old }
{
    for (number, link) in links.iter().enumerate() {
        store_link(words, number, *link);
    }
}

// Destinations: their codes in one table, their routes in another.
fn store_codes(words: &mut [u16; 1024], destinations: [Destination; 64])
    ensures { words.new ≡ placed code_words 1 272 destinations words.old }
{
    for (place, destination) in destinations.iter().enumerate() {
        words[272 + place] = destination.code;
    }
}

fn store_routes(words: &mut [u16; 1024], place: usize, routes: [Route; 4])
    requires { place < 64 }
    ensures { words.new ≡ sets words.old (336 + 4 * place) (map route_word routes) }
{
    let at = 336 + 4 * place;
    for (rank, route) in routes.iter().enumerate() {
        words[at + rank] = route_word(*route);
    }
}

fn store_ways(words: &mut [u16; 1024], destinations: [Destination; 64])
    ensures { words.new ≡ placed route_words 4 336 destinations words.old }
{
    for (place, destination) in destinations.iter().enumerate() {
        store_routes(words, place, destination.routes);
    }
}

pub fn words_of(plan: Plan) -> [u16; 1024]
    ensures value { result ≡ words_of plan }
    ensures result_value { plan_at result ≡ plan }
{
    let mut words = [0u16; 1024];
    words[0] = flag_word(plan.given);
    words[1] = plan.code;
    words[2] = plan.ni as u16;
    words[3] = plan.count as u16;
    store_sets(&mut words, plan.sets);
    store_links(&mut words, plan.links);
    store_codes(&mut words, plan.destinations);
    store_ways(&mut words, plan.destinations);
    words
}

// Whatever stood in the words is gone.
pub fn store(words: &mut [u16; 1024], plan: Plan)
    ensures words_after { words.new ≡ words_of plan }
    ensures words_after_2 { plan_at words.new ≡ plan }
{
    *words = words_of(plan);
}
