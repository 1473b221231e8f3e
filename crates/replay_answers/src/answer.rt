// All lines of a call, or of a question.
ghost use Rattle.std.specs.Prelude.{◌≡◌, []};
ghost use Rattle.node.specs.View.{view_of};
ghost use Rattle.text_pages.specs.Page.{page, puts};
ghost use Rattle.fate_places.specs.Places.{held_of};
ghost use Rattle.fate_lines.specs.Lines.{fate_lines};
ghost use Rattle.replay_fates.specs.Fates.{fates_of};
ghost use Rattle.replay_answers.specs.Answers.{answered, shows_of, shows_for, list_lines, told_of, acknowledges_of, sender_of};

use fate_places::Held;
use node::ask::Question;
use node::call::Event;
use replay_fates::deciding::Told;
use replay_fates::telling::put_fates;
use replay_reports::put_reports;
use replay_routes::put_routes;
use replay_showing::reply::put_reply;
use replay_showing::shows::Shows;
use replies::Answer;
use text::part::between;

// The lines of an answer, behind those written before; `sent` is the output that the call or question wrote.
pub fn put_answer(
    out: &mut [u8],
    at: usize,
    number: u64,
    shows: Shows,
    answer: Answer,
    message: &[u8],
    sent: &[u8],
    reports: &[u64],
) -> usize
    ensures { page out.new result ≡
        puts (page out.old at) (answered number shows answer message.now sent.now [] reports.now) }
{
    let at = put_reply(out, at, number, shows, answer, message, sent);
    let at = put_reports(out, at, number, reports, answer.reports);
    put_listed(out, at, number, shows, answer.octets, sent)
}

// The same with the fates of a call: by the links and queues after it, and by the queues before it.
pub fn put_told(
    out: &mut [u8],
    at: usize,
    number: u64,
    shows: Shows,
    answer: Answer,
    message: &[u8],
    sent: &[u8],
    reports: &[u64],
    told: Told,
    links: &[u32; 256],
    before: Held,
    after: Held,
) -> usize
    ensures { page out.new result ≡
        puts (page out.old at)
        (answered number shows answer message.now sent.now
        (fate_lines number
        (fates_of told links.now (held_of before.entry)
        (held_of after.entry) reports.now))
        reports.now) }
{
    let at = put_reply(out, at, number, shows, answer, message, sent);
    let at = put_fates(out, at, number, told, links, before, after, reports);
    let at = put_reports(out, at, number, reports, answer.reports);
    let octets = answer.octets;
    put_listed(out, at, number, shows, octets, sent)
}

// What is known of a call where its fates are told, by the next arrival number before it.
pub fn told(event: Event, answer: Answer, next: u64) -> Told
    ensures { result ≡ told_of (view_of event) answer next }
{
    let sender = if answer.reply == 0 { sender(event) } else { 32 };
    Told {
        next,
        acknowledges: acknowledges(event),
        sender,
        fsn: answer.fsn,
        reports: answer.reports,
    }
}

// Whether a call acknowledges.
fn acknowledges(event: Event) -> bool
    ensures { result ≡ acknowledges_of (view_of event) }
{
    matches!(event, Event::Acknowledgement(_, _))
}

// The link that a call sends on, 32 for none.
fn sender(event: Event) -> u8
    ensures { result ≡ sender_of (view_of event) }
{
    match event {
        Event::Send(link) => link,
        _ => 32,
    }
}

// What a call shows beside its reply and reports.
pub fn shown(event: Event) -> Shows
    ensures { result ≡ shows_of (view_of event) }
{
    match event {
        Event::Send(_) => Shows::Sent,
        Event::Received(_, _) => Shows::Delivered,
        _ => Shows::Nothing,
    }
}

// What a question shows.
pub fn shown_for(question: Question) -> Shows
    ensures { result ≡ shows_for question }
{
    match question {
        Question::RouteList => Shows::Listed,
    }
}

// The lines of a route list, where one is shown.
#[tactic(auto, unfolding(text_pages::specs::Page::puts))]
fn put_listed(
    out: &mut [u8],
    at: usize,
    number: u64,
    shows: Shows,
    octets: usize,
    sent: &[u8],
) -> usize
    ensures { page out.new result ≡ puts (page out.old at) (list_lines shows number octets sent.now) }
{
    match shows {
        Shows::Listed => put_routes(out, at, number, between(sent, 0, octets)),
        _ => at,
    }
}
