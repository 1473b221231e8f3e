// What of a record's answers is shown: those of some lines, whole or their reports alone.
ghost use Rattle.std.specs.Prelude.{◌≡◌, []};
ghost use Rattle.text_pages.specs.Page.{page, puts};
ghost use Rattle.replay_answers.specs.Shown as Shown;

use crate::answer::put_answer;
use replay_reports::put_reports;
use replay_showing::shows::Shows;
use replies::Answer;

// Which answers are shown: those of the lines from one to another, whole or their reports alone, and whether with their fates.
#[derive(Clone, Copy)]
pub struct View {
    pub first: u64,
    pub last: u64,
    pub only: bool,
    pub fates: bool,
}

// Whether fates are shown of a line.
pub fn tells(view: View, number: u64) -> bool
    ensures { result ≡ Shown.tells view number }
{
    if number < view.first {
        return false;
    }
    let last = view.last;
    if last < number {
        return false;
    }
    if view.only {
        return false;
    }
    view.fates
}

// What is shown of an answer, on the page.
pub fn put_shown(
    out: &mut [u8],
    at: usize,
    number: u64,
    view: View,
    shows: Shows,
    answer: Answer,
    message: &[u8],
    sent: &[u8],
    reports: &[u64],
) -> usize
    ensures { page out.new result ≡
        puts (page out.old at) (Shown.shown view number shows answer message.now sent.now [] reports.now) }
{
    if number < view.first {
        return at;
    }
    if view.last < number {
        return at;
    }
    if view.only {
        return put_reports(out, at, number, reports, answer.reports);
    }
    put_answer(out, at, number, shows, answer, message, sent, reports)
}
