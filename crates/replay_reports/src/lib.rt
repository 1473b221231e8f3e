// The lines of a call's reports.
#![tactic(auto, unfolding(text_pages::specs::Page::puts))]

ghost use Rattle.std.specs.Prelude.{◌≡◌, [], ◌∷◌};
ghost use Rattle.text_decimals.specs.Decimal.{decimal_of};
ghost use Rattle.text_pages.specs.Page.{page, puts, parted, ended};
ghost use Rattle.replay_reports.specs.Reported as Reported;

use text_pages::put_number;

// A line for each record, up to a count of them.
pub fn put_reports(out: &mut [u8], at: usize, number: u64, reports: &[u64], count: usize) -> usize
    ensures { page out.new result ≡ puts (page out.old at) (Reported.all_reported number reports.now count) }
{
    let held = reports.len() / 2;
    let count = count.min(held);
    let mut at = at;
    for k in 0..count {
        at = put_report(out, at, number, reports[2 * k], reports[2 * k + 1]);
    }
    at
}

fn put_report(out: &mut [u8], at: usize, number: u64, kind: u64, about: u64) -> usize
    ensures { page out.new result ≡ puts (page out.old at) (Reported.reported number kind about) }
{
    if kind == 4 {
        put_access(out, at, number, b"\tpause\t", about)
    } else if kind == 5 {
        put_access(out, at, number, b"\tresume\t", about)
    } else {
        put_drop(out, at, number, about, kind)
    }
}

fn put_access(out: &mut [u8], at: usize, number: u64, word: &[u8], destination: u64) -> usize
    ensures { page out.new result ≡
        puts (page out.old at) (decimal_of number ∷ word.now ∷ decimal_of destination ∷ ended ∷ []) }
{
    let at = put_number(out, at, number, word);
    put_number(out, at, destination, b"\n")
}

fn put_drop(out: &mut [u8], at: usize, number: u64, arrival: u64, reason: u64) -> usize
    ensures { page out.new result ≡
        puts (page out.old at) (decimal_of number ∷ Reported.drop_word ∷ decimal_of arrival ∷ parted ∷ decimal_of reason ∷ ended ∷ []) }
{
    let at = put_number(out, at, number, b"\tdrop\t");
    let at = put_number(out, at, arrival, b"\t");
    put_number(out, at, reason, b"\n")
}
