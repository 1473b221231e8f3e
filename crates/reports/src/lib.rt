// The lent report area: two words for each record, what it is and the arrival number or code that it is about.
#![tactic(auto)]

ghost use Rattle.std.specs.Prelude.{◌≡◌};
ghost use Rattle.reports.specs.Report as Report;

// A record behind those written before; how many there are now. An area that is full stays as it is.
#[tactic(auto, unfolding(crate::specs::Report::told))]
pub fn report(reports: &mut [u64], count: usize, kind: u64, number: u64) -> usize
    ensures value { result ≡ (Report.told (Report.log reports.old count) kind number).count }
    ensures reports_after { reports.new ≡ (Report.told (Report.log reports.old count) kind number).area }
{
    if reports.len() / 2 <= count {
        return count;
    }
    let at = 2 * count;
    reports[at] = kind;
    reports[at + 1] = number;
    count + 1
}

// Whether the area has room for fewer than 512 records.
pub fn short(reports: &[u64]) -> bool
    ensures { result ≡ Report.short reports.now }
{
    reports.len() / 2 < 512
}
