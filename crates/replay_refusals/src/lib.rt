// The lines that end a run: one that can't be read, and a configuration that is refused.
#![tactic(auto)]

ghost use Rattle.std.specs.Prelude.{◌≡◌};
ghost use Rattle.text_pages.specs.Page.{page, puts};
ghost use Rattle.replay_refusals.specs.Refused.{unreadable, refused_by};

use text::put::put;
use text_pages::put_number;

pub fn put_unreadable(out: &mut [u8], at: usize, number: u64) -> usize
    ensures { page out.new result ≡ puts (page out.old at) (unreadable number) }
{
    put_number(out, at, number, b"\trefused\t30\n")
}

#[tactic(auto, unfolding(text_pages::specs::Page::puts))]
pub fn put_fault(out: &mut [u8], at: usize, line: usize, fault: u8) -> usize
    ensures { page out.new result ≡ puts (page out.old at) (refused_by line fault) }
{
    let at = put(out, at, b"config\t");
    let at = put_number(out, at, line as u64, b"\t");
    put_number(out, at, fault as u64, b"\n")
}
