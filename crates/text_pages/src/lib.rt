// What is written piece after piece into a lent area. What most pieces of a line are: a number, and the octets behind it.
#![tactic(auto)]

ghost use Rattle.std.specs.Prelude.{◌≡◌, [], ◌∷◌};
ghost use Rattle.text_decimals.specs.Decimal.{decimal_of};
ghost use Rattle.text_pages.specs.Page.{page, puts};

use text::put::put;
use text_decimals::decimal::put_decimal;

#[tactic(auto, unfolding(crate::specs::Page::puts))]
pub fn put_number(out: &mut [u8], at: usize, number: u64, behind: &[u8]) -> usize
    ensures { page out.new result ≡ puts (page out.old at) (decimal_of number ∷ behind.now ∷ []) }
{
    let at = put_decimal(out, at, number);
    put(out, at, behind)
}
