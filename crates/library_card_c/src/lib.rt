// The card driver's record of one link, as C calls it: what `library_card` says of it.
#![tactic(auto)]

ghost use Rattle.std.specs.Prelude.{◌≡◌};
ghost use Rattle.library_card.specs.Card as Card;

use library_card::Record;

// The record of a link that has just come into service.
#[unsafe(no_mangle)]
pub extern "C" fn transfer_point_begun() -> Record
    ensures { result ≡ Card.begun }
{
    library_card::transfer_point_begun()
}

// A message is sent: the record is brought up to date, and its number is given.
#[unsafe(no_mangle)]
pub extern "C" fn transfer_point_note_sent(link: &mut Record) -> u8
    ensures value { result ≡ (Card.sent_one link.old).number }
    ensures link_after { link.new ≡ (Card.sent_one link.old).link }
{
    library_card::transfer_point_note_sent(link)
}

// Messages up to b are acknowledged: the record is brought up to date if b is in range, and left as it was if not.
#[unsafe(no_mangle)]
pub extern "C" fn transfer_point_note_acknowledged(link: &mut Record, b: u8) -> bool
    ensures value { result ≡ (Card.acknowledged_to link.old b).accepted }
    ensures link_after { link.new ≡ (Card.acknowledged_to link.old b).link }
{
    library_card::transfer_point_note_acknowledged(link, b)
}
