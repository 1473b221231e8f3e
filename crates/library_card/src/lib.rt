// The record that the card driver keeps of one link: the last sent and the last acknowledged number. A send and an acknowledgement change it
// where it lies; each is thin over a function by value, and C calls it by `library_card_c`.
#![tactic(auto)]

ghost use Rattle.std.specs.Prelude.{◌≡◌};
ghost use Rattle.library_card.specs.Card as Card;

use counting::{distance, in_range, next};

// The last sent and the last acknowledged number.
#[repr(C)]
#[derive(Clone, Copy)]
pub struct Record {
    pub sent: u8,
    pub acknowledged: u8,
}

// The record after a send, and the number with which the message leaves.
#[derive(Clone, Copy)]
pub struct Sent {
    pub link: Record,
    pub number: u8,
}

// The record after an acknowledgement, and whether its number is in range.
#[derive(Clone, Copy)]
pub struct Acknowledged {
    pub link: Record,
    pub accepted: bool,
}

// The record of a link that has just come into service.
pub fn transfer_point_begun() -> Record
    ensures { result ≡ Card.begun }
{
    Record {
        sent: 127,
        acknowledged: 127,
    }
}

// What a send gives: the next number, which is the last sent from now on.
pub fn sent_one(link: Record) -> Sent
    ensures { result ≡ Card.sent_one link }
{
    let number = next(link.sent);
    Sent {
        link: Record {
            sent: number,
            ..link
        },
        number,
    }
}

// Whether b is the last acknowledged number or that of a sent unacknowledged message.
pub fn accepts(link: Record, b: u8) -> bool
    ensures { result ≡ Card.accepts link b }
{
    in_range(link.acknowledged, distance(link.acknowledged, link.sent), b)
}

// What an acknowledgement gives: with b in range it is the last acknowledged from now on.
pub fn acknowledged_to(link: Record, b: u8) -> Acknowledged
    ensures { result ≡ Card.acknowledged_to link b }
{
    if accepts(link, b) {
        return Acknowledged {
            link: Record {
                acknowledged: b % 128,
                ..link
            },
            accepted: true,
        };
    }
    Acknowledged {
        link,
        accepted: false,
    }
}

// A message is sent: the record is brought up to date, and its number is given.
pub fn transfer_point_note_sent(link: &mut Record) -> u8
    ensures value { result ≡ (Card.sent_one link.old).number }
    ensures link_after { link.new ≡ (Card.sent_one link.old).link }
{
    let after = sent_one(*link);
    *link = after.link;
    after.number
}

// Messages up to b are acknowledged: the record is brought up to date if b is in range, and left as it was if not.
pub fn transfer_point_note_acknowledged(link: &mut Record, b: u8) -> bool
    ensures value { result ≡ (Card.acknowledged_to link.old b).accepted }
    ensures link_after { link.new ≡ (Card.acknowledged_to link.old b).link }
{
    let after = acknowledged_to(*link, b);
    *link = after.link;
    after.accepted
}
