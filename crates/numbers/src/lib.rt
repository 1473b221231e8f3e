// The numbers of one link's record, as send, acknowledgement and a received message change them.
#![tactic(auto)]

ghost use Rattle.std.specs.Prelude.{◌≡◌};
ghost use Rattle.numbers.specs.Numbers as Numbers;

use area_links::LinkRecord;
use area_numbers::store_received;
use counting::{distance, next, onward};

// The number with which the next message leaves.
pub fn next_number(known: LinkRecord) -> u8
    ensures { result ≡ Numbers.next_number known }
{
    onward(known.acknowledged, next(known.sent))
}

// How many of the sent messages are left behind b.
pub fn left_sent(known: LinkRecord, b: u8) -> u8
    ensures { result ≡ Numbers.left_sent known b }
{
    distance(distance(known.acknowledged, b), known.sent)
}

// Whether a message that was looked at is taken, by its reply.
pub fn is_taken(reply: u8) -> bool
    ensures { result ≡ Numbers.is_taken reply }
{
    !matches!(reply, 7 | 8 | 10)
}

// A message from a link is taken: the link's last received number moves on.
#[tactic(auto, unfolding(crate::specs::Numbers::taken))]
pub fn take_message(links: &mut [u32; 256], link: u8, fsn: u8)
    ensures { links.new ≡ Numbers.taken links.old link fsn }
{
    store_received(links, link, fsn);
}
