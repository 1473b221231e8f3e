// A message in its slot: what is known of it in `rows`, and the octets of a user message in `octets`, 273 for each slot.
ghost use Rattle.std.specs.Prelude.{◌≡◌, length};
ghost use Rattle.queue_slots.specs.Message as Message;

use area_slots::{Slot, store_slot};

// A user message into its slot; one that is too long, or a slot of management messages, is refused.
#[tactic(auto, using(queue_rings::proofs::Runs::sets_next, crate::proofs::Messages::fits_not_slot, crate::proofs::Messages::fits_not_size, crate::proofs::Messages::fits_there), unfolding(crate::specs::Message::user_rows, crate::specs::Message::user_octets))]
pub fn write_user(
    rows: &mut [u64; 2048],
    octets: &mut [u8; 52416],
    slot: u8,
    arrival: u64,
    point: u64,
    sls: u64,
    message: &[u8],
) -> bool
    ensures value { result ≡ Message.fits slot (length message.now) }
    ensures rows_after { rows.new ≡ Message.user_rows rows.old slot arrival point sls (length message.now) }
    ensures octets_after { octets.new ≡ Message.user_octets octets.old slot message.now }
{
    if 192 <= slot {
        return false;
    }
    if 273 < message.len() {
        return false;
    }
    let to = 273 * (slot as usize);
    for i in 0..message.len() {
        octets[to + i] = message[i];
    }
    store_slot(
        rows,
        slot,
        Slot {
            arrival,
            heading: 0,
            point,
            sls,
            field: message.len() as u64,
        },
    );
    true
}

// A management message into its slot: it is held as its fields.
#[tactic(auto, unfolding(crate::specs::Message::management_rows))]
pub fn write_management(
    rows: &mut [u64; 2048],
    slot: u8,
    arrival: u64,
    heading: u64,
    point: u64,
    slc: u64,
    field: u64,
)
    ensures { rows.new ≡ Message.management_rows rows.old slot arrival heading point slc field }
{
    store_slot(
        rows,
        slot,
        Slot {
            arrival,
            heading,
            point,
            sls: slc,
            field,
        },
    );
}

// The octets of a user slot to the start of an output, if it has room for them all; how many they are.
#[tactic(auto, using(queue_rings::proofs::Runs::sets_next, crate::proofs::Messages::fits_not_slot, crate::proofs::Messages::fits_not_size, crate::proofs::Messages::fits_there, crate::proofs::Messages::octets_at_lem, crate::proofs::Messages::octets_length, crate::proofs::Messages::copies_not, crate::proofs::Messages::copies_short, crate::proofs::Messages::copy_all), unfolding(crate::specs::Message::copied_size, crate::specs::Message::copied))]
pub fn copy_octets(octets: &[u8; 52416], slot: u8, size: usize, out: &mut [u8]) -> usize
    ensures value { result ≡ Message.copied_size slot size (length out.old) }
    ensures out_after { out.new ≡ Message.copied octets.now slot size out.old }
{
    if 192 <= slot {
        return 0;
    }
    if 273 < size {
        return 0;
    }
    if out.len() < size {
        return 0;
    }
    let from = 273 * (slot as usize);
    for i in 0..size {
        out[i] = octets[from + i];
    }
    size
}
