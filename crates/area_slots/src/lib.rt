// A slot's row: five words of the eight for each of 256 slots.
#![tactic(auto)]

ghost use Rattle.std.specs.Prelude.{◌≡◌};
ghost use Rattle.area_slots.specs.SlotRows.{slot_at, with_slot};

// What is known of a held message beside its octets.
#[derive(Clone, Copy)]
pub struct Slot {
    pub arrival: u64,
    pub heading: u64,
    pub point: u64,
    pub sls: u64,
    pub field: u64,
}

pub fn load_slot(rows: &[u64; 2048], slot: u8) -> Slot
    ensures { result ≡ slot_at rows.now slot }
{
    let at = 8 * (slot as usize);
    Slot {
        arrival: rows[at],
        heading: rows[at + 1],
        point: rows[at + 2],
        sls: rows[at + 3],
        field: rows[at + 4],
    }
}

pub fn store_slot(rows: &mut [u64; 2048], slot: u8, message: Slot)
    ensures { rows.new ≡ with_slot rows.old slot message }
{
    let at = 8 * (slot as usize);
    rows[at] = message.arrival;
    rows[at + 1] = message.heading;
    rows[at + 2] = message.point;
    rows[at + 3] = message.sls;
    rows[at + 4] = message.field;
}
