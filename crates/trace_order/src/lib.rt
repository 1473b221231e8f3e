// The rows of the messages that are held, by ascending arrival numbers, and behind them the rows that are free.
#![tactic(auto)]

ghost use Rattle.std.specs.Prelude.{◌≡◌};
ghost use Rattle.trace_order.specs.Order.{row_at};

// Every row is free.
pub fn begin(order: &mut [u8; 256]) {
    for row in 0..256usize {
        order[row] = row as u8;
    }
}

// The row at a place.
pub fn row_at(order: &[u8; 256], place: usize) -> u8
    ensures { result ≡ row_at order.now place }
{
    if place < 256 { order[place] } else { 0 }
}

// The place of a message among the first so many; where it isn't among them, that of the next.
pub fn place_of(order: &[u8; 256], rows: &[u64; 8192], count: usize, arrival: u64) -> usize {
    let Some(held) = order.get(..count) else {
        return 0;
    };
    held.partition_point(|row| arrival_at(rows, *row) < arrival)
}

fn arrival_at(rows: &[u64; 8192], row: u8) -> u64 {
    rows[32 * (row as usize)]
}

// The row of a message among the first so many.
pub fn row_of(order: &[u8; 256], rows: &[u64; 8192], count: usize, arrival: u64) -> u8 {
    row_at(order, place_of(order, rows, count, arrival))
}

// The row at a place goes behind the others of the first so many: it is free.
pub fn set_free(order: &mut [u8; 256], count: usize, place: usize) {
    if count <= 256 && place < count {
        order[place..count].rotate_left(1);
    }
}
