// The order in which the messages are held.
pub use trace_order::{begin, place_of, row_at, row_of, set_free};
