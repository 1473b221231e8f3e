// Whether a message is about a circuit, and about which.
pub use trace_circuits::circuit::{circuit_in, circuit_of, has_circuit};
