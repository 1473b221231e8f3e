// Whether a message is about a circuit, and about which.
ghost use Rattle.std.specs.Prelude.{◌≡◌};
ghost use Rattle.trace_circuits.specs.Circuits as Circuits;

use crate::message::Message;

// The circuit that a message is about.
pub fn circuit_of(message: Message) -> Option<u64>
    ensures { result ≡ Circuits.circuit_of message }
{
    if has_circuit(message) {
        return Some(circuit_in(message));
    }
    None
}

// The circuit that the octets of any message would say.
pub fn circuit_in(message: Message) -> u64
    ensures { result ≡ Circuits.circuit_in message }
{
    let octets = message.octets;
    (octets[0] as u64) + 256 * (octets[1] as u64 % 16)
}

// It is about one with SI 5 and three octets or more behind its label.
pub fn has_circuit(message: Message) -> bool
    ensures { result ≡ Circuits.has_circuit message }
{
    message.name.is_none() && (message.si == 5 && 3 <= message.length)
}
