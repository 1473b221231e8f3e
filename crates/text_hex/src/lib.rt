// Octets in a text, in hex. No public function asks anything of what it is given: octets of any kind, half a pair and areas
// too short have their answer.
#![tactic(auto)]

pub mod hex;
