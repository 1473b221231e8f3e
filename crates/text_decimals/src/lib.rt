// Plain decimals in a text. No public function asks anything of what it is given: octets of any kind, numbers above the top
// value and areas too short have their answer.
#![tactic(auto)]

pub mod decimal;
