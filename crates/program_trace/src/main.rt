// Makes a node from the configuration that an argument names and the calls of the record that the next one names on it, in order, and writes
// what became of each message.
#![tactic(auto)]

mod call;
mod help;
mod options;
mod run;

use options::Options;
use std::process::ExitCode;
use tool_files::program;

fn main(rt: HostRuntime) -> ExitCode {
    let status = program::run(&rt, b"trace", help::TEXT, Options::default());
    ExitCode::from(status)
}
