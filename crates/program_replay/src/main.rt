// Makes a node from the configuration that an argument names and the calls of the record that the next one names on it, in order, and writes
// what each answers.
#![tactic(auto)]

mod capture;
mod help;
mod options;
mod outputs;
mod run;
mod show;
mod summary;
mod words;

use options::Options;
use std::process::ExitCode;
use tool_files::program;

fn main(rt: HostRuntime) -> ExitCode {
    let status = program::run(&rt, b"replay", help::TEXT, Options::default());
    ExitCode::from(status)
}
