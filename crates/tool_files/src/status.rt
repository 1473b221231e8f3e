// The exit status of a program.
use std::process::ExitCode;

// Every line was run; something is refused; something went wrong.
#[derive(Clone, Copy, PartialEq, Eq)]
pub enum Status {
    Done,
    Refused,
    Failed,
}

// What `main` ends with, so that whoever runs the program is told.
impl From<Status> for ExitCode {
    fn from(status: Status) -> ExitCode {
        ExitCode::from(match status {
            Status::Done => 0,
            Status::Refused => 1,
            Status::Failed => 2,
        })
    }
}
