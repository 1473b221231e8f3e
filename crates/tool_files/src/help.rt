// What `--help` says, on standard output.
use crate::complaint::complain_of;
use crate::status::Status;

pub fn write(rt: &HostRuntime, program: &[u8], text: &[u8]) -> Status {
    match Print::write_all(&rt.stdout(), text) {
        Ok(()) => Status::Done,
        Err(error) => {
            complain_of(rt, program, b"standard output", error);
            Status::Failed
        }
    }
}
