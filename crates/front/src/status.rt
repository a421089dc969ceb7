// How the run of a program goes.
use std::process::ExitCode;

// All was answered; something was refused; it was not done, by a fault of use, of a file or of an output. The later is the worse, and the process ends with
// its number.
#[derive(Clone, Copy, PartialEq, Eq, PartialOrd, Ord)]
pub enum Status {
    Answered,
    Refused,
    Fault,
}

impl From<Status> for ExitCode {
    fn from(status: Status) -> ExitCode {
        ExitCode::from(status as u8)
    }
}
