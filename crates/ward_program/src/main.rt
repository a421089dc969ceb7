// The program ward, as it is installed. What its process ends with is the command's status.
#![tactic(auto)]

use commands::ward_main;
use std::process::ExitCode;

fn main(rt: HostRuntime) -> ExitCode {
    ExitCode::from(ward_main(&rt))
}
