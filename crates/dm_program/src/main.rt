// The program dm, as it is installed. What its process ends with is the command's status.
#![tactic(auto)]

use commands::dm_main;
use std::process::ExitCode;

fn main(rt: HostRuntime) -> ExitCode {
    ExitCode::from(dm_main(&rt))
}
