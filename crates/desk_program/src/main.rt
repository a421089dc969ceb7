// The program desk, as it is installed. What its process ends with is the command's status.
#![tactic(auto)]

use commands::desk_main;
use std::process::ExitCode;

fn main(rt: HostRuntime) -> ExitCode {
    ExitCode::from(desk_main(&rt))
}
