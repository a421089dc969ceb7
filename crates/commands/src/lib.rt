// The commands as the programs start them: each answers how its process ends.
#![tactic(auto)]

use front::status::Status;

pub fn dm_main(rt: &HostRuntime) -> Status {
    dm::run(rt)
}

pub fn desk_main(rt: &HostRuntime) -> Status {
    desk::run(rt)
}

pub fn ward_main(rt: &HostRuntime) -> Status {
    ward_command::run(rt)
}
