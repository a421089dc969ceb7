// Runs dm index in the gate in a room for what is said that is shorter than dm's: what is told and what is made are the same, where no line fills the room.
#![tactic(auto)]

use front::host::{Host, Program};
use front::options::Scan;
use front::rooms::FILE_ROOM;

fn main(rt: HostRuntime) {
    let host = Host::new(&rt, Program::Dm);
    let mut plate = [0; FILE_ROOM];
    let mut text = [0; FILE_ROOM];
    let mut out = [0; 64];
    index_command::run(host, &Scan::all(host), &mut plate, &mut text, &mut out);
}
