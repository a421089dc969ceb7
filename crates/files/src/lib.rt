// Files: one read whole, and one written as careful tools do.
#![tactic(auto)]

pub mod path; // path.rt: a path, and what is said where something cannot be done
pub mod system; // system.rt: what the system is asked for by a path
pub mod read; // read.rt: a file read whole
pub mod facts; // facts.rt: what the system knows of an open file
mod links; // links.rt: where a path leads
pub mod keep; // keep.rt: bytes kept in a file
