// What the system knows of an open file.
use super::read::Source;
use std::fs::{Metadata, metadata};
use std::os::unix::fs::MetadataExt;

// Of what names are read from, where it is known. std tells nothing of standard input, so the system is asked for what stands behind its number.
pub fn look(rt: &HostRuntime, from: &Source) -> Option<Metadata> {
    match from {
        Source::Standard(_) => metadata(rt, "/proc/self/fd/0").ok(),
        Source::Opened(file) => file.metadata().ok(),
        Source::Spent => None,
    }
}

// Whether both are one and the same file. Of a terminal, a pipe or a device that is no harm, so it is asked of files alone.
pub fn is_same(a: &Metadata, b: &Metadata) -> bool {
    a.is_file() && a.dev() == b.dev() && a.ino() == b.ino()
}
