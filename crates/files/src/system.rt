// What the system is asked for by a path. std takes a path as text alone, so one that is no UTF-8 is told as a fault.
use std::fs;
use std::fs::{File, OpenOptions};
use std::io::{Error, ErrorKind, Result};

// A path as std takes it.
pub(crate) fn text(path: &[u8]) -> Result<&str> {
    str::from_utf8(path).map_err(|_| Error::new(ErrorKind::InvalidInput, "the path is not UTF-8"))
}

// Opens a file to read.
pub fn open_read(rt: &HostRuntime, path: &[u8]) -> Result<File> {
    File::open(rt, text(path)?)
}

// Opens a file that is there to write at its end.
pub(crate) fn open_append(rt: &HostRuntime, path: &[u8]) -> Result<File> {
    OpenOptions::new().append(true).open(rt, text(path)?)
}

// Makes a file where nobody has one of this name.
pub(crate) fn create(rt: &HostRuntime, path: &[u8]) -> Result<File> {
    OpenOptions::new()
        .write(true)
        .create_new(true)
        .open(rt, text(path)?)
}

pub(crate) fn rename(rt: &HostRuntime, from: &[u8], to: &[u8]) -> Result<()> {
    fs::rename(rt, text(from)?, text(to)?)
}

pub(crate) fn unlink(rt: &HostRuntime, path: &[u8]) -> Result<()> {
    fs::remove_file(rt, text(path)?)
}
