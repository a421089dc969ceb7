// A file read whole, and the three files that a program is started with.
ghost use Rattle.std.specs.Io.{ReadsAtMost};

use super::path::FilePath;
use super::system::{open_append, open_read};
use front::status::Status;
use std::fs::File;
use std::io;
use std::io::{Error, Read};
use std::os::fd::{AsRawFd, IntoRawFd};
use std::rt::Stdin;

// Stays: these are the system's numbers, which std's ErrorKind has other words for: of a file that is not open, and of one that is not there.
const EBADF: i32 = 9;

const ENOENT: i32 = 2;

// What is read from: standard input; a file that was opened, which is closed where it is dropped; or standard input that an option was read from to its
// end. To ask for that again is a fault, as of a file that is not open, so that nobody takes its end for a list without names.
#[derive(Drop)]
pub enum Source {
    Standard(Stdin),
    Opened(File),
    Spent,
}

impl Source {
    pub fn input(rt: &HostRuntime, is_spent: bool) -> Source {
        if is_spent {
            Source::Spent
        } else {
            Source::Standard(rt.stdin())
        }
    }

    // One read: no bytes at the end.
    pub fn read_once(&self, into: &mut [u8]) -> io::Result<usize>
        ensures { ReadsAtMost result into.new }
    {
        match self {
            Source::Standard(input) => {
                let mut input = *input;
                input.read(into)
            }
            Source::Opened(file) => {
                let mut file: &File = file;
                file.read(into)
            }
            Source::Spent => Err(not_open()),
        }
    }

    // Reads up to the end, or as far as there is room. A directory, for one, opens and cannot be read.
    pub fn read<'b>(&self, path: FilePath<'_>, into: &'b mut [u8]) -> Result<&'b [u8], Status> {
        let mut n: usize = 0;
        while n < into.len() {
            match self.read_once(&mut into[n..]) {
                Ok(0) => break,
                Ok(more) => n += more,
                Err(error) => return Err(path.fault(error)),
            }
        }
        Ok(&into[..n])
    }
}

// What is told of standard input that is spent, by its number or by such a name.
pub fn not_open() -> Error {
    Error::from_raw_os_error(EBADF)
}

impl FilePath<'_> {
    // Opens a file to read, or tells why it cannot. `-` is standard input.
    pub fn open(self) -> Result<Source, Status> {
        self.open_behind(false)
    }

    // The same where standard input may be spent.
    pub fn open_behind(self, is_spent: bool) -> Result<Source, Status> {
        if self.is_dash() {
            return Ok(Source::input(&self.host.rt, is_spent));
        }
        if is_spent && self.names_input() {
            return Err(self.fault(Error::from_raw_os_error(ENOENT)));
        }
        match open_read(&self.host.rt, self.bytes) {
            Ok(file) => Ok(Source::Opened(file)),
            Err(error) => Err(self.fault(error)),
        }
    }

    // Opens a file, reads it and closes it.
    pub fn read<'b>(self, into: &'b mut [u8]) -> Result<&'b [u8], Status> {
        self.open()?.read(self, into)
    }
}

// Whether the lowest number that is free was that of an output, which is filled then.
fn fill_gap(rt: &HostRuntime) -> bool {
    open_read(rt, b"/dev/null").is_ok_and(|file| keep_open(file, 2))
}

// A file stays open where its number is so low; else it is closed.
fn keep_open(file: File, most: i32) -> bool {
    if most < file.as_raw_fd() {
        return false;
    }
    file.into_raw_fd();
    true
}

// A program that is started without standard input, output or error would be handed their numbers by the next open, and then write messages into a plate.
// So they are filled: the first by what can only be written, the others by what can only be read, so that their use is a fault.
pub fn fill_gaps(rt: &HostRuntime) {
    if let Ok(first) = open_append(rt, b"/dev/null") {
        keep_open(first, 0);
    }
    if fill_gap(rt) {
        fill_gap(rt);
    }
}
