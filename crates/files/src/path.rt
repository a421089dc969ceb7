// The path of a file, and what is said where something cannot be done with it: the program, the path, and the system's words or our own.
use front::host::Host;
use front::show::Text;
use front::status::Status;
use std::fmt;
use std::fmt::{Display, Formatter, Write};
use std::io::Error;

// A path, and who asks for it. It is shown as people know it: `-` is standard input.
#[derive(Clone, Copy)]
pub struct FilePath<'a> {
    pub host: Host,
    pub bytes: &'a [u8],
}

impl Display for FilePath<'_> {
    fn fmt<W: Write>(&self, f: &mut Formatter<W>) -> fmt::Result {
        match self.bytes {
            b"-" => f.write_str("standard input"),
            [] => f.write_str("''"),
            path => Text(path).fmt(f),
        }
    }
}

impl<'a> FilePath<'a> {
    pub fn new(host: Host, bytes: &'a [u8]) -> FilePath<'a> {
        FilePath { host, bytes }
    }

    // Tells why the system did not do something with the file.
    pub fn fault(self, error: Error) -> Status {
        self.host.fault(self, error)
    }

    // Tells what is wrong with the file in words of our own.
    pub fn fault_for(self, why: &str) -> Status {
        self.host.tell(format_args!("{self}: {why}\n"));
        Status::Fault
    }

    // Whether it is `-`, which is standard input or output.
    pub fn is_dash(self) -> bool {
        matches!(self.bytes, b"-")
    }

    // Whether it is one of the system's names of standard input.
    pub fn names_input(self) -> bool {
        matches!(
            self.bytes,
            b"/dev/stdin" | b"/dev/fd/0" | b"/proc/self/fd/0"
        )
    }

    // The path that an argument is; a fault where it is none, which is told of what it is to be.
    pub fn given(
        host: Host,
        what: &str,
        argument: Result<&'a [u8], Error>,
    ) -> Result<FilePath<'a>, Status> {
        match argument {
            Ok(bytes) => Ok(FilePath::new(host, bytes)),
            Err(error) => Err(host.fault(what, error)),
        }
    }
}
