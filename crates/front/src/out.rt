// What a program says is collected in a room and written at once; how the run goes so far is kept beside it.
ghost use Rattle.std.specs.Prelude.{◌≤◌, length};

use super::host::{Host, Reason};
use super::show::Name;
use super::status::Status;
use std::fmt;
use std::fmt::{Display, Write};
use std::io::Result;

// Where it goes. What standard output did not take once, it is not asked to take again.
#[derive(Clone, Copy, PartialEq, Eq)]
enum Stream {
    Answers,
    Messages,
    Closed,
}

impl Stream {
    fn write(self, host: Host, bytes: &[u8]) -> Result<()> {
        match self {
            Stream::Answers => host.rt.stdout().write_all(bytes),
            Stream::Messages => host.rt.stderr().write_all(bytes),
            Stream::Closed => Ok(()),
        }
    }
}

#[derive(Drop)]
pub struct Out<'a> {
    host: Host,
    stream: Stream,
    status: Status,
    room: &'a mut [u8],
    used: usize,
    ghost within: { used ≤ length room.now },
}

impl<'a> Out<'a> {
    fn new(host: Host, stream: Stream, room: &'a mut [u8]) -> Out<'a> {
        Out {
            host,
            stream,
            status: Status::Answered,
            room,
            used: 0,
        }
    }

    // What is said on standard output.
    pub fn answers(host: Host, room: &'a mut [u8]) -> Out<'a> {
        Out::new(host, Stream::Answers, room)
    }

    // What is said on standard error.
    pub fn messages(host: Host, room: &'a mut [u8]) -> Out<'a> {
        Out::new(host, Stream::Messages, room)
    }

    pub fn host(&self) -> Host {
        self.host
    }

    // How the run went so far.
    pub fn status(&self) -> Status {
        self.status
    }

    pub fn worsen(&mut self, status: Status) {
        self.status = self.status.max(status);
    }

    // Whether standard output did not take something.
    pub fn is_broken(&self) -> bool {
        self.stream == Stream::Closed
    }

    // What standard output did not take is told once. What standard error does not take cannot be told.
    fn ended(&mut self, done: Result<()>) {
        let Err(error) = done else {
            return;
        };
        if self.stream == Stream::Answers {
            let program = self.host.program;
            let why = Reason(error);
            let _ = self
                .host
                .rt
                .eprint(format_args!("{program}: standard output: {why}\n"));
            self.stream = Stream::Closed;
            self.status = Status::Fault;
        }
    }

    // Writes what is in the room.
    pub fn flush(&mut self) {
        let used = self.used;
        let done = self.stream.write(self.host, &self.room[..used]);
        self.used = 0;
        self.ended(done);
    }

    // Lays bytes behind those in the room; whether they fit.
    fn lay(&mut self, bytes: &[u8]) -> bool {
        let at = self.used;
        if self.room.len() - at < bytes.len() {
            return false;
        }
        let end = at + bytes.len();
        self.room[at..end].copy_from_slice(bytes);
        self.used = end;
        true
    }

    // Bytes behind those in the room, which is written first where they do not fit.
    pub fn put(&mut self, bytes: &[u8]) {
        if self.lay(bytes) {
            return;
        }
        self.flush();
        if !self.lay(bytes) {
            let done = self.stream.write(self.host, bytes);
            self.ended(done);
        }
    }

    // The same of what is shown.
    pub fn say<D: Display + Drop>(&mut self, what: D) {
        let _ = self.write(what);
    }

    // The same of a name. Most names are plain, and stand as they are without a way over a `str`.
    pub fn put_name(&mut self, name: Name<'_>) {
        match name.plain() {
            Some(bytes) => self.put(bytes),
            None => self.say(name),
        }
    }

    // Writes what is left; how the run went.
    pub fn finish(&mut self) -> Status {
        self.flush();
        self.status
    }
}

impl Write for Out<'_> {
    fn write_str(&mut self, words: &str) -> fmt::Result {
        self.put(words.as_bytes());
        Ok(())
    }
}
