// The program that runs, and what runs it.
use super::out::Out;
use super::rooms::NOTE_ROOM;
use super::status::Status;
use std::fmt;
use std::fmt::{Display, Formatter, InlineText, Write};
use std::io::Error;

#[derive(Clone, Copy, PartialEq, Eq)]
pub enum Program {
    Dm,
    Desk,
    Ward,
}

impl Display for Program {
    fn fmt<W: Write>(&self, f: &mut Formatter<W>) -> fmt::Result {
        f.write_str(match self {
            Program::Dm => "dm",
            Program::Desk => "desk",
            Program::Ward => "ward",
        })
    }
}

// The words behind which a program shows its page.
fn help_of(program: Program) -> &'static str {
    match program {
        Program::Dm => "dm help",
        Program::Desk => "desk --help",
        Program::Ward => "ward --help",
    }
}

// Why the system did not do something, in its words, without the number that std puts behind them.
#[derive(Clone, Copy)]
pub struct Reason(pub Error);

impl Display for Reason {
    fn fmt<W: Write>(&self, f: &mut Formatter<W>) -> fmt::Result {
        let text = InlineText::<256>::of(self.0);
        match text.as_str().split_once(" (os error ") {
            Some((words, _)) => f.write_str(words),
            None => f.write_str(text.as_str()),
        }
    }
}

#[derive(Clone, Copy)]
pub struct Host {
    pub rt: HostRuntime,
    pub program: Program,
}

impl Host {
    pub fn new(rt: &HostRuntime, program: Program) -> Host {
        Host { rt: *rt, program }
    }

    // Tells something on standard error, the program's name in front. It has a frame of its own, for its room.
    #[cold]
    #[inline(never)]
    pub fn tell<D: Display + Drop>(self, what: D) {
        let mut room = [0; NOTE_ROOM];
        let mut out = Out::messages(self, &mut room);
        let program = self.program;
        out.say(format_args!("{program}: {what}"));
        out.flush();
    }

    // Tells why the system did not do something with what is named.
    pub fn fault<D: Display + Drop>(self, what: D, error: Error) -> Status {
        let why = Reason(error);
        self.tell(format_args!("{what}: {why}\n"));
        Status::Fault
    }

    // Tells a fault of use, and where to read more.
    pub fn misused<D: Display + Drop>(self, what: D) -> Status {
        let help = help_of(self.program);
        self.tell(format_args!("{what}; {help} tells more\n"));
        Status::Fault
    }

    // Shows a page on standard output.
    pub fn show<D: Display + Drop>(self, page: D) -> Status {
        let mut room = [0; NOTE_ROOM];
        let mut out = Out::answers(self, &mut room);
        out.say(page);
        out.finish()
    }
}
