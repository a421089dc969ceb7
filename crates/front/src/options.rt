// The arguments of a program: options stand anywhere, `--` ends them, `-` alone is an operand. Those that take a value take it behind `=` or as the next argument.
use super::host::{Host, Program};
use super::rooms::WORD_ROOM;
use super::show::Name;
use super::status::Status;
use std::env::FillError;
use std::fmt;
use std::fmt::{Display, Formatter, Write};
use std::io::Error;
use std::rt::Env;

// What an argument is, as long as options are not ended.
#[derive(Clone, Copy, PartialEq, Eq)]
pub enum Kind {
    Operand,
    Plate,
    Names,
    Flat,
    Bare,
    Help,
    Version,
    End,
    Unknown,
    Value,
}

impl Kind {
    // What a word is. ward alone knows `--bare`.
    pub fn of(program: Program, word: &[u8]) -> Kind {
        match word {
            b"--" => Kind::End,
            b"-h" | b"--help" => Kind::Help,
            b"--version" => Kind::Version,
            b"--no-folding" => Kind::Flat,
            b"--bare" if program == Program::Ward => Kind::Bare,
            b"--plate" => Kind::Plate,
            b"--names" => Kind::Names,
            _ if word.starts_with(b"--plate=") => Kind::Plate,
            _ if word.starts_with(b"--names=") => Kind::Names,
            [b'-', _, ..] => Kind::Unknown,
            _ => Kind::Operand,
        }
    }
}

// What is wrong with the arguments. It is shown by the words in front of the argument.
#[derive(Clone, Copy, PartialEq, Eq)]
pub enum Misuse {
    NoSuch,
    NoValue,
    Twice,
    NoCommand,
    NotTaken,
}

impl Display for Misuse {
    fn fmt<W: Write>(&self, f: &mut Formatter<W>) -> fmt::Result {
        f.write_str(match self {
            Misuse::NoSuch => "no such option: ",
            Misuse::NoValue => "no file is given behind ",
            Misuse::Twice => "given twice: ",
            Misuse::NoCommand => "no such command: ",
            Misuse::NotTaken => "not taken here: ",
        })
    }
}

// What is wrong, and the place of the argument that it is wrong with.
#[derive(Clone, Copy)]
pub struct Fault {
    pub misuse: Misuse,
    pub at: usize,
}

// Where the options and the first operands stand among the arguments, and what the argument just passed was. Behind an option that waits for a value the next
// argument is that value, whatever it looks like.
#[derive(Clone, Copy)]
pub struct Scan {
    pub program: Program,
    pub plate: Option<usize>,
    pub names: Option<usize>,
    pub flat: Option<usize>,
    pub bare: bool,
    pub help: bool,
    pub version: bool,
    pub operands: [Option<usize>; 4],
    pub end: Option<usize>,
    pub fault: Option<Fault>,
    pub kind: Kind,
    pub waits: bool,
}

impl Scan {
    // Before the first argument.
    pub fn new(program: Program) -> Scan {
        Scan {
            program,
            plate: None,
            names: None,
            flat: None,
            bare: false,
            help: false,
            version: false,
            operands: [None; 4],
            end: None,
            fault: None,
            kind: Kind::Operand,
            waits: false,
        }
    }

    // All arguments behind the program's name.
    pub fn all(host: Host) -> Scan {
        let mut scan = Scan::new(host.program);
        let end = arg_count(&host.rt);
        for i in 1..end {
            scan.next(&host.rt, i);
        }
        if scan.waits {
            scan.misused(Misuse::NoValue, end.wrapping_sub(1));
        }
        scan
    }

    // The argument at a place more.
    pub fn next(&mut self, rt: &HostRuntime, i: usize) {
        let mut room = [0; WORD_ROOM];
        self.step(i, word_front(rt, i, &mut room));
    }

    fn step(&mut self, i: usize, word: &[u8]) {
        if self.waits {
            self.kind = Kind::Value;
            self.waits = false;
        } else if self.end.is_some() {
            self.kind = Kind::Operand;
            self.operand(i);
        } else {
            self.kind = Kind::of(self.program, word);
            self.waits = matches!(word, b"--plate" | b"--names");
            self.take(i);
        }
    }

    // Only the first fault is told.
    fn misused(&mut self, misuse: Misuse, at: usize) {
        if self.fault.is_none() {
            self.fault = Some(Fault { misuse, at });
        }
    }

    fn operand(&mut self, i: usize) {
        if let Some(free) = self.operands.iter().position(|place| place.is_none()) {
            self.operands[free] = Some(i);
        }
    }

    fn take(&mut self, i: usize) {
        match self.kind {
            Kind::Operand => self.operand(i),
            Kind::Plate if self.plate.is_some() => self.misused(Misuse::Twice, i),
            Kind::Plate => self.plate = Some(i),
            Kind::Names => self.names = Some(i),
            Kind::Flat => self.flat = Some(i),
            Kind::Bare => self.bare = true,
            Kind::Help => self.help = true,
            Kind::Version => self.version = true,
            Kind::End => self.end = Some(i),
            Kind::Unknown | Kind::Value => self.misused(Misuse::NoSuch, i),
        }
    }
}

// How many arguments there are, the program's name among them.
pub fn arg_count(rt: &HostRuntime) -> usize {
    let mut front = [0u8; 1];
    (0..usize::MAX)
        .find(|i| matches!(rt.arg(*i, &mut front), Err(FillError::NotPresent)))
        .unwrap_or(usize::MAX)
}

// Tells what is wrong with a word of the command line; the status of a fault of use.
pub fn tell_word(host: Host, misuse: Misuse, word: &[u8]) -> Status {
    let word = Name(word);
    host.misused(format_args!("{misuse}{word}"))
}

// The same of the argument at a place.
pub fn tell(host: Host, fault: Fault) -> Status {
    let mut room = [0; WORD_ROOM];
    tell_word(
        host,
        fault.misuse,
        word_front(&host.rt, fault.at, &mut room),
    )
}

// Tells of the argument at a place, if there is one, that it is not taken.
pub fn not_taken(host: Host, place: Option<usize>) -> Result<(), Status> {
    match place {
        Some(at) => Err(tell(
            host,
            Fault {
                misuse: Misuse::NotTaken,
                at,
            },
        )),
        None => Ok(()),
    }
}

// Stays: these are the system's numbers, which std's ErrorKind has other words for: of a name that is too long, and of an argument that is not there.
const ENAMETOOLONG: i32 = 36;

const EINVAL: i32 = 22;

fn unfilled(why: FillError) -> Error {
    Error::from_raw_os_error(match why {
        FillError::TooLong => ENAMETOOLONG,
        FillError::NotPresent => EINVAL,
    })
}

// The argument at a place.
pub fn word<'a>(rt: &HostRuntime, i: usize, room: &'a mut [u8]) -> Result<&'a [u8], Error> {
    match rt.arg(i, room) {
        Ok(n) => Ok(&room[..n]),
        Err(why) => Err(unfilled(why)),
    }
}

// The same, or as much of it as there is room for.
pub fn word_front<'a>(rt: &HostRuntime, i: usize, room: &'a mut [u8]) -> &'a [u8] {
    match rt.arg(i, room) {
        Ok(n) => &room[..n],
        Err(_) => room,
    }
}

// The value of the option at a place: behind its `=`, or the next argument.
pub fn value<'a>(rt: &HostRuntime, i: usize, room: &'a mut [u8]) -> Result<&'a [u8], Error> {
    match rt.arg(i, room) {
        Ok(n) if 8 <= n && room[7] == b'=' => Ok(&room[8..n]),
        Ok(_) => word(rt, i.saturating_add(1), room),
        Err(why) => Err(unfilled(why)),
    }
}
