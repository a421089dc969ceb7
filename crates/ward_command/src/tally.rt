// How many names there were, and how many were refused by which number. It is told at the end, and on a terminal now and then before.
use front::host::Host;
use front::out::Out;
use front::rooms::NOTE_ROOM;
use std::fmt;
use std::fmt::{Display, Formatter, Write};
use std::io::IsTerminal;

// So many names are long work: after as many more the number is shown.
const SHOWN_EACH: u64 = 100000;

// `shown` is the number that was shown last.
#[derive(Clone, Copy)]
pub(crate) struct Tally {
    names: u64,
    long: u64,
    broken: u64,
    strange: u64,
    full: u64,
    shown: Option<u64>,
    is_terminal: bool,
}

pub(crate) fn is_refused(line: &[u8]) -> bool {
    line.starts_with(b"!")
}

// A message that may be written over, or over one.
fn say<D: Display + Drop>(host: Host, what: D) {
    let mut room = [0; NOTE_ROOM];
    let mut out = Out::messages(host, &mut room);
    out.say(what);
    out.flush();
}

impl Tally {
    pub(crate) fn new(host: Host) -> Tally {
        Tally {
            names: 0,
            long: 0,
            broken: 0,
            strange: 0,
            full: 0,
            shown: None,
            is_terminal: host.rt.stderr().is_terminal(),
        }
    }

    // One line more, a newline behind it; a refusal is known by the number behind its mark.
    pub(crate) fn count(&mut self, line: &[u8]) {
        self.names = self.names.wrapping_add(1);
        match line {
            b"!01\n" => self.long = self.long.wrapping_add(1),
            b"!02\n" => self.broken = self.broken.wrapping_add(1),
            b"!11\n" => self.strange = self.strange.wrapping_add(1),
            [b'!', ..] => self.full = self.full.wrapping_add(1),
            _ => {}
        }
    }

    // How far it is, where someone watches and the work is long.
    pub(crate) fn show(&mut self, host: Host) {
        let names = self.names;
        if !self.is_terminal || names.wrapping_sub(self.shown.unwrap_or(0)) < SHOWN_EACH {
            return;
        }
        let program = host.program;
        say(host, format_args!("\r{program}: {names} names ..."));
        self.shown = Some(names);
    }

    // The whole of it. What was shown is written over.
    pub(crate) fn tell(self, host: Host) {
        let program = host.program;
        let over = if self.shown.is_some() { "\r" } else { "" };
        say(host, format_args!("{over}{program}: {self}\n"));
    }
}

impl Display for Tally {
    fn fmt<W: Write>(&self, f: &mut Formatter<W>) -> fmt::Result {
        let counts = [
            (1, self.long),
            (2, self.broken),
            (11, self.strange),
            (12, self.full),
        ];
        let names = self.names;
        let more = if names == 1 { "" } else { "s" };
        write!(f, "{names} name{more}, ")?;
        let refused = counts.iter().fold(0u64, |n, count| n.wrapping_add(count.1));
        if refused == 0 {
            return f.write_str("none refused");
        }
        write!(f, "{refused} refused")?;
        for (number, count) in counts {
            if count != 0 {
                write!(f, "; by {number}: {count}")?;
            }
        }
        Ok(())
    }
}
