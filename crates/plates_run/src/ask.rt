// A text is built and the answer written: number, line, length, whether the bytes behind the plate (all of them, if there is none) are as lent, and whether
// what was written is accepted.
ghost use Rattle.std.specs.Prelude.{◌≤◌, IfOk, length};

use builder::{BuildError, build};
use plate::accept::accept;
use std::{fmt, io};
use trial::lent::{is_lent_from, lend};
use trial::say::{Hex, sum};

// One byte more than the largest plate of edition 1 has; no text's plate is longer.
const ROOM: usize = 51429;

// 01's three values.
#[derive(Clone, Copy)]
struct Answer {
    number: u64,
    line: usize,
    length: usize,
}

impl Answer {
    fn refused(number: u64, line: usize) -> Answer {
        Answer {
            number,
            line,
            length: 0,
        }
    }

    fn of(built: Result<usize, BuildError>) -> Answer {
        match built {
            Ok(length) => Answer {
                number: 0,
                line: 0,
                length,
            },
            Err(BuildError::LongText) => Answer::refused(1, 0),
            Err(BuildError::NotText) => Answer::refused(2, 0),
            Err(BuildError::Faulty(fault, line)) => Answer::refused(fault.number(), line),
            Err(BuildError::ShortBuffer) => Answer::refused(9, 0),
        }
    }
}

impl fmt::Display for Answer {
    fn fmt<W: fmt::Write>(&self, f: &mut fmt::Formatter<W>) -> fmt::Result {
        write!(
            f,
            "{} line {} length {}",
            self.number, self.line, self.length
        )
    }
}

// A rule text, and the name that is written for it.
#[derive(Clone, Copy)]
pub(crate) struct Text<'a> {
    pub name: &'a [u8],
    pub bytes: &'a [u8],
}

impl Text<'_> {
    // Builds it into a room as lent, and writes the answer; the plate, which has no byte where there is none.
    fn build<'a>(self, rt: &impl Print, flag: bool, room: &'a mut [u8]) -> io::Result<&'a [u8]>
        ensures { IfOk result (λ plate. length plate.now ≤ length room.old) }
    {
        lend(room);
        let answer = Answer::of(build(self.bytes, flag, room));
        let rest = if is_lent_from(room, answer.length) {
            "rest as lent"
        } else {
            "REST CHANGED"
        };
        rt.write_all(self.name)?;
        print!(rt;
            "; {} into {} -> {answer}, {rest}",
            self.bytes.len(),
            room.len()
        )?;
        Ok(room.get(..answer.length).unwrap_or(&[]))
    }

    // The answer alone.
    fn show_into(self, rt: &impl Print, room: &mut [u8]) -> io::Result<()> {
        self.build(rt, true, room)?;
        println!(rt)
    }

    pub(crate) fn show(self, rt: &impl Print) -> io::Result<()> {
        self.show_into(rt, &mut [0; ROOM])
    }

    // The answer and the plate, byte by byte.
    pub(crate) fn show_plate(self, rt: &impl Print, flag: bool) -> io::Result<()> {
        let mut room = [0; ROOM];
        let plate = self.build(rt, flag, &mut room)?;
        println!(rt; ", {}\n {}", verdict(plate), Hex(plate))
    }

    // The answer and the plate's sum; then the answers into just so many bytes, and into one less.
    pub(crate) fn show_edges(self, rt: &impl Print) -> io::Result<()> {
        let mut room = [0; ROOM];
        let plate = self.build(rt, true, &mut room)?;
        println!(rt; ", {} sum {:08x}", verdict(plate), sum(plate))?;
        let n = plate.len();
        if n > 0 {
            self.named(b"  just so many").show_into(rt, &mut room[..n])?;
            self.named(b"  one less").show_into(rt, &mut room[..n - 1])?;
        }
        Ok(())
    }

    fn named<'a>(&'a self, name: &'a [u8]) -> Text<'a> {
        Text {
            name,
            bytes: self.bytes,
        }
    }
}

fn verdict(plate: &[u8]) -> &'static str {
    if accept(plate) {
        "accepted"
    } else {
        "NOT ACCEPTED"
    }
}
