// The cases of a file, a line each: a letter, a title, a semicolon, a space, bytes. Some lines lay bytes that stand in front of those of the lines below.
ghost use Rattle.std.specs.Prelude.{◌≤◌, length};

use super::ask::Text;
use super::{items, judge};
use std::io;
use std::ops::Range;
use std::rt::Files;
use trial::case::Case;
use trial::file::read;
use trial::say::fault;

// One byte more than a rule text may have.
const ROOM: usize = 65537;

// What a line does.
#[derive(Clone, Copy)]
enum Step {
    Comment,
    // Nothing is laid any more.
    Clear,
    // Its bytes are laid once for each number, counted or as they are.
    Lay { is_counted: bool },
    Show(What),
}

// What is shown of the bytes laid and those of a line.
#[derive(Clone, Copy)]
enum What {
    Items,
    Field,
    Answer,
    Plate { flag: bool },
    Edges,
    Verdict,
    Bits,
}

impl Step {
    fn of(letter: u8) -> Option<Step> {
        let what = match letter {
            b'#' => return Some(Step::Comment),
            b'c' => return Some(Step::Clear),
            b'm' => return Some(Step::Lay { is_counted: false }),
            b'k' => return Some(Step::Lay { is_counted: true }),
            b'i' => What::Items,
            b'f' => What::Field,
            b't' => What::Answer,
            b'p' => What::Plate { flag: true },
            b'o' => What::Plate { flag: false },
            b'r' => What::Edges,
            b'j' => What::Verdict,
            b'b' => What::Bits,
            _ => return None,
        };
        Some(Step::Show(what))
    }
}

impl What {
    fn show(self, rt: &impl Print, title: &[u8], bytes: &mut [u8]) -> io::Result<()> {
        let text = Text { name: title, bytes };
        match self {
            What::Items => items::show(rt, bytes),
            What::Field => items::show_field(rt, bytes),
            What::Answer => text.show(rt),
            What::Plate { flag } => text.show_plate(rt, flag),
            What::Edges => text.show_edges(rt),
            What::Verdict => judge::show(rt, title, bytes),
            What::Bits => judge::show_bits(rt, bytes),
        }
    }
}

fn add(bytes: &mut [u8], at: usize, n: usize) {
    if let Some(byte) = bytes.get_mut(at) {
        *byte = byte.wrapping_add((n % 256) as u8);
    }
}

// Adds a number to two bytes that count; none, if the line does not say where and in which base.
fn count(case: Case, bytes: &mut [u8], k: usize) -> Option<()> {
    let place = case.number(3)?;
    let base = case.number(4)?;
    add(bytes, place, k.checked_div(base)?);
    add(bytes, place + 1, k.checked_rem(base)?);
    Some(())
}

// From which number on and below which a line is laid.
fn range(case: Case) -> Option<Range<usize>> {
    let from = case.number(1)?;
    let to = case.number(2)?;
    if from <= to { Some(from..to) } else { None }
}

// Bytes laid one behind the other.
// Stays: with no heap they need a room and the place where they end, which this type alone sets.
#[derive(Drop)]
struct Laid<'a> {
    room: &'a mut [u8],
    end: usize,
    ghost in_room: { end ≤ length room.now },
}

impl Laid<'_> {
    // Writes the bytes of a line behind those laid, counted if there is a number; where they end. A line that has another form is shown.
    fn write(&mut self, rt: &impl Print, case: Case, number: Option<usize>) -> usize
        ensures { result ≤ length self.new.room.now }
    {
        let rest = &mut self.room[self.end..];
        let Some(bytes) = case.bytes(rest) else {
            fault(rt, case.line);
            return self.end;
        };
        let end = self.end + bytes.len();
        if let Some(k) = number
            && count(case, rest, k).is_none()
        {
            fault(rt, case.line);
        }
        end
    }

    fn lay(&mut self, rt: &impl Print, case: Case, is_counted: bool) {
        let Some(numbers) = range(case) else {
            fault(rt, case.line);
            return;
        };
        for k in numbers {
            self.end = self.write(rt, case, is_counted.then_some(k));
        }
    }

    fn show(&mut self, rt: &impl Print, case: Case, what: What) {
        let end = self.write(rt, case, None);
        let bytes = &mut self.room[..end];
        // What cannot be written is missed by who compares what was.
        let _ = what.show(rt, case.title(), bytes);
    }

    fn run_line(&mut self, rt: &impl Print, case: Case) {
        match case.letter().and_then(Step::of) {
            Some(Step::Comment) => {}
            Some(Step::Clear) => self.end = 0,
            Some(Step::Lay { is_counted }) => self.lay(rt, case, is_counted),
            Some(Step::Show(what)) => self.show(rt, case, what),
            None => fault(rt, case.line),
        }
    }
}

pub(crate) fn run(rt: &(impl Files + Print + Eprint), path: &str) {
    let mut room = [0; 65536];
    let file = read(rt, path.as_bytes(), &mut room);
    let mut laid = Laid {
        room: &mut [0; ROOM],
        end: 0,
    };
    for line in file.split_inclusive(|byte| *byte == b'\n') {
        laid.run_line(rt, Case::new(line));
    }
}
