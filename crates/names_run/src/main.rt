// Runs the library's calls on names and compares what they answer with the answers that the files in data/ say; writes for each file how many answers it has
// and how many differ. Each that differs is shown, and what came instead.
// names.txt holds the examples of 01 that are not starred, worked out by hand from 01, "Examples to hold against it" and "Known differences", before the program
// was first run; vectors-1.txt and vectors-2.txt hold the Rust's own answers; control.txt holds wrong ones, each of which must be shown.
// Plates stand byte by byte, so that this says nothing about build.
#![tactic(auto)]

mod answer; // answer.rt: one call, and its answer compared

use answer::is_answered;
use std::fmt;
use std::rt::Files;
use trial::case::Case;
use trial::file::read;
use trial::say::fault;

// What the lines of a file have come to: how many answers, and how many lines differ.
#[derive(Clone, Copy, Default)]
struct Tally {
    answers: usize,
    differ: usize,
}

impl Tally {
    fn add_answer(&mut self, is_right: bool) {
        self.answers = self.answers.wrapping_add(1);
        if !is_right {
            self.add_differing();
        }
    }

    fn add_differing(&mut self) {
        self.differ = self.differ.wrapping_add(1);
    }
}

impl fmt::Display for Tally {
    fn fmt<W: fmt::Write>(&self, f: &mut fmt::Formatter<W>) -> fmt::Result {
        write!(f, "{} answers, {} differ", self.answers, self.differ)
    }
}

// The plate of the last line that has one; none, where that line has another form.
#[derive(Drop)]
struct Plate<'a> {
    room: &'a mut [u8],
    length: Option<usize>,
}

impl Plate<'_> {
    fn take(&mut self, case: Case) {
        self.length = case.bytes(self.room).map(|bytes| bytes.len());
    }

    fn bytes(&self) -> Option<&[u8]> {
        self.room.get(..self.length?)
    }
}

fn run_lines(rt: &impl Print, text: &[u8]) -> Tally {
    let mut tally = Tally::default();
    let mut plate = Plate {
        room: &mut [0; 65536],
        length: Some(0),
    };
    for line in text.split_inclusive(|byte| *byte == b'\n') {
        let case = Case::new(line);
        match case.letter() {
            Some(b'#') => {}
            Some(b'p') => {
                plate.take(case);
                if plate.length.is_none() {
                    fault(rt, case.line);
                    tally.add_differing();
                }
            }
            _ => tally.add_answer(is_answered(rt, case, plate.bytes())),
        }
    }
    tally
}

fn run_file(rt: &(impl Files + Print + Eprint), path: &str) {
    let mut room = [0; 65536];
    let tally = run_lines(rt, read(rt, path.as_bytes(), &mut room));
    // What cannot be written is missed by who compares what was.
    let _ = println!(rt; "{path}: {tally}");
}

fn main(rt: HostRuntime) {
    for path in ["names.txt", "vectors-1.txt", "vectors-2.txt", "control.txt"] {
        run_file(&rt, path);
    }
}
