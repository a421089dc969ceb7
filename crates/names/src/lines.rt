// Names a line each, and the answers on them. What is answered is written where the room is full and before each read, since the input may pause there.
use super::answer::{Answering, Way};
use files::path::FilePath;
use files::read::Source;
use front::out::Out;
use front::status::Status;

// A name has 256 bytes at most, a byte order mark 3, a CR 1. One byte more tells a longer line; what follows is not looked at, since the line is refused
// whatever it is.
pub const LINE_MOST: usize = 261;

// The byte order mark that some programs put before the first line.
const MARK: &[u8] = b"\xEF\xBB\xBF";

// What is read stands in the chunk: the line that was taken last, and behind it, up to the end, what is not taken yet.
#[derive(Drop)]
pub struct Lines<'a> {
    path: FilePath<'a>,
    source: Source,
    chunk: &'a mut [u8],
    start: usize,
    stop: usize,
    at: usize,
    end: usize,
    // Up to here no newline stands in what is not taken yet, so that a line that comes in many small pieces is not searched anew with each.
    searched: usize,
    count: u64,
    is_end: bool,
    // The most that is kept of a line that is not at its end, and the most that is read at once.
    keeps: usize,
    reads: usize,
}

impl<'a> Lines<'a> {
    // The path is for the words where the source cannot be read.
    pub fn new(path: FilePath<'a>, source: Source, chunk: &'a mut [u8]) -> Lines<'a> {
        let reads = chunk.len();
        Lines {
            path,
            source,
            chunk,
            start: 0,
            stop: 0,
            at: 0,
            end: 0,
            searched: 0,
            count: 0,
            is_end: false,
            keeps: LINE_MOST,
            reads,
        }
    }

    // Each read is of one length, whatever is kept of a line: how much was read is seen where the answers are not taken any more. In a short chunk this would leave
    // few bytes for a read or none, and each takes what is free.
    pub fn even(mut self) -> Lines<'a> {
        let reads = self.chunk.len().saturating_sub(LINE_MOST);
        if LINE_MOST < reads {
            self.reads = reads;
        }
        self
    }

    // As much as this is kept of a line that is not at its end.
    pub fn keeping(mut self, most: usize) -> Lines<'a> {
        self.keeps = most;
        self
    }

    // The line up to a place.
    fn take_to(&mut self, stop: usize, behind: usize) {
        self.start = self.at;
        self.stop = stop;
        self.at = behind;
        self.count = self.count.wrapping_add(1);
    }

    // Takes the next line that was read to its newline, if there is one.
    pub fn take(&mut self) -> bool {
        let (from, end) = (self.at.max(self.searched), self.end);
        let read = self.chunk.get(from..end).unwrap_or_default();
        let Some(n) = read.iter().position(|b| *b == b'\n') else {
            self.searched = end;
            return false;
        };
        let stop = from.wrapping_add(n);
        self.take_to(stop, stop.wrapping_add(1));
        true
    }

    // Takes all lines that were read to their newlines, if there are some.
    pub fn take_all(&mut self) -> bool {
        let (from, end) = (self.at.max(self.searched), self.end);
        let read = self.chunk.get(from..end).unwrap_or_default();
        let Some(n) = read.iter().rposition(|b| *b == b'\n') else {
            self.searched = end;
            return false;
        };
        let stop = from.wrapping_add(n).wrapping_add(1);
        self.take_to(stop, stop);
        true
    }

    // Takes a last line that has no newline, if there is one.
    pub fn take_last(&mut self) -> bool {
        let end = self.end;
        if end <= self.at {
            return false;
        }
        self.take_to(end, end);
        true
    }

    // Moves the front of the line that is not whole to that of the chunk, where it does not stand there yet; how many bytes it has.
    fn move_front(&mut self) -> usize {
        let (at, end) = (self.at, self.end);
        let most = end.min(at.saturating_add(self.keeps));
        if most <= at || self.chunk.len() < most {
            return 0;
        }
        if 0 < at {
            self.chunk.copy_within(at..most, 0);
        }
        most - at
    }

    // Whether the last read came to the end.
    pub fn is_ended(&self) -> bool {
        self.is_end
    }

    // Reads once; whether there was more. A terminal may give more behind an end.
    pub fn read(&mut self) -> Result<bool, Status> {
        let at = self.at;
        let kept = self.move_front();
        self.searched = self.searched.saturating_sub(at).min(kept);
        self.at = 0;
        self.end = kept;
        let stop = self.chunk.len().min(kept.saturating_add(self.reads));
        let room = self.chunk.get_mut(kept..stop).unwrap_or_default();
        match self.source.read_once(room) {
            Ok(n) => {
                self.end = kept.wrapping_add(n);
                self.is_end = n == 0;
                Ok(n != 0)
            }
            Err(error) => {
                self.is_end = true;
                Err(self.path.fault(error))
            }
        }
    }

    fn without_mark<'b>(&self, line: &'b [u8]) -> &'b [u8] {
        match line.strip_prefix(MARK) {
            Some(rest) if self.count == 1 => rest,
            _ => line,
        }
    }

    // What was taken last, without the mark before the first line.
    pub fn taken(&self) -> &[u8] {
        self.without_mark(self.chunk.get(self.start..self.stop).unwrap_or_default())
    }

    // The name of the line that was taken last, without the CR that some systems put before a newline.
    pub fn name(&self) -> &[u8] {
        let line = self.chunk.get(self.start..self.stop).unwrap_or_default();
        let name = self.without_mark(line.get(..LINE_MOST).unwrap_or(line));
        name.strip_suffix(b"\r").unwrap_or(name)
    }

    // The name of the next line, where there is one. Nothing says that the input ends, so the turns are counted up to a number that no run reaches.
    pub fn next(&mut self) -> Result<Option<&[u8]>, Status> {
        for _ in 0..u64::MAX {
            if self.take() {
                return Ok(Some(self.name()));
            }
            if !self.read()? {
                break;
            }
        }
        if self.take_last() {
            return Ok(Some(self.name()));
        }
        Ok(None)
    }
}

fn is_blank(name: &[u8]) -> bool {
    name.iter().all(|b| matches!(b, b' ' | b'\t'..=b'\r'))
}

// What is shown before a read.
fn put_prompt(out: &mut Out<'_>, prompts: bool) {
    if prompts {
        out.put(b"name: ");
    }
}

// Reads once, behind what was answered; whether there was more.
fn read_more(out: &mut Out<'_>, lines: &mut Lines<'_>, prompts: bool) -> Result<bool, Status> {
    put_prompt(out, prompts);
    out.flush();
    if out.is_broken() {
        return Err(Status::Fault);
    }
    lines.read()
}

impl Answering<'_> {
    // The desk passes over a line without a name.
    fn answer_line(self, out: &mut Out<'_>, name: &[u8]) {
        if self.way != Way::Desk || !is_blank(name) {
            self.answer(out, name);
        }
    }

    // Answers all lines, or as many as can be read and answered. Nothing says that the input ends, so the turns are counted up to a number that no run reaches.
    fn answer_lines(
        self,
        out: &mut Out<'_>,
        lines: &mut Lines<'_>,
        prompts: bool,
    ) -> Result<(), Status> {
        for _ in 0..u64::MAX {
            if lines.take() {
                self.answer_line(out, lines.name());
            } else if !read_more(out, lines, prompts)? {
                break;
            }
        }
        if lines.take_last() {
            self.answer_line(out, lines.name());
        }
        Ok(())
    }

    // Answers all names of an input; it is asked for each on a terminal.
    pub fn answer_all(self, out: &mut Out<'_>, lines: &mut Lines<'_>, prompts: bool) {
        if let Err(status) = self.answer_lines(out, lines, prompts) {
            out.worsen(status);
        }
    }
}
