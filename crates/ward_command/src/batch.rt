// The names of one call: at most 128 lines of what was read, coded where they stand, and an answer for each.
ghost use Rattle.std.specs.Prelude.{◌<◌, ◌≤◌, length};
ghost use Rattle.std.specs.Iterator.{at_most};

use super::Ward;
use super::tally::is_refused;
use front::show::Name;
use front::status::Status;
use zengilvar::ward_list::dm_ward;

// 02, M-103: "Our program passes at most 128 names a call."
const NAMES: usize = 128;

// Room for their lines, 448 bytes each.
pub(crate) const LINES_ROOM: usize = 57344;

// The names of a call, and those behind them.
#[derive(Drop)]
struct Batches<'a> {
    rest: &'a [u8],
}

// Where the lines of the first call end.
fn batch_end(names: &[u8]) -> usize
    requires { 0 < length names.now }
    ensures some { 0 < result }
    ensures within { result ≤ length names.now }
{
    let mut lines: usize = 0;
    let last = names.iter().position(|b| {
        if *b == b'\n' {
            lines = lines.wrapping_add(1);
        }
        lines == NAMES
    });
    match last {
        Some(n) => n + 1,
        None => names.len(),
    }
}

impl<'a> Iterator for Batches<'a> {
    type Item = &'a [u8];

    ghost remaining = { λ s. at_most (length s.rest.now) };

    fn next(&mut self) -> Option<&'a [u8]> {
        if self.rest.is_empty() {
            return None;
        }
        let names = self.rest;
        let (batch, behind) = names.split_at(batch_end(names));
        self.rest = behind;
        Some(batch)
    }
}

impl Ward<'_, '_> {
    // The answer on one name, without the CR that some systems put before a newline.
    fn put_line(&mut self, name: &[u8], line: &[u8]) {
        let name = name.strip_suffix(b"\n").unwrap_or(name);
        if !self.is_bare {
            self.out
                .put_name(Name(name.strip_suffix(b"\r").unwrap_or(name)));
            self.out.put(b"\t");
        }
        self.out.put(line);
        if is_refused(line) {
            self.out.worsen(Status::Refused);
        }
        self.tally.count(line);
    }

    // The answers on all of them: the lines of the call beside its names.
    fn put_batch(&mut self, names: &[u8], lines: &[u8]) {
        let is_newline = |b: &u8| *b == b'\n';
        for (name, line) in names
            .split_inclusive(is_newline)
            .zip(lines.split_inclusive(is_newline))
        {
            self.put_line(name, line);
        }
    }

    fn code_batch(&mut self, lines: &mut [u8], names: &[u8]) {
        let host = self.out.host();
        let r = dm_ward(self.plate, names, lines);
        // Stays: the number is C's, and 0 that of no refusal; which one it is, is not told.
        if r.number != 0 {
            host.tell("the library refused a list\n");
            self.out.worsen(Status::Fault);
            return;
        }
        self.put_batch(names, lines.get(..r.length as usize).unwrap_or_default());
        self.tally.show(host);
    }

    // All lines of what was read, in as many calls as it takes.
    pub(crate) fn take_lines(&mut self, lines: &mut [u8], names: &[u8]) {
        for batch in (Batches { rest: names }) {
            self.code_batch(lines, batch);
        }
    }
}
