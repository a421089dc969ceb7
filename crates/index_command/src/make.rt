// An index from a file of names, a line each, added one after the other: that is the index that making gives (02, M-108: "gives the same index and report as
// making them afresh"), and needs no room for the names.
use super::Asked;
use super::grow::Growth;
use super::kept::{Kept, REPORT_ROOM, no_path};
use files::facts::look;
use files::path::FilePath;
use front::options::word;
use front::out::Out;
use front::rooms::{NOTE_ROOM, WORD_ROOM};
use front::status::Status;
use names::given::is_input;
use names::lines::Lines;

// One name more than an index has, so that it is refused and not passed over.
const LINES_MOST: usize = 4097;

// Takes the names of the lines; how it went. It has a frame of its own, since what is said of them needs no room any more where the index is kept.
#[inline(never)]
fn take_lines(
    growth: &mut Growth<'_>,
    lines: &mut Lines<'_>,
    from: FilePath<'_>,
) -> Result<Status, Status> {
    let mut note = [0; NOTE_ROOM];
    let mut out = Out::answers(from.host, &mut note);
    for turn in 1..=LINES_MOST {
        let Some(name) = lines.next()? else {
            break;
        };
        if let Err(unfit) = growth.add(&mut out, name) {
            // A fault of reading the line behind it is told in its place.
            if turn < LINES_MOST {
                lines.next()?;
            }
            return Err(unfit.tell(from));
        }
    }
    Ok(out.status())
}

impl Asked<'_> {
    // Whether the plate was read from standard input to its end. This has a frame of its own for the room of a word.
    #[inline(never)]
    fn is_spent(self) -> bool {
        is_input(self.host, self.scan.plate)
    }

    // The index in the room for a text; the lines are read into that for what is said, since only refusals are.
    fn make_from(
        self,
        from: FilePath<'_>,
        to: Kept<'_>,
        text: &mut [u8],
        chunk: &mut [u8],
    ) -> Result<Status, Status> {
        let source = from.open_behind(self.is_spent())?;
        let input = look(&self.host.rt, &source);
        let mut report = [0; REPORT_ROOM];
        let mut growth = Growth {
            plate: self.plate,
            index: text,
            used: 0,
            report: &mut report,
            noted: 0,
        };
        let mut lines = Lines::new(from, source, chunk).even();
        let status = take_lines(&mut growth, &mut lines, from)?;
        to.keep(growth.index(), growth.report(), input.as_ref())?;
        Ok(status)
    }

    pub(crate) fn make(self, text: &mut [u8], chunk: &mut [u8]) -> Result<Status, Status> {
        let host = self.host;
        let mut names = [0; WORD_ROOM];
        let mut room = [0; WORD_ROOM];
        let from = FilePath::given(host, "NAMES", word(&host.rt, self.third, &mut names))?;
        let Some(to) = Kept::at(host, self.fourth, &mut room) else {
            return Err(no_path(host));
        };
        self.make_from(from, to, text, chunk)
    }
}
