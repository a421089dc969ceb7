// Names more in an index that stands in its two files. Nothing is written unless all of them were added.
use super::Asked;
use super::grow::Growth;
use super::kept::{Kept, REPORT_ROOM, no_path, read_index};
use super::pair::is_pair;
use super::unfit::Unfit;
use front::arguments::Arguments;
use front::options::{Kind, word_front};
use front::out::Out;
use front::rooms::WORD_ROOM;
use front::status::Status;

impl Asked<'_> {
    // The names are the arguments from a place on. Of one that is longer than its room the front is refused for the same reason as the whole.
    fn take_words(self, out: &mut Out<'_>, growth: &mut Growth<'_>) -> Result<(), Unfit> {
        for (i, scan) in Arguments::of(self.host) {
            if scan.kind == Kind::Operand && self.fourth <= i {
                let mut room = [0; WORD_ROOM];
                growth.add(out, word_front(&self.host.rt, i, &mut room))?;
            }
        }
        Ok(())
    }

    fn add_to(self, kept: Kept<'_>, text: &mut [u8], out: &mut [u8]) -> Result<Status, Status> {
        let mut report = [0; REPORT_ROOM];
        let used = read_index(kept.index, text)?.len();
        let noted = kept.read_report(&mut report)?.len();
        let mut growth = Growth {
            plate: self.plate,
            index: text,
            used,
            report: &mut report,
            noted,
        };
        if !is_pair(growth.index(), growth.report()) {
            return Err(Unfit::Unpaired.tell(kept.index));
        }
        let mut out = Out::answers(self.host, out);
        if let Err(unfit) = self.take_words(&mut out, &mut growth) {
            return Err(unfit.tell(kept.index));
        }
        kept.keep(growth.index(), growth.report(), None)?;
        // The numbers of the records that were added, a line each.
        for record in noted..growth.noted {
            out.say(format_args!("{record}\n"));
        }
        Ok(out.finish())
    }

    pub(crate) fn add(self, text: &mut [u8], out: &mut [u8]) -> Result<Status, Status> {
        let mut room = [0; WORD_ROOM];
        let Some(kept) = Kept::at(self.host, self.third, &mut room) else {
            return Err(no_path(self.host));
        };
        self.add_to(kept, text, out)
    }
}
