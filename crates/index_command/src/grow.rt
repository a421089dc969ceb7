// Names added to an index and its report, and what is told of them.
use super::unfit::Unfit;
use front::out::Out;
use names::answer::{Answering, Codes, Way};
use zengilvar::code_index::dm_index_add;

const NAMES_MOST: usize = 4096;

// With so many bytes in use there may be no room for 64 entries more.
const NEARLY_FULL: usize = 65280;

// As dm list answers, each name in front of its codes.
pub(crate) const LISTED: Way = Way::List {
    codes: Codes::All,
    named: true,
};

// An index and its report while names are added.
// Stays: a length stands beside each room, since the C interface of the library is lent the rooms whole and told how much of them is in use.
#[derive(Drop)]
pub(crate) struct Growth<'a> {
    pub plate: &'a [u8],
    pub index: &'a mut [u8],
    pub used: usize,
    pub report: &'a mut [u8],
    pub noted: usize,
}

impl Growth<'_> {
    // Why a name was not added.
    fn unfit(&self) -> Unfit {
        if NAMES_MOST <= self.noted {
            Unfit::ManyNames
        } else if NEARLY_FULL < self.used {
            Unfit::Full
        } else {
            Unfit::Damaged
        }
    }

    // A name that list refuses is added too: it keeps its number, and is told as list tells it.
    pub(crate) fn add(&mut self, out: &mut Out<'_>, name: &[u8]) -> Result<(), Unfit> {
        let used = self.used;
        let record = self.noted;
        let r = dm_index_add(self.plate, name, self.index, used, self.report, record);
        if r.number != 0 {
            return Err(self.unfit());
        }
        self.used = r.index_length as usize;
        self.noted = r.report_length as usize;
        if self.report.get(record).is_some_and(|note| *note != 0) {
            let plate = self.plate;
            Answering { plate, way: LISTED }.answer(out, name);
        }
        Ok(())
    }

    pub(crate) fn index(&self) -> &[u8] {
        self.index.get(..self.used).unwrap_or_default()
    }

    pub(crate) fn report(&self) -> &[u8] {
        self.report.get(..self.noted).unwrap_or_default()
    }
}
