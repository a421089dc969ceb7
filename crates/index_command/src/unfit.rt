// Why an index, or names that were to be one, are refused.
use files::path::FilePath;
use front::status::Status;
use std::fmt;
use std::fmt::{Display, Formatter, Write};

// The number of the refusal, in 02.
pub(crate) const NUMBER: u64 = 18;

#[derive(Clone, Copy, PartialEq, Eq)]
pub(crate) enum Unfit {
    ManyNames,
    Full,
    LongIndex,
    LongReport,
    Damaged,
    Unpaired,
}

impl Display for Unfit {
    fn fmt<W: Write>(&self, f: &mut Formatter<W>) -> fmt::Result {
        f.write_str(match self {
            Unfit::ManyNames => "an index has at most 4,096 names",
            Unfit::Full => {
                "the index would have over 65,536 bytes; such an index is for the library alone"
            }
            Unfit::LongIndex => {
                "the index has over 65,536 bytes; such an index is for the library alone"
            }
            Unfit::LongReport => "the report has over 4,096 bytes, a byte a name",
            Unfit::Damaged => "the index is damaged or no index",
            Unfit::Unpaired => {
                "index and report do not belong together, or one is damaged: make them anew"
            }
        })
    }
}

impl Unfit {
    // Tells it of the file at a path.
    pub(crate) fn tell(self, path: FilePath<'_>) -> Status {
        path.host.tell(format_args!("{path}: {NUMBER}: {self}\n"));
        Status::Refused
    }
}
