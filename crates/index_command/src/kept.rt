// The two files of an index: INDEX, and INDEX.report beside it.
use super::unfit::Unfit;
use files::facts::is_same;
use files::path::FilePath;
use files::system::open_read;
use front::host::Host;
use front::status::Status;
use std::fs::Metadata;
use std::rt::Env;

// The program takes an index up to so many bytes; the library takes any.
const INDEX_MOST: usize = 65536;

// A report has a byte a name, and a byte more tells a longer file.
const REPORT_MOST: usize = 4096;

pub(crate) const REPORT_ROOM: usize = 4097;

// What the path of a report ends with.
const END: &[u8] = b".report";

// Two files cannot be read from one pipe, nor written to one.
pub(crate) fn no_path(host: Host) -> Status {
    host.misused("INDEX is a path of a file, of at most 4,088 bytes, and not -")
}

// A file that is no longer than the program takes it.
fn read_up_to<'a>(
    most: usize,
    too_long: Unfit,
    path: FilePath<'_>,
    room: &'a mut [u8],
) -> Result<&'a [u8], Status> {
    let bytes = path.read(room)?;
    if most < bytes.len() {
        return Err(too_long.tell(path));
    }
    Ok(bytes)
}

pub(crate) fn read_index<'a>(path: FilePath<'_>, room: &'a mut [u8]) -> Result<&'a [u8], Status> {
    read_up_to(INDEX_MOST, Unfit::LongIndex, path, room)
}

// The paths of the two files.
#[derive(Clone, Copy)]
pub(crate) struct Kept<'a> {
    pub index: FilePath<'a>,
    pub report: FilePath<'a>,
}

impl<'a> Kept<'a> {
    // By the argument at a place, which names the index. The path of the report begins with that of the index, so that one room has both.
    pub(crate) fn at(host: Host, i: usize, room: &'a mut [u8]) -> Option<Kept<'a>> {
        let Ok(n) = host.rt.arg(i, room) else {
            return None;
        };
        let end = n + END.len();
        if room.len() < end || matches!(&room[..n], b"" | b"-") {
            return None;
        }
        room[n..end].copy_from_slice(END);
        Some(Kept {
            index: FilePath::new(host, &room[..n]),
            report: FilePath::new(host, &room[..end]),
        })
    }

    pub(crate) fn read_report(self, room: &mut [u8]) -> Result<&[u8], Status> {
        read_up_to(REPORT_MOST, Unfit::LongReport, self.report, room)
    }

    // Whether the report's path leads to the file that was read.
    fn is_report(self, input: Option<&Metadata>) -> bool {
        let report = open_read(&self.report.host.rt, self.report.bytes);
        let Ok(report) = report.and_then(|file| file.metadata()) else {
            return false;
        };
        input.is_some_and(|input| is_same(&report, input))
    }

    // The index first and then the report, each replaced when it is whole. Where the run ends between the two, the next `add` tells: the index has a record that
    // the report does not have, which the library refuses, or index and report differ in who was refused (pair.rt). With the report first, a name that was
    // counted and has no entry would be found by nobody.
    pub(crate) fn keep(
        self,
        index: &[u8],
        report: &[u8],
        input: Option<&Metadata>,
    ) -> Result<(), Status> {
        if self.is_report(input) {
            return Err(
                self.report
                    .fault_for("this is the file that is read, and is not written over"),
            );
        }
        done(self.index.keep(index, input))?;
        done(self.report.keep(report, input))
    }
}

fn done(status: Status) -> Result<(), Status> {
    match status {
        Status::Answered => Ok(()),
        fault => Err(fault),
    }
}
