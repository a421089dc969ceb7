// ward: lists of names, a line each, coded at most 128 to a call and answered by a line each; at the end it is told how many were refused.
#![tactic(auto)]

mod help; // help.rt: the page
mod tally; // tally.rt: how many names there were, and how many were refused
mod batch; // batch.rt: the names of one call
mod input; // input.rt: an input, its whole lines at once

use batch::LINES_ROOM;
use files::path::FilePath;
use files::read::fill_gaps;
use front::arguments::Arguments;
use front::host::{Host, Program};
use front::options::{Kind, Scan, not_taken, word};
use front::out::Out;
use front::rooms::{FILE_ROOM, OUT_ROOM, WORD_ROOM};
use front::status::Status;
use help::PAGE;
use names::given::{is_input, load};
use tally::Tally;

// How the run goes: what is said, and what was counted; and by what names are answered: the plate, with no name in front where that is asked.
#[derive(Drop)]
pub(crate) struct Ward<'a, 'p> {
    out: Out<'a>,
    tally: Tally,
    plate: &'p [u8],
    is_bare: bool,
    // Whether the plate was standard input.
    is_spent: bool,
}

impl Ward<'_, '_> {
    // The file that an argument names.
    fn take_argument(&mut self, lines: &mut [u8], chunk: &mut [u8], i: usize) {
        let host = self.out.host();
        let mut room = [0; WORD_ROOM];
        match word(&host.rt, i, &mut room) {
            Ok(path) => self.take_path(lines, chunk, FilePath::new(host, path)),
            Err(error) => self.out.worsen(FilePath::new(host, &room).fault(error)),
        }
    }

    fn take_arguments(&mut self, lines: &mut [u8], chunk: &mut [u8]) {
        let host = self.out.host();
        for (i, scan) in Arguments::of(host) {
            if self.out.status() == Status::Fault {
                break;
            }
            if scan.kind == Kind::Operand {
                self.take_argument(lines, chunk, i);
            }
        }
    }
}

fn serve(host: Host, plate: &[u8], scan: &Scan) -> Status {
    let mut room = [0; OUT_ROOM];
    let mut ward = Ward {
        out: Out::answers(host, &mut room),
        tally: Tally::new(host),
        plate,
        is_bare: scan.bare,
        is_spent: is_input(host, scan.plate),
    };
    let mut lines = [0; LINES_ROOM];
    let mut chunk = [0; OUT_ROOM];
    // All files, or standard input where none is named.
    match scan.operands[0] {
        Some(_) => ward.take_arguments(&mut lines, &mut chunk),
        None => ward.take_path(&mut lines, &mut chunk, FilePath::new(host, b"-")),
    }
    let status = ward.out.finish();
    ward.tally.tell(host);
    status
}

fn serve_by(host: Host, scan: &Scan) -> Result<Status, Status> {
    not_taken(host, scan.names)?;
    not_taken(host, scan.flat)?;
    let mut room = [0; FILE_ROOM];
    let plate = load(host, scan.plate, &mut room)?;
    Ok(serve(host, plate, scan))
}

// How the process ends.
pub fn run(rt: &HostRuntime) -> Status {
    fill_gaps(rt);
    front::help::run(Host::new(rt, Program::Ward), PAGE, serve_by)
}
