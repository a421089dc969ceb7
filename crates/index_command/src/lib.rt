// dm index: an index of names in a file, and its report in the file beside it: made, added to, looked up. 02, M-108.
#![tactic(auto)]

mod unfit; // unfit.rt: why an index is refused
mod kept; // kept.rt: the two files
mod pair; // pair.rt: whether index and report belong together
mod grow; // grow.rt: one name more
mod make; // make.rt: an index from a file of names
mod add; // add.rt: names more in an index
mod find; // find.rt: the records that share a code with a name

use front::arguments::Arguments;
use front::host::Host;
use front::options::{Kind, Scan, not_taken, word};
use front::rooms::{OUT_ROOM, WORD_ROOM};
use front::status::Status;
use names::given::load;

#[derive(Clone, Copy, PartialEq, Eq)]
enum Command {
    Make,
    Add,
    Find,
}

impl Command {
    fn of(word: &[u8]) -> Option<Command> {
        match word {
            b"make" => Some(Command::Make),
            b"add" => Some(Command::Add),
            b"find" => Some(Command::Find),
            _ => None,
        }
    }

    // The command that the argument at a place names.
    fn at(host: Host, i: usize) -> Option<Command> {
        let mut room = [0; WORD_ROOM];
        Command::of(word(&host.rt, i, &mut room).ok()?)
    }

    // What it takes.
    fn usage(self) -> &'static str {
        match self {
            Command::Make => "index make takes [--plate PLATE] NAMES INDEX",
            Command::Add => "index add takes [--plate PLATE] INDEX NAME...",
            Command::Find => "index find takes [--plate PLATE] [--names NAMES] INDEX NAME...",
        }
    }
}

// The first --names in front of another, or, where two operands are asked for, the first operand behind them.
fn odd_place(host: Host, asked: &Scan, two: bool) -> Option<usize> {
    Arguments::of(host)
        .find(|(i, scan)| match scan.kind {
            Kind::Operand => two && asked.operands[3] < Some(*i),
            Kind::Names => asked.names != Some(*i),
            _ => false,
        })
        .map(|(i, _)| i)
}

// What a command is asked for: its last two operands, of which the first is the index, or the names that one is made from, and the other the index then, or the
// first name of several; and the plate.
#[derive(Clone, Copy)]
struct Asked<'a> {
    host: Host,
    scan: &'a Scan,
    third: usize,
    fourth: usize,
    plate: &'a [u8],
}

// The part for what is said; what stands behind it is for what is kept of a line of names.
fn answers_room(out: &mut [u8]) -> &mut [u8] {
    let n = out.len().min(OUT_ROOM);
    &mut out[..n]
}

// How it went, or the status of what was told instead.
fn serve(
    host: Host,
    scan: &Scan,
    plate: &mut [u8],
    text: &mut [u8],
    out: &mut [u8],
) -> Result<Status, Status> {
    // Where no word stands behind index, the program's own name is asked.
    let Some(command) = Command::at(host, scan.operands[1].unwrap_or(0)) else {
        return Err(host.misused("index takes make, add or find"));
    };
    let [_, _, Some(third), Some(fourth)] = scan.operands else {
        return Err(host.misused(command.usage()));
    };
    not_taken(host, scan.flat)?;
    if command != Command::Find {
        not_taken(host, scan.names)?;
    }
    not_taken(host, odd_place(host, scan, command == Command::Make))?;
    let asked = Asked {
        host,
        scan,
        third,
        fourth,
        plate: load(host, scan.plate, plate)?,
    };
    match command {
        Command::Make => asked.make(text, out),
        Command::Add => asked.add(text, answers_room(out)),
        Command::Find => asked.find(text, answers_room(out)),
    }
}

// How it went. The index stands in the room for a text. The room for what is said has any length; the names of a file that an index is made from are read into
// it too, and in one of 261 bytes or less a line that fills it is taken in pieces.
pub fn run(host: Host, scan: &Scan, plate: &mut [u8], text: &mut [u8], out: &mut [u8]) -> Status {
    serve(host, scan, plate, text, out).unwrap_or_else(|status| status)
}
