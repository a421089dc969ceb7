// dm, the command: codes names by a plate or by the standard rules, builds a plate from rule text, checks a rule text, and keeps an index of names.
// Answers go to standard output, refusals and faults to standard error; the status says which of them there were.
#![tactic(auto)]

mod help; // help.rt: the page
mod code; // code.rt: list and encode
mod make; // make.rt: build and check

use files::read::fill_gaps;
use front::help::page;
use front::host::{Host, Program};
use front::options::{Misuse, Scan, tell_word, word};
use front::rooms::{FILE_ROOM, OUT_ROOM, WORD_ROOM};
use front::status::Status;
use help::PAGE;
use names::answer::Codes;
use names::lines::LINE_MOST;

// The part for a file; what stands behind it is for what is kept of a line of names.
fn file_room(text: &mut [u8]) -> &mut [u8] {
    text.get_mut(..FILE_ROOM).unwrap_or_default()
}

// The part for what is said, likewise.
fn answers_room(out: &mut [u8]) -> &mut [u8] {
    out.get_mut(..OUT_ROOM).unwrap_or_default()
}

// How the command went, or the status of what was told instead. The rooms are for a plate, for a text or an index, and for what is said.
// Stays: a struct of the three rooms gets no proof. By value, "a parameter that holds a `&mut [T]` which the caller gets back is passed on to a call" is not
// covered; behind a `&mut`, two of its rooms cannot be lent at once.
fn command(
    host: Host,
    scan: &Scan,
    word: &[u8],
    plate: &mut [u8],
    text: &mut [u8],
    out: &mut [u8],
) -> Result<Status, Status> {
    match word {
        b"list" => code::run(host, scan, Codes::All, plate, text, answers_room(out)),
        b"encode" => code::run(host, scan, Codes::First, plate, text, answers_room(out)),
        b"build" => make::build(host, scan, plate, file_room(text)),
        b"check" => make::check(host, scan, plate, file_room(text), answers_room(out)),
        b"index" => Ok(index_command::run(host, scan, plate, file_room(text), out)),
        b"help" => Ok(page(host, PAGE)),
        _ => Err(tell_word(host, Misuse::NoCommand, word)),
    }
}

// The command that the argument at a place names.
fn command_at(host: Host, scan: &Scan, i: usize) -> Result<Status, Status> {
    let mut room = [0; WORD_ROOM];
    let mut plate = [0; FILE_ROOM];
    let mut text = [0; FILE_ROOM + LINE_MOST];
    let mut out = [0; OUT_ROOM + LINE_MOST];
    let word = word(&host.rt, i, &mut room).unwrap_or_default();
    command(host, scan, word, &mut plate, &mut text, &mut out)
}

fn serve(host: Host, scan: &Scan) -> Result<Status, Status> {
    match scan.operands[0] {
        Some(i) => command_at(host, scan, i),
        None => Err(host.misused("no command is given")),
    }
}

// How the process ends.
pub fn run(rt: &HostRuntime) -> Status {
    fill_gaps(rt);
    front::help::run(Host::new(rt, Program::Dm), PAGE, serve)
}
