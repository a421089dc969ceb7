// desk: names from standard input, one to a line, each answered by its shelf (the first code) and the codes to search under, or why it is refused.
#![tactic(auto)]

mod help; // help.rt: the page

use files::path::FilePath;
use files::read::{Source, fill_gaps};
use front::host::{Host, Program};
use front::options::{Scan, not_taken};
use front::out::Out;
use front::rooms::{FILE_ROOM, OUT_ROOM};
use front::status::Status;
use help::PAGE;
use names::answer::{Answering, Way};
use names::given::{is_input, load};
use names::lines::{LINE_MOST, Lines};
use std::io::IsTerminal;

// A person sits at the desk: what is typed and what is answered are on a terminal.
fn is_person(rt: &HostRuntime) -> bool {
    rt.stdin().is_terminal() && rt.stdout().is_terminal()
}

fn serve(host: Host, plate: &[u8], is_spent: bool) -> Status {
    let is_asked = is_person(&host.rt);
    let mut room = [0; OUT_ROOM];
    let mut out = Out::answers(host, &mut room);
    if is_asked {
        out.put(b"Type a name and press Enter; Ctrl-D in an empty line ends.\n");
    }
    let mut chunk = [0; OUT_ROOM + LINE_MOST];
    let source = Source::input(&host.rt, is_spent);
    let mut lines = Lines::new(FilePath::new(host, b"-"), source, &mut chunk).even();
    let answering = Answering {
        plate,
        way: Way::Desk,
    };
    answering.answer_all(&mut out, &mut lines, is_asked);
    // The end of the last prompt's line.
    if is_asked {
        out.put(b"\n");
    }
    out.finish()
}

fn serve_by(host: Host, scan: &Scan) -> Result<Status, Status> {
    not_taken(host, scan.operands[0])?;
    not_taken(host, scan.names)?;
    not_taken(host, scan.flat)?;
    let mut room = [0; FILE_ROOM];
    let plate = load(host, scan.plate, &mut room)?;
    Ok(serve(host, plate, is_input(host, scan.plate)))
}

// How the process ends.
pub fn run(rt: &HostRuntime) -> Status {
    fill_gaps(rt);
    front::help::run(Host::new(rt, Program::Desk), PAGE, serve_by)
}
