// list and encode: the names among the arguments, in files and on standard input.
use files::path::FilePath;
use files::read::Source;
use front::arguments::Arguments;
use front::host::Host;
use front::options::{Kind, Scan, not_taken, value, word, word_front};
use front::out::Out;
use front::rooms::WORD_ROOM;
use front::status::Status;
use names::answer::{Answering, Codes, Way};
use names::given::{is_input, load};
use names::lines::Lines;

// Answers the names of a source, whose lines are read into the chunk.
fn code_lines(
    out: &mut Out<'_>,
    answering: Answering<'_>,
    path: FilePath<'_>,
    source: Source,
    chunk: &mut [u8],
) {
    let mut lines = Lines::new(path, source, chunk).even();
    answering.answer_all(out, &mut lines, false);
}

// How names are answered, and whether standard input is spent: an option was read from it to its end.
#[derive(Clone, Copy)]
struct Coding<'a> {
    host: Host,
    answering: Answering<'a>,
    is_spent: bool,
}

impl Coding<'_> {
    fn code_file(&mut self, out: &mut Out<'_>, chunk: &mut [u8], i: usize) -> Result<(), Status> {
        let mut room = [0; WORD_ROOM];
        let path = FilePath::given(self.host, "--names", value(&self.host.rt, i, &mut room))?;
        let source = path.open_behind(self.is_spent)?;
        self.is_spent = self.is_spent || path.is_dash();
        code_lines(out, self.answering, path, source, chunk);
        Ok(())
    }

    // The name that an argument is; `-` in front of `--` stands for standard input. Of one that is longer than its room the front is refused for the same reason
    // as the whole.
    fn code_word(&self, out: &mut Out<'_>, chunk: &mut [u8], i: usize, is_ended: bool) {
        let mut room = [0; WORD_ROOM];
        let name = word_front(&self.host.rt, i, &mut room);
        if is_ended || !matches!(name, b"-") {
            return self.answering.answer(out, name);
        }
        let path = FilePath::new(self.host, name);
        let source = Source::input(&self.host.rt, self.is_spent);
        code_lines(out, self.answering, path, source, chunk);
    }

    // What the argument just passed asks for, if it is a name or a file of names. The first operand is the command.
    fn code_next(
        &mut self,
        out: &mut Out<'_>,
        chunk: &mut [u8],
        scan: &Scan,
        i: usize,
    ) -> Result<(), Status> {
        match scan.kind {
            Kind::Names => self.code_file(out, chunk, i)?,
            Kind::Operand if scan.operands[0] != Some(i) => {
                self.code_word(out, chunk, i, scan.end.is_some())
            }
            _ => {}
        }
        Ok(())
    }

    // Up to a fault.
    fn code_arguments(&mut self, out: &mut Out<'_>, chunk: &mut [u8]) {
        for (i, scan) in Arguments::of(self.host) {
            if out.status() == Status::Fault {
                break;
            }
            if let Err(status) = self.code_next(out, chunk, &scan, i) {
                out.worsen(status);
            }
        }
    }
}

// Whether the first name is `-`, in front of `--`, and so standard input.
fn is_dash(host: Host, scan: &Scan, i: usize) -> bool {
    if scan.end.is_some_and(|end| end < i) {
        return false;
    }
    let mut room = [0; WORD_ROOM];
    word(&host.rt, i, &mut room).is_ok_and(|word| matches!(word, b"-"))
}

// One word alone gives its codes alone.
fn is_one_word(host: Host, scan: &Scan) -> bool {
    match scan.operands {
        [_, Some(i), None, _] => scan.names.is_none() && !is_dash(host, scan, i),
        _ => false,
    }
}

pub(crate) fn run(
    host: Host,
    scan: &Scan,
    codes: Codes,
    plate: &mut [u8],
    text: &mut [u8],
    out: &mut [u8],
) -> Result<Status, Status> {
    not_taken(host, scan.flat)?;
    if scan.operands[1].is_none() && scan.names.is_none() {
        return Err(host.misused("no name is given"));
    }
    let plate = load(host, scan.plate, plate)?;
    let named = !is_one_word(host, scan);
    let way = Way::List { codes, named };
    let mut coding = Coding {
        host,
        answering: Answering { plate, way },
        is_spent: is_input(host, scan.plate),
    };
    let mut out = Out::answers(host, out);
    coding.code_arguments(&mut out, text);
    Ok(out.finish())
}
