// build and check: a plate from the rule text of a file, written or not.
use files::facts::look;
use files::path::FilePath;
use files::read::not_open;
use front::host::Host;
use front::options::{Scan, not_taken, word};
use front::out::Out;
use front::rooms::WORD_ROOM;
use front::status::Status;
use front::words::TextRefusal;
use review::met::review_text;
use review::told::text_refused;
use zengilvar::dm_build;

// Makes a plate, or tells why not.
fn made<'a>(
    rules: FilePath<'_>,
    text: &[u8],
    folding: bool,
    plate: &'a mut [u8],
) -> Result<&'a [u8], Status> {
    let r = dm_build(text, folding, plate);
    match TextRefusal::of(r.number) {
        Some(refusal) => Err(text_refused(rules, text, refusal, r.line)),
        None => Ok(plate.get(..r.length as usize).unwrap_or_default()),
    }
}

fn build_to(
    rules: FilePath<'_>,
    path: FilePath<'_>,
    folding: bool,
    plate: &mut [u8],
    text: &mut [u8],
) -> Result<Status, Status> {
    let source = rules.open()?;
    let text = source.read(rules, text)?;
    let input = look(&rules.host.rt, &source);
    drop(source);
    let plate = made(rules, text, folding, plate)?;
    // The text was standard input to its end, so that a name of that is no place for a plate: nobody would read it there.
    if rules.is_dash() && path.names_input() {
        return Err(path.fault(not_open()));
    }
    Ok(path.keep(plate, input.as_ref()))
}

// This has a frame of its own, so that its two rooms are not held by the other commands.
#[inline(never)]
pub(crate) fn build(
    host: Host,
    scan: &Scan,
    plate: &mut [u8],
    text: &mut [u8],
) -> Result<Status, Status> {
    not_taken(host, scan.plate)?;
    not_taken(host, scan.names)?;
    let [_, Some(rules), Some(path), None] = scan.operands else {
        return Err(host.misused("build takes RULES PLATE [--no-folding]"));
    };
    let mut rules_room = [0; WORD_ROOM];
    let mut path_room = [0; WORD_ROOM];
    let rules = FilePath::given(host, "RULES", word(&host.rt, rules, &mut rules_room))?;
    let path = FilePath::given(host, "PLATE", word(&host.rt, path, &mut path_room))?;
    build_to(rules, path, scan.flat.is_none(), plate, text)
}

pub(crate) fn check(
    host: Host,
    scan: &Scan,
    plate: &mut [u8],
    text: &mut [u8],
    out: &mut [u8],
) -> Result<Status, Status> {
    not_taken(host, scan.plate)?;
    not_taken(host, scan.names)?;
    let [_, Some(rules), None, _] = scan.operands else {
        return Err(host.misused("check takes RULES [--no-folding]"));
    };
    let mut room = [0; WORD_ROOM];
    let rules = FilePath::given(host, "RULES", word(&host.rt, rules, &mut room))?;
    let text = rules.read(text)?;
    let folding = scan.flat.is_none();
    let plate = made(rules, text, folding, plate)?;
    let mut out = Out::answers(host, out);
    review_text(&mut out, rules, text, folding, plate.len());
    Ok(out.finish())
}
