// What is told of a rule text that build refuses: file, line, number and words, the line itself, and for 3 what was found and the nearest form.
use super::nearest::{Front, Strange};
use super::text::{line_at, line_of_number};
use files::path::FilePath;
use front::status::Status;
use front::words::TextRefusal;

// A longer line is not shown whole.
const SHOWN: usize = 200;

// The place of the first byte that is not UTF-8, or is zero.
fn bad_place(text: &[u8]) -> usize {
    match str::from_utf8(text) {
        Err(error) => error.valid_up_to(),
        Ok(_) => text.iter().position(|b| *b == 0).unwrap_or(text.len()),
    }
}

// Tells why a text was refused. The line is the one that build answered, by its number.
pub fn text_refused(path: FilePath<'_>, text: &[u8], refusal: TextRefusal, line: u64) -> Status {
    let number = refusal.number();
    let line = match refusal {
        TextRefusal::Broken => line_at(text, bad_place(text)),
        _ => line,
    };
    let bytes = line_of_number(text, line);
    let shown = Front(bytes, SHOWN);
    match refusal {
        TextRefusal::Long | TextRefusal::Room => {
            path.host
                .tell(format_args!("{path}: {number}: {refusal}\n"))
        }
        TextRefusal::NoItem => path.host.tell(format_args!(
            "{path}:{line}: {number}: {refusal}\n    {shown}\n{}",
            Strange(bytes)
        )),
        _ => path.host.tell(format_args!("{path}:{line}: {number}: {refusal}\n    {shown}\n")),
    }
    Status::Refused
}
