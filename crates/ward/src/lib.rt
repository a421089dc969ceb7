// A whole ward list in one call: the plate is accepted once, then a line is written for each name. 02, M-103.
#![tactic(auto)]

ghost use Rattle.std.specs.Prelude.{◌≡◌, ◌*◌, ◌≤◌, ◌<◌, length};
ghost use Rattle.laws.specs.Lists.{cat};
ghost use Rattle.ward.specs.Ward.{names, refused_line, given, line, line_bytes, ward_answer};
ghost use Rattle.ward.specs.Puts.{Puts};
ghost use Rattle.ward.specs.Outcome.{error_number, told};

use coder::answer::code_accepted;
use plate::note::NotedPlate;
use plate::{MOST_ALTERNATIVES, MOST_RULES, NOTED};
use split::{Names, count_names};

pub mod split; // split.rt: the names of a buffer

const MOST_NAMES: usize = 256;

// What list is lent for a name, and what a line takes at most with its newline.
pub const LIST_BYTES: usize = 447;

const LINE_BYTES: usize = 448;

// Why ward writes no lines.
#[derive(Clone, Copy, Debug, PartialEq, Eq)]
pub enum WardError {
    NotAPlate,
    ManyNames,
    RoomTooSmall,
}

impl WardError {
    // 01's number of it.
    pub fn number(self) -> u8
        ensures { result ≡ error_number self }
    {
        match self {
            WardError::NotAPlate => 10,
            WardError::ManyNames => 1,
            WardError::RoomTooSmall => 12,
        }
    }
}

// `!` and a refusal in two digits, to the front of a line; how many bytes.
fn put_refusal(out: &mut [u8], number: u8) -> usize
    requires { (3 ≤ length out.old) × (number < 100) }
    ensures { Puts (refused_line number) result out.old out.new }
{
    out[..3].copy_from_slice(&[b'!', b'0' + number / 10, b'0' + number % 10]);
    3
}

// What a name's list call gives, to the front of a line; how many bytes.
fn put_list(plate: &NotedPlate, name: &[u8], out: &mut [u8]) -> usize
    requires { line_bytes ≤ length out.old }
    ensures { Puts (given plate.now.bytes.now name.now) result out.old out.new × (result < line_bytes) }
{
    match code_accepted(plate, name, &mut out[..LIST_BYTES], MOST_ALTERNATIVES) {
        Ok(n) => 7 * n - 1,
        Err(error) => put_refusal(out, error.number()),
    }
}

// The line of a name; how many bytes.
fn put_line(plate: &NotedPlate, name: &[u8], out: &mut [u8]) -> usize
    requires { line_bytes ≤ length out.old }
    ensures { Puts (line plate.now.bytes.now name.now) result out.old out.new × (result ≤ line_bytes) }
{
    let n = put_list(plate, name, out);
    out[n] = b'\n';
    n + 1
}

// The lines of all names, one behind the other; how many bytes.
fn put_lines(plate: &NotedPlate, bytes: &[u8], out: &mut [u8]) -> usize
    requires { line_bytes * length (names bytes.now) ≤ length out.old }
    ensures { Puts (cat (line plate.now.bytes.now) (names bytes.now)) result out.old out.new }
{
    let mut to = 0;
    for name in Names::new(bytes) {
        to += put_line(plate, name, &mut out[to..]);
    }
    to
}

// A line for each name; how many bytes.
pub fn ward(plate: &[u8], bytes: &[u8], out: &mut [u8]) -> Result<usize, WardError>
    ensures { told result out.new ≡ ward_answer plate.now bytes.now out.old }
{
    let mut places = [0u32; MOST_RULES];
    let mut groups = [0u32; NOTED];
    let Some(noted) = NotedPlate::accept(plate, &mut places, &mut groups) else {
        return Err(WardError::NotAPlate);
    };
    let n = count_names(bytes, MOST_NAMES);
    if MOST_NAMES < n {
        return Err(WardError::ManyNames);
    }
    if out.len() < LINE_BYTES * n {
        return Err(WardError::RoomTooSmall);
    }
    Ok(put_lines(&noted, bytes, out))
}
