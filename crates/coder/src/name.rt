// From a name's bytes to the characters that are coded.
ghost use Rattle.std.specs.Prelude.{◌≡◌, ◌≤◌, length, drop, IfSome};
ghost use Rattle.plate.specs.Read.{plate_in};
ghost use Rattle.plate.specs.Stands.{first_key};
ghost use Rattle.coder.specs.Name.{most_name, coded};
ghost use Rattle.coder.specs.Held.{foreign_fault, PlainAt, PreparedIs};

use super::{MOST_NAME, NameFault};
use chars::Char;
use chars::letters::{is_space, is_tabled};
use chars::lower::lower;
use chars::utf8::{char_at, check_text};
use plate::note::NotedPlate;
use plate::read;

// "Lowercase each other character [..]. With the flag on, fold once, never again." Below the first key nothing is folded, whatever the flag.
fn coded_char(plate: &NotedPlate, key: u32, c: u32) -> u32
    requires { key ≡ first_key (plate_in plate.now.bytes.now).foldings }
    ensures { result ≡ coded (plate_in plate.now.bytes.now) c }
{
    let low = lower(c);
    if low < key {
        return low;
    }
    if read::flag(plate.bytes) {
        read::fold(plate.bytes, low)
    } else {
        low
    }
}

// The character at a place, if it is ASCII and kept; else it is looked at again.
fn plain_at(name: &[u8], at: usize) -> Option<u32>
    ensures { IfSome result (PlainAt name.now at) }
{
    let c = u32::from(*name.get(at)?);
    if c < 0x80 && !is_space(c) {
        Some(c)
    } else {
        None
    }
}

// The fault of a name with a character at `at` that is not allowed, and none before it. A sequence behind it that is not UTF-8 decides all the same: 2 comes
// before 11.
fn foreign_fault(name: &[u8], at: usize) -> NameFault
    requires { at ≤ length name.now }
    ensures { result ≡ foreign_fault at (drop at name.now) }
{
    match check_text(&name[at..]) {
        Err(fault) => NameFault::NotUtf8(at + fault.at),
        Ok(_) => NameFault::NotAllowed(at),
    }
}

// The characters of a name, in one pass, to the front of what is lent; how many they are.
// Stays: a character's width is the step, so that no range or iterator counts it.
pub(crate) fn prepare(
    plate: &NotedPlate,
    name: &[u8],
    chars: &mut [u32],
) -> Result<usize, NameFault>
    requires { most_name ≤ length chars.old }
    ensures { PreparedIs (plate_in plate.now.bytes.now) name.now chars.new result }
{
    if MOST_NAME < name.len() {
        return Err(NameFault::TooLong);
    }
    let key = read::first_key(plate.bytes);
    let mut count = 0;
    let mut at = 0;
    loop {
        let (c, width) = if let Some(c) = plain_at(name, at) {
            (c, 1)
        } else {
            match char_at(name, at) {
                Char::One(c, width) => {
                    if is_space(c) {
                        at += width;
                        continue;
                    }
                    if !is_tabled(c) {
                        return Err(foreign_fault(name, at));
                    }
                    (c, width)
                }
                Char::Bad => return Err(NameFault::NotUtf8(at)),
                Char::End => return Ok(count),
            }
        };
        chars[count] = coded_char(plate, key, c);
        count += 1;
        at += width;
    }
}
