// Encode and list. 01: "Encode and list check 10, 1, 2, 11, 12."
ghost use Rattle.std.specs.Prelude.{◌≡◌, ◌+◌, ◌*◌, ◌/◌, ◌≤◌, ◌<◌, length};
ghost use Rattle.plate.specs.Most.{most_rules};
ghost use Rattle.plate.specs.Read.{plate_in, most_of};
ghost use Rattle.coder.specs.Walk.{uses};
ghost use Rattle.coder.specs.Answer.{smaller, coded_by, list_answer, encode_answer};
ghost use Rattle.coder.specs.Outcome.{told, listed_to, code_answer};

use super::name::prepare;
use super::run::run;
use super::write::write;
use super::{CodeError, MOST_NAME};
use branches::MOST_BRANCHES;
use plate::edition::most_rules;
use plate::note::NotedPlate;
use plate::{FEW_RULES, MOST_ALTERNATIVES, MOST_RULES, NOTED};

// "Room is the smaller of 64 and (buffer length + 1) divided by 7, rounded down."
fn room_of(n: usize) -> usize
    requires { n < 18446744073709551615 }
    ensures { (result ≡ smaller 64 ((n + 1) / 7)) × (result ≤ 64) × (7 * result ≤ n + 1) }
{
    MOST_BRANCHES.min((n + 1) / 7)
}

// The codes of some characters, each written once, if there is room for their branches; how many they are.
fn code_chars(
    plate: &NotedPlate,
    chars: &[u32],
    out: &mut [u8],
    most: usize,
) -> Result<usize, CodeError>
    ensures { told result out.new ≡ listed_to most (uses (plate_in plate.now.bytes.now).rules chars.now) out.old }
{
    let bs = run(plate, chars, most, room_of(out.len()))?.once_each();
    write(out, &bs);
    Ok(bs.as_slice().len())
}

// The codes of a name by a plate that is accepted and noted, with the first `most` alternatives of each field.
pub fn code_accepted(
    plate: &NotedPlate,
    name: &[u8],
    out: &mut [u8],
    most: usize,
) -> Result<usize, CodeError>
    ensures { told result out.new ≡ coded_by (listed_to most) (plate_in plate.now.bytes.now) name.now out.old }
{
    let mut chars = [0u32; MOST_NAME];
    let n = prepare(plate, name, &mut chars)?;
    code_chars(plate, &chars[..n], out, most)
}

// The codes of a name by a plate of at most N rules, for which room is cleared, with the first `most` alternatives of each field.
fn code_within<const N: usize>(
    plate: &[u8],
    name: &[u8],
    out: &mut [u8],
    most: usize,
) -> Result<usize, CodeError>
    requires { (most_of plate.now ≤ N) × (N ≤ most_rules) }
    ensures { told result out.new ≡ code_answer most plate.now name.now out.old }
{
    let mut places = [0u32; N];
    let mut groups = [0u32; NOTED];
    let Some(noted) = NotedPlate::accept(plate, &mut places, &mut groups) else {
        return Err(CodeError::NotAPlate);
    };
    code_accepted(&noted, name, out, most)
}

// The codes of a name, with the first `most` alternatives of each field.
// Stays: plate, name and buffer are what the C interface lends, one by one.
fn code_name(plate: &[u8], name: &[u8], out: &mut [u8], most: usize) -> Result<usize, CodeError>
    ensures { told result out.new ≡ code_answer most plate.now name.now out.old }
{
    if most_rules(plate) <= FEW_RULES {
        code_within::<FEW_RULES>(plate, name, out, most)
    } else {
        code_within::<MOST_RULES>(plate, name, out, most)
    }
}

// All codes of a name; how many they are.
pub fn list(plate: &[u8], name: &[u8], out: &mut [u8]) -> Result<usize, CodeError>
    ensures { told result out.new ≡ list_answer plate.now name.now out.old }
{
    code_name(plate, name, out, MOST_ALTERNATIVES)
}

// One code: "Encode takes the first alternative only."
pub fn encode(plate: &[u8], name: &[u8], out: &mut [u8]) -> Result<usize, CodeError>
    ensures { told result out.new ≡ encode_answer plate.now name.now out.old }
{
    code_name(plate, name, out, 1)
}
