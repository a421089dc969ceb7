// A field, split at a byte that the driver names. 01: "an empty field is one empty alternative."
ghost use Rattle.std.specs.Prelude.{◌≡◌};
ghost use Rattle.laws.specs.Lists.{every, split_at};
ghost use Rattle.chars.specs.Digits.{is_alternative};
ghost use Rattle.book.specs.Field.{parsed, Says};

use super::{Flaw, MOST_ALTERNATIVES, MOST_DIGITS};
use chars::scan::count_of;

// Is it 0 to 6 ASCII digits?
fn is_alternative(part: &[u8]) -> bool
    ensures { result ≡ is_alternative part.now }
{
    part.len() <= MOST_DIGITS && part.iter().all(|b| b.is_ascii_digit())
}

// How many alternatives a field has, or its first fault: "6 before 7 in each field".
pub fn parse_branch(field: &[u8], sep: u8) -> Result<usize, Flaw>
    ensures { (result ≡ parsed (split_at sep field.now)) × Says (split_at sep field.now) result }
{
    let seps = count_of(field, sep);
    if MOST_ALTERNATIVES <= seps {
        return Err(Flaw::ManyAlternatives);
    }
    if !field.split(|b| *b == sep).all(is_alternative) {
        return Err(Flaw::NotDigits);
    }
    Ok(seps + 1)
}
