// Form 2. 01: "Folding: any character, `=`, any character, line end. Newline counts as a character here."
ghost use Rattle.std.specs.Prelude.{◌≡◌, length};
ghost use Rattle.rule_text.specs.Forms.{letter_at, folding};
ghost use Rattle.rule_text.specs.Answers.{Reads, Pairs};

use super::lines::line_at;
use super::{Pair, Symbol};
use chars::Char;
use chars::utf8::char_at;

// The character at a place.
#[tactic(auto, unfolding(crate::specs::Forms::letter_at))]
fn letter_at(rest: &[u8], at: usize) -> Option<Symbol>
    ensures { (result ≡ letter_at rest.now at) × Reads at (length rest.now) result }
{
    let Char::One(code, width) = char_at(rest, at) else {
        return None;
    };
    Some(Symbol {
        code,
        next: at + width,
    })
}

#[tactic(auto, unfolding(crate::specs::Forms::folding))]
pub fn folding(rest: &[u8]) -> Option<Pair>
    ensures { (result ≡ folding rest.now) × Pairs (length rest.now) result }
{
    let key = letter_at(rest, 0)?;
    let Some(b'=') = rest.get(key.next) else {
        return None;
    };
    let target = letter_at(rest, key.next + 1)?;
    let next = line_at(rest, target.next)?;
    Some(Pair {
        key: key.code,
        target: target.code,
        next,
    })
}
