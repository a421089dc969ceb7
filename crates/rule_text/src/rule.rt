// Form 1. 01: "Rule: four quoted parts, one or more spaces or tabs between them, then a line end."
ghost use Rattle.std.specs.Prelude.{◌≤◌, ◌≡◌, length};
ghost use Rattle.rule_text.specs.Forms.{plain, part, part_at, inside, quadruplet};
ghost use Rattle.rule_text.specs.Answers.{Holds, HoldsFour, Within};

use super::lines::line_at;
use super::scan::count_blanks;
use super::{Four, Quoted, Span};

// "Content runs to the next quote, may be empty and may hold newlines."
fn plain(rest: &[u8]) -> Option<Quoted>
    requires { 1 ≤ length rest.now }
    ensures { (result ≡ plain rest.now) × Holds 0 (length rest.now) result }
{
    let end = 1 + rest[1..].iter().position(|x| *x == b'"')?;
    Some(Quoted {
        content: Span { start: 1, end },
        next: end + 1,
    })
}

// A quoted part. "If the next two bytes are backslash and quote, they are the content and a quote must follow."
#[tactic(auto, unfolding(crate::specs::Forms::part, crate::specs::Forms::escaped, crate::specs::Forms::pair_at))]
fn part(rest: &[u8]) -> Option<Quoted>
    ensures { (result ≡ part rest.now) × Holds 0 (length rest.now) result }
{
    let [b'"', behind @ ..] = rest else {
        return None;
    };
    match behind {
        [b'\\', b'"', b'"', ..] => Some(Quoted {
            content: Span { start: 1, end: 3 },
            next: 4,
        }),
        [b'\\', b'"', ..] => None,
        _ => plain(rest),
    }
}

// One or more spaces or tabs from a place on, then a part.
#[tactic(auto, unfolding(crate::specs::Forms::part_at))]
fn part_at(rest: &[u8], at: usize) -> Option<Quoted>
    requires { at ≤ length rest.now }
    ensures { (result ≡ part_at rest.now at) × Holds at (length rest.now) result }
{
    let blanks = count_blanks(&rest[at..]);
    if blanks == 0 {
        return None;
    }
    let from = at + blanks;
    let Quoted { content, next } = part(&rest[from..])?;
    Some(Quoted {
        content: Span {
            start: from + content.start,
            end: from + content.end,
        },
        next: from + next,
    })
}

#[tactic(auto, unfolding(crate::specs::Forms::quadruplet))]
pub fn quadruplet(rest: &[u8]) -> Option<Four>
    ensures { (result ≡ quadruplet rest.now) × HoldsFour (length rest.now) result }
{
    let pattern = part(rest)?;
    let start = part_at(rest, pattern.next)?;
    let vowel = part_at(rest, start.next)?;
    let other = part_at(rest, vowel.next)?;
    let next = line_at(rest, other.next)?;
    Some(Four {
        pattern: pattern.content,
        start: start.content,
        vowel: vowel.content,
        other: other.content,
        next,
    })
}

// The bytes of a span.
pub fn bytes_in(rest: &[u8], span: Span) -> &[u8]
    requires { Within (length rest.now) span }
    ensures { result.now ≡ inside rest.now span }
{
    &rest[span.start..span.end]
}
