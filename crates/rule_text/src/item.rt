// An item. 01: "At each item the first form that fits is taken, in this order": rule, folding, line end, block comment. And the line of an item's place.
ghost use Rattle.std.specs.Prelude.{◌≡◌, length};
ghost use Rattle.rule_text.specs.Forms.{entry};
ghost use Rattle.rule_text.specs.Items.{line_of};
ghost use Rattle.rule_text.specs.Answers.{Lies};

use super::comment::multiline_comment;
use super::folding::folding;
use super::lines::end_of_line;
use super::rule::quadruplet;
use super::{Entry, Pair};
use chars::scan::count_of;

#[tactic(auto, unfolding(crate::specs::Forms::entry))]
pub fn item(rest: &[u8]) -> Entry
    ensures { (result ≡ entry rest.now) × Lies (length rest.now) result }
{
    if let Some(four) = quadruplet(rest) {
        return Entry::Rule(four);
    }
    if let Some(Pair { key, target, next }) = folding(rest) {
        return Entry::Folding { key, target, next };
    }
    if let Some(next) = end_of_line(rest) {
        return Entry::LineEnd { next };
    }
    if let Some(next) = multiline_comment(rest) {
        return Entry::Comment { next };
    }
    Entry::Unknown
}

// The line of a place. 02, M-102: "1 plus the newlines before" it.
pub fn line_of(text: &[u8], at: usize) -> usize
    ensures { result ≡ line_of text.now at }
{
    1 + count_of(text.get(..at).unwrap_or(text), b'\n')
}
