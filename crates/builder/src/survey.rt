// The first pass: the items front to back, the first fault in the text deciding. Rules and foldings are noted in the book, a rule by its place in the text.
ghost use Rattle.std.specs.Prelude.{◌≡◌, ◌≤◌, ◌<◌, length};
ghost use Rattle.rule_text.specs.Items.{items};
ghost use Rattle.rule_text.specs.Answers.{FourIn};
ghost use Rattle.book.specs.Book.{blank};
ghost use Rattle.book.specs.Note.{places, rule_from, none_noted};
ghost use Rattle.builder.specs.Build.{longest_text, verdict};
ghost use Rattle.builder.specs.Survey.{rule_in, Held, SoFar, FourNoted, TurnIs, SurveyIs};

use super::known::is_known;
use super::{BAR, Fault};
use book::note::Notes;
use book::seen::hash_of;
use book::{Flaw, Parts};
use rule_text::item::item;
use rule_text::rule::bytes_in;
use rule_text::{Entry, Four};

// A fault, and the place of its item.
pub(crate) struct FaultAt {
    pub fault: Fault,
    pub at: usize,
}

// The four parts of the rule in front of the rest.
pub(crate) fn parts_in(rest: &[u8], four: Four) -> Parts<'_>
    requires { FourIn (length rest.now) four }
    ensures { rule_from result ≡ rule_in rest.now four }
{
    Parts {
        pattern: bytes_in(rest, four.pattern),
        start: bytes_in(rest, four.start),
        vowel: bytes_in(rest, four.vowel),
        other: bytes_in(rest, four.other),
        sep: BAR,
    }
}

// The rule in front of the rest, which begins at a place.
fn note_four(text: &[u8], notes: &mut Notes, at: usize, rest: &[u8], four: Four) -> Result<(), Flaw>
    requires { Held text.now at notes.old × (at < places) × FourIn (length rest.now) four }
    ensures { FourNoted text.now (rule_in rest.now four) at notes.old notes.new result }
{
    let parts = parts_in(rest, four);
    let hash = hash_of(parts.pattern);
    if is_known(text, notes, parts.pattern, hash) {
        return notes.note_double(parts);
    }
    notes.note_rule(at, parts, hash)
}

// The item at a place: the next place, or its fault.
fn enter(text: &[u8], notes: &mut Notes, at: usize) -> Result<usize, Fault>
    requires { SoFar text.now at notes.old × (at < length text.now) }
    ensures { TurnIs text.now at notes.old notes.new result }
{
    let rest = &text[at..];
    match item(rest) {
        Entry::Rule(four) => {
            note_four(text, notes, at, rest, four)?;
            Ok(at + four.next)
        }
        Entry::Folding { key, target, next } => {
            notes.note_folding(key, target)?;
            Ok(at + next)
        }
        Entry::LineEnd { next } | Entry::Comment { next } => Ok(at + next),
        Entry::Unknown => Err(Fault::NotRecognised),
    }
}

// All items of a text; then its rules are put in order.
pub(crate) fn survey(text: &[u8], notes: &mut Notes) -> Result<(), FaultAt>
    requires { (length text.now ≤ longest_text) × (notes.old.tally ≡ none_noted) }
    ensures { SurveyIs text.now notes.new (verdict blank (items text.now)) result }
{
    let mut at = 0;
    // Stays: an item tells where the next one begins, so there is no range to go over.
    while at < text.len() {
        at = enter(text, notes, at).map_err(|fault| FaultAt { fault, at })?;
    }
    notes.sort();
    Ok(())
}
