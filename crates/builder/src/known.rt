// Is a pattern one of those noted? 02, M-107: "A later rule with a pattern already seen [..]". Most that are new are told so by their hash; where one may be
// known, each noted rule with its hash is read again at its place.
ghost use Rattle.std.specs.Prelude.{◌≡◌, length, take};
ghost use Rattle.laws.specs.Lists.{some};
ghost use Rattle.plate.specs.Plate.{of_pattern};
ghost use Rattle.book.specs.Note.{place_in, rules_in, Sure};
ghost use Rattle.builder.specs.Survey.{view, Known};

use book::note::Notes;
use book::seen::may_hold;
use book::{HASHES, PLACES};
use rule_text::Entry;
use rule_text::item::item;
use rule_text::rule::bytes_in;

// Is it the pattern of the rule that a key stands for?
fn has_pattern(text: &[u8], key: u64, pattern: &[u8]) -> bool
    requires { Sure (view text.now) (length text.now) key }
    ensures { result ≡ of_pattern pattern.now (view text.now (place_in key)) }
{
    let at = (key / HASHES % PLACES) as usize;
    let rest = &text[at..];
    match item(rest) {
        Entry::Rule(four) => bytes_in(rest, four.pattern) == pattern,
        _ => false,
    }
}

// Is it the pattern of one of the rules noted? Which hashes were met tells most that are new.
pub(crate) fn is_known(text: &[u8], notes: &Notes, pattern: &[u8], hash: u64) -> bool
    requires { Known text.now (take notes.now.tally.rules notes.now.keys.now) notes.now.seen.now pattern.now hash }
    ensures { result ≡ some (of_pattern pattern.now) (rules_in (view text.now) (take notes.now.tally.rules notes.now.keys.now)) }
{
    if !may_hold(notes.seen, hash) {
        return false;
    }
    for key in &notes.keys[..notes.tally.rules] {
        if *key % HASHES == hash && has_pattern(text, *key, pattern) {
            return true;
        }
    }
    false
}
