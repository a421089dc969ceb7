// The second pass: what is noted, written as a plate. Each rule is read again at its place in the text.
ghost use Rattle.std.specs.Prelude.{◌+◌, ◌*◌, ◌≤◌, length};
ghost use Rattle.plate.specs.Written.{rule_bits};
ghost use Rattle.book.specs.Note.{place_in, Sure, Kept, InOrder, book_of};
ghost use Rattle.book.specs.Pen.{Ready, Wrote, Stored};
ghost use Rattle.book.specs.Writing.{bytes_of};
ghost use Rattle.builder.specs.Survey.{view};

use super::survey::parts_in;
use book::note::Notes;
use book::pen::Sheet;
use book::{HASHES, PLACES};
use rule_text::Entry;
use rule_text::item::item;

// The rule that a key stands for, read again at its place.
fn put_rule(sheet: &mut Sheet, text: &[u8], key: u64)
    requires { Sure (view text.now) (length text.now) key × Ready sheet.old (rule_bits (view text.now (place_in key))) }
    ensures { Wrote sheet.old (rule_bits (view text.now (place_in key))) sheet.new }
{
    let at = (key / HASHES % PLACES) as usize;
    let rest = &text[at..];
    if let Entry::Rule(four) = item(rest) {
        sheet.put_rule(parts_in(rest, four));
    }
}

// The plate of a text whose items are surveyed: how many bytes it takes.
pub(crate) fn write_plate(out: &mut [u8], text: &[u8], notes: &Notes, flag: bool) -> usize
    requires kept { Kept (view text.now) (length text.now) notes.now.tally notes.now.keys.now notes.now.foldings.now }
    requires ordered { InOrder notes.now.tally notes.now.keys.now }
    requires room { 32 + 42 * notes.now.tally.foldings + notes.now.tally.bits ≤ 8 * length out.old }
    ensures { Stored out.old (bytes_of flag (book_of (view text.now) notes.now.tally notes.now.keys.now notes.now.foldings.now)) out.new result }
{
    let tally = notes.tally;
    let mut sheet = Sheet::new(out);
    sheet.put_head(tally.rules, tally.foldings, flag);
    sheet.put_foldings(&notes.foldings[..tally.foldings]);
    for key in &notes.keys[..tally.rules] {
        put_rule(&mut sheet, text, *key);
    }
    sheet.finish()
}
