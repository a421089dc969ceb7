// The items of a rule text, one after the other, and the lines of a text.
ghost use Rattle.std.specs.Prelude.{◌-◌, ◌<◌, ◌≤◌, length};
ghost use Rattle.std.specs.Iterator.{at_most};
ghost use Rattle.rule_text.specs.Answers.{Lies};

use rule_text::item::line_of;
use rule_text::rule::bytes_in;
use rule_text::{Entry, item};

// An item: a rule by its pattern, a folding by its characters, or something that names do not meet.
#[derive(Clone, Copy)]
pub(crate) enum Item<'a> {
    Rule(&'a [u8]),
    Folding { key: char, target: char },
    Other,
}

impl<'a> Item<'a> {
    // What is in front of a text.
    fn of(entry: Entry, rest: &'a [u8]) -> Item<'a>
        requires { Lies (length rest.now) entry }
    {
        match entry {
            Entry::Rule(four) => Item::Rule(bytes_in(rest, four.pattern)),
            Entry::Folding { key, target, .. } => {
                match (char::from_u32(key), char::from_u32(target)) {
                    (Some(key), Some(target)) => Item::Folding { key, target },
                    _ => Item::Other,
                }
            }
            _ => Item::Other,
        }
    }
}

// The items of a text from a place on, each with the place where it begins.
#[derive(Clone, Copy)]
pub(crate) struct Items<'a> {
    text: &'a [u8],
    at: usize,
}

impl<'a> Items<'a> {
    pub(crate) fn of(text: &'a [u8]) -> Items<'a> {
        Items { text, at: 0 }
    }
}

impl<'a> Iterator for Items<'a> {
    type Item = (usize, Item<'a>);

    ghost remaining = { λ s. at_most (length s.text.now - s.at) };

    // Inlined, since a pattern is sought among all items.
    #[inline(always)]
    fn next(&mut self) -> Option<(usize, Item<'a>)> {
        let at = self.at;
        if self.text.len() <= at {
            return None;
        }
        let rest = &self.text[at..];
        let entry = item::item(rest);
        self.at += width(entry, rest.len());
        Some((at, Item::of(entry, rest)))
    }
}

// How many bytes an item takes; one that is not recognised, all that are left.
fn width(entry: Entry, left: usize) -> usize
    requires { (0 < left) × Lies left entry }
    ensures { (0 < result) × (result ≤ left) }
{
    match entry {
        Entry::Rule(four) => four.next,
        Entry::Folding { next, .. } | Entry::LineEnd { next } | Entry::Comment { next } => next,
        Entry::Unknown => left,
    }
}

// The line of a place, as a number to write.
pub(crate) fn line_at(text: &[u8], at: usize) -> u64 {
    line_of(text, at) as u64
}

// The line of a number, without its newline.
pub(crate) fn line_of_number(text: &[u8], number: u64) -> &[u8] {
    let before = number.saturating_sub(1) as usize;
    text.split(|b| *b == b'\n').nth(before).unwrap_or_default()
}
