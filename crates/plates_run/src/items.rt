// The items of a text and the alternatives of a field. Of an item it is written where it begins, how many bytes it takes, and what it is; the places of a rule's
// four parts are counted from the item's first byte.
ghost use Rattle.std.specs.Prelude.{◌-◌, ◌≤◌, length};
ghost use Rattle.std.specs.Iterator.{at_most};

use book::field::parse_branch;
use rule_text::item::item;
use rule_text::{Entry, Span};
use std::{fmt, io};

// Newline, CR and tab by name, every other byte as it is.
fn show_text(rt: &impl Print, text: &[u8]) -> io::Result<()> {
    for byte in text {
        match *byte {
            b'\n' => print!(rt; "<LF>")?,
            b'\r' => print!(rt; "<CR>")?,
            b'\t' => print!(rt; "<TAB>")?,
            other => rt.write_all(&[other])?,
        }
    }
    println!(rt)
}

#[derive(Clone, Copy)]
struct Part(Span);

impl fmt::Display for Part {
    fn fmt<W: fmt::Write>(&self, f: &mut fmt::Formatter<W>) -> fmt::Result {
        write!(f, " {}..{}", self.0.start, self.0.end)
    }
}

// An item, and where it begins.
#[derive(Clone, Copy)]
struct Item {
    at: usize,
    entry: Entry,
}

impl fmt::Display for Item {
    fn fmt<W: fmt::Write>(&self, f: &mut fmt::Formatter<W>) -> fmt::Result {
        write!(f, "  at {}", self.at)?;
        match self.entry {
            Entry::Rule(four) => {
                write!(f, " takes {}: rule", four.next)?;
                write!(f, "{}{}", Part(four.pattern), Part(four.start))?;
                write!(f, "{}{}", Part(four.vowel), Part(four.other))
            }
            Entry::Folding { key, target, next } => {
                write!(f, " takes {next}: folding U+{key:04x} to U+{target:04x}")
            }
            Entry::LineEnd { next } => write!(f, " takes {next}: line end"),
            Entry::Comment { next } => write!(f, " takes {next}: block comment"),
            Entry::Unknown => write!(f, ": not recognised"),
        }
    }
}

// The items of a text, the last of them the first that is not recognised.
#[derive(Drop)]
struct Items<'a> {
    text: &'a [u8],
    at: usize,
    ghost in_text: { at ≤ length text.now },
}

impl Iterator for Items<'_> {
    type Item = Item;

    ghost remaining = { λ s. at_most (length s.text.now - s.at) };

    fn next(&mut self) -> Option<Item> {
        let at = self.at;
        let rest = &self.text[at..];
        if rest.is_empty() {
            return None;
        }
        let entry = item(rest);
        self.at += match entry {
            Entry::Rule(four) => four.next,
            Entry::Folding { next, .. } | Entry::LineEnd { next } | Entry::Comment { next } => next,
            Entry::Unknown => rest.len(),
        };
        Some(Item { at, entry })
    }
}

pub(crate) fn show(rt: &impl Print, text: &[u8]) -> io::Result<()> {
    show_text(rt, text)?;
    for item in (Items { text, at: 0 }) {
        println!(rt; "{item}")?;
    }
    Ok(())
}

pub(crate) fn show_field(rt: &impl Print, field: &[u8]) -> io::Result<()> {
    print!(rt; "field ")?;
    show_text(rt, field)?;
    match parse_branch(field, b'|') {
        Ok(n) => println!(rt; "  alternatives {n}"),
        Err(flaw) => println!(rt; "  refusal {}", flaw.number()),
    }
}
