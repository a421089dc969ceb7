// What is told of a rule text that build accepts: the rules and foldings that no name ever meets, in the text's order, and how many there are of each.
// A name is lowered and folded before rules are sought, so a pattern is met only if each of its characters can come out of that.
use super::folds::{Folds, is_held, reason};
use super::text::{Item, Items, line_at};
use files::path::FilePath;
use front::out::Out;
use front::show::{Piece, Text};
use std::fmt;
use std::fmt::{Display, Formatter, Write};

// Why a rule or a folding is never met: the same pattern stands in front, or the same key behind, and that one is taken; or a character comes out of no name.
#[derive(Clone, Copy)]
enum Unmet<'a> {
    PatternTaken { pattern: Text<'a>, line: u64 },
    PatternLost { pattern: Text<'a>, c: char },
    FoldingTaken { key: char, line: u64 },
    FoldingLost { key: char },
}

impl Display for Unmet<'_> {
    fn fmt<W: Write>(&self, f: &mut Formatter<W>) -> fmt::Result {
        match *self {
            Unmet::PatternTaken { pattern, line } => write!(
                f,
                "the pattern {pattern} stands at line {line}, and that one is taken"
            ),
            Unmet::PatternLost { pattern, c } => write!(
                f,
                "the pattern {pattern} holds {}, {}",
                Piece::Char(c),
                reason(c)
            ),
            Unmet::FoldingTaken { key, line } => write!(
                f,
                "the folding of {} stands at line {line}, and that one is taken",
                Piece::Char(key)
            ),
            Unmet::FoldingLost { key } => {
                write!(f, "the folding of {}, {}", Piece::Char(key), reason(key))
            }
        }
    }
}

// How many there are.
#[derive(Clone, Copy, Default)]
struct Tally {
    rules: u64,
    foldings: u64,
    unmet: u64,
}

impl Tally {
    fn count(&mut self, item: Item<'_>) {
        match item {
            Item::Rule(_) => self.rules = self.rules.wrapping_add(1),
            Item::Folding { .. } => self.foldings = self.foldings.wrapping_add(1),
            Item::Other => {}
        }
    }
}

// A text with its foldings.
#[derive(Drop)]
struct Review<'a> {
    text: &'a [u8],
    folds: Folds,
}

impl<'a> Review<'a> {
    // Where a pattern stands first.
    fn first_place(&self, pattern: &[u8]) -> Option<usize> {
        Items::of(self.text)
            .find(|(_, item)| matches!(item, Item::Rule(one) if *one == pattern))
            .map(|(at, _)| at)
    }

    // The first character of a pattern that is never met.
    fn lost_char(&self, pattern: &[u8]) -> Option<char> {
        str::from_utf8(pattern)
            .ok()?
            .chars()
            .find(|c| !self.folds.is_met(*c))
    }

    fn rule_fault(&self, at: usize, pattern: &'a [u8]) -> Option<Unmet<'a>> {
        let first = self.first_place(pattern).filter(|first| *first < at);
        if let Some(first) = first {
            let line = line_at(self.text, first);
            let pattern = Text(pattern);
            return Some(Unmet::PatternTaken { pattern, line });
        }
        let c = self.lost_char(pattern)?;
        let pattern = Text(pattern);
        Some(Unmet::PatternLost { pattern, c })
    }

    fn folding_fault(&self, at: usize, key: char) -> Option<Unmet<'a>> {
        let last = self.folds.find(key).filter(|last| at < last.at);
        if let Some(last) = last {
            let line = line_at(self.text, last.at);
            return Some(Unmet::FoldingTaken { key, line });
        }
        if is_held(key) {
            return None;
        }
        Some(Unmet::FoldingLost { key })
    }

    fn fault(&self, at: usize, item: Item<'a>) -> Option<Unmet<'a>> {
        match item {
            Item::Rule(pattern) => self.rule_fault(at, pattern),
            Item::Folding { key, .. } => self.folding_fault(at, key),
            Item::Other => None,
        }
    }
}

// Tells of a text that makes a plate of so many bytes. Without folding no folding is ever used, and none hides another.
pub fn review_text(
    out: &mut Out<'_>,
    path: FilePath<'_>,
    text: &[u8],
    folding: bool,
    bytes: usize,
) {
    let folds = if folding {
        Folds::of(text)
    } else {
        Folds::none()
    };
    let review = Review { text, folds };
    let mut tally = Tally::default();
    for (at, item) in Items::of(text) {
        tally.count(item);
        if let Some(why) = review.fault(at, item) {
            let line = line_at(text, at);
            out.say(format_args!("{path}:{line}: never met: {why}\n"));
            tally.unmet = tally.unmet.wrapping_add(1);
        }
    }
    let Tally {
        rules,
        foldings,
        unmet,
    } = tally;
    out.say(format_args!(
        "{path}: {rules} rules, {foldings} foldings, {bytes} bytes as a plate, {unmet} never met\n"
    ));
}
