// Rule text: the forms of an item on the rest of the text. Places are counted from the first byte of the rest. A form that fits answers the place behind it,
// and what it holds; one that does not answers none.
#![tactic(auto)]

mod scan; // scan.rt: the blanks in front of some bytes
pub mod lines; // lines.rt: form 3, the line end
pub mod rule; // rule.rt: form 1, the rule
pub mod folding; // folding.rt: form 2, the folding
pub mod comment; // comment.rt: form 4, the block comment
pub mod item; // item.rt: the first form that fits, and the line of a place

// Where bytes start and end.
#[derive(Clone, Copy, PartialEq, Eq)]
pub struct Span {
    pub start: usize,
    pub end: usize,
}

// A quoted part: its content, and the place behind the closing quote.
#[derive(Clone, Copy, PartialEq, Eq)]
pub struct Quoted {
    pub content: Span,
    pub next: usize,
}

// A character and the place behind it.
#[derive(Clone, Copy, PartialEq, Eq)]
pub struct Symbol {
    pub code: u32,
    pub next: usize,
}

// A rule's four parts, each one's content, and the place behind the line end.
#[derive(Clone, Copy, PartialEq, Eq)]
pub struct Four {
    pub pattern: Span,
    pub start: Span,
    pub vowel: Span,
    pub other: Span,
    pub next: usize,
}

// A folding: its key, its target, and the place behind the line end.
#[derive(Clone, Copy, PartialEq, Eq)]
pub struct Pair {
    pub key: u32,
    pub target: u32,
    pub next: usize,
}

// An item: the first form that fits.
#[derive(Clone, Copy, PartialEq, Eq)]
pub enum Entry {
    Rule(Four),
    Folding { key: u32, target: u32, next: usize },
    LineEnd { next: usize },
    Comment { next: usize },
    Unknown,
}
