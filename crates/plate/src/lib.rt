// The plate: its bits, which bytes are one, reading a rule or a folding at a bit place. What build writes stands in specs/ here, the code that writes it in the crate builder.
#![tactic(auto)]

pub mod bits; // bits.rt: the number that bits at a place write
mod window; // window.rt: sixty-four bits at once
mod plain; // plain.rt: plain rules, by the shape of their bits
pub mod reader; // reader.rt: the bit reader
pub mod edition; // edition.rt: what a first byte tells, and what a number of rules asks for
pub mod pattern; // pattern.rt: a pattern's characters
pub mod note; // note.rt: what is noted of the rules of a plate while it is accepted
pub mod accept; // accept.rt: which bytes are a plate
pub mod held; // held.rt: digits, and the alternatives of a field
pub mod read; // read.rt: what an accepted plate says, part by part

use chars::LATIN;

// The most rules of any edition; and few rules, as most plates have: where one has no more, room for no more is cleared.
pub const MOST_RULES: usize = 1500;

pub const FEW_RULES: usize = 512;

// "pattern 1 to 16 bytes, 1 to 8 alternatives, 0 to 6 digits, [..] 128 foldings"
pub const MOST_BYTES: usize = 16;

pub const MOST_ALTERNATIVES: usize = 8;

pub const MOST_DIGITS: usize = 6;

pub const MOST_FOLDINGS: usize = 128;

// "21 bits key, 21 bits target": a folding. The foldings begin behind the head, whatever the edition.
pub const CHARACTER_BITS: usize = 21;

pub const FOLDING_BITS: usize = 2 * CHARACTER_BITS;

pub const FOLDINGS: usize = 32;

// The characters whose groups are noted: those of the first lowercase table. The group of any other is sought by halves.
pub const NOTED: usize = LATIN;

// A rule that is accepted: its first code point, its pattern's length in bytes, and the place behind it.
#[derive(Clone, Copy)]
pub struct Seen {
    pub code: u32,
    pub length: usize,
    pub next: usize,
}

// The rules of a character's group by their numbers: the first, and the one behind the last.
#[derive(Clone, Copy)]
pub struct Group {
    pub first: usize,
    pub behind: usize,
}

// A character of a pattern, and its width in bytes.
#[derive(Clone, Copy)]
pub struct Letter {
    pub code: u32,
    pub width: usize,
}

// How a pattern stands to the characters ahead: it begins them, and so many are its own; it does not; or there are not enough of them to tell.
#[derive(Clone, Copy)]
pub enum Beginning {
    Is(usize),
    Not,
    Unsaid,
}

// A rule's fields: "start", "before vowel", "default".
#[derive(Clone, Copy, PartialEq, Eq)]
pub enum FieldKind {
    Start,
    Vowel,
    Other,
}
