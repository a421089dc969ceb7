// Characters: UTF-8, White_Space, vowels, lowercase; and bytes counted.
#![tactic(auto)]

pub mod utf8; // utf8.rt: the character at a place; whole texts
pub mod letters; // letters.rt: White_Space, what a name may hold, vowels
pub mod lower; // lower.rt: lowercase, by two tables
pub mod scan; // scan.rt: bytes counted

// The characters of the lowercase tables: U+0000 to U+017F, and U+0400 to U+045F.
pub const LATIN: usize = 0x180;

const CYRILLIC: usize = 96;

const CYRILLIC_FIRST: u32 = 0x400;

const CYRILLIC_LAST: u32 = 0x45F;

// What stands in front of some bytes: a character with its width in bytes, a sequence that is not UTF-8, or nothing.
#[derive(Clone, Copy, PartialEq, Eq)]
pub enum Char {
    One(u32, usize),
    Bad,
    End,
}

// The place of the first sequence that is not UTF-8.
#[derive(Clone, Copy, PartialEq, Eq)]
pub struct NotUtf8 {
    pub at: usize,
}
