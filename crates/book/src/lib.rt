// The book: rules and foldings noted in the plate's order, and their plate written. It takes spans of any text and knows no form of text: a driver finds the
// spans, says which byte splits a field, and gives each rule a place by which it finds it again.
#![tactic(auto)]

ghost use Rattle.std.specs.Prelude.{◌≡◌};
ghost use Rattle.book.specs.Field.{flaw_number};

pub mod sort; // sort.rt: rules and foldings in the plate's order
pub mod field; // field.rt: the alternatives of a field
pub mod note; // note.rt: a rule or a folding noted, or what is wrong with it
pub mod seen; // seen.rt: which patterns may be among those noted
pub mod pen; // pen.rt: bits written one behind the other
pub mod write; // write.rt: what is noted, as a plate's bits

// A rule's place is below this.
pub const PLACES: u64 = 65536;

// A pattern's hash, in 22 bits, is below this.
pub const HASHES: u64 = 4194304;

// How many slots tell which hashes were met.
pub const SLOTS: usize = 4096;

// A pattern's length, in 5 bits, is below this.
const LENGTHS: u64 = 32;

// A folding's target, in 21 bits, is below this.
const TARGETS: u64 = 2097152;

const LONGEST_PATTERN: usize = 16;

const MOST_ALTERNATIVES: usize = 8;

const MOST_DIGITS: usize = 6;

// A rule as its driver found it: the pattern, the three fields, and the byte that splits these.
#[derive(Clone, Copy)]
pub struct Parts<'a> {
    pub pattern: &'a [u8],
    pub start: &'a [u8],
    pub vowel: &'a [u8],
    pub other: &'a [u8],
    pub sep: u8,
}

// What is wrong with a rule, or with one rule or folding more: 01's refusals 4 to 8.
#[derive(Clone, Copy, PartialEq, Eq)]
pub enum Flaw {
    EmptyPattern,
    LongPattern,
    ManyAlternatives,
    NotDigits,
    TooMany,
}

impl Flaw {
    // 01's number of it.
    pub fn number(self) -> u64
        ensures { result ≡ flaw_number self }
    {
        match self {
            Flaw::EmptyPattern => 4,
            Flaw::LongPattern => 5,
            Flaw::ManyAlternatives => 6,
            Flaw::NotDigits => 7,
            Flaw::TooMany => 8,
        }
    }
}

// What is noted: how many rules were read, how many of them and of foldings are kept, and the bits of the rules kept.
#[derive(Clone, Copy, PartialEq, Eq)]
pub struct Tally {
    pub read: usize,
    pub rules: usize,
    pub foldings: usize,
    pub bits: usize,
}
