// What an accepted plate says, part by part: the flag, the foldings, a rule at its place, its pattern's characters, its fields.
ghost use Rattle.std.specs.Prelude.{◌≡◌, ℕ, ◌+◌, ◌<◌, ◌≤◌, true, List, length, take};
ghost use Rattle.plate.specs.Plate.{most_bytes};
ghost use Rattle.plate.specs.Most.{rule_most, farthest};
ghost use Rattle.plate.specs.Read.{field_end, pattern_at, rule_at, fold_by, rules_place, folding_count, count_width, accepted, plate_in};
ghost use Rattle.plate.specs.Window.{Holds};
ghost use Rattle.plate.specs.Stands.{Here, Stands, Mark, LetterIs, field_of, field_place, first_key, beginning};

use super::bits::{bits, size};
use super::edition::width_of;
use super::held::{Field, alternatives_at};
use super::window::{window, window_in};
use super::{Beginning, CHARACTER_BITS, FOLDING_BITS, FOLDINGS, FieldKind, Letter, pattern};

// The places in the head, but for the width of the rule count: 8 bits edition, the rule count, 8 bits folding count, the folding flag.
const RULE_COUNT: usize = 8;

const FOLDING_COUNT: usize = RULE_COUNT;

const FLAG: usize = FOLDING_COUNT + 8;

// The folding flag.
pub fn flag(plate: &[u8]) -> bool
    ensures { result ≡ (plate_in plate.now).flag }
{
    bits(plate, FLAG + width_of(plate), 1) == 1
}

// How many foldings there are.
fn folding_count(plate: &[u8]) -> usize
    ensures { (result ≡ folding_count (count_width plate.now) plate.now) × (result < 256) }
{
    size(plate, FOLDING_COUNT + width_of(plate), 8)
}

// The first key; past all characters where there is no folding. No character below it is folded.
// Stays: a bound and no flag, so that one comparison tells, with foldings and without.
pub fn first_key(plate: &[u8]) -> u32
    ensures { result ≡ first_key (plate_in plate.now).foldings }
{
    if folding_count(plate) == 0 {
        0x110000
    } else {
        bits(plate, FOLDINGS, CHARACTER_BITS)
    }
}

// What a character is folded to. Keys rise: below the first there is none, and any other is sought by halves.
// Stays: foldings are bits in the bytes lent, and no slice, so there is nothing that partition_point could be called on.
pub fn fold(plate: &[u8], c: u32) -> u32
    requires { accepted plate.now ≡ true }
    ensures { result ≡ fold_by (plate_in plate.now).foldings c }
{
    let mut at: usize = FOLDINGS;
    let mut left = folding_count(plate);
    if left == 0 || c < bits(plate, at, CHARACTER_BITS) {
        return c;
    }
    while 1 < left {
        let half = left / 2;
        let middle = at + FOLDING_BITS * half;
        if c < bits(plate, middle, CHARACTER_BITS) {
            left = half;
        } else {
            at = middle;
            left -= half;
        }
    }
    if bits(plate, at, CHARACTER_BITS) == c {
        bits(plate, at + CHARACTER_BITS, CHARACTER_BITS)
    } else {
        c
    }
}

// How many rules there are; they stand one behind the other from the first place on.
pub fn rule_count(plate: &[u8]) -> usize
    requires { accepted plate.now ≡ true }
    ensures { (result ≡ length (plate_in plate.now).rules) × Stands plate.now result (rules_place (count_width plate.now) plate.now) }
{
    size(plate, RULE_COUNT, width_of(plate))
}

// The place behind the field at a place. Its count and the digit count of its first alternative are read at once, and most fields have no other.
fn field_end(plate: &[u8], at: usize) -> usize
    requires { at ≤ farthest 1 }
    ensures { result ≡ field_end plate.now at }
{
    let front = size(plate, at, 7);
    if front / 8 == 1 {
        return at + 7 + 4 * (front % 8);
    }
    let mut place = at + 4;
    for _ in 0..front / 8 {
        place += 3 + 4 * size(plate, place, 3);
    }
    place
}

// Whether the pattern in front of a window begins the characters ahead.
fn begins_in(w: u64, word: u64, plain: usize) -> Beginning
    requires { (plain ≤ 6) × (0x0800000000000000 ≤ w) }
    ensures { (s : List ℕ) (at : ℕ) → Holds s at 57 w → result ≡ beginning (pattern_at s at) word plain }
{
    let n = (w >> 59) as usize;
    if plain < n {
        return Beginning::Unsaid;
    }
    let off = 64 - 8 * n;
    if (w << 5) >> off == word >> off {
        return Beginning::Is(n);
    }
    Beginning::Not
}

// A rule of an accepted plate, by the place where it stands.
#[derive(Clone, Copy)]
pub struct RuleAt<'a> {
    pub bytes: &'a [u8],
    pub at: usize,
    pub ghost stands: { Here bytes.now at },
}

impl<'a> RuleAt<'a> {
    // The place of a field.
    fn field_place(&self, which: FieldKind) -> usize
        ensures { (result ≡ field_place self.now.bytes.now self.now.at which) × (result ≤ self.now.at + rule_most) }
    {
        let start = self.at + 5 + 8 * size(self.bytes, self.at, 5);
        match which {
            FieldKind::Start => start,
            FieldKind::Vowel => field_end(self.bytes, start),
            FieldKind::Other => field_end(self.bytes, field_end(self.bytes, start)),
        }
    }

    // The pattern's length in bytes.
    pub fn pattern_length(&self) -> usize
        ensures { (result ≡ length (pattern_at self.now.bytes.now self.now.at)) × (0 < result) × (result ≤ most_bytes) }
    {
        size(self.bytes, self.at, 5)
    }

    // Whether the pattern begins the characters ahead, of which the first `plain` stand as bytes in front of a word: by one comparison, where it has no more.
    // Away from the plate's end no byte is looked for.
    pub fn pattern_begins(&self, word: u64, plain: usize) -> Beginning
        requires { plain ≤ 6 }
        ensures { result ≡ beginning (pattern_at self.now.bytes.now self.now.at) word plain }
    {
        if self.at / 8 + 8 <= self.bytes.len() {
            return begins_in(window_in(self.bytes, self.at), word, plain);
        }
        begins_in(window(self.bytes, self.at), word, plain)
    }

    // The character of the pattern that begins at its byte k; ASCII by one read.
    pub fn pattern_char(&self, k: usize) -> Letter
        requires { Mark self.now.bytes.now self.now.at k × (k < length (pattern_at self.now.bytes.now self.now.at)) }
        ensures { LetterIs self.now.bytes.now self.now.at k result }
    {
        let place = self.at + 5 + 8 * k;
        let first = bits(self.bytes, place, 8);
        if first <= 0x7F {
            return Letter {
                code: first,
                width: 1,
            };
        }
        let left = size(self.bytes, self.at, 5) - k;
        pattern::wide_front(self.bytes, place, left).unwrap()
    }

    // The first `most` alternatives of a field.
    pub fn field(&self, which: FieldKind, most: usize) -> Field
        ensures { result ≡ take most (field_of (rule_at self.now.bytes.now self.now.at) which) }
    {
        alternatives_at(self.bytes, self.field_place(which), most)
    }
}
