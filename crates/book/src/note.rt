// A rule noted behind those noted before it, a folding among them in the plate's order, and the bits of the rules added up, so that nothing can refuse any more when the
// plate is written; or what is wrong with it, and nothing changes.
ghost use Rattle.std.specs.Prelude.{◌≡◌, ◌++◌, ◌≤◌, ◌<◌, OnErr, length, take, drop};
ghost use Rattle.laws.specs.Lists.{split_at};
ghost use Rattle.laws.specs.Sort.{sorted};
ghost use Rattle.chars.specs.Utf8.{char_of, code_of};
ghost use Rattle.plate.specs.Plate.{most_bytes, most_foldings};
ghost use Rattle.plate.specs.Most.{most_rules};
ghost use Rattle.book.specs.Seen.{hashes, slots, hash_of};
ghost use Rattle.book.specs.Sort.{PairsHeld, all_small_prop};
ghost use Rattle.std.proofs.Props.{props};
ghost use Rattle.book.specs.Note.{places, key, rule_from, FieldIs, RuleIs, KeysHeld, Notable, none_noted, DoubleNoted, RuleNoted, FoldingNoted};

use super::field::parse_branch;
use super::seen::mark;
use super::sort::{put_folding, sort_keys};
use super::{Flaw, HASHES, LENGTHS, LONGEST_PATTERN, PLACES, Parts, Tally};
use chars::Char;
use chars::utf8::char_at;
use plate::MOST_RULES;

// The bits of a field, or its first fault: 4 bits, 3 an alternative, 4 a digit.
fn measure_field(field: &[u8], sep: u8) -> Result<usize, Flaw>
    ensures { FieldIs (split_at sep field.now) result }
{
    let n = parse_branch(field, sep)?;
    Ok(4 + 3 * n + 4 * (field.len() + 1 - n))
}

// The bits of a rule behind so many others, or its first fault. 01: "4, 5, then the three fields left to right (6 before 7 in each field), then 8."
fn measure_rule(parts: Parts, rules: usize) -> Result<usize, Flaw>
    ensures { RuleIs (rule_from parts.entry) rules result }
{
    if parts.pattern.is_empty() {
        return Err(Flaw::EmptyPattern);
    }
    if LONGEST_PATTERN < parts.pattern.len() {
        return Err(Flaw::LongPattern);
    }
    let start = measure_field(parts.start, parts.sep)?;
    let vowel = measure_field(parts.vowel, parts.sep)?;
    let other = measure_field(parts.other, parts.sep)?;
    if MOST_RULES <= rules {
        return Err(Flaw::TooMany);
    }
    Ok(5 + 8 * parts.pattern.len() + start + vowel + other)
}

// The first code point of a pattern, 0 where there is none.
// Stays: a key has a number there in any case, and 0 is what a pattern that begins with no character is ordered by.
fn first_code(pattern: &[u8]) -> u32
    ensures { (result ≡ code_of (char_of pattern.now)) × (result < 0x110000) }
{
    match char_at(pattern, 0) {
        Char::One(c, w) => c,
        Char::Bad => 0,
        Char::End => 0,
    }
}

// A rule as one number, so that keys stand as 01 orders rules: "by first code point rising, then byte length falling, then text order". The hash of its pattern
// stands behind the place, where it orders nothing.
// Stays: memory is fixed: as one number 1,500 keys take 12,000 bytes of the stack, as a struct of code, length, place and hash 18,000.
fn key_of(pattern: &[u8], at: usize, hash: u64) -> u64
    requires { (length pattern.now ≤ most_bytes) × (at < places) × (hash < hashes) }
    ensures { result ≡ key (code_of (char_of pattern.now)) (length pattern.now) at hash }
{
    let code = u64::from(first_code(pattern));
    let ordered = (code * LENGTHS + (LONGEST_PATTERN - pattern.len()) as u64) * PLACES + at as u64;
    ordered * HASHES + hash
}

// A rule whose pattern a rule before it has. 02, M-107: "The limit of refusal 8 still counts it, and its fields are still checked".
pub fn note_double(tally: Tally, parts: Parts) -> Result<Tally, Flaw>
    ensures { DoubleNoted (rule_from parts.entry) tally result }
{
    measure_rule(parts, tally.read)?;
    Ok(Tally {
        read: tally.read + 1,
        ..tally
    })
}

// A rule at a place of the driver's. No rule before it has its pattern, whose hash is told.
pub fn note_rule(
    keys: &mut [u64],
    seen: &mut [u8],
    tally: Tally,
    at: usize,
    parts: Parts,
    hash: u64,
) -> Result<Tally, Flaw>
    requires { Notable tally keys.old seen.old parts.pattern.now at hash }
    ensures { RuleNoted (rule_from parts.entry) at tally keys.old seen.old keys.new seen.new result }
{
    let bits = measure_rule(parts, tally.read)?;
    keys[tally.rules] = key_of(parts.pattern, at, hash);
    mark(seen, hash);
    Ok(Tally {
        read: tally.read + 1,
        rules: tally.rules + 1,
        bits: tally.bits + bits,
        ..tally
    })
}

// A folding. 01: "A later folding of a key replaces the earlier."
pub fn note_folding(
    foldings: &mut [u64],
    tally: Tally,
    key: u32,
    target: u32,
) -> Result<Tally, Flaw>
    requires { PairsHeld tally.foldings foldings.old × (key < 0x110000) × (target < 0x110000) }
    ensures { FoldingNoted key target tally foldings.old foldings.new result }
{
    let put = put_folding(foldings, tally.foldings, u64::from(key), u64::from(target));
    let n = put.ok_or(Flaw::TooMany)?;
    Ok(Tally {
        foldings: n,
        ..tally
    })
}

// What is noted, in memory that the driver lends: rules and foldings as numbers, and which hashes of patterns were met.
// Stays: there is no heap, so the arrays are lent whole, and the tally says how much of each is used.
#[derive(Drop)]
pub struct Notes<'a> {
    pub tally: Tally,
    pub keys: &'a mut [u64],
    pub seen: &'a mut [u8],
    pub foldings: &'a mut [u64],
    pub ghost rules: { KeysHeld tally keys.now },
    pub ghost slotted: { length seen.now ≡ slots },
    pub ghost pairs: { PairsHeld tally.foldings foldings.now } by { Prim.hlevel (props, all_small_prop) },
}

impl<'a> Notes<'a> {
    ghost use Rattle.book.specs.Notes.{tallied, SameRules, SameFoldings};

    // The arrays that are lent, and nothing is noted yet.
    pub fn new(keys: &'a mut [u64], seen: &'a mut [u8], foldings: &'a mut [u64]) -> Notes<'a>
        requires { (length keys.old ≡ most_rules) × (length seen.old ≡ slots) × (length foldings.old ≡ most_foldings) }
        ensures begins { result.tally ≡ none_noted }
        ensures lent { (result.keys.now ≡ keys.old) × (result.seen.now ≡ seen.old) × (result.foldings.now ≡ foldings.old) }
        ensures same { (result.keys.ghost_name ≡ keys.entry.ghost_name) × (result.seen.ghost_name ≡ seen.entry.ghost_name) × (result.foldings.ghost_name ≡ foldings.entry.ghost_name) }
    {
        let tally = Tally {
            read: 0,
            rules: 0,
            foldings: 0,
            bits: 0,
        };
        Notes {
            tally,
            keys,
            seen,
            foldings,
        }
    }

    // A rule whose pattern a rule before it has.
    pub fn note_double(&mut self, parts: Parts) -> Result<(), Flaw>
        ensures noted { DoubleNoted (rule_from parts.entry) self.old.tally (tallied result self.new.tally) }
        ensures others { SameRules self.old self.new × SameFoldings self.old self.new }
        ensures refused { OnErr result (self.new.tally ≡ self.old.tally) }
    {
        self.tally = note_double(self.tally, parts)?;
        Ok(())
    }

    // A rule at a place of the driver's. No rule before it has its pattern, whose hash is told.
    pub fn note_rule(&mut self, at: usize, parts: Parts, hash: u64) -> Result<(), Flaw>
        requires { (at < places) × (hash ≡ hash_of parts.pattern.now) }
        ensures noted { RuleNoted (rule_from parts.entry) at self.old.tally self.old.keys.now self.old.seen.now self.new.keys.now self.new.seen.now (tallied result self.new.tally) }
        ensures others { SameFoldings self.old self.new }
        ensures refused { OnErr result (self.new.tally ≡ self.old.tally) }
    {
        let keys = &mut *self.keys;
        let seen = &mut *self.seen;
        self.tally = note_rule(keys, seen, self.tally, at, parts, hash)?;
        Ok(())
    }

    // A folding.
    pub fn note_folding(&mut self, key: u32, target: u32) -> Result<(), Flaw>
        requires { (key < 0x110000) × (target < 0x110000) }
        ensures noted { FoldingNoted key target self.old.tally self.old.foldings.now self.new.foldings.now (tallied result self.new.tally) }
        ensures others { SameRules self.old self.new }
        ensures refused { OnErr result (self.new.tally ≡ self.old.tally) }
    {
        let foldings = &mut *self.foldings;
        self.tally = note_folding(foldings, self.tally, key, target)?;
        Ok(())
    }

    // The rules in the plate's order, when all are noted.
    pub fn sort(&mut self)
        ensures sorted { self.new.keys.now ≡ sorted (take self.old.tally.rules self.old.keys.now) ++ drop self.old.tally.rules self.old.keys.now }
        ensures others { (self.new.tally ≡ self.old.tally) × (self.new.seen.now ≡ self.old.seen.now) × SameFoldings self.old self.new }
    {
        let keys = &mut *self.keys;
        sort_keys(keys, self.tally.rules);
    }
}
