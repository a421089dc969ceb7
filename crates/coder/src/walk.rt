// From the characters of a name to the uses of rules: at each character the rule taken, and its field.
ghost use Rattle.std.specs.Prelude.{◌≡◌, false, ◌-◌, ◌*◌, ◌^◌, ◌<◌, ◌≤◌, length, drop, get_or};
ghost use Rattle.plate.specs.Read.{plate_in};
ghost use Rattle.coder.specs.Walk.{vowel_follows, forced};
ghost use Rattle.coder.specs.Held.{AheadIs, BegunIs, hit_at, FoundIs, before_of, field_kind, NextIs};

use chars::letters::is_vowel;
use plate::note::NotedPlate;
use plate::read::RuleAt;
use plate::{Beginning, FieldKind};

// The first characters ahead, up to six, as bytes in front of a word: those that are ASCII, up to the first that is not; zeros behind the end.
#[derive(Clone, Copy)]
struct Ahead {
    word: u64,
    plain: usize,
}

// What the search finds: the rule that it takes, and its pattern's length in characters; or none, where the character has a group or has none.
#[derive(Clone, Copy)]
enum Found<'a> {
    Rule(RuleAt<'a>, usize),
    NoMatch,
    NoGroup,
}

// A use of a rule along a name: the rule, which of its fields is taken, and whether its alternatives are appended anyway.
#[derive(Clone, Copy)]
pub(crate) struct Use<'a> {
    pub rule: RuleAt<'a>,
    pub kind: FieldKind,
    pub anyway: bool,
}

// A walk along the characters of a name: where it has come to, and the character before, if one with a group came before.
#[derive(Clone, Copy)]
pub(crate) struct Walk<'a> {
    pub plate: NotedPlate<'a>,
    pub name: &'a [u32],
    pub before: Option<u32>,
    pub at: usize,
}

// One of some characters; 0 behind the last.
// Stays: a word has zeros behind the end, so that what is not there is 0 and no none.
fn char_ahead(rest: &[u32], i: usize) -> u32
    ensures { result ≡ get_or rest.now i 0 }
{
    rest.get(i).copied().unwrap_or(0)
}

// So many bytes, shifted to the front of the word.
fn in_front(bytes: u64, plain: usize) -> Ahead
    requires { (plain ≤ 6) × (bytes < 2 ^ (8 * plain)) }
    ensures { result ≡ record { word = bytes * 2 ^ (64 - 8 * plain); plain = plain } }
{
    if plain == 0 {
        return Ahead { word: 0, plain };
    }
    let word = bytes << (64 - 8 * plain);
    Ahead { word, plain }
}

// The characters ahead as a word: with it a pattern of so many ASCII characters is compared at once.
fn ahead_of(rest: &[u32]) -> Ahead
    ensures { AheadIs rest.now result }
{
    let mut bytes = 0;
    for i in 0..6 {
        let c = char_ahead(rest, i);
        if 0x80 <= c {
            return in_front(bytes, i);
        }
        bytes = bytes * 256 + u64::from(c);
    }
    in_front(bytes, 6)
}

// How many characters a rule's pattern has, if it begins some characters: one by one.
// Stays: a character's width is the step, so that no range or iterator counts it.
fn letters_begin(rule: &RuleAt, rest: &[u32]) -> Option<usize>
    ensures { BegunIs rule.now.bytes.now rule.now.at rest.now result }
{
    let n = rule.pattern_length();
    let mut k = 0;
    let mut count = 0;
    while k < n {
        let letter = rule.pattern_char(k);
        if *rest.get(count)? != letter.code {
            return None;
        }
        k += letter.width;
        count += 1;
    }
    Some(count)
}

// The same, where the characters ahead stand as a word: most patterns are decided by one comparison.
fn begun_by(rule: &RuleAt, ahead: Ahead, rest: &[u32]) -> Option<usize>
    requires { AheadIs rest.now ahead }
    ensures { BegunIs rule.now.bytes.now rule.now.at rest.now result }
{
    match rule.pattern_begins(ahead.word, ahead.plain) {
        Beginning::Is(n) => Some(n),
        Beginning::Not => None,
        Beginning::Unsaid => letters_begin(rule, rest),
    }
}

// "Otherwise take the longest pattern that begins here; of equal patterns the first. The search stops at that rule." Only the rules of the character's
// group are looked at, most of them by one comparison. Within a first character patterns stand longest first, so the first that fits is taken.
fn search<'a>(plate: &NotedPlate<'a>, rest: &[u32]) -> Found<'a>
    requires { 0 < length rest.now }
    ensures { FoundIs (hit_at false (plate_in plate.now.bytes.now).rules rest.now) result }
{
    let group = plate.group_of(rest[0]);
    if group.behind <= group.first {
        return Found::NoGroup;
    }
    let ahead = ahead_of(rest);
    for i in group.first..group.behind {
        let rule = plate.rule(i);
        if let Some(n) = begun_by(&rule, ahead, rest) {
            return Found::Rule(rule, n);
        }
    }
    Found::NoMatch
}

// "a, e, i, o or u follows": at a place of the name, or nothing does.
fn vowel_at(name: &[u32], at: usize) -> bool
    ensures { result ≡ vowel_follows (drop at name.now) }
{
    is_vowel(name.get(at).copied())
}

// "Field: start, if no character with a group came before; else before vowel, if a, e, i, o or u follows the pattern; else default."
fn field_kind(before: Option<u32>, vowel: bool) -> FieldKind
    ensures { result ≡ field_kind before vowel }
{
    match before {
        None => FieldKind::Start,
        Some(_) if vowel => FieldKind::Vowel,
        Some(_) => FieldKind::Other,
    }
}

// "between the group characters `m` then `n`, or `n` then `m`"
fn is_forced(before: Option<u32>, c: u32) -> bool
    ensures { result ≡ forced (before_of before) c }
{
    match before {
        Some(0x6D) => c == 0x6E,
        Some(0x6E) => c == 0x6D,
        _ => false,
    }
}

impl<'a> Walk<'a> {
    // The next use along the name: "No group: go on, nothing changes. [..] If the group has no match, one character passes."
    pub(crate) fn next(&mut self) -> Option<Use<'a>>
        ensures { NextIs self.old self.new result }
    {
        while self.at < self.name.len() {
            let c = self.name[self.at];
            match search(&self.plate, &self.name[self.at..]) {
                Found::NoGroup => self.at += 1,
                Found::NoMatch => {
                    self.at += 1;
                    self.before = Some(c);
                }
                Found::Rule(rule, n) => {
                    self.at += n;
                    let kind = field_kind(self.before, vowel_at(self.name, self.at));
                    let anyway = is_forced(self.before, c);
                    self.before = Some(c);
                    return Some(Use { rule, kind, anyway });
                }
            }
        }
        None
    }
}
