// Which bytes are a plate, in one pass from the front: the place behind each part is where the next begins.
ghost use Rattle.std.specs.Prelude.{◌≡◌, ℕ, ◌+◌, ◌*◌, ◌/◌, ◌^◌, ◌<◌, ◌≤◌, true, ◌&&◌, List, length, replicate, nat_lt};
ghost use Rattle.plate.specs.Bits.{number_at};
ghost use Rattle.plate.specs.Plate.{nonzero_scalar, good_folding, most_foldings, most_digits};
ghost use Rattle.plate.specs.Most.{most_rules, few_rules, alternative_most, field_most, rule_most, foldings_most, plate_most, farthest};
ghost use Rattle.plate.specs.Read.{folding_at, foldings_place, zero_filled, accepted_in, count_width, most_of, accepted};
ghost use Rattle.plate.specs.Window.{Holds};
ghost use Rattle.plate.specs.Answers.{bytes_at, last_digits, UpTo, alternative_step, field_step, fields_step, first_of, rule_made, SeenTo, rules_step, foldings_good, key_behind};
ghost use Rattle.plate.specs.Noted.{noted_characters, Unnoted, NotedTo, NotedIf};

use super::bits::{bits, size};
use super::edition::{Edition, edition_of, most_rules};
use super::note::note_group;
use super::plain::{plain_code, plain_fields, quick_code, quick_fields, short_field, target_in};
use super::window::{part, window, window_in};
use super::{
    FEW_RULES, FOLDING_BITS, FOLDINGS, MOST_ALTERNATIVES, MOST_BYTES, MOST_DIGITS, MOST_FOLDINGS,
    MOST_RULES, NOTED, Seen, pattern, reader,
};
use chars::utf8;

// What a key counts for in front of a window, whose first 21 bits it is.
const KEY: u64 = 1 << 43;

// The last n digits of a number, four bits each, are 0 to 9: none has its bit 3 and one of its bits 2 and 1. All are tested at once; those in front are 0.
fn accept_digits(number: u64, n: usize) -> bool
    requires { (n ≤ most_digits) × (number < 2 ^ (4 * n)) }
    ensures { result ≡ last_digits n number }
{
    (number >> 3) & ((number >> 2) | (number >> 1)) & 0x111111 == 0
}

// The alternative at a place, of whose bits 27 stand in front of a window.
fn alternative_in(w: u64, at: usize) -> Option<usize>
    requires { at ≤ farthest 3 }
    ensures { UpTo result (at + alternative_most) × ((s : List ℕ) → Holds s at alternative_most w → result ≡ alternative_step s at) }
{
    let n = part(w, 0, 3) as usize;
    if n <= MOST_DIGITS && accept_digits(part(w, 3, 4 * n), n) {
        return Some(at + 3 + 4 * n);
    }
    None
}

// An alternative, all of it in one window.
fn accept_alternative(plate: &[u8], at: usize) -> Option<usize>
    requires { at ≤ farthest 3 }
    ensures { (result ≡ alternative_step plate.now at) × UpTo result (at + alternative_most) }
{
    alternative_in(window(plate, at), at)
}

// A field: its count, then its alternatives. Most are short, or have one, which stands in the same window.
fn accept_field(plate: &[u8], at: usize) -> Option<usize>
    requires { at ≤ farthest 2 }
    ensures { (result ≡ field_step plate.now at) × UpTo result (at + field_most) }
{
    let w = window(plate, at);
    if let Some(bits) = short_field(w) {
        return Some(at + bits);
    }
    let n = part(w, 0, 4) as usize;
    if n == 1 {
        return alternative_in(w << 4, at + 4);
    }
    if n < 1 || MOST_ALTERNATIVES < n {
        return None;
    }
    let mut place = at + 4;
    for _ in 0..n {
        place = accept_alternative(plate, place)?;
    }
    Some(place)
}

// The three fields of a rule.
fn accept_fields(plate: &[u8], at: usize) -> Option<usize>
    requires { at ≤ farthest 1 }
    ensures { (result ≡ fields_step plate.now at) × UpTo result (at + 3 * field_most) }
{
    let vowel = accept_field(plate, at)?;
    let other = accept_field(plate, vowel)?;
    accept_field(plate, other)
}

// The n bytes of a pattern, the first character first.
fn accept_pattern(plate: &[u8], at: usize, n: usize) -> Option<u32>
    requires { at ≤ farthest 1 }
    ensures { result ≡ first_of (bytes_at plate.now n at) }
{
    if n < 1 || MOST_BYTES < n {
        return None;
    }
    let first = pattern::front(plate, at, n)?;
    pattern::is_text(plate, at + 8 * first.width, n - first.width).then_some(first.code)
}

// Any rule at a place.
fn any_rule(plate: &[u8], at: usize) -> Option<Seen>
    requires { at ≤ plate_most }
    ensures { (result ≡ rule_made plate.now at) × SeenTo result (at + rule_most) }
{
    let length = size(plate, at, 5);
    let code = accept_pattern(plate, at + 5, length)?;
    let next = accept_fields(plate, at + 5 + 8 * length)?;
    Some(Seen { code, length, next })
}

// A rule near the end, where a window has zeros behind the last byte; a plain one by its shape.
fn end_rule(plate: &[u8], at: usize) -> Option<Seen>
    requires { at ≤ plate_most }
    ensures { (result ≡ rule_made plate.now at) × SeenTo result (at + rule_most) }
{
    let w = window(plate, at);
    let length = part(w, 0, 5) as usize;
    let Some(code) = plain_code(w << 5, length) else {
        return any_rule(plate, at);
    };
    let Some(bits) = quick_fields(window(plate, at + 5 + 8 * length)) else {
        return any_rule(plate, at);
    };
    let next = at + 5 + 8 * length + bits;
    Some(Seen { code, length, next })
}

// The rule at a place; a plain one, far from the end, by its shape. The last window over it begins no later than 105 bits behind its place, and is eight
// bytes long: 22 bytes are read at most.
// Stays: how far a place may lie hangs on what still stands behind it, so that one type of place would have as many bounds as a plate has parts.
fn accept_rule(plate: &[u8], at: usize) -> Option<Seen>
    requires { at ≤ plate_most }
    ensures { (result ≡ rule_made plate.now at) × SeenTo result (at + rule_most) }
{
    if plate.len() < at / 8 + 22 {
        return end_rule(plate, at);
    }
    let w = window_in(plate, at);
    let length = part(w, 0, 5) as usize;
    let Some(code) = quick_code(w << 5, length) else {
        return any_rule(plate, at);
    };
    let Some(bits) = plain_fields(plate, at + 5 + 8 * length) else {
        return any_rule(plate, at);
    };
    let next = at + 5 + 8 * length + bits;
    Some(Seen { code, length, next })
}

// The n rules from a place on, each in order behind the one before; each is noted as it is accepted, and each group when it is over. One comparison of first
// code points tells whether a rule belongs to the group, and so whether its length or its code point decides the order.
// Stays: no pattern begins with U+0000, so that before the first rule the code is 0 and no turn asks whether it is the first.
fn accept_rules(
    plate: &[u8],
    from: usize,
    n: usize,
    places: &mut [u32],
    groups: &mut [u32],
) -> Option<usize>
    requires { (from ≤ foldings_most) × (n ≤ most_rules) × Unnoted n places.old groups.old }
    ensures { (result ≡ rules_step plate.now from n 0 0) × UpTo result (from + rule_most * n) × NotedTo result plate.now from n places.new groups.new }
{
    let mut at = from;
    let mut begun: usize = 0;
    let mut code: u32 = 0;
    let mut length: usize = 0;
    for i in 0..n {
        let rule = accept_rule(plate, at)?;
        places[i] = at as u32;
        if rule.code == code {
            if length < rule.length {
                return None;
            }
        } else {
            if rule.code < code {
                return None;
            }
            note_group(groups, code, begun, i);
            begun = i;
            code = rule.code;
        }
        at = rule.next;
        length = rule.length;
    }
    note_group(groups, code, begun, n);
    Some(at)
}

// A Unicode scalar value, and not U+0000.
fn nonzero_scalar(c: u32) -> bool
    ensures { result ≡ nonzero_scalar c }
{
    0 < c && utf8::is_scalar(c)
}

// The key of any folding at a place, behind another key, if it is accepted.
fn any_key(plate: &[u8], at: usize, before: u32) -> Option<u32>
    requires { at ≤ foldings_most }
    ensures { result ≡ key_behind plate.now at before }
{
    let folding = reader::folding_at(plate, at);
    if nonzero_scalar(folding.key) && nonzero_scalar(folding.target) && before < folding.key {
        return Some(folding.key);
    }
    None
}

// Any n foldings.
// Stays: no key is 0, so that any key is above what stands before the first.
fn any_foldings(plate: &[u8], n: usize) -> bool
    requires { n ≤ most_foldings }
    ensures { result ≡ foldings_good plate.now foldings_place n 0 }
{
    let mut before: u32 = 0;
    for k in 0..n {
        let Some(key) = any_key(plate, FOLDINGS + FOLDING_BITS * k, before) else {
            return false;
        };
        before = key;
    }
    true
}

// The n foldings are plain, by their shape, and good; the windows over them are there. A window is above the key before, with ones behind it, exactly if its
// own key is higher. The last key is the highest, and all targets together have each bit that one of them has: so both are tested once, behind the loop.
fn plain_foldings(plate: &[u8], n: usize) -> bool
    requires { (n ≤ most_foldings) × ((foldings_place + 42 * n) / 8 + 8 ≤ length plate.now) }
    ensures { result ≡ true → true ≡ foldings_good plate.now foldings_place n 0 }
{
    let mut before: u64 = KEY - 1;
    let mut all: u64 = 0;
    for k in 0..n {
        let w = window_in(plate, FOLDINGS + FOLDING_BITS * k);
        if w <= before || target_in(w) == 0 {
            return false;
        }
        before = (w >> 43) * KEY + (KEY - 1);
        all |= w;
    }
    before >> 43 <= 0xD7FF && target_in(all) <= 0x7FFF
}

// The n foldings: mostly all are plain and far from the end, which is tested once.
fn accept_foldings(plate: &[u8], n: usize) -> bool
    requires { n ≤ most_foldings }
    ensures { result ≡ foldings_good plate.now foldings_place n 0 }
{
    let end = FOLDINGS + FOLDING_BITS * n;
    (end / 8 + 8 <= plate.len() && plain_foldings(plate, n)) || any_foldings(plate, n)
}

// The bits end in the last byte, and zeros fill it.
fn is_zero_filled(plate: &[u8], end: usize) -> bool
    requires { end ≤ plate_most }
    ensures { result ≡ zero_filled plate.now end }
{
    (end + 7) / 8 == plate.len() && bits(plate, end, 7 - (end + 7) % 8) == 0
}

// The bytes are a plate of an edition; if so, its rules are noted.
fn accept_in(plate: &[u8], edition: Edition, places: &mut [u32], groups: &mut [u32]) -> bool
    requires { (edition.width ≤ 15) × (edition.most ≤ most_rules) × Unnoted edition.most places.old groups.old }
    ensures { (result ≡ accepted_in edition plate.now) × NotedIf result edition.width plate.now places.new groups.new }
{
    let width = edition.width;
    if bits(plate, 0, 8) != edition.number || bits(plate, 17 + width, 15 - width) != 0 {
        return false;
    }
    let n = size(plate, 8, width);
    let m = size(plate, 8 + width, 8);
    if n < edition.least || edition.most < n || MOST_FOLDINGS < m || !accept_foldings(plate, m) {
        return false;
    }
    match accept_rules(plate, FOLDINGS + FOLDING_BITS * m, n, places, groups) {
        Some(end) => is_zero_filled(plate, end),
        None => false,
    }
}

// The bytes are a plate; if so, its rules are noted.
pub fn accept_noting(plate: &[u8], places: &mut [u32], groups: &mut [u32]) -> bool
    requires { (most_of plate.now ≤ length places.old) × (groups.old ≡ replicate noted_characters 0) }
    ensures { (result ≡ accepted plate.now) × NotedIf result (count_width plate.now) plate.now places.new groups.new }
{
    accept_in(plate, edition_of(plate), places, groups)
}

// The bytes are a plate; room for N rules is cleared.
fn accept_with<const N: usize>(plate: &[u8]) -> bool
    requires { (most_of plate.now ≤ N) × (N ≤ most_rules) }
    ensures { result ≡ accepted plate.now }
{
    let mut places = [0u32; N];
    let mut groups = [0u32; NOTED];
    accept_noting(plate, &mut places, &mut groups)
}

// The bytes are a plate.
pub fn accept(plate: &[u8]) -> bool
    ensures { result ≡ accepted plate.now }
{
    if most_rules(plate) <= FEW_RULES {
        accept_with::<FEW_RULES>(plate)
    } else {
        accept_with::<MOST_RULES>(plate)
    }
}
