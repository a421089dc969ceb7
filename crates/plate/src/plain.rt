// Plain rules and foldings, which most are: a pattern of 1 to 6 bytes in characters of one or two, and fields of few alternatives of few digits; a key below the surrogates and
// a target below U+8000. Such a shape is a range of the window that it stands in front of. Of any other shape there is no answer, and accept.rt goes the long way.
ghost use Rattle.std.specs.Prelude.{◌≡◌, ℕ, ◌+◌, ◌-◌, ◌*◌, ◌/◌, ◌%◌, ◌^◌, ◌≤◌, true, List, length, Some, IfSome};
ghost use Rattle.plate.specs.Most.{farthest};
ghost use Rattle.plate.specs.Window.{Holds};
ghost use Rattle.plate.specs.Answers.{bytes_at, good_text, first_of, alternative_step, field_step, fields_step};
ghost use Rattle.plate.specs.Plain.{Takes, Passes, Ascii, Double};

use super::window::window_in;

// An ASCII byte, not zero, stands in front of a window.
fn is_ascii(w: u64) -> bool
    ensures { result ≡ true → Ascii w }
{
    (0x0100000000000000..0x8000000000000000).contains(&w)
}

// So do two.
fn two_ascii(w: u64) -> bool
    ensures { result ≡ true → Passes 2 w }
{
    is_ascii(w) && is_ascii(w << 8)
}

// So do five.
pub(crate) fn five_ascii(w: u64) -> bool
    ensures { result ≡ true → Passes 5 w }
{
    is_ascii(w) && two_ascii(w << 8) && two_ascii(w << 24)
}

// So do n such bytes, all tested at once: each is one where neither it nor it less one has its first bit. What is borrowed from a byte refuses more, never less.
fn all_ascii(w: u64, n: usize) -> bool
    requires { (1 ≤ n) × (n ≤ 6) }
    ensures { result ≡ true → Ascii w × ((s : List ℕ) (at : ℕ) → Holds s at (8 * n) w → good_text (bytes_at s n at) ≡ true) }
{
    let less = w.wrapping_sub(0x0101010101010101);
    ((less | w) >> (64 - 8 * n)) & 0x8080808080808080 == 0
}

// A character of two bytes stands in front of a window: 110, then 10; the first byte is 0xC2 at least.
fn is_double(w: u64) -> bool
    ensures { result ≡ true → Double w }
{
    (0xC200000000000000..0xE000000000000000).contains(&w) && (w >> 54) % 4 == 2
}

// How many bytes such a character or an ASCII one has, if one stands there.
fn char_width(w: u64) -> Option<usize>
    ensures { IfSome result (λ k. (1 ≤ k) × (k ≤ 2) × Passes k w) }
{
    if is_ascii(w) {
        Some(1)
    } else if is_double(w) {
        Some(2)
    } else {
        None
    }
}

// All n bytes are such characters.
// Stays: a character's width is the step, so that no range or iterator counts it.
fn short_text(w: u64, n: usize) -> bool
    requires { n ≤ 6 }
    ensures { result ≡ true → (s : List ℕ) (at : ℕ) → Holds s at (8 * n) w → good_text (bytes_at s n at) ≡ true }
{
    let mut rest = w;
    let mut left = n;
    while 0 < left {
        let Some(width) = char_width(rest) else {
            return false;
        };
        if left < width {
            return false;
        }
        rest <<= 8 * width;
        left -= width;
    }
    true
}

// Those of n bytes that stand behind a character of two; mostly there are none.
fn text_behind(w: u64, n: usize) -> bool
    requires { (2 ≤ n) × (n ≤ 6) }
    ensures { result ≡ true → (s : List ℕ) (at : ℕ) → Holds s at (8 * n) w → good_text (bytes_at s (n - 2) (at + 16)) ≡ true }
{
    n == 2 || short_text(w << 16, n - 2)
}

// The first code point of n such bytes.
fn short_code(w: u64, n: usize) -> Option<u32>
    requires { (1 ≤ n) × (n ≤ 6) }
    ensures { IfSome result (λ c. (s : List ℕ) (at : ℕ) → Holds s at (8 * n) w → Some c ≡ first_of (bytes_at s n at)) }
{
    if is_double(w) {
        if 2 <= n && text_behind(w, n) {
            return Some(((w >> 56) % 32 * 64 + (w >> 48) % 64) as u32);
        }
        return None;
    }
    if short_text(w, n) && is_ascii(w) {
        return Some((w >> 56) as u32);
    }
    None
}

// The first code point of a pattern of n bytes in front of a window.
pub(crate) fn plain_code(w: u64, n: usize) -> Option<u32>
    ensures { IfSome result (λ c. (n ≤ 6) × ((s : List ℕ) (at : ℕ) → Holds s at 48 w → Some c ≡ first_of (bytes_at s n at))) }
{
    match n {
        1..=6 => short_code(w, n),
        _ => None,
    }
}

// The same; ASCII, which most patterns are, at once.
pub(crate) fn quick_code(w: u64, n: usize) -> Option<u32>
    ensures { IfSome result (λ c. (n ≤ 6) × ((s : List ℕ) (at : ℕ) → Holds s at 48 w → Some c ≡ first_of (bytes_at s n at))) }
{
    match n {
        1..=6 if all_ascii(w, n) => Some((w >> 56) as u32),
        _ => plain_code(w, n),
    }
}

// A field of one alternative of one digit stands in front of a window: 0001, 001, and a digit of 0 to 9.
fn is_digit(w: u64) -> bool
    ensures { result ≡ true → Takes field_step 11 w 11 }
{
    (0x1200000000000000..0x1340000000000000).contains(&w)
}

// So does a field of one alternative without a digit: 0001, 000.
fn is_empty(w: u64) -> bool
    ensures { result ≡ true → Takes field_step 11 w 7 }
{
    (0x1000000000000000..0x1200000000000000).contains(&w)
}

// So does a field of one alternative of two digits: 0001, 010, and two digits of 0 to 9.
fn is_pair(w: u64) -> bool
    ensures { result ≡ true → Takes field_step 15 w 15 }
{
    (0x1400000000000000..0x1540000000000000).contains(&w) && (w >> 49) % 16 <= 9
}

// Three fields of one digit each stand in front of a window, all tested at once: of 32 bits (of the last digit three decide, since 10 is even) the fixed ones
// are as they are to be, and six added to each digit carries none over it.
fn three_digits(w: u64) -> bool
    ensures { result ≡ true → Takes fields_step 41 w 33 }
{
    let digits = (w >> 32) ^ 0x12024048;
    (digits | (digits + 0x00C01803)) & 0xFE1FC3F8 == 0
}

// The bits of three such fields, of which the first has a digit: the shape of nine rules in ten.
pub(crate) fn quick_fields(w: u64) -> Option<usize>
    ensures { IfSome result (λ b. (b ≤ 41) × Takes fields_step 41 w b) }
{
    if three_digits(w) {
        return Some(33);
    }
    if !is_digit(w) {
        return None;
    }
    if is_digit(w << 11) {
        return if is_empty(w << 22) { Some(29) } else { None };
    }
    if is_empty(w << 11) {
        return if is_empty(w << 18) { Some(25) } else { None };
    }
    if is_pair(w << 11) && is_pair(w << 26) {
        return Some(41);
    }
    None
}

// The bits of an alternative of at most two digits in front of a window.
fn short_alternative(w: u64) -> Option<usize>
    ensures { IfSome result (λ b. (b ≤ 11) × Takes alternative_step 11 w b) }
{
    if w < 0x2000000000000000 {
        Some(3)
    } else if w < 0x3400000000000000 {
        Some(7)
    } else if (0x4000000000000000..0x5400000000000000).contains(&w) && (w >> 53) % 16 <= 9 {
        Some(11)
    } else {
        None
    }
}

// The bits of a field of one or two such alternatives.
pub(crate) fn short_field(w: u64) -> Option<usize>
    ensures { IfSome result (λ b. (b ≤ 26) × Takes field_step 26 w b) }
{
    match w >> 60 {
        1 => Some(4 + short_alternative(w << 4)?),
        2 => {
            let first = 4 + short_alternative(w << 4)?;
            Some(first + short_alternative(w << first)?)
        }
        _ => None,
    }
}

// The bits of three such fields at a place. Two of them end no later than 52 bits behind it, and a window is eight bytes long.
fn short_fields(plate: &[u8], at: usize) -> Option<usize>
    requires { (at ≤ farthest 1) × (at / 8 + 15 ≤ length plate.now) }
    ensures { IfSome result (λ b. (b ≤ 78) × (Some (at + b) ≡ fields_step plate.now at)) }
{
    let start = short_field(window_in(plate, at))?;
    let vowel = short_field(window_in(plate, at + start))?;
    let other = short_field(window_in(plate, at + start + vowel))?;
    Some(start + vowel + other)
}

// The bits of the three fields of a plain rule: most have one alternative each, and stand in one window.
pub(crate) fn plain_fields(plate: &[u8], at: usize) -> Option<usize>
    requires { (at ≤ farthest 1) × (at / 8 + 15 ≤ length plate.now) }
    ensures { IfSome result (λ b. (b ≤ 78) × (Some (at + b) ≡ fields_step plate.now at)) }
{
    let quick = quick_fields(window_in(plate, at));
    if quick.is_some() {
        return quick;
    }
    short_fields(plate, at)
}

// The target of the folding in front of a window.
pub(crate) fn target_in(w: u64) -> u64
    ensures { result ≡ w / 2 ^ 22 % 2 ^ 21 }
{
    (w >> 22) % (1 << 21)
}
