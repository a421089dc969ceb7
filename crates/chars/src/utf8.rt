// UTF-8 (RFC 3629): the character at a place, and whole texts.
ghost use Rattle.std.specs.Prelude.{◌≡◌, cond, ◌&&◌, [], ◌∷◌, leb, length, drop, get_or};
ghost use Rattle.chars.specs.Utf8.{scalar, tail, two, three, four, char_of};
ghost use Rattle.chars.specs.Answers.{Reaches, checked};
ghost use Rattle.chars.specs.declared.Char.TheVariants.{One, Bad};

use super::{Char, NotUtf8};
use std::str;

// A tail byte, 10xxxxxx.
fn is_tail(b: u32) -> bool
    ensures { result ≡ tail b }
{
    matches!(b, 0x80..=0xBF)
}

// A Unicode scalar value: no surrogate, and not above U+10FFFF.
pub fn is_scalar(c: u32) -> bool
    ensures { result ≡ scalar c }
{
    matches!(c, 0..=0xD7FF | 0xE000..=0x10FFFF)
}

// The byte at k; 0, which is no tail byte, past the end.
// Stays: 0 is no tail byte, so that a byte that is not there refuses as a wrong one does, with no test of its own.
fn byte(s: &[u8], k: usize) -> u32
    ensures { result ≡ get_or s.now k 0 }
{
    s.get(k).map_or(0, |b| u32::from(*b))
}

// The character c of w bytes; bad where fewer bytes can hold it, below `least`, and where it is no scalar value.
fn char_of_width(least: u32, c: u32, w: usize) -> Char
    ensures { result ≡ cond (leb least c && scalar c) (One c w) Bad }
{
    if least <= c && is_scalar(c) {
        Char::One(c, w)
    } else {
        Char::Bad
    }
}

// The character of a first byte a and the tail bytes behind it: two, three or four bytes in all.
fn two_bytes(a: u32, b: u32) -> Char
    ensures { result ≡ two a (b ∷ []) }
{
    let c = a % 32 * 64 + b % 64;
    if is_tail(b) && 0x80 <= c {
        Char::One(c, 2)
    } else {
        Char::Bad
    }
}

fn three_bytes(a: u32, b: u32, b2: u32) -> Char
    ensures { result ≡ three a (b ∷ b2 ∷ []) }
{
    if is_tail(b) && is_tail(b2) {
        char_of_width(0x800, a % 16 * 4096 + b % 64 * 64 + b2 % 64, 3)
    } else {
        Char::Bad
    }
}

fn four_bytes(a: u32, b: u32, b2: u32, b3: u32) -> Char
    ensures { result ≡ four a (b ∷ b2 ∷ b3 ∷ []) }
{
    if is_tail(b) && is_tail(b2) && is_tail(b3) {
        char_of_width(
            0x10000,
            a % 8 * 262144 + b % 64 * 4096 + b2 % 64 * 64 + b3 % 64,
            4,
        )
    } else {
        Char::Bad
    }
}

// The character that four bytes begin with; the plate reads a pattern's bytes as numbers.
pub fn char_from(a: u32, b: u32, b2: u32, b3: u32) -> Char
    ensures { result ≡ char_of (a ∷ b ∷ b2 ∷ b3 ∷ []) }
{
    match a {
        0..=0x7F => Char::One(a, 1),
        0xC0..=0xDF => two_bytes(a, b),
        0xE0..=0xEF => three_bytes(a, b, b2),
        0xF0..=0xF7 => four_bytes(a, b, b2, b3),
        _ => Char::Bad,
    }
}

fn first_char(s: &[u8]) -> Char
    ensures { result ≡ char_of s.now }
{
    match s {
        [] => Char::End,
        [a, behind @ ..] => char_from(
            u32::from(*a),
            byte(behind, 0),
            byte(behind, 1),
            byte(behind, 2),
        ),
    }
}

// The character at a place; past the end, nothing.
pub fn char_at(s: &[u8], at: usize) -> Char
    ensures { (result ≡ char_of (drop at s.now)) × Reaches at (length s.now) result }
{
    match s.get(at..) {
        Some(rest) => first_char(rest),
        None => Char::End,
    }
}

// Is it UTF-8, and does it hold a zero byte?
pub fn check_text(s: &[u8]) -> Result<bool, NotUtf8>
    ensures { result ≡ checked s.now }
{
    match str::from_utf8(s) {
        Ok(_) => Ok(s.contains(&0)),
        Err(e) => Err(NotUtf8 {
            at: e.valid_up_to(),
        }),
    }
}
