// What the coder holds of a plate: digits, and the alternatives of a field.
ghost use Rattle.std.specs.Prelude.{◌≡◌, true, [], ◌++◌, ◌≤◌, take};
ghost use Rattle.chars.specs.Digits.{is_alternative};
ghost use Rattle.plate.specs.Plate.{most_digits, good_field};
ghost use Rattle.plate.specs.Most.{farthest};
ghost use Rattle.plate.specs.Read.{alternative_at, field_at};
ghost use Rattle.plate.specs.Field.{padded};

use super::bits::{bits, size};
use super::{MOST_ALTERNATIVES, MOST_DIGITS};
use std::marker::Model;

// Up to six ASCII digits: an alternative, or what a branch has of them. Behind them stand zeros (as ASCII), so that the six bytes are the padded code.
// Stays: there is no heap, and the padded code is wanted at once, so six bytes in any case; the count says which are digits.
#[derive(Clone, Copy, PartialEq, Eq)]
pub struct Digits {
    pub bytes: [u8; MOST_DIGITS],
    pub count: u8,
}

impl Model for Digits {
    ghost use Rattle.std.specs.Prelude.{List, ℕ, length, take};
    ghost use Rattle.plate.specs.Field.{padded, DigitsOk, held_again};

    ghost Value = { List ℕ };

    ghost view = { λ d. take d.count d.bytes };

    ghost invariant = { λ d. DigitsOk d.bytes d.count };

    ghost inverse = { λ ds. record { bytes = padded ds; count = length ds } };

    ghost inverse_ok = { λ d ok. let e = held_again d.bytes d.count ok in λ i. record { bytes = e.0 i; count = e.1 i } };
}

impl Digits {
    // No digits.
    pub const NONE: Digits = Digits {
        bytes: [b'0'; MOST_DIGITS],
        count: 0,
    };

    pub fn as_slice(&self) -> &[u8]
        ensures { result.now ≡ self.now }
    {
        &self.bytes[..self.count as usize]
    }

    // All six bytes, zeros behind the digits.
    pub fn padded(&self) -> [u8; MOST_DIGITS]
        ensures { result ≡ padded self.now }
    {
        self.bytes
    }

    // These with others behind them, cut at six.
    pub fn append(&self, more: &Digits) -> Digits
        ensures { result ≡ take most_digits (self.now ++ more.now) }
    {
        let n = self.count as usize;
        let k = (more.count as usize).min(MOST_DIGITS - n);
        let mut bytes = self.bytes;
        bytes[n..n + k].copy_from_slice(&more.bytes[..k]);
        Digits {
            bytes,
            count: (n + k) as u8,
        }
    }
}

// The alternatives of a field, up to eight; those past the count are empty, so that a field is held in one way only.
// Stays: there is no heap, so a room for the most and how much of it is in use, which callers see as a list.
#[derive(Clone, Copy)]
pub struct Field {
    pub alternatives: [Digits; MOST_ALTERNATIVES],
    pub count: usize,
}

impl Model for Field {
    ghost use Rattle.std.specs.Prelude.{List, ℕ, length, take};
    ghost use Rattle.plate.specs.Field.{filled, FieldOk, field_again};

    ghost Value = { List (List ℕ) };

    ghost view = { λ f. take f.count f.alternatives };

    ghost invariant = { λ f. FieldOk f.alternatives f.count };

    ghost inverse = { λ ls. record { alternatives = filled ls; count = length ls } };

    ghost inverse_ok = { λ f ok. let e = field_again f.alternatives f.count ok in λ i. record { alternatives = e.0 i; count = e.1 i } };
}

impl Field {
    pub fn as_slice(&self) -> &[Digits]
        ensures { result.now ≡ self.now }
    {
        &self.alternatives[..self.count]
    }
}

// An alternative, all its digits in one read.
fn alternative_at(plate: &[u8], at: usize) -> Digits
    requires { (at ≤ farthest 2) × (is_alternative (alternative_at plate.now at) ≡ true) }
    ensures { result ≡ alternative_at plate.now at }
{
    let n = size(plate, at, 3);
    let number = bits(plate, at + 3, 4 * n);
    let mut bytes = [b'0'; MOST_DIGITS];
    for k in 0..n {
        bytes[k] = (48 + (number >> (4 * n - 4 * k - 4)) % 16) as u8;
    }
    Digits {
        bytes,
        count: n as u8,
    }
}

// The first `most` alternatives of the field at a place.
pub(crate) fn alternatives_at(plate: &[u8], from: usize, most: usize) -> Field
    requires { (from ≤ farthest 1) × (good_field (field_at plate.now from) ≡ true) }
    ensures { result ≡ take most (field_at plate.now from) }
{
    let n = most.min(size(plate, from, 4));
    let mut alternatives = [Digits::NONE; MOST_ALTERNATIVES];
    let mut place = from + 4;
    for k in 0..n {
        let alternative = alternative_at(plate, place);
        place += 3 + 4 * alternative.as_slice().len();
        alternatives[k] = alternative;
    }
    Field {
        alternatives,
        count: n,
    }
}
