// The two editions: what a first byte tells, and what a number of rules asks for. Nothing above this crate names one.
ghost use Rattle.std.specs.Prelude.{◌≡◌, ◌≤◌};
ghost use Rattle.plate.specs.Read.{edition_of, count_width, most_of};
ghost use Rattle.plate.specs.Most.{most_rules};
ghost use Rattle.plate.specs.Answers.{HeadIs};

use super::bits::bits;
use super::{FEW_RULES, MOST_RULES};

// An edition: its number, the width of its rule count in bits, the least and the most rules.
#[derive(Clone, Copy, PartialEq, Eq)]
pub struct Edition {
    pub number: u32,
    pub width: usize,
    pub least: usize,
    pub most: usize,
}

impl Edition {
    pub const FIRST: Edition = Edition {
        number: 1,
        width: 10,
        least: 0,
        most: FEW_RULES,
    };

    // It has more rules than the first can have.
    pub const SECOND: Edition = Edition {
        number: 2,
        width: 11,
        least: FEW_RULES + 1,
        most: MOST_RULES,
    };
}

// What a head tells of its edition: the number, and the width of the rule count.
#[derive(Clone, Copy, PartialEq, Eq)]
pub struct Head {
    pub number: u32,
    pub width: usize,
}

// The edition that a plate's first byte tells.
pub(crate) fn edition_of(plate: &[u8]) -> Edition
    ensures { (result ≡ edition_of plate.now) × (result.width ≤ 11) × (result.most ≤ most_rules) }
{
    if bits(plate, 0, 8) == Edition::SECOND.number {
        Edition::SECOND
    } else {
        Edition::FIRST
    }
}

// The width of a plate's rule count.
pub(crate) fn width_of(plate: &[u8]) -> usize
    ensures { (result ≡ count_width plate.now) × (result ≤ 11) }
{
    edition_of(plate).width
}

// The most rules that a plate's edition allows: who notes them needs no more room.
pub fn most_rules(plate: &[u8]) -> usize
    ensures { (result ≡ most_of plate.now) × (result ≤ most_rules) }
{
    edition_of(plate).most
}

// The head of so many rules. 02, M-106: "Build writes edition 1 up to 512 rules and edition 2 above."
pub fn head_of(rules: usize) -> Head
    ensures { HeadIs rules result }
{
    let edition = if rules <= Edition::FIRST.most {
        Edition::FIRST
    } else {
        Edition::SECOND
    };
    Head {
        number: edition.number,
        width: edition.width,
    }
}
