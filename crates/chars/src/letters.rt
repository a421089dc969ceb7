// White_Space, what a name may hold, and vowels.
ghost use Rattle.std.specs.Prelude.{◌≡◌};
ghost use Rattle.chars.specs.Letters.{white, cyrillic, tabled};
ghost use Rattle.chars.specs.Answers.{vowel_next};

use super::{CYRILLIC_FIRST, CYRILLIC_LAST, LATIN};

#[tactic(auto, unfolding(crate::specs::Letters::white))]
pub fn is_space(c: u32) -> bool
    ensures { result ≡ white c }
{
    matches!(
        c,
        0x09..=0x0D
            | 0x20
            | 0x85
            | 0xA0
            | 0x1680
            | 0x2000..=0x200A
            | 0x2028
            | 0x2029
            | 0x202F
            | 0x205F
            | 0x3000
    )
}

// It has an entry in a lowercase table: apart from White_Space, what a name may hold.
pub fn is_tabled(c: u32) -> bool
    ensures { result ≡ tabled c }
{
    c < LATIN as u32 || is_cyrillic(c)
}

pub(crate) fn is_cyrillic(c: u32) -> bool
    ensures { result ≡ cyrillic c }
{
    matches!(c, CYRILLIC_FIRST..=CYRILLIC_LAST)
}

// None is no vowel.
#[tactic(auto, unfolding(crate::specs::Letters::vowel))]
pub fn is_vowel(next: Option<u32>) -> bool
    ensures { result ≡ vowel_next next }
{
    matches!(next, Some(0x61 | 0x65 | 0x69 | 0x6F | 0x75))
}
