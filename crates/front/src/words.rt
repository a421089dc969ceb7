// Why a name or a rule text was refused: each number of the table has its words here, and nowhere else.
use super::caret::Caret;
use super::show::{Piece, Pieces};
use std::fmt;
use std::fmt::{Display, Formatter, Write};

// Why a name was refused.
#[derive(Clone, Copy, PartialEq, Eq)]
pub enum NameRefusal {
    Long,
    Broken,
    Plate,
    Strange,
    Branches,
    Other(u64),
}

impl NameRefusal {
    // By the number that a call answered; 0 is that of none.
    pub fn of(number: u64) -> Option<NameRefusal> {
        match number {
            0 => None,
            1 => Some(NameRefusal::Long),
            2 => Some(NameRefusal::Broken),
            10 => Some(NameRefusal::Plate),
            11 => Some(NameRefusal::Strange),
            12 => Some(NameRefusal::Branches),
            n => Some(NameRefusal::Other(n)),
        }
    }

    pub fn number(self) -> u64 {
        match self {
            NameRefusal::Long => 1,
            NameRefusal::Broken => 2,
            NameRefusal::Plate => 10,
            NameRefusal::Strange => 11,
            NameRefusal::Branches => 12,
            NameRefusal::Other(n) => n,
        }
    }
}

// A name that was refused; the place is the one that the call answered. It is shown by the words.
#[derive(Clone, Copy)]
pub struct RefusedName<'a> {
    pub refusal: NameRefusal,
    pub name: &'a [u8],
    pub place: usize,
}

impl<'a> RefusedName<'a> {
    // The caret below the character that the name was refused for, where it was for one.
    pub fn caret(self) -> Caret<'a> {
        Caret {
            name: self.name,
            place: match self.refusal {
                NameRefusal::Broken | NameRefusal::Strange => Some(self.place),
                _ => None,
            },
        }
    }

    // What stands at the place.
    fn piece(self) -> Option<Piece> {
        Pieces::of(self.name.get(self.place..)?).next()
    }
}

impl Display for RefusedName<'_> {
    fn fmt<W: Write>(&self, f: &mut Formatter<W>) -> fmt::Result {
        match self.refusal {
            NameRefusal::Long => f.write_str("the name has over 256 bytes"),
            NameRefusal::Broken => {
                let byte = Piece::Byte(self.name.get(self.place).copied().unwrap_or(0));
                write!(f, "the name is not UTF-8 from {byte} on")
            }
            NameRefusal::Plate => f.write_str("the plate is damaged or no plate"),
            NameRefusal::Strange => {
                match self.piece() {
                    Some(Piece::Char(c)) => {
                        write!(f, "the character {} (U+{:04X})", Piece::Char(c), c as u32)?
                    }
                    _ => f.write_str("a character")?,
                }
                f.write_str(" is neither white space nor below U+0180 nor U+0400 to U+045F")
            }
            NameRefusal::Branches => f.write_str("the name has over 64 codes at some step"),
            NameRefusal::Other(_) => f.write_str("refused"),
        }
    }
}

// Why a rule text was refused. It is shown by the words.
#[derive(Clone, Copy, PartialEq, Eq)]
pub enum TextRefusal {
    Long,
    Broken,
    NoItem,
    NoPattern,
    LongPattern,
    Alternatives,
    Digits,
    Rules,
    Room,
    Other(u64),
}

impl TextRefusal {
    // By the number that a call answered; 0 is that of none.
    pub fn of(number: u64) -> Option<TextRefusal> {
        match number {
            0 => None,
            1 => Some(TextRefusal::Long),
            2 => Some(TextRefusal::Broken),
            3 => Some(TextRefusal::NoItem),
            4 => Some(TextRefusal::NoPattern),
            5 => Some(TextRefusal::LongPattern),
            6 => Some(TextRefusal::Alternatives),
            7 => Some(TextRefusal::Digits),
            8 => Some(TextRefusal::Rules),
            9 => Some(TextRefusal::Room),
            n => Some(TextRefusal::Other(n)),
        }
    }

    pub fn number(self) -> u64 {
        match self {
            TextRefusal::Long => 1,
            TextRefusal::Broken => 2,
            TextRefusal::NoItem => 3,
            TextRefusal::NoPattern => 4,
            TextRefusal::LongPattern => 5,
            TextRefusal::Alternatives => 6,
            TextRefusal::Digits => 7,
            TextRefusal::Rules => 8,
            TextRefusal::Room => 9,
            TextRefusal::Other(n) => n,
        }
    }
}

impl Display for TextRefusal {
    fn fmt<W: Write>(&self, f: &mut Formatter<W>) -> fmt::Result {
        f.write_str(match self {
            TextRefusal::Long => "the rule text has over 65,536 bytes",
            TextRefusal::Broken => "the rule text is not UTF-8, or holds a zero byte",
            TextRefusal::NoItem => "no rule, folding, comment or empty line",
            TextRefusal::NoPattern => "an empty pattern",
            TextRefusal::LongPattern => "a pattern over 16 bytes",
            TextRefusal::Alternatives => "a field with over 8 alternatives",
            TextRefusal::Digits => "an alternative that is not 0 to 6 digits",
            TextRefusal::Rules => "over 1,500 rules, or over 128 folded characters",
            TextRefusal::Room => "the buffer is shorter than the plate",
            TextRefusal::Other(_) => "refused",
        })
    }
}
