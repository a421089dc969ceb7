// Names and characters as people may see them: nothing that a terminal would take for an order, or that would not be seen.
ghost use Rattle.std.specs.Prelude.{length};
ghost use Rattle.std.specs.Iterator.{at_most};

use std::fmt;
use std::fmt::{Display, Formatter, Write};

// A name may have 256 bytes; of a longer one the front is shown.
const LONGEST: usize = 256;

const FRONT: usize = 40;

// No controls, no marks that turn the direction of writing or are not seen.
fn is_shown(c: char) -> bool {
    !matches!(
        c,
        '\0'..='\x1F'
        | '\x7F'..='\u{9F}'
        | '\u{AD}'
        | '\u{61C}'
        | '\u{200B}'..='\u{200F}'
        | '\u{2028}'..='\u{202E}'
        | '\u{2060}'..='\u{206F}'
        | '\u{FEFF}'
        | '\u{FFF9}'..='\u{FFFB}'
        | '\u{E0000}'..='\u{10FFFF}'
    )
}

// What a text is made of: characters, and bytes that begin none.
#[derive(Clone, Copy)]
pub enum Piece {
    Char(char),
    Byte(u8),
}

impl Piece {
    // How many bytes it has.
    pub fn width(self) -> usize {
        match self {
            Piece::Char(c) => c.len_utf8(),
            Piece::Byte(_) => 1,
        }
    }

    // How many columns it takes on a terminal.
    pub(crate) fn columns(self) -> usize {
        match self {
            Piece::Char(c) if is_shown(c) => shown_columns(c),
            Piece::Char(c) => escape_columns(c),
            Piece::Byte(_) => 4,
        }
    }
}

// The columns of an escape: \x1B, \u{202E}, \u{E0001}, \u{10FFFF}.
fn escape_columns(c: char) -> usize {
    match c {
        ..'\u{80}' => 4,
        ..'\u{10000}' => 8,
        ..'\u{100000}' => 9,
        _ => 10,
    }
}

// The columns of a character that is shown: none for a mark that stands above or below the one before, two for the wide ones of East Asia.
fn shown_columns(c: char) -> usize {
    match c {
        '\u{300}'..='\u{36F}'
        | '\u{483}'..='\u{489}'
        | '\u{591}'..='\u{5BD}'
        | '\u{64B}'..='\u{65F}'
        | '\u{1AB0}'..='\u{1AFF}'
        | '\u{1DC0}'..='\u{1DFF}'
        | '\u{20D0}'..='\u{20FF}'
        | '\u{FE00}'..='\u{FE0F}'
        | '\u{FE20}'..='\u{FE2F}' => 0,
        '\u{1100}'..='\u{115F}'
        | '\u{2E80}'..='\u{303E}'
        | '\u{3041}'..='\u{A4CF}'
        | '\u{AC00}'..='\u{D7A3}'
        | '\u{F900}'..='\u{FAFF}'
        | '\u{FE30}'..='\u{FE6F}'
        | '\u{FF00}'..='\u{FF60}'
        | '\u{FFE0}'..='\u{FFE6}'
        | '\u{1F300}'..='\u{1F64F}'
        | '\u{1F900}'..='\u{1F9FF}'
        | '\u{20000}'..='\u{3FFFD}' => 2,
        _ => 1,
    }
}

// How far to the right each hexadecimal digit of a character's number is shifted.
const SHIFTS: [u32; 6] = [20, 16, 12, 8, 4, 0];

// The digits of a number behind a front. Their `str`s stand ready, since a list of names may have many of them to show.
fn write_hex<W: Write>(f: &mut Formatter<W>, front: &str, n: u32, shifts: &[u32]) -> fmt::Result {
    const DIGITS: [&str; 16] = [
        "0", "1", "2", "3", "4", "5", "6", "7", "8", "9", "A", "B", "C", "D", "E", "F",
    ];
    f.write_str(front)?;
    for shift in shifts {
        f.write_str(DIGITS[(n.checked_shr(*shift).unwrap_or(0) % 16) as usize])?;
    }
    Ok(())
}

// Four digits at least.
fn write_escape<W: Write>(f: &mut Formatter<W>, c: char) -> fmt::Result {
    let shifts = match c {
        ..'\u{10000}' => &SHIFTS[2..],
        ..'\u{100000}' => &SHIFTS[1..],
        _ => &SHIFTS,
    };
    write_hex(f, "\\u{", c as u32, shifts)?;
    f.write_str("}")
}

impl Display for Piece {
    fn fmt<W: Write>(&self, f: &mut Formatter<W>) -> fmt::Result {
        match *self {
            Piece::Char(c) if is_shown(c) => f.write_char(c),
            Piece::Char(c) if c.is_ascii() => write_hex(f, "\\x", c as u32, &SHIFTS[4..]),
            Piece::Char(c) => write_escape(f, c),
            Piece::Byte(b) => write_hex(f, "\\x", u32::from(b), &SHIFTS[4..]),
        }
    }
}

// The pieces of a text, in its order.
#[derive(Drop)]
pub struct Pieces<'a> {
    rest: &'a [u8],
}

impl<'a> Pieces<'a> {
    pub fn of(text: &'a [u8]) -> Pieces<'a> {
        Pieces { rest: text }
    }
}

// The character that bytes begin with. The first of them tells how many it has.
fn first_char(bytes: &[u8]) -> Option<char> {
    let width = match *bytes.first()? {
        first @ 0..=0x7F => return Some(char::from(first)),
        0xC2..=0xDF => 2,
        0xE0..=0xEF => 3,
        0xF0..=0xF4 => 4,
        _ => return None,
    };
    str::from_utf8(bytes.get(..width)?).ok()?.chars().next()
}

impl Iterator for Pieces<'_> {
    type Item = Piece;

    ghost remaining = { λ s. at_most (length s.rest.now) };

    fn next(&mut self) -> Option<Piece> {
        let (first, behind) = self.rest.split_first()?;
        let Some(c) = first_char(self.rest) else {
            self.rest = behind;
            return Some(Piece::Byte(*first));
        };
        self.rest = self.rest.get(c.len_utf8()..).unwrap_or(behind);
        Some(Piece::Char(c))
    }
}

// A text as people may see it.
#[derive(Clone, Copy)]
pub struct Text<'a>(pub &'a [u8]);

impl Display for Text<'_> {
    fn fmt<W: Write>(&self, f: &mut Formatter<W>) -> fmt::Result {
        let Ok(text) = str::from_utf8(self.0) else {
            for piece in Pieces::of(self.0) {
                piece.fmt(f)?;
            }
            return Ok(());
        };
        if text.chars().all(is_shown) {
            return f.write_str(text);
        }
        for c in text.chars() {
            Piece::Char(c).fmt(f)?;
        }
        Ok(())
    }
}

// A name, or the front of one that is too long to be one: the characters that begin in it.
#[derive(Clone, Copy)]
pub struct Name<'a>(pub &'a [u8]);

fn front_of(name: &[u8]) -> &[u8] {
    let mut end: usize = 0;
    for piece in Pieces::of(name) {
        if FRONT <= end {
            break;
        }
        end = end.wrapping_add(piece.width());
    }
    name.get(..end).unwrap_or(name)
}

impl<'a> Name<'a> {
    // The name as it stands, where each byte of it is a character that is shown.
    pub fn plain(self) -> Option<&'a [u8]> {
        let name = self.0;
        let is_plain = name.len() <= LONGEST && name.iter().all(|b| matches!(b, b' '..=b'~'));
        is_plain.then_some(name)
    }
}

impl Display for Name<'_> {
    fn fmt<W: Write>(&self, f: &mut Formatter<W>) -> fmt::Result {
        let name = self.0;
        if name.len() <= LONGEST {
            return write!(f, "{}", Text(name));
        }
        write!(f, "{}...", Text(front_of(name)))
    }
}
