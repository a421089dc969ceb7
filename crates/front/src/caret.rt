// A name with a caret below the character that it was refused for, both as a terminal shows them: what is shown as an escape takes the escape's columns.
use super::show::{Pieces, Text};
use std::fmt;
use std::fmt::{Display, Formatter, Write};

// So many columns of the name are shown before the character at most, and in all: what does not fit a line would not stand above the caret.
const BEFORE: usize = 40;

const SHOWN: usize = 70;

fn columns(text: &[u8]) -> usize {
    Pieces::of(text).fold(0, |n: usize, piece| n.wrapping_add(piece.columns()))
}

// The first place from which on no more columns than BEFORE stand in front of the one asked for.
fn first_shown(name: &[u8], place: usize) -> usize {
    let mut before = columns(name.get(..place).unwrap_or(name));
    let mut at: usize = 0;
    for piece in Pieces::of(name) {
        if before <= BEFORE {
            break;
        }
        before = before.wrapping_sub(piece.columns());
        at = at.wrapping_add(piece.width());
    }
    at
}

// How many bytes of a text fit the columns.
fn fitting(text: &[u8]) -> usize {
    let mut n: usize = 0;
    let mut at: usize = 0;
    for piece in Pieces::of(text) {
        n = n.wrapping_add(piece.columns());
        if SHOWN < n {
            break;
        }
        at = at.wrapping_add(piece.width());
    }
    at
}

// The name between two places, and the caret below one of them; nothing where there is none.
#[derive(Clone, Copy)]
pub struct Caret<'a> {
    pub name: &'a [u8],
    pub place: Option<usize>,
}

impl Display for Caret<'_> {
    fn fmt<W: Write>(&self, f: &mut Formatter<W>) -> fmt::Result {
        let Some(place) = self.place else {
            return Ok(());
        };
        let from = first_shown(self.name, place);
        let rest = self.name.get(from..).unwrap_or_default();
        let (shown, cut) = rest.split_at_checked(fitting(rest)).unwrap_or((rest, b""));
        let front = if 0 < from { "..." } else { "" };
        let back = if cut.is_empty() { "" } else { "..." };
        let before = columns(rest.get(..place.wrapping_sub(from)).unwrap_or(rest));
        let width = before.wrapping_add(front.len());
        write!(f, "    {front}{}{back}\n    {:width$}^\n", Text(shown), "")
    }
}
