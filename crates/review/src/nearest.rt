// What an item that is not recognised was meant to be: what was found, and the nearest form.
use chars::scan::count_of;
use front::show::Text;
use std::fmt;
use std::fmt::{Display, Formatter, Write};

// A text of so many bytes at most, or the front of a longer one and dots.
#[derive(Clone, Copy)]
pub(crate) struct Front<'a>(pub &'a [u8], pub usize);

impl Display for Front<'_> {
    fn fmt<W: Write>(&self, f: &mut Formatter<W>) -> fmt::Result {
        let Front(text, most) = *self;
        if text.len() <= most {
            return write!(f, "{}", Text(text));
        }
        write!(f, "{}...", Text(&text[..most]))
    }
}

// The most bytes that are shown of what was found.
const SHOWN: usize = 40;

// So many quotes in a line that begins with one.
#[derive(Clone, Copy)]
struct Quotes(usize);

impl Display for Quotes {
    fn fmt<W: Write>(&self, f: &mut Formatter<W>) -> fmt::Result {
        match self.0 {
            8 => f.write_str("something else between or behind the quoted parts"),
            n if n % 2 == 0 => write!(f, "quoted parts: {}", n / 2),
            _ => f.write_str("a quote that is not closed in its line"),
        }
    }
}

// The line where such an item begins.
#[derive(Clone, Copy)]
pub(crate) struct Strange<'a>(pub &'a [u8]);

impl Display for Strange<'_> {
    fn fmt<W: Write>(&self, f: &mut Formatter<W>) -> fmt::Result {
        let line = self.0;
        match line {
            [0xEF, 0xBB, 0xBF, ..] => {
                f.write_str("  found a byte order mark; save the text without one\n")
            }
            [b'"', ..] => write!(
                f,
                "  found {}; the nearest form is a rule: \"sch\" \"4\" \"4\" \"4\", four quoted parts with blanks between\n",
                Quotes(count_of(line, b'"'))
            ),
            [b'/', b'*', ..] => f.write_str(
                "  found /* and behind it no */ at a line's end; the nearest form is a comment: /* words */\n",
            ),
            [b'/', ..] => f.write_str(
                "  found one slash; the nearest form is a comment: // words\n",
            ),
            [b' ' | b'\t', ..] => f.write_str(
                "  found blanks in front; rules, foldings and /* begin in the first column of their line\n",
            ),
            _ if line.contains(&b'=') => write!(
                f,
                "  found {}; the nearest form is a folding: é=e, one character, =, one character, nothing else\n",
                Front(line, SHOWN)
            ),
            _ => write!(
                f,
                "  found {}; a rule begins with a quote, a folding is é=e, a comment begins with // or /*\n",
                Front(line, SHOWN)
            ),
        }
    }
}
