// The names of a buffer, each closed by a newline.
ghost use Rattle.std.specs.Prelude.{◌≡◌, ◌+◌, ◌≤◌, length, drop};
ghost use Rattle.std.specs.Iterator.{YieldsFirstRef, item_count};
ghost use Rattle.laws.specs.Lists.{until};
ghost use Rattle.coder.specs.Answer.{smaller};
ghost use Rattle.ward.specs.Ward.{newline, names};

use chars::scan::count_until;
use std::marker::Model;

// The names that are left of a buffer, in order.
#[derive(Drop)]
pub struct Names<'a> {
    rest: &'a [u8],
}

impl<'a> Model for Names<'a> {
    ghost use Rattle.std.specs.Prelude.{List, ℕ};
    ghost use Rattle.ward.specs.Ward.{names};

    ghost Value = { List (List ℕ) };

    ghost view = { λ left. names left.rest.now };
}

impl<'a> Names<'a> {
    pub fn new(bytes: &'a [u8]) -> Names<'a>
        ensures { result ≡ names bytes.now }
    {
        Names { rest: bytes }
    }
}

impl<'a> Iterator for Names<'a> {
    type Item = &'a [u8];

    ghost next_gives = { YieldsFirstRef (λ left. left) };

    ghost remaining = { item_count (λ left. left) };

    // The next name: up to its newline, or to the end.
    fn next(&mut self) -> Option<&'a [u8]> {
        let bytes = self.rest;
        if bytes.is_empty() {
            return None;
        }
        let end = name_end(bytes, 0);
        self.rest = &bytes[(end + 1).min(bytes.len())..];
        Some(&bytes[..end])
    }
}

// Where the name that begins at a place ends: at its newline, or at the end.
pub fn name_end(bytes: &[u8], from: usize) -> usize
    requires { from ≤ length bytes.now }
    ensures { (result ≡ from + until newline (drop from bytes.now)) × (result ≤ length bytes.now) }
{
    from + count_until(&bytes[from..], b'\n')
}

// How many names there are; one over the most that are asked for stands for more.
pub fn count_names(bytes: &[u8], most: usize) -> usize
    ensures { result ≡ smaller (most + 1) (length (names bytes.now)) }
{
    // The one over them is not read: whether there is one is told by what is left.
    let mut left = Names::new(bytes);
    for n in 0..most {
        let Some(_) = left.next() else {
            return n;
        };
    }
    if left.rest.is_empty() { most } else { most + 1 }
}
