// Bytes counted, whatever text they are of.
ghost use Rattle.std.specs.Prelude.{◌≤◌, ◌≡◌, length};
ghost use Rattle.laws.specs.Lists.{until, count_of};

// How many bytes stand before the first b; all of them where there is none.
pub fn count_until(rest: &[u8], b: u8) -> usize
    ensures { (result ≡ until b rest.now) × (result ≤ length rest.now) }
{
    rest.iter().position(|x| *x == b).unwrap_or(rest.len())
}

// How many bytes are b.
// Stays: as filter and count it proves too, but takes twice the instructions.
pub fn count_of(s: &[u8], b: u8) -> usize
    ensures { (result ≡ count_of b s.now) × (result ≤ length s.now) }
{
    let mut n = 0;
    for x in s {
        if *x == b {
            n += 1;
        }
    }
    n
}
