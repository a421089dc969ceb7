// A buffer as it is lent: a byte that tells its place everywhere, so that a changed byte is seen.
ghost use Rattle.std.specs.Prelude.{◌≤◌, length};

// The byte that is lent at a place: neither 0 nor ASCII, and another at the next place, so that a byte that is moved is seen too.
fn lent_at(place: usize) -> u8 {
    128 + (place % 97) as u8
}

pub fn lend(out: &mut [u8]) {
    for (place, byte) in out.iter_mut().enumerate() {
        *byte = lent_at(place);
    }
}

// Whether the bytes from a place on are as lent.
pub fn is_lent_from(out: &[u8], start: usize) -> bool {
    out.iter()
        .enumerate()
        .skip(start)
        .all(|(place, byte)| *byte == lent_at(place))
}

// The bytes in front of the first that is as lent.
pub fn written(out: &[u8]) -> &[u8]
    ensures { length result.now ≤ length out.now }
{
    let end = out
        .iter()
        .enumerate()
        .position(|(place, byte)| *byte == lent_at(place));
    match end {
        Some(end) => &out[..end],
        None => out,
    }
}
