// Which patterns may be among those noted, by a hash: most that are new are told so at once, and no pattern that is noted is ever called new.
ghost use Rattle.std.specs.Prelude.{◌≡◌, ◌<◌, length};
ghost use Rattle.book.specs.Seen.{hashes, slots, hash_of, slot_of, mark_of, may_hold, marked};

use super::{HASHES, SLOTS};

// A hash leaves one of so many marks, from 1 on, in its slot; another hash's mark there becomes `SEVERAL`.
const MARKS: u64 = 254;

const SEVERAL: u8 = 255;

// A slot is the upper bits of a hash.
const UPPER: u64 = 1024;

// Any odd number far above a byte spreads patterns well.
const SPREAD: u64 = 1664525;

// A number that equal patterns share.
pub fn hash_of(pattern: &[u8]) -> u64
    ensures { (result ≡ hash_of pattern.now) × (result < hashes) }
{
    let mut hash: u64 = 0;
    for b in pattern {
        hash = (hash + u64::from(*b)) * SPREAD % HASHES;
    }
    hash
}

fn slot_of(hash: u64) -> usize
    ensures { (result ≡ slot_of hash) × (result < slots) }
{
    (hash / UPPER % SLOTS as u64) as usize
}

fn mark_of(hash: u64) -> u8
    ensures { result ≡ mark_of hash }
{
    (1 + hash % MARKS) as u8
}

// May a pattern of this hash be noted?
pub fn may_hold(seen: &[u8], hash: u64) -> bool
    requires { length seen.now ≡ slots }
    ensures { result ≡ may_hold seen.now hash }
{
    let mark = seen[slot_of(hash)];
    mark == mark_of(hash) || mark == SEVERAL
}

// One of this hash is noted.
pub(crate) fn mark(seen: &mut [u8], hash: u64)
    requires { length seen.old ≡ slots }
    ensures { seen.new ≡ marked seen.old hash }
{
    let i = slot_of(hash);
    seen[i] = if seen[i] == 0 { mark_of(hash) } else { SEVERAL };
}
