// Sixty-four bits at once: a window over the plate, and the parts of it.
ghost use Rattle.std.specs.Prelude.{◌≡◌, ℕ, ◌+◌, ◌/◌, ◌^◌, ◌<◌, ◌≤◌, List, length};
ghost use Rattle.plate.specs.Bits.{number_at};
ghost use Rattle.plate.specs.Window.{Holds};

use super::bits::{bytes_at, bytes_in};

// The bits from a place on, the first in front, where eight bytes are there; 57 bits at least.
// Stays: with `window` alone, which tests for the end each time, accepting the standard plate takes 19,535 instructions; with both 16,633.
pub(crate) fn window_in(plate: &[u8], at: usize) -> u64
    requires { at / 8 + 8 ≤ length plate.now }
    ensures { Holds plate.now at 57 result }
{
    u64::from_be_bytes(bytes_in(plate, at / 8)) << (at % 8)
}

// The same anywhere: near the end zeros stand behind the last byte.
pub(crate) fn window(plate: &[u8], at: usize) -> u64
    ensures { Holds plate.now at 57 result }
{
    u64::from_be_bytes(bytes_at(plate, at / 8)) << (at % 8)
}

// The n bits behind the first k of a window.
pub(crate) fn part(w: u64, k: usize, n: usize) -> u64
    requires { (0 < k + n) × (k + n ≤ 64) × (n ≤ 24) }
    ensures { (result < 2 ^ n) × ((s : List ℕ) (at p : ℕ) → p ≤ 64 → k + n ≤ p → Holds s at p w → result ≡ number_at s (at + k) n) }
{
    (w >> (64 - k - n)) % (1u64 << n)
}
