// The codes, written into the lent buffer.
ghost use Rattle.std.specs.Prelude.{◌≡◌, map, ◌+◌, ◌*◌, ◌≤◌, length};
ghost use Rattle.branches.specs.Branches.{code};
ghost use Rattle.coder.specs.Answer.{listing};

use branches::Branches;

// "Codes are joined by `|`: code number k, from 0, is lent the buffer from byte 7k on."
pub(crate) fn write(out: &mut [u8], bs: &Branches)
    requires { 7 * length bs.now ≤ length out.old + 1 }
    ensures { out.new ≡ (listing (map code bs.now) out.old).buffer }
{
    for (k, b) in bs.as_slice().iter().enumerate() {
        let at = 7 * k;
        if 0 < at {
            out[at - 1] = b'|';
        }
        out[at..at + 6].copy_from_slice(&b.code());
    }
}
