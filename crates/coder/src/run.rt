// From the uses of rules along a name to its branches.
ghost use Rattle.std.specs.Prelude.{◌≡◌, ◌≤◌};
ghost use Rattle.plate.specs.Read.{plate_in};
ghost use Rattle.coder.specs.Walk.{uses};
ghost use Rattle.coder.specs.Held.{cut_all, RunIs};

use super::walk::Walk;
use branches::{Branches, TooMany};
use plate::note::NotedPlate;

// The branches along a name; or that they are more than there is room for, "at the start or after some step".
pub(crate) fn run(
    plate: &NotedPlate,
    name: &[u32],
    most: usize,
    room: usize,
) -> Result<Branches, TooMany>
    requires { room ≤ 64 }
    ensures { RunIs room (cut_all most (uses (plate_in plate.now.bytes.now).rules name.now)) result }
{
    if room == 0 {
        return Err(TooMany);
    }
    let mut walk = Walk {
        plate: *plate,
        name,
        before: None,
        at: 0,
    };
    let mut bs = Branches::start();
    while let Some(u) = walk.next() {
        bs.step(&u.rule.field(u.kind, most), u.anyway, room)?;
    }
    Ok(bs)
}
