// A whole ward list in one call. 02, M-103.
ghost use Rattle.ward.specs.Ward.{ward_answer};
ghost use Rattle.zengilvar.specs.Ward.{wrote};
ghost use Rattle.std.specs.Prelude.{◌≡◌};

use super::DmWritten;
use ward::{WardError, ward};

// A line for each of up to 256 names, written to the front of `out`.
#[unsafe(no_mangle)]
pub extern "C" fn dm_ward(plate: &[u8], names: &[u8], out: &mut [u8]) -> DmWritten
    ensures { wrote result out.new ≡ ward_answer plate.now names.now out.old }
{
    DmWritten::from(ward(plate, names, out).map_err(WardError::number))
}
