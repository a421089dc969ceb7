// Whether bytes are a plate, for who keeps plates and wants to know before a name is at hand.
ghost use Rattle.plate.specs.Read.{accepted};
ghost use Rattle.std.specs.Prelude.{◌≡◌};

use plate::accept::accept;

// The bytes are a plate: dm_encode and dm_list do not refuse them with 10.
#[unsafe(no_mangle)]
pub extern "C" fn dm_is_plate(plate: &[u8]) -> bool
    ensures { result ≡ accepted plate.now }
{
    accept(plate)
}
