// M-103, promised of the library's calls: a ward list, beside a list of one of its names and beside another ward list. specs/Ward.antt says each.
ghost use Rattle.zengilvar.specs.Numbers.{coded};
ghost use Rattle.zengilvar.specs.Ward.{wrote};
ghost use Rattle.promises.specs.Ward.{WardRefuses, WardGives, WardLists, WardAlike};

use super::Pair;
use zengilvar::ward_list::dm_ward;
use zengilvar::{DmCoded, DmWritten, dm_list};

// Numbers and lines.
fn wards(plate: &[u8], names: &[u8], out: &mut [u8]) -> DmWritten
    ensures ward_refuses { WardRefuses plate.now names.now out.old (wrote result out.new) }
    ensures ward_gives { WardGives plate.now names.now out.old (wrote result out.new) }
{
    dm_ward(plate, names, out)
}

// What ward and list answer.
#[derive(Clone, Copy)]
struct WardAndList {
    ward: DmWritten,
    list: DmCoded,
}

// A ward list, and one name listed.
// Stays: the two calls are all that is promised of, and one function for several promises would fall as a whole under tests/weakened.
fn wards_as_lists(
    plate: &[u8],
    names: &[u8],
    out: &mut [u8],
    name: &[u8],
    other: &mut [u8],
) -> WardAndList
    ensures { WardLists names.now (wrote result.ward out.new) name.now other.old (coded result.list other.new) }
{
    let ward = dm_ward(plate, names, out);
    let list = dm_list(plate, name, other);
    WardAndList { ward, list }
}

// Two ward lists by one plate.
// Stays: the two calls are all that is promised of, and one function for several promises would fall as a whole under tests/weakened.
fn wards_alike(
    plate: &[u8],
    names: &[u8],
    out: &mut [u8],
    others: &[u8],
    more: &mut [u8],
) -> Pair<DmWritten>
    ensures { WardAlike names.now (wrote result.first out.new) others.now (wrote result.second more.new) }
{
    let first = dm_ward(plate, names, out);
    let second = dm_ward(plate, others, more);
    Pair { first, second }
}
