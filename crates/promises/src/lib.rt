// The mission's three demands, promised of the library's calls. specs/Demands.antt says each; a function here only makes the calls that it speaks of, so that
// it is proved exactly if what the calls promise is enough. A call that promised less would not prove it (tests/weakened).
#![tactic(auto)]

ghost use Rattle.zengilvar.specs.Numbers.{built, coded};
ghost use Rattle.promises.specs.Demands.{BuildRefuses, BuildGives, ListRefuses, ListGives, EncodeRefuses, EncodeGives, ListsChoices, EncodesFirst, PlatesKeep, TextsKeep, GivenAgain};
ghost use Rattle.promises.specs.Once.{ListsOnce};
ghost use Rattle.promises.specs.Before.{ListsAsBefore, EncodesAsBefore};
ghost use Rattle.promises.specs.Unused.{UnusedAlike};
ghost use Rattle.promises.specs.Order.{OrderFree};
ghost use Rattle.promises.specs.Latin.{ListsLatin, EncodesLatin};

use zengilvar::{DmBuilt, DmCoded, dm_build, dm_encode, dm_list};

mod ward_list; // ward_list.rt: M-103, a whole ward list in one call
mod code_index; // code_index.rt: M-108, a code index beside it

// Demands 1 and 2, of build.
// Stays: what the call takes, one by one, is what C gives.
fn builds(text: &[u8], folding: bool, plate: &mut [u8]) -> DmBuilt
    ensures build_refuses { BuildRefuses text.now folding plate.old (built result plate.new) }
    ensures build_gives { BuildGives text.now folding plate.old (built result plate.new) }
{
    dm_build(text, folding, plate)
}

// Demands 1, 2 and 3a, of list.
// Stays: what the call takes, one by one, is what C gives.
fn lists(plate: &[u8], name: &[u8], out: &mut [u8]) -> DmCoded
    ensures list_refuses { ListRefuses plate.now name.now out.old (coded result out.new) }
    ensures list_gives { ListGives plate.now name.now out.old (coded result out.new) }
    ensures lists_choices { ListsChoices plate.now name.now (coded result out.new) }
{
    dm_list(plate, name, out)
}

// Demands 1 and 2, of encode.
fn encodes(plate: &[u8], name: &[u8], out: &mut [u8]) -> DmCoded
    ensures encode_refuses { EncodeRefuses plate.now name.now out.old (coded result out.new) }
    ensures encode_gives { EncodeGives plate.now name.now out.old (coded result out.new) }
{
    dm_encode(plate, name, out)
}

// What two calls answer, each one of the same kind.
#[derive(Clone, Copy)]
struct Pair<T> {
    first: T,
    second: T,
}

// Demand 3b: list, and encode into another buffer.
fn encodes_first(plate: &[u8], name: &[u8], out: &mut [u8], other: &mut [u8]) -> Pair<DmCoded>
    ensures { EncodesFirst (coded result.first out.new) other.old (coded result.second other.new) }
{
    let first = dm_list(plate, name, out);
    let second = dm_encode(plate, name, other);
    Pair { first, second }
}

// Demand 3c: one name listed by two plates.
// Stays: the two calls are all that is promised of, and one function for several promises would fall as a whole under tests/weakened.
fn plates_keep(
    plate: &[u8],
    wide: &[u8],
    name: &[u8],
    out: &mut [u8],
    more: &mut [u8],
) -> Pair<DmCoded>
    ensures { PlatesKeep plate.now wide.now (coded result.first out.new) (coded result.second more.new) }
{
    let first = dm_list(plate, name, out);
    let second = dm_list(wide, name, more);
    Pair { first, second }
}

// Demand 3c: one name listed by the plates of two texts. Where a build is refused its plate has no byte, and the list is refused too.
fn texts_keep(
    text: &[u8],
    wide: &[u8],
    folding: bool,
    plate: &mut [u8],
    plate2: &mut [u8],
    name: &[u8],
    out: &mut [u8],
    more: &mut [u8],
) -> Pair<DmCoded>
    ensures { TextsKeep text.now wide.now (coded result.first out.new) (coded result.second more.new) }
{
    let one = dm_build(text, folding, plate);
    let two = dm_build(wide, folding, plate2);
    let first = dm_list(&plate[..one.length as usize], name, out);
    let second = dm_list(&plate2[..two.length as usize], name, more);
    Pair { first, second }
}

// Demand 3d: one name listed into two buffers.
// Stays: the two calls are all that is promised of, and one function for several promises would fall as a whole under tests/weakened.
fn given_again(plate: &[u8], name: &[u8], out: &mut [u8], longer: &mut [u8]) -> Pair<DmCoded>
    ensures { GivenAgain out.old longer.old (coded result.first out.new) (coded result.second longer.new) }
{
    let first = dm_list(plate, name, out);
    let second = dm_list(plate, name, longer);
    Pair { first, second }
}

// M-105: list gives each code once.
fn lists_once(plate: &[u8], name: &[u8], out: &mut [u8]) -> DmCoded
    ensures { ListsOnce (coded result out.new) }
{
    dm_list(plate, name, out)
}

// M-106: a plate of before codes every name as before.
fn lists_as_before(plate: &[u8], name: &[u8], out: &mut [u8]) -> DmCoded
    ensures { ListsAsBefore plate.now name.now out.old (coded result out.new) }
{
    dm_list(plate, name, out)
}

fn encodes_as_before(plate: &[u8], name: &[u8], out: &mut [u8]) -> DmCoded
    ensures { EncodesAsBefore plate.now name.now out.old (coded result out.new) }
{
    dm_encode(plate, name, out)
}

// M-107: one name listed by a plate and by that plate without its unused rules.
// Stays: the two calls are all that is promised of, and one function for several promises would fall as a whole under tests/weakened.
fn lists_without(
    plate: &[u8],
    less: &[u8],
    name: &[u8],
    out: &mut [u8],
    more: &mut [u8],
) -> Pair<DmCoded>
    ensures { UnusedAlike plate.now less.now out.old more.old (coded result.first out.new) (coded result.second more.new) }
{
    let first = dm_list(plate, name, out);
    let second = dm_list(less, name, more);
    Pair { first, second }
}

// Stays: what is promised is the call that stands in the body, so that list and encode have a function each, and tests/weakened sees each fall.
fn encodes_without(
    plate: &[u8],
    less: &[u8],
    name: &[u8],
    out: &mut [u8],
    more: &mut [u8],
) -> Pair<DmCoded>
    ensures { UnusedAlike plate.now less.now out.old more.old (coded result.first out.new) (coded result.second more.new) }
{
    let first = dm_encode(plate, name, out);
    let second = dm_encode(less, name, more);
    Pair { first, second }
}

// What two builds answer, and two calls by the plates that they wrote.
#[derive(Clone, Copy)]
struct Reordered {
    plates: Pair<DmBuilt>,
    codes: Pair<DmCoded>,
}

// M-113: one name listed by the plates of two texts that say the same in another order.
fn lists_reordered(
    text: &[u8],
    other: &[u8],
    folding: bool,
    plate: &mut [u8],
    plate2: &mut [u8],
    name: &[u8],
    out: &mut [u8],
    more: &mut [u8],
) -> Reordered
    ensures { OrderFree text.now other.now (built result.plates.first plate.new) (built result.plates.second plate2.new)
        out.old more.old (coded result.codes.first out.new) (coded result.codes.second more.new) }
{
    let one = dm_build(text, folding, plate);
    let two = dm_build(other, folding, plate2);
    let first = dm_list(&plate[..one.length as usize], name, out);
    let second = dm_list(&plate2[..two.length as usize], name, more);
    Reordered {
        plates: Pair {
            first: one,
            second: two,
        },
        codes: Pair { first, second },
    }
}

// Stays: what is promised is the call that stands in the body, so that list and encode have a function each, and tests/weakened sees each fall.
fn encodes_reordered(
    text: &[u8],
    other: &[u8],
    folding: bool,
    plate: &mut [u8],
    plate2: &mut [u8],
    name: &[u8],
    out: &mut [u8],
    more: &mut [u8],
) -> Reordered
    ensures { OrderFree text.now other.now (built result.plates.first plate.new) (built result.plates.second plate2.new)
        out.old more.old (coded result.codes.first out.new) (coded result.codes.second more.new) }
{
    let one = dm_build(text, folding, plate);
    let two = dm_build(other, folding, plate2);
    let first = dm_encode(&plate[..one.length as usize], name, out);
    let second = dm_encode(&plate2[..two.length as usize], name, more);
    Reordered {
        plates: Pair {
            first: one,
            second: two,
        },
        codes: Pair { first, second },
    }
}

// M-113: a name without Cyrillic is coded as before.
fn lists_latin(plate: &[u8], name: &[u8], out: &mut [u8]) -> DmCoded
    ensures { ListsLatin plate.now name.now out.old (coded result out.new) }
{
    dm_list(plate, name, out)
}

fn encodes_latin(plate: &[u8], name: &[u8], out: &mut [u8]) -> DmCoded
    ensures { EncodesLatin plate.now name.now out.old (coded result out.new) }
{
    dm_encode(plate, name, out)
}
