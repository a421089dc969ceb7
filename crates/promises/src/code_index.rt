// M-108, promised of the library's calls: an index made, looked up, added to, and by a wider plate. specs/Index.antt says each.
ghost use Rattle.zengilvar.specs.Index.{indexed};
ghost use Rattle.zengilvar.specs.Ward.{wrote};
ghost use Rattle.promises.specs.Index.{MakeRefuses, MakeGives, AddRefuses, FindRefuses, Looks, FolderFound, AddsAfresh, FoldersKept};

use super::Pair;
use zengilvar::code_index::{dm_index_add, dm_index_find, dm_index_make};
use zengilvar::{DmIndexed, DmWritten};

// Numbers, and what is made.
// Stays: what the call takes, one by one, is what C gives.
fn makes_index(plate: &[u8], names: &[u8], index: &mut [u8], report: &mut [u8]) -> DmIndexed
    ensures make_refuses { MakeRefuses plate.now names.now (record { index = index.old; report = report.old }) (indexed result index.new report.new) }
    ensures make_gives { MakeGives plate.now names.now (record { index = index.old; report = report.old }) (indexed result index.new report.new) }
{
    dm_index_make(plate, names, index, report)
}

// Numbers of adding.
// Stays: index and report are C's, each with its length behind it.
fn adds_name(
    plate: &[u8],
    name: &[u8],
    index: &mut [u8],
    used: usize,
    report: &mut [u8],
    noted: usize,
) -> DmIndexed
    ensures { AddRefuses plate.now name.now (record { index = index.old; report = report.old }) used noted (indexed result index.new report.new) }
{
    dm_index_add(plate, name, index, used, report, noted)
}

// Numbers of a lookup.
fn finds(plate: &[u8], index: &[u8], name: &[u8], out: &mut [u8]) -> DmWritten
    ensures { FindRefuses plate.now index.now name.now out.old (wrote result out.new) }
{
    dm_index_find(plate, index, name, out)
}

// What make and find answer.
#[derive(Clone, Copy)]
struct MadeAndFound {
    made: DmIndexed,
    found: DmWritten,
}

// An index made, and looked up by the same plate.
fn makes_and_finds(
    plate: &[u8],
    names: &[u8],
    index: &mut [u8],
    report: &mut [u8],
    name: &[u8],
    out: &mut [u8],
) -> MadeAndFound
    ensures folder_found { FolderFound plate.now names.now result.made.number name.now (wrote result.found out.new) }
    ensures looks { Looks plate.now names.now (record { index = index.old; report = report.old }) name.now out.old (indexed result.made index.new report.new) (wrote result.found out.new) }
{
    let made = dm_index_make(plate, names, index, report);
    let used = made.index_length as usize;
    let found = dm_index_find(plate, &index[..used], name, out);
    MadeAndFound { made, found }
}

// What making, adding and making afresh answer.
#[derive(Clone, Copy)]
struct Thrice {
    made: DmIndexed,
    added: DmIndexed,
    afresh: DmIndexed,
}

// An index made, a name added, and all names made afresh.
fn adds_afresh(
    plate: &[u8],
    names: &[u8],
    index: &mut [u8],
    report: &mut [u8],
    name: &[u8],
    wider: &[u8],
    index2: &mut [u8],
    report2: &mut [u8],
) -> Thrice
    ensures { AddsAfresh names.now (record { index = index.old; report = report.old }) result.made.number name.now (indexed result.added index.new report.new) wider.now (record { index = index2.old; report = report2.old }) (indexed result.afresh index2.new report2.new) }
{
    let made = dm_index_make(plate, names, index, report);
    let used = made.index_length as usize;
    let noted = made.report_length as usize;
    let added = dm_index_add(plate, name, index, used, report, noted);
    let afresh = dm_index_make(plate, wider, index2, report2);
    Thrice {
        made,
        added,
        afresh,
    }
}

// One list of names indexed and looked up by two plates.
fn folders_kept(
    plate: &[u8],
    wide: &[u8],
    names: &[u8],
    index: &mut [u8],
    report: &mut [u8],
    index2: &mut [u8],
    report2: &mut [u8],
    name: &[u8],
    out: &mut [u8],
    out2: &mut [u8],
) -> Pair<MadeAndFound>
    ensures { FoldersKept plate.now wide.now result.first.made.number (wrote result.first.found out.new) (indexed result.second.made index2.new report2.new) (wrote result.second.found out2.new) }
{
    let first = makes_and_finds(plate, names, index, report, name, out);
    let second = makes_and_finds(wide, names, index2, report2, name, out2);
    Pair { first, second }
}
