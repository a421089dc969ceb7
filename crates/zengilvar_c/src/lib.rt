// The library as an archive for C and Rust.
// Stays: a crate is a library or an archive, and the names of C must stand in the archive, so each function that include/zengilvar.h declares stands here once more, with the
// clauses of the library's, and calls it.
#![tactic(auto)]

ghost use Rattle.builder.specs.Build.{build_answer};
ghost use Rattle.coder.specs.Answer.{list_answer, encode_answer};
ghost use Rattle.index.specs.Find.{find_answer};
ghost use Rattle.index.specs.Index.{make_answer, add_answer};
ghost use Rattle.plate.specs.Read.{accepted};
ghost use Rattle.ward.specs.Ward.{ward_answer};
ghost use Rattle.zengilvar.specs.Index.{indexed};
ghost use Rattle.zengilvar.specs.Numbers.{built, coded};
ghost use Rattle.zengilvar.specs.Ward.{wrote};
ghost use Rattle.std.specs.Prelude.{◌≡◌};

use zengilvar::{DmBuilt, DmCoded, DmIndexed, DmWritten};

// Rule text and a folding flag to a plate, written to the front of `plate`.
#[unsafe(no_mangle)]
pub extern "C" fn dm_build(text: &[u8], folding: bool, plate: &mut [u8]) -> DmBuilt
    ensures { built result plate.new ≡ build_answer text.now folding plate.old }
{
    zengilvar::dm_build(text, folding, plate)
}

// One code of a name, written to the front of `out`.
#[unsafe(no_mangle)]
pub extern "C" fn dm_encode(plate: &[u8], name: &[u8], out: &mut [u8]) -> DmCoded
    ensures { coded result out.new ≡ encode_answer plate.now name.now out.old }
{
    zengilvar::dm_encode(plate, name, out)
}

// All codes of a name, a bar between two, written to the front of `out`.
#[unsafe(no_mangle)]
pub extern "C" fn dm_list(plate: &[u8], name: &[u8], out: &mut [u8]) -> DmCoded
    ensures { coded result out.new ≡ list_answer plate.now name.now out.old }
{
    zengilvar::dm_list(plate, name, out)
}

// The bytes are a plate: dm_encode and dm_list do not refuse them with 10.
#[unsafe(no_mangle)]
pub extern "C" fn dm_is_plate(plate: &[u8]) -> bool
    ensures { result ≡ accepted plate.now }
{
    zengilvar::is_plate::dm_is_plate(plate)
}

// A line for each of up to 256 names, written to the front of `out`.
#[unsafe(no_mangle)]
pub extern "C" fn dm_ward(plate: &[u8], names: &[u8], out: &mut [u8]) -> DmWritten
    ensures { wrote result out.new ≡ ward_answer plate.now names.now out.old }
{
    zengilvar::ward_list::dm_ward(plate, names, out)
}

// Index and report of up to 4,096 names, each written to the front of its buffer.
#[unsafe(no_mangle)]
pub extern "C" fn dm_index_make(
    plate: &[u8],
    names: &[u8],
    index: &mut [u8],
    report: &mut [u8],
) -> DmIndexed
    ensures { indexed result index.new report.new ≡ make_answer plate.now names.now index.old report.old }
{
    zengilvar::code_index::dm_index_make(plate, names, index, report)
}

// One name more, where index and report stand.
#[unsafe(no_mangle)]
pub extern "C" fn dm_index_add(
    plate: &[u8],
    name: &[u8],
    index: &mut [u8],
    index_used: usize,
    report: &mut [u8],
    report_used: usize,
) -> DmIndexed
    ensures { indexed result index.new report.new ≡ add_answer plate.now name.now index.old index_used report.old report_used }
{
    zengilvar::code_index::dm_index_add(plate, name, index, index_used, report, report_used)
}

// The records that share a code with a name, written to the front of `out`.
#[unsafe(no_mangle)]
pub extern "C" fn dm_index_find(
    plate: &[u8],
    index: &[u8],
    name: &[u8],
    out: &mut [u8],
) -> DmWritten
    ensures { wrote result out.new ≡ find_answer plate.now index.now name.now out.old }
{
    zengilvar::code_index::dm_index_find(plate, index, name, out)
}
