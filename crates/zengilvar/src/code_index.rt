// A code index beside the ward list. 02, M-108.
ghost use Rattle.index.specs.Index.{make_answer, add_answer};
ghost use Rattle.index.specs.Find.{find_answer};
ghost use Rattle.index.specs.Outcome.{told};
ghost use Rattle.zengilvar.specs.Index.{indexed};
ghost use Rattle.zengilvar.specs.Ward.{wrote};
ghost use Rattle.std.specs.Prelude.{◌≡◌, List, ℕ};

use super::{DmIndexed, DmWritten};
use index::add::add;
use index::find::find;
use index::make::make;
use index::{FileError, Filed, FindError};

// The number and the lengths of what make and add answer.
impl From<Result<Filed, FileError>> for DmIndexed {
    ghost from_gives = { λ answer r. (index report : List ℕ) → indexed r index report ≡ told answer index report };

    fn from(answer: Result<Filed, FileError>) -> DmIndexed {
        match answer {
            Ok(filed) => DmIndexed {
                number: 0,
                index_length: filed.index as u64,
                report_length: filed.report as u64,
            },
            Err(error) => DmIndexed {
                number: u64::from(error.number()),
                index_length: 0,
                report_length: 0,
            },
        }
    }
}

// Index and report of up to 4,096 names, each written to the front of its buffer.
#[unsafe(no_mangle)]
pub extern "C" fn dm_index_make(
    plate: &[u8],
    names: &[u8],
    index: &mut [u8],
    report: &mut [u8],
) -> DmIndexed
    ensures { indexed result index.new report.new ≡ make_answer plate.now names.now index.old report.old }
{
    DmIndexed::from(make(plate, names, index, report))
}

// One name more, where index and report stand.
#[unsafe(no_mangle)]
pub extern "C" fn dm_index_add(
    plate: &[u8],
    name: &[u8],
    index: &mut [u8],
    index_used: usize,
    report: &mut [u8],
    report_used: usize,
) -> DmIndexed
    ensures { indexed result index.new report.new ≡ add_answer plate.now name.now index.old index_used report.old report_used }
{
    DmIndexed::from(add(plate, name, index, index_used, report, report_used))
}

// The records that share a code with a name, written to the front of `out`.
#[unsafe(no_mangle)]
pub extern "C" fn dm_index_find(
    plate: &[u8],
    index: &[u8],
    name: &[u8],
    out: &mut [u8],
) -> DmWritten
    ensures { wrote result out.new ≡ find_answer plate.now index.now name.now out.old }
{
    DmWritten::from(find(plate, index, name, out).map_err(FindError::number))
}
