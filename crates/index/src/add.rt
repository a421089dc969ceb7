// One name more in an index, where it stands.
ghost use Rattle.std.specs.Prelude.{◌≡◌, true, ◌++◌, map, ◌+◌, ◌*◌, ◌≤◌, ◌<◌, length, take, drop};
ghost use Rattle.laws.specs.Sort.{sorted};
ghost use Rattle.entries.specs.Entries.{entries, entry_bytes, most_records, is_index};
ghost use Rattle.index.specs.Index.{codes_from, code_number, entry_of, good_index, add_answer};
ghost use Rattle.index.specs.Outcome.{told};

use super::name::{Codes, list_name, noted};
use super::{FileError, Filed};
use entries::{MOST_RECORDS, is_index, records_below, sort};
use plate::note::NotedPlate;
use plate::{MOST_RULES, NOTED};
use ward::LIST_BYTES;

// The most bytes of a name's entries.
const NEW_BYTES: usize = 256;

// Is what is used of the two buffers an index with its report?
fn good_index(index: &[u8], used: usize, report: &[u8], count: usize) -> bool
    requires { count < most_records }
    ensures { result ≡ good_index index.now used report.now count }
{
    used <= index.len()
        && count <= report.len()
        && is_index(&index[..used])
        && records_below(&index[..used], count as u32)
}

// The entries of a name's codes for record k, among those of an index that stand in front.
fn add_entries(codes: &Codes, k: u32, index: &mut [u8], used: usize)
    requires record_number { k < most_records }
    requires index_value { (is_index (take used index.old) ≡ true) × (used + 4 * codes.now.count ≤ length index.old) }
    ensures { index.new ≡ entry_bytes (sorted (entries (take used index.old) ++ map (entry_of k) (map code_number (codes_from codes.now.count codes.now.line.now)))) ++ drop (used + 4 * codes.now.count) index.old }
{
    let more = 4 * codes.count;
    let mut new = [0u8; NEW_BYTES];
    codes.put_entries(k, &mut new);
    sort(&mut new[..more]);
    entries::add(&mut index[..used + more], &new[..more]);
}

// A name added: its entries among those that stand in front, its refusal behind the report.
// Stays: dm_index_add lends two buffers and says how much of each is used; the rest is room to write.
pub fn add(
    plate: &[u8],
    name: &[u8],
    index: &mut [u8],
    used: usize,
    report: &mut [u8],
    count: usize,
) -> Result<Filed, FileError>
    ensures { told result index.new report.new ≡ add_answer plate.now name.now index.old used report.old count }
{
    let mut places = [0u32; MOST_RULES];
    let mut groups = [0u32; NOTED];
    let Some(plate) = NotedPlate::accept(plate, &mut places, &mut groups) else {
        return Err(FileError::NotAPlate);
    };
    if MOST_RECORDS as usize <= count
        || !good_index(index, used, report, count)
        || report.len() <= count
    {
        return Err(FileError::Unfit);
    }
    let mut line = [0u8; LIST_BYTES];
    let listed = list_name(&plate, name, &mut line);
    let codes = Codes {
        line: &line,
        count: listed.unwrap_or(0),
    };
    let more = 4 * codes.count;
    if index.len() - used < more {
        return Err(FileError::Unfit);
    }
    add_entries(&codes, count as u32, index, used);
    report[count] = noted(listed);
    Ok(Filed {
        index: used + more,
        report: count + 1,
    })
}
