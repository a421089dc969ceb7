// Index and report of many names.
ghost use Rattle.std.specs.Prelude.{◌≡◌, ◌*◌, ◌≤◌, length};
ghost use Rattle.ward.specs.Ward.{names};
ghost use Rattle.entries.specs.Entries.{most_records};
ghost use Rattle.index.specs.Index.{entries_from, make_answer};
ghost use Rattle.index.specs.Held.{PutsAll};
ghost use Rattle.index.specs.Outcome.{told};

use super::name::{Codes, list_name, noted};
use super::{FileError, Filed};
use entries::{MOST_RECORDS, sort};
use plate::note::NotedPlate;
use plate::{MOST_RULES, NOTED};
use ward::LIST_BYTES;
use ward::split::{Names, count_names};

// How many entries all names have.
fn count_entries(plate: &NotedPlate, bytes: &[u8]) -> usize
    requires { length (names bytes.now) ≤ most_records }
    ensures { result ≡ length (entries_from plate.now.bytes.now 0 (names bytes.now)) }
{
    let mut line = [0u8; LIST_BYTES];
    let mut n = 0;
    for name in Names::new(bytes) {
        n += list_name(plate, name, &mut line).unwrap_or(0);
    }
    n
}

// The entries of all names, as they come, and their report, each to the front of what is lent.
fn put_names(plate: &NotedPlate, bytes: &[u8], index: &mut [u8], report: &mut [u8])
    requires bytes_in_bounds { (4 * length (entries_from plate.now.bytes.now 0 (names bytes.now)) ≤ length index.old) × (length (names bytes.now) ≤ length report.old) }
    requires few { length (names bytes.now) ≤ most_records }
    ensures { PutsAll plate.now.bytes.now (names bytes.now) index.old index.new report.old report.new }
{
    let mut line = [0u8; LIST_BYTES];
    let mut to = 0;
    for (k, name) in Names::new(bytes).enumerate() {
        let listed = list_name(plate, name, &mut line);
        let codes = Codes {
            line: &line,
            count: listed.unwrap_or(0),
        };
        to += codes.put_entries(k as u32, &mut index[to..]);
        report[k] = noted(listed);
    }
}

// The index of names, and their report.
pub fn make(
    plate: &[u8],
    bytes: &[u8],
    index: &mut [u8],
    report: &mut [u8],
) -> Result<Filed, FileError>
    ensures { told result index.new report.new ≡ make_answer plate.now bytes.now index.old report.old }
{
    let mut places = [0u32; MOST_RULES];
    let mut groups = [0u32; NOTED];
    let Some(plate) = NotedPlate::accept(plate, &mut places, &mut groups) else {
        return Err(FileError::NotAPlate);
    };
    let most = MOST_RECORDS as usize;
    let n = count_names(bytes, most);
    if most < n || report.len() < n {
        return Err(FileError::Unfit);
    }
    let used = 4 * count_entries(&plate, bytes);
    if index.len() < used {
        return Err(FileError::Unfit);
    }
    put_names(&plate, bytes, &mut index[..used], report);
    sort(&mut index[..used]);
    Ok(Filed {
        index: used,
        report: n,
    })
}
