// The records that share a code with a name.
ghost use Rattle.std.specs.Prelude.{◌≡◌, true, [], ◌∷◌, map, ◌*◌, ◌≤◌, length};
ghost use Rattle.laws.specs.Lists.{cat};
ghost use Rattle.ward.specs.Puts.{Puts};
ghost use Rattle.entries.specs.Entries.{entries, most_records, most_code, is_index};
ghost use Rattle.index.specs.Index.{codes_from, code_number};
ghost use Rattle.index.specs.Find.{two_bytes, find_answer};
ghost use Rattle.index.specs.Held.{marked, Marks, NameIs};
ghost use Rattle.index.specs.Outcome.{told_found, is_named};

use super::FindError;
use super::name::{Codes, list_name};
use entries::{MOST_RECORDS, entry_at, first_not_below, is_index};
use plate::note::NotedPlate;
use plate::{MOST_RULES, NOTED};
use ward::LIST_BYTES;

const MARKS: usize = 4096;

// Marks the records of a code.
fn mark_code(index: &[u8], code: u32, marks: &mut [bool])
    requires { (is_index index.now ≡ true) × (code ≤ most_code) × (length marks.old ≡ most_records) }
    ensures { Marks (entries index.now) (code ∷ []) marks.old marks.new }
{
    for i in first_not_below(index, code * MOST_RECORDS)..index.len() / 4 {
        let e = entry_at(index, i);
        if e / MOST_RECORDS != code {
            return;
        }
        marks[(e % MOST_RECORDS) as usize] = true;
    }
}

// Marks the records of all of a name's codes.
fn mark_codes(index: &[u8], codes: &Codes, marks: &mut [bool])
    requires { (is_index index.now ≡ true) × (length marks.old ≡ most_records) }
    ensures { Marks (entries index.now) (map code_number (codes_from codes.now.count codes.now.line.now)) marks.old marks.new }
{
    for i in 0..codes.count {
        mark_code(index, codes.code(i), marks);
    }
}

// How many records are marked.
fn count_marks(marks: &[bool]) -> usize
    ensures { result ≡ length (marked 0 marks.now) }
{
    marks.iter().filter(|mark| **mark).count()
}

// The records that are marked, two bytes each, to the front of what is lent; how many bytes.
fn put_marks(marks: &[bool], out: &mut [u8]) -> usize
    requires { (length marks.now ≤ most_records) × (2 * length (marked 0 marks.now) ≤ length out.old) }
    ensures { Puts (cat two_bytes (marked 0 marks.now)) result out.old out.new }
{
    let mut to = 0;
    for (k, mark) in marks.iter().enumerate() {
        if *mark {
            out[to..to + 2].copy_from_slice(&(k as u16).to_be_bytes());
            to += 2;
        }
    }
    to
}

// The records of an index that share a code with a name; how many bytes.
pub fn find(plate: &[u8], index: &[u8], name: &[u8], out: &mut [u8]) -> Result<usize, FindError>
    ensures { (told_found result out.new ≡ find_answer plate.now index.now name.now out.old) × (is_named result ≡ true) × NameIs plate.now name.now result }
{
    let mut places = [0u32; MOST_RULES];
    let mut groups = [0u32; NOTED];
    let Some(plate) = NotedPlate::accept(plate, &mut places, &mut groups) else {
        return Err(FindError::NotAPlate);
    };
    if !is_index(index) {
        return Err(FindError::BadIndex);
    }
    let mut line = [0u8; LIST_BYTES];
    let count = list_name(&plate, name, &mut line)?;
    let mut marks = [false; MARKS];
    mark_codes(index, &Codes { line: &line, count }, &mut marks);
    let n = count_marks(&marks);
    if out.len() / 2 < n {
        return Err(FindError::ShortBuffer);
    }
    Ok(put_marks(&marks, out))
}
