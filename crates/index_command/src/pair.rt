// Whether index and report belong together: a name that was coded has an entry, and one that was refused has none. A report of another index, or one of before a
// run that ended between the two files, is told by this.
use entries::MOST_RECORDS;

// 0, or a number with which list refuses a name.
fn is_note(b: u8) -> bool {
    matches!(b, 0 | 1 | 2 | 11 | 12)
}

pub(crate) fn is_pair(index: &[u8], report: &[u8]) -> bool {
    let mut has_entry = [false; MOST_RECORDS as usize];
    let (entries, _) = index.as_chunks::<4>();
    for entry in entries {
        let record = u32::from_be_bytes(*entry) % MOST_RECORDS;
        has_entry[record as usize] = true;
    }
    report.iter().all(|note| is_note(*note))
        && has_entry
            .iter()
            .enumerate()
            .all(|(record, has)| *has == (report.get(record) == Some(&0)))
}
