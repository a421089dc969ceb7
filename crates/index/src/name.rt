// From a name to its entries.
ghost use Rattle.std.specs.Prelude.{◌≡◌, map, ◌*◌, ◌≤◌, ◌<◌, length, take, drop};
ghost use Rattle.laws.specs.Arrays.{Each};
ghost use Rattle.ward.specs.Ward.{list_bytes};
ghost use Rattle.ward.specs.Puts.{Puts};
ghost use Rattle.ward.specs.Codes.{SixDigits};
ghost use Rattle.entries.specs.Entries.{entry_bytes, most_records, most_code};
ghost use Rattle.index.specs.Index.{codes_from, code_number, entry_of};
ghost use Rattle.index.specs.Held.{refusal_in, ListedIs, six_digits_prop};

use coder::CodeError;
use coder::answer::code_accepted;
use entries::{MOST_RECORDS, put_entry};
use plate::MOST_ALTERNATIVES;
use plate::note::NotedPlate;

// A name's codes, into a line of 447 bytes; how many they are.
pub(crate) fn list_name(
    plate: &NotedPlate,
    name: &[u8],
    line: &mut [u8],
) -> Result<usize, CodeError>
    requires { length line.old ≡ list_bytes }
    ensures { ListedIs plate.now.bytes.now name.now line.new result }
{
    code_accepted(plate, name, line, MOST_ALTERNATIVES)
}

// The byte of a name's report: 0, or the number of its refusal.
pub(crate) fn noted(listed: Result<usize, CodeError>) -> u8
    ensures { result ≡ refusal_in listed }
{
    match listed {
        Ok(_) => 0,
        Err(error) => error.number(),
    }
}

// The number that six digits write.
fn number_of(digits: &[u8]) -> u32
    requires { SixDigits digits.now }
    ensures { (result ≡ code_number digits.now) × (result ≤ most_code) }
{
    let mut n = 0;
    for digit in digits {
        n = n * 10 + u32::from(digit - b'0');
    }
    n
}

// A name's codes: the first `count` of a line, seven bytes from one to the next.
#[derive(Clone, Copy)]
pub(crate) struct Codes<'a> {
    pub(crate) line: &'a [u8],
    pub(crate) count: usize,
    ghost digits: { Each SixDigits (codes_from count line.now) } by { six_digits_prop (codes_from count line.now) },
    ghost few: { count ≤ 64 },
}

impl<'a> Codes<'a> {
    // The code of a number, from 0.
    pub(crate) fn code(&self, i: usize) -> u32
        requires { i < self.now.count }
        ensures { (result ≡ code_number (take 6 (drop (7 * i) self.now.line.now))) × (result ≤ most_code) }
    {
        let at = 7 * i;
        number_of(&self.line[at..at + 6])
    }

    // Their entries for record k, to the front of what is lent; how many bytes.
    pub(crate) fn put_entries(&self, k: u32, out: &mut [u8]) -> usize
        requires { (k < most_records) × (4 * self.now.count ≤ length out.old) }
        ensures { Puts (entry_bytes (map (entry_of k) (map code_number (codes_from self.now.count self.now.line.now)))) result out.old out.new }
    {
        for i in 0..self.count {
            put_entry(out, i, self.code(i) * MOST_RECORDS + k);
        }
        4 * self.count
    }
}
