// The library that C and Rust link: build, encode, list, ward and the index with 01's numbers in place of enums, which C does not have. include/zengilvar.h declares it.
#![tactic(auto)]

ghost use Rattle.builder.specs.Build.{build_answer};
ghost use Rattle.coder.specs.Answer.{list_answer, encode_answer};
ghost use Rattle.builder.specs.Outcome as build;
ghost use Rattle.coder.specs.Outcome as code;
ghost use Rattle.zengilvar.specs.Numbers.{built, coded};
ghost use Rattle.zengilvar.specs.Ward.{written_of};
ghost use Rattle.std.specs.Prelude.{◌≡◌, List, ℕ};

use builder::{BuildError, build};
use coder::CodeError;
use coder::answer::{encode, list};

pub mod is_plate; // is_plate.rt: whether bytes are a plate
pub mod ward_list; // ward_list.rt: a line for each name of a list
pub mod code_index; // code_index.rt: index and report of names, and who shares a code

// What dm_build answers.
#[repr(C)]
#[derive(Clone, Copy)]
pub struct DmBuilt {
    pub number: u64,
    pub line: u64,
    pub length: u64,
}

// What dm_encode and dm_list answer. `place` is the byte of the name at which its fault begins, with 2 and 11.
#[repr(C)]
#[derive(Clone, Copy)]
pub struct DmCoded {
    pub number: u64,
    pub count: u64,
    pub place: u64,
}

// What dm_index_make and dm_index_add answer.
#[repr(C)]
#[derive(Clone, Copy)]
pub struct DmIndexed {
    pub number: u64,
    pub index_length: u64,
    pub report_length: u64,
}

// What dm_ward and dm_index_find answer.
#[repr(C)]
#[derive(Clone, Copy)]
pub struct DmWritten {
    pub number: u64,
    pub length: u64,
}

impl DmBuilt {
    fn refused(number: u64, line: usize) -> DmBuilt
        ensures { result ≡ record { number = number; line = line; length = 0 } }
    {
        DmBuilt {
            number,
            line: line as u64,
            length: 0,
        }
    }
}

// 01's number, line and length of what build answers.
impl From<Result<usize, BuildError>> for DmBuilt {
    ghost from_gives = { λ answer r. (out : List ℕ) → built r out ≡ build.told answer out };

    fn from(answer: Result<usize, BuildError>) -> DmBuilt {
        match answer {
            Ok(n) => DmBuilt {
                number: 0,
                line: 0,
                length: n as u64,
            },
            Err(BuildError::LongText) => DmBuilt::refused(1, 0),
            Err(BuildError::NotText) => DmBuilt::refused(2, 0),
            Err(BuildError::Faulty(fault, line)) => DmBuilt::refused(fault.number(), line),
            Err(BuildError::ShortBuffer) => DmBuilt::refused(9, 0),
        }
    }
}

// 01's number and count of what encode and list answer, and the place.
impl From<Result<usize, CodeError>> for DmCoded {
    ghost from_gives = { λ answer r. (out : List ℕ) → coded r out ≡ code.told answer out };

    fn from(answer: Result<usize, CodeError>) -> DmCoded {
        match answer {
            Ok(n) => DmCoded {
                number: 0,
                count: n as u64,
                place: 0,
            },
            Err(error) => DmCoded {
                number: u64::from(error.number()),
                count: 0,
                place: error.place() as u64,
            },
        }
    }
}

// The length that was written, or the number of an error.
impl From<Result<usize, u8>> for DmWritten {
    ghost from_gives = { λ answer r. r ≡ written_of answer };

    fn from(answer: Result<usize, u8>) -> DmWritten {
        match answer {
            Ok(n) => DmWritten {
                number: 0,
                length: n as u64,
            },
            Err(number) => DmWritten {
                number: u64::from(number),
                length: 0,
            },
        }
    }
}

// Rule text and a folding flag to a plate, written to the front of `plate`.
#[unsafe(no_mangle)]
pub extern "C" fn dm_build(text: &[u8], folding: bool, plate: &mut [u8]) -> DmBuilt
    ensures { built result plate.new ≡ build_answer text.now folding plate.old }
{
    DmBuilt::from(build(text, folding, plate))
}

// One code of a name, written to the front of `out`.
#[unsafe(no_mangle)]
pub extern "C" fn dm_encode(plate: &[u8], name: &[u8], out: &mut [u8]) -> DmCoded
    ensures { coded result out.new ≡ encode_answer plate.now name.now out.old }
{
    DmCoded::from(encode(plate, name, out))
}

// All codes of a name, a bar between two, written to the front of `out`.
#[unsafe(no_mangle)]
pub extern "C" fn dm_list(plate: &[u8], name: &[u8], out: &mut [u8]) -> DmCoded
    ensures { coded result out.new ≡ list_answer plate.now name.now out.old }
{
    DmCoded::from(list(plate, name, out))
}
