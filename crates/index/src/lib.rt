// A code index beside the ward list: made from names, added to, and looked up. 02, M-108.
#![tactic(auto)]

ghost use Rattle.std.specs.Prelude.{◌≡◌};
ghost use Rattle.index.specs.Outcome.{file_number, find_number};
ghost use Rattle.index.specs.declared.FindError.TheVariants.{Name};

use coder::CodeError;

mod name; // name.rt: from a name to its entries
pub mod make; // make.rt: index and report of many names
pub mod add; // add.rt: one name more, in place
pub mod find; // find.rt: the records that share a code with a name

// How many bytes of the index and of the report stand now.
#[derive(Clone, Copy, Debug, PartialEq, Eq)]
pub struct Filed {
    pub index: usize,
    pub report: usize,
}

// Why make and add wrote nothing.
#[derive(Clone, Copy, Debug, PartialEq, Eq)]
pub enum FileError {
    NotAPlate,
    Unfit,
}

impl FileError {
    // 02's number of it.
    pub fn number(self) -> u8
        ensures { result ≡ file_number self }
    {
        match self {
            FileError::NotAPlate => 10,
            FileError::Unfit => 18,
        }
    }
}

// Why find gives no records.
#[derive(Clone, Copy, Debug, PartialEq, Eq)]
pub enum FindError {
    NotAPlate,
    BadIndex,
    Name(CodeError),
    ShortBuffer,
}

impl FindError {
    // 02's number of it, where a name's is list's.
    pub fn number(self) -> u8
        ensures { result ≡ find_number self }
    {
        match self {
            FindError::NotAPlate => 10,
            FindError::BadIndex => 18,
            FindError::Name(error) => error.number(),
            FindError::ShortBuffer => 9,
        }
    }
}

impl From<CodeError> for FindError {
    ghost from_gives = { λ error e. e ≡ Name error };

    fn from(error: CodeError) -> FindError {
        FindError::Name(error)
    }
}
