// The coder: the characters of a name, the uses of rules along them, their branches, the codes that are written, and the answers. 01, "From name to codes".
#![tactic(auto)]

ghost use Rattle.std.specs.Prelude.{◌≡◌};
ghost use Rattle.coder.specs.Refused.{error_number, error_place, error_of};
ghost use Rattle.coder.specs.declared.CodeError.TheVariants.{RoomTooSmall};

use branches::TooMany;

mod name; // name.rt: from a name's bytes to the characters that are coded
mod walk; // walk.rt: from the characters to the uses of rules
mod run; // run.rt: from the uses to branches
mod write; // write.rt: from branches to the bytes of their codes
pub mod answer; // answer.rt: encode and list

// The most bytes of a name.
const MOST_NAME: usize = 256;

// Why a name is not coded, and where in it the fault begins.
#[derive(Clone, Copy, Debug, PartialEq, Eq)]
enum NameFault {
    TooLong,
    NotUtf8(usize),
    NotAllowed(usize),
}

// Why list and encode give no codes, and at which byte of the name.
#[derive(Clone, Copy, Debug, PartialEq, Eq)]
pub enum CodeError {
    NotAPlate,
    NameTooLong,
    NotUtf8(usize),
    CharacterNotAllowed(usize),
    RoomTooSmall,
}

impl CodeError {
    // 01's number of it.
    pub fn number(self) -> u8
        ensures { result ≡ error_number self }
    {
        match self {
            CodeError::NotAPlate => 10,
            CodeError::NameTooLong => 1,
            CodeError::NotUtf8(_) => 2,
            CodeError::CharacterNotAllowed(_) => 11,
            CodeError::RoomTooSmall => 12,
        }
    }

    // The byte of the name at which its fault begins; 0 where the fault is none of the name's.
    // Stays: DmCoded of the C interface has the place as a number, 0 beside every other refusal, and this is what it is filled from.
    pub fn place(self) -> usize
        ensures { result ≡ error_place self }
    {
        match self {
            CodeError::NotUtf8(place) | CodeError::CharacterNotAllowed(place) => place,
            _ => 0,
        }
    }
}

impl From<NameFault> for CodeError {
    ghost from_gives = { λ fault e. e ≡ error_of fault };

    fn from(fault: NameFault) -> CodeError {
        match fault {
            NameFault::TooLong => CodeError::NameTooLong,
            NameFault::NotUtf8(place) => CodeError::NotUtf8(place),
            NameFault::NotAllowed(place) => CodeError::CharacterNotAllowed(place),
        }
    }
}

impl From<TooMany> for CodeError {
    ghost from_gives = { λ _ e. e ≡ RoomTooSmall };

    fn from(_many: TooMany) -> CodeError {
        CodeError::RoomTooSmall
    }
}
