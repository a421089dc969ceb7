// From rule text to a plate. 01: "Build checks 1, then 2 (whole text), then items front to back, the first fault in the text deciding. [..] Last 9."
#![tactic(auto)]

mod known; // known.rt: whether a pattern is one of those noted
mod survey; // survey.rt: the items front to back, noted in the book, the first fault deciding
mod write; // write.rt: what is noted, written as a plate

ghost use Rattle.std.specs.Prelude.{◌≡◌};
ghost use Rattle.builder.specs.Build.{build_answer};
ghost use Rattle.builder.specs.Outcome.{told};
ghost use Rattle.builder.specs.Survey.{fault_number};
ghost use Rattle.builder.specs.declared.Fault.TheVariants.{Flawed};

use book::note::Notes;
use book::{Flaw, SLOTS};
use chars::utf8::check_text;
use plate::{MOST_FOLDINGS, MOST_RULES};
use rule_text::item::line_of;
use survey::{FaultAt, survey};
use write::write_plate;

const LONGEST_TEXT: usize = 65536;

// What splits a field of rule text.
const BAR: u8 = b'|';

// What is wrong with an item: 01's refusal 3, or what the book finds, 4 to 8.
#[derive(Clone, Copy, PartialEq, Eq)]
pub enum Fault {
    NotRecognised,
    Flawed(Flaw),
}

impl Fault {
    // 01's number of it.
    pub fn number(self) -> u64
        ensures { result ≡ fault_number self }
    {
        match self {
            Fault::NotRecognised => 3,
            Fault::Flawed(flaw) => flaw.number(),
        }
    }
}

impl From<Flaw> for Fault {
    ghost from_gives = { λ flaw fault. fault ≡ Flawed flaw };

    fn from(flaw: Flaw) -> Fault {
        Fault::Flawed(flaw)
    }
}

// Why a text has no plate: 01's refusals 1 and 2, an item's fault with its line, and 9.
#[derive(Clone, Copy, PartialEq, Eq)]
pub enum BuildError {
    LongText,
    NotText,
    Faulty(Fault, usize),
    ShortBuffer,
}

// The plate of a rule text, with a folding flag, into `out`: its length in bytes. A refused call changes no byte.
pub fn build(text: &[u8], flag: bool, out: &mut [u8]) -> Result<usize, BuildError>
    ensures { told result out.new ≡ build_answer text.now flag out.old }
{
    if LONGEST_TEXT < text.len() {
        return Err(BuildError::LongText);
    }
    let Ok(false) = check_text(text) else {
        return Err(BuildError::NotText);
    };
    let mut keys = [0u64; MOST_RULES];
    let mut seen = [0u8; SLOTS];
    let mut foldings = [0u64; MOST_FOLDINGS];
    let mut notes = Notes::new(&mut keys, &mut seen, &mut foldings);
    if let Err(FaultAt { fault, at }) = survey(text, &mut notes) {
        return Err(BuildError::Faulty(fault, line_of(text, at)));
    }
    let bits = 32 + 42 * notes.tally.foldings + notes.tally.bits;
    if out.len() < (bits + 7) / 8 {
        return Err(BuildError::ShortBuffer);
    }
    Ok(write_plate(out, text, &notes, flag))
}
