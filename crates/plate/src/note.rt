// What is noted of a plate's rules while it is accepted: where each stands, and which rules are a character's group. Groups are noted for the first
// characters, those that a name may hold; any other (a folding's target may be any) has its group found by halves, since rules stand by first character.
ghost use Rattle.std.specs.Prelude.{◌≡◌, ◌+◌, ◌*◌, ◌≤◌, true, length, slice_set, ◌<◌, replicate, is_some, IfSome, get_or};
ghost use Rattle.plate.specs.Most.{most_rules};
ghost use Rattle.plate.specs.Plate.{Rule};
ghost use Rattle.plate.specs.Read.{rule_at, accepted, plate_in, most_of};
ghost use Rattle.plate.specs.Noted.{noted_characters, half, GroupIs, Parted, AllPlaced, Noted};

use super::accept::accept_noting;
use super::read::RuleAt;
use super::{Group, NOTED, read};

// A plate that is accepted, with what is noted of its rules.
#[derive(Clone, Copy)]
pub struct NotedPlate<'a> {
    pub bytes: &'a [u8],
    pub places: &'a [u32],
    pub groups: &'a [u32],
    pub ghost is_accepted: { accepted bytes.now ≡ true },
    pub ghost is_noted: { Noted bytes.now places.now groups.now },
}

impl<'a> NotedPlate<'a> {
    // The bytes as a plate, if they are one: its rules are noted in what is lent.
    pub fn accept(
        bytes: &'a [u8],
        places: &'a mut [u32],
        groups: &'a mut [u32],
    ) -> Option<NotedPlate<'a>>
        requires { (most_of bytes.now ≤ length places.old) × (groups.old ≡ replicate noted_characters 0) }
        ensures { (is_some result ≡ accepted bytes.now) × IfSome result (λ p. p.bytes.now ≡ bytes.now) }
    {
        if accept_noting(bytes, places, groups) {
            return Some(NotedPlate {
                bytes,
                places,
                groups,
            });
        }
        None
    }

    // The rule of a number.
    pub fn rule(&self, i: usize) -> RuleAt<'a>
        requires { i < length (plate_in self.now.bytes.now).rules }
        ensures { (result.bytes ≡ self.now.bytes) × ((d : Rule) → get_or (plate_in self.now.bytes.now).rules i d ≡ rule_at result.bytes.now result.at) }
    {
        RuleAt {
            bytes: self.bytes,
            at: self.places[i] as usize,
        }
    }

    // How many rules begin with a character below c: those in front, since rules stand by first character.
    // Stays: partition_point asks that its test may be called at any place, and a rule is read only where one stands, so the test's own RuleAt is not proved.
    fn rules_below(&self, c: usize) -> usize
        ensures { Parted (plate_in self.now.bytes.now).rules c result }
    {
        let mut low: usize = 0;
        let mut high = read::rule_count(self.bytes);
        while low < high {
            let middle = low + (high - low) / 2;
            let letter = self.rule(middle).pattern_char(0);
            if (letter.code as usize) < c {
                low = middle + 1;
                continue;
            }
            high = middle;
        }
        low
    }

    // A character's group: "the rules whose pattern begins with it".
    pub fn group_of(&self, c: u32) -> Group
        ensures { GroupIs (plate_in self.now.bytes.now).rules c result.first result.behind }
    {
        let code = c as usize;
        if code < NOTED {
            let group = self.groups[code] as usize;
            return Group {
                first: group / HALF,
                behind: group % HALF,
            };
        }
        Group {
            first: self.rules_below(code),
            behind: self.rules_below(code + 1),
        }
    }
}

// A group is noted in one number: its first rule times this, and the rule behind its last.
const HALF: usize = 65536;

// A character's group is noted, its first rule and the one behind its last, if the character is one of the first.
pub(crate) fn note_group(groups: &mut [u32], c: u32, first: usize, behind: usize)
    requires { (length groups.old ≡ noted_characters) × (first ≤ most_rules) × (behind ≤ most_rules) }
    ensures { groups.new ≡ slice_set groups.old c (first * half + behind) }
{
    if NOTED as u32 <= c {
        return;
    }
    groups[c as usize] = (first * HALF + behind) as u32;
}
