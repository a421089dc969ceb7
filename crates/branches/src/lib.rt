// Branches: a branch, its extension by an alternative, and one step of all branches. 01, "From name to codes".
#![tactic(auto)]

ghost use Rattle.std.specs.Prelude.{◌≡◌, [], ◌∷◌, ◌++◌, map, ◌+◌, ◌≤◌, ◌<◌, length, take, leb, cond, is_ok, nat_eq};
ghost use Rattle.std.specs.List.{list_any};
ghost use Rattle.std.specs.Cmp.Lexicographic.{pointwise};
ghost use Rattle.laws.specs.Lists.{same};
ghost use Rattle.laws.specs.Once.{once};
ghost use Rattle.branches.specs.Branches as defined;
ghost use Rattle.branches.specs.Held.{most_branches, use_of};

use plate::MOST_DIGITS;
use plate::held::{Digits, Field};
use std::marker::Model;

// "up to 64 are held side by side", each with six digits.
pub const MOST_BRANCHES: usize = 64;

// "A branch is its digits so far, at most six, and its last replacement."
#[derive(Clone, Copy, PartialEq, Eq)]
pub struct Branch {
    pub digits: Digits,
    pub last: Digits,
}

impl Model for Branch {
    ghost use Rattle.branches.specs.Branches.{Branch as Held};

    ghost Value = { Held };

    ghost view = { λ b. record { digits = b.digits; last = b.last } };

    ghost inverse = { λ b. record { digits = b.digits; last = b.last } };
}

impl Branch {
    // The empty branch: no digits, no last replacement.
    const EMPTY: Branch = Branch {
        digits: Digits::NONE,
        last: Digits::NONE,
    };

    // "the last replacement ends with it"
    #[tactic(auto, using(crate::proofs::Extending::ended))]
    fn ends_with(&self, alternative: &Digits) -> bool
        ensures { result ≡ defined.ends_with self.now.last alternative.now }
    {
        self.last.as_slice().ends_with(alternative.as_slice())
    }

    // What a branch becomes when it meets an alternative; `anyway` between m and n. (The Rust's process_next_replacement.) "It is appended and cut at six
    // digits, unless the last replacement ends with it; [..] It becomes the last replacement either way."
    #[tactic(auto, unfolding(crate::specs::Branches::extend))]
    pub fn extend(&self, alternative: &Digits, anyway: bool) -> Branch
        ensures { result ≡ defined.extend anyway alternative.now self.now }
    {
        let digits = if anyway || !self.ends_with(alternative) {
            self.digits.append(alternative)
        } else {
            self.digits
        };
        Branch {
            digits,
            last: *alternative,
        }
    }

    // All six digits, zeros filled in.
    pub fn code(&self) -> [u8; MOST_DIGITS]
        ensures { result ≡ defined.code self.now }
    {
        self.digits.padded()
    }
}

// More branches than there is room for.
#[derive(Clone, Copy, Debug, PartialEq, Eq)]
pub struct TooMany;

// "up to 64 are held side by side"; those past the count are empty, so that branches are held in one way only.
// Stays: there is no heap, so a room for the most and how much of it is in use, which callers see as a list.
#[derive(Clone, Copy)]
pub struct Branches {
    pub items: [Branch; MOST_BRANCHES],
    pub count: usize,
}

impl Model for Branches {
    ghost use Rattle.std.specs.Prelude.{List, length, take};
    ghost use Rattle.branches.specs.Branches.{Branch as Held};
    ghost use Rattle.branches.specs.Held.{filled, BranchesOk, branches_again};

    ghost Value = { List Held };

    ghost view = { λ bs. take bs.count bs.items };

    ghost invariant = { λ bs. BranchesOk bs.items bs.count };

    ghost inverse = { λ bs. record { items = filled bs; count = length bs } };

    ghost inverse_ok = { λ bs ok. let e = branches_again bs.items bs.count ok in λ i. record { items = e.0 i; count = e.1 i } };
}

// One of them has this code.
fn has_code(branches: &[Branch], code: [u8; MOST_DIGITS]) -> bool
    ensures { result ≡ list_any (λ b. pointwise nat_eq (defined.code b) code) branches.now }
{
    branches.iter().any(|b| b.code() == code)
}

impl Branches {
    // "One empty branch stands at the start"
    pub fn start() -> Branches
        ensures { result ≡ defined.start }
    {
        Branches {
            items: [Branch::EMPTY; MOST_BRANCHES],
            count: 1,
        }
    }

    pub fn as_slice(&self) -> &[Branch]
        ensures { result.now ≡ self.now }
    {
        &self.items[..self.count]
    }

    // Behind the first n, in the place of another or as one more.
    fn put(&mut self, n: usize, b: Branch)
        requires { (n ≤ length self.old) × (n < most_branches) }
        ensures front { take (n + 1) self.new ≡ take n self.old ++ b ∷ [] }
        ensures long { n < length self.new }
    {
        self.items[n] = b;
        self.count = self.count.max(n + 1);
    }

    // The first n.
    fn truncate(&mut self, n: usize)
        requires { n ≤ length self.old }
        ensures { self.new ≡ take n self.old }
    {
        // Stays: it turns while more are held, which is what the test says.
        while n < self.count {
            self.count -= 1;
            self.items[self.count] = Branch::EMPTY;
        }
    }

    // One step of all branches. "Each branch, in order, meets each alternative, in order. [..] A branch equal in digits and last replacement to an earlier one
    // of this step is dropped." Where they are too many, the branches stay as they were.
    pub fn step(&mut self, field: &Field, anyway: bool, room: usize) -> Result<(), TooMany>
        requires { room ≤ most_branches }
        ensures { let made = defined.step (use_of field.now anyway) self.old in
            (is_ok result ≡ leb (length made) room) × (self.new ≡ cond (is_ok result) made self.old) }
    {
        // Most steps: the branch is extended where it stands. A step of any other kind copies all 64.
        if let [alternative] = field.as_slice()
            && self.count == 1
            && 0 < room
        {
            self.items[0] = self.items[0].extend(alternative, anyway);
            return Ok(());
        }
        // Copied, which is faster than filled with empty ones.
        let mut made = *self;
        let mut n = 0;
        for b in self.as_slice() {
            for alternative in field.as_slice() {
                let new = b.extend(alternative, anyway);
                if made.as_slice()[..n].contains(&new) {
                    continue;
                }
                if room <= n {
                    return Err(TooMany);
                }
                made.put(n, new);
                n += 1;
            }
        }
        made.truncate(n);
        *self = made;
        Ok(())
    }

    // "Drop a code equal to an earlier one when writing; the first place stays." The first branch of each code, once the last step is made.
    pub fn once_each(self) -> Branches
        ensures { (map defined.code result ≡ once same (map defined.code self)) × (length result ≤ length self) }
    {
        if self.count < 2 {
            return self;
        }
        let mut kept = self;
        let mut n = 0;
        for b in self.as_slice() {
            if has_code(&kept.as_slice()[..n], b.code()) {
                continue;
            }
            kept.put(n, *b);
            n += 1;
        }
        kept.truncate(n);
        kept
    }
}
