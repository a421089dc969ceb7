// The foldings of a rule text, and which characters a name can bring to a rule.
use super::text::{Item, Items};
use chars::letters::{is_space, is_tabled};
use chars::lower::lower;

// A folding, and where it stands.
#[derive(Clone, Copy)]
pub(crate) struct Fold {
    pub key: char,
    pub target: char,
    pub at: usize,
}

// One folding for each key. A text may have so many.
#[derive(Clone, Copy)]
pub(crate) struct Folds([Option<Fold>; 128]);

impl Folds {
    pub(crate) fn none() -> Folds {
        Folds([None; 128])
    }

    // All foldings of a text that build accepts.
    pub(crate) fn of(text: &[u8]) -> Folds {
        let mut folds = Folds::none();
        for (at, item) in Items::of(text) {
            if let Item::Folding { key, target } = item {
                folds.add(Fold { key, target, at });
            }
        }
        folds
    }

    // A later folding of a key takes the place of the earlier.
    fn add(&mut self, fold: Fold) {
        let place = self
            .0
            .iter()
            .position(|one| one.is_none_or(|one| one.key == fold.key));
        if let Some(i) = place {
            self.0[i] = Some(fold);
        }
    }

    pub(crate) fn find(&self, key: char) -> Option<Fold> {
        self.0.iter().copied().flatten().find(|one| one.key == key)
    }

    // Whether some character that a name can hold is folded to this one.
    fn is_target(&self, c: char) -> bool {
        self.0
            .iter()
            .copied()
            .flatten()
            .any(|one| one.target == c && is_held(one.key))
    }

    // Whether a character can stand in a name that was lowered and folded. Without folding the foldings are none.
    pub(crate) fn is_met(&self, c: char) -> bool {
        self.is_target(c) || is_held(c) && self.find(c).is_none()
    }
}

// Whether a name can hold a character once it is lowered.
pub(crate) fn is_held(c: char) -> bool {
    let c = u32::from(c);
    is_tabled(c) && !is_space(c) && lower(c) == c
}

// Why a character comes out of no name.
pub(crate) fn reason(c: char) -> &'static str {
    if !is_tabled(u32::from(c)) {
        "which no name may hold"
    } else if is_space(u32::from(c)) {
        "white space, which names lose first"
    } else if is_held(c) {
        "which is folded first"
    } else {
        "but names are put in lower case first"
    }
}
