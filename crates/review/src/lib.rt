// What people are told of a rule text: where a refused item stands and what it was meant to be; and what no name ever meets.
#![tactic(auto)]

mod text; // text.rt: the items of a rule text, and their lines
mod nearest; // nearest.rt: what an item was meant to be
mod folds; // folds.rt: the foldings of a text, and what a name can bring
pub mod told; // told.rt: of a text that build refuses
pub mod met; // met.rt: of a text that build accepts
