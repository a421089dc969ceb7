// Names answered by a plate: the plate that a program was given, the answer on one name, and names read a line each.
#![tactic(auto)]

pub mod given; // given.rt: the plate that is given
pub mod answer; // answer.rt: one name
pub mod lines; // lines.rt: names a line each
