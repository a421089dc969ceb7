// What the programs share: their arguments, what they say and how, and the words of the refusals.
#![tactic(auto)]

pub mod rooms; // rooms.rt: how large the buffers are
pub mod status; // status.rt: how a run goes
pub mod host; // host.rt: the program that runs, and its messages
pub mod out; // out.rt: what a program says, collected and written at once
pub mod show; // show.rt: a name, a character as people may see them
pub mod caret; // caret.rt: a name, and below it a caret
pub mod words; // words.rt: why a name or a rule text was refused
pub mod options; // options.rt: the arguments
pub mod arguments; // arguments.rt: the arguments, one after the other
pub mod help; // help.rt: the page that helps, and the version
