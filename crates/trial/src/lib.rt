// What the programs share that run cases and write what comes of them: bytes on the way out, a buffer as it is lent, and cases read from a file.
// A case is a line: a letter that says what to do, fields, a title, a semicolon, a space, bytes. A line with the letter # is a comment.
#![tactic(auto)]

pub mod say; // say.rt: bytes and their sum, and a line that cannot be taken
pub mod lent; // lent.rt: a buffer as it is lent
pub mod case; // case.rt: a line, its fields and its bytes
pub mod file; // file.rt: a whole file
