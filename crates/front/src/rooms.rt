// How large the buffers of the programs are. They stand on the stack: under one of 256 KiB a program has one room for a plate, one for a text or names and
// one for what it says, and hands them down: the compiler lays the frames of all functions into one.

// A plate for the programs has at most 65,536 bytes, and so has a rule text. One byte more tells a longer file.
pub const FILE_ROOM: usize = 65537;

// What is said before it is written, and what is read at once of names, a line each, by a program that has no room for a text.
pub const OUT_ROOM: usize = 16384;

// A message.
pub const NOTE_ROOM: usize = 2048;

// A word of the command line, and so a path.
pub const WORD_ROOM: usize = 4096;

// The codes of 64 branches, the most that list gives.
pub const CODES_ROOM: usize = 447;
