// The page that helps. The script ward prints it from this file, so that it needs no build: a line of the page is a line here.
pub(crate) const PAGE: &str = "ward: the codes of long lists of names

  ward [--plate PLATE] [--bare] [FILE...]
  ward --help, ward --version

Names are read from the files, or from standard input where none is given, a
line each, and answered in lines of their own: the name, a tab, and its codes,
or `!` and the number of its refusal in two digits. With --bare the codes and
refusals stand alone: line k is about name k. An empty line is the empty name.
`-` as a file is standard input.

How many names there were, and how many were refused by which number, is told
on standard error at the end. !01: the name has over 256 bytes; !02: it is not
UTF-8; !11: a character is neither white space nor below U+0180; !12: the name
has over 64 codes at some step.

Without --plate names are coded by the standard rules; dm build makes a plate
from other rules. Status: 0 all answered, 1 refused, 2 wrong use, or a file
or output that cannot be read or written.
";
