// The page that helps. The script desk prints it from this file, so that it needs no build: a line of the page is a line here.
pub(crate) const PAGE: &str =
    "desk: under which code a record is shelved, and under which it is sought

  desk [--plate PLATE]     names from standard input, a line each
  desk --help, desk --version

Each name is answered in a line of its own, as
  Peters: shelf 734000, search 734000|739400
or refused there, with the reason and its number; where a character is at fault
the name stands below once more, a caret under it. A name with too many codes
to search under still has its shelf. Lines without a name are passed over. On
a terminal it asks for names; Ctrl-D in an empty line ends.

Without --plate names are coded by the standard rules; dm build makes a plate
from other rules. Status: 0 all answered, 1 refused, 2 wrong use, or a file
or output that cannot be read or written.
";
