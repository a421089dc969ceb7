// The page that helps. The script dm prints it from this file, so that it needs no build: a line of the page is a line here.
pub(crate) const PAGE: &str = "dm: Daitch-Mokotoff codes of names

  dm list [--plate PLATE] NAME...       all codes of each name, as 944744|944745
  dm encode [--plate PLATE] NAME...     one code of each name, the first
  dm build RULES PLATE [--no-folding]   makes a plate from rule text
  dm check RULES [--no-folding]         builds without writing; tells of rules
                                        and foldings that no name ever meets
  dm index make NAMES INDEX             an index of the names, a line each
  dm index add INDEX NAME...            names more; tells their numbers, from 0
  dm index find INDEX NAME...           who shares a code: the numbers, and by
                                        --names NAMES the names; all by --plate
  dm help, dm --version

Names: words, or lines of a file by --names FILE, or of standard input by -.
One word alone gives its codes alone; else a line is the name, a tab, the codes.
Without --plate names are coded by the standard rules. --no-folding: they are
not folded. Options stand anywhere; behind -- all words are names or files.

A refusal is told on standard error, its number in front, a caret below the
character at fault, and the next name is taken. A refused build leaves PLATE as
it was. Status: 0 all answered, 1 some refused, 2 wrong use, or a file or
output that cannot be read or written.

  dm build my-rules.txt my.plate && dm list --plate my.plate Moskowitz Peters
";
