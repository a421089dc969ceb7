// Blanks in front of some bytes, counted.
ghost use Rattle.std.specs.Prelude.{◌≤◌, ◌≡◌, length};
ghost use Rattle.rule_text.specs.Forms.{blanks};

// How many spaces or tabs stand in front.
pub(crate) fn count_blanks(rest: &[u8]) -> usize
    ensures { (result ≡ blanks rest.now) × (result ≤ length rest.now) }
{
    rest.iter()
        .take_while(|x| matches!(**x, b' ' | b'\t'))
        .count()
}
