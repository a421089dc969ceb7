// Form 4. 01: "Block comment: `/*`, up to the first `*/` behind it, line end."
ghost use Rattle.std.specs.Prelude.{◌≡◌, length};
ghost use Rattle.rule_text.specs.Forms.{closing, multiline_comment};
ghost use Rattle.rule_text.specs.Answers.{Closes, Comments};

use super::lines::line_at;

// How many bytes stand before the first `*/`.
fn closing_of(rest: &[u8]) -> Option<usize>
    ensures { (result ≡ closing rest.now) × Closes (length rest.now) result }
{
    for i in 0..rest.len() {
        if rest[i..].starts_with(b"*/") {
            return Some(i);
        }
    }
    None
}

#[tactic(auto, unfolding(crate::specs::Forms::multiline_comment, crate::specs::Forms::pair_at))]
pub fn multiline_comment(rest: &[u8]) -> Option<usize>
    ensures { (result ≡ multiline_comment rest.now) × Comments (length rest.now) result }
{
    let [b'/', b'*', behind @ ..] = rest else {
        return None;
    };
    line_at(rest, closing_of(behind)? + 4)
}
