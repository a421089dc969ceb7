// Form 3. 01: "Line end: optional spaces or tabs, optional `//` comment up to a newline, then newline, CR LF or end of text."
ghost use Rattle.std.specs.Prelude.{◌≤◌, ◌≡◌, length};
ghost use Rattle.rule_text.specs.Forms.{comment, ending, end_of_line, line_at};
ghost use Rattle.rule_text.specs.Answers.{EndsLine, From};

use super::scan::count_blanks;
use chars::scan::count_until;

// How long the comment in front is; 0 where there is none.
#[tactic(auto, unfolding(crate::specs::Forms::comment, crate::specs::Forms::pair_at))]
fn eol_comment(rest: &[u8]) -> usize
    ensures { (result ≡ comment rest.now) × (result ≤ length rest.now) }
{
    match rest {
        [b'/', b'/', ..] => count_until(rest, b'\n'),
        _ => 0,
    }
}

// Newline, CR LF or end of text.
#[tactic(auto, unfolding(crate::specs::Forms::ending, crate::specs::Forms::pair_at))]
fn ending_of(rest: &[u8]) -> Option<usize>
    ensures { (result ≡ ending rest.now) × EndsLine (length rest.now) result }
{
    match rest {
        [] => Some(0),
        [b'\n', ..] => Some(1),
        [b'\r', b'\n', ..] => Some(2),
        _ => None,
    }
}

#[tactic(auto, unfolding(crate::specs::Forms::end_of_line, crate::specs::Forms::later))]
pub fn end_of_line(rest: &[u8]) -> Option<usize>
    ensures { (result ≡ end_of_line rest.now) × EndsLine (length rest.now) result }
{
    let n = count_blanks(rest);
    let behind = &rest[n..];
    let m = eol_comment(behind);
    Some(n + (m + ending_of(&behind[m..])?))
}

// A line end from a place on.
#[tactic(auto, unfolding(crate::specs::Forms::line_at, crate::specs::Forms::later))]
pub(crate) fn line_at(rest: &[u8], at: usize) -> Option<usize>
    requires { at ≤ length rest.now }
    ensures { (result ≡ line_at rest.now at) × From at (length rest.now) result }
{
    Some(at + end_of_line(&rest[at..])?)
}
