//! Where a comment may stand.

ghost use Rattle.std.specs.Prelude.{◌≡◌, ◌<◌, ℕ, true, false, drop, length, MatchOption};
ghost use Rattle.run_text.specs.Comments.{begins_comment};

/// Whether what begins a comment stands at the front of a text.
fn begins_comment(text: &[u8]) -> bool
    ensures { result ≡ begins_comment text.now }
{
    text.starts_with(b"//")
        || (text.starts_with(b"/*") || (text.starts_with(b"<!--") || text.starts_with(b"-->")))
}

/// The first place at which a comment may begin (ECMA-262, 12.4 and B.1.1), in a string or a pattern too; nothing where the text
/// has no comment for certain.
pub fn comment_at(text: &[u8]) -> Option<usize>
    ensures { MatchOption result ((k : ℕ) → k < length text.now → begins_comment (drop k text.now) ≡ false) (λ at. begins_comment (drop at text.now) ≡ true) }
{
    for at in 0..text.len() {
        let (_, rest) = text.split_at(at);
        if begins_comment(rest) {
            return Some(at);
        }
    }
    None
}
