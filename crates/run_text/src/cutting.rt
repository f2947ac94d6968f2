//! The lines of a text.

ghost use Rattle.std.specs.Prelude.{◌≡◌, ◌<◌, length, IfOk};
ghost use Rattle.run_text.specs.Lines.{AreLines, IsFirstLength, IsLine};

use std::alloc::{AllocError, Global};

/// How many bytes the first line has, with the line feed that ends it.
fn first_length(text: &[u8]) -> usize
    ensures { IsFirstLength text.now result }
{
    for (at, byte) in text.iter().enumerate() {
        if *byte == b'\n' {
            return at + 1;
        }
    }
    text.len()
}

/// The first line of a text, with the line feed that ends it, and what follows.
fn first_line(text: &[u8]) -> (&[u8], &[u8])
    requires { 0 < length text.now }
    ensures read { IsLine text.now result.0.now result.1.now }
    ensures shorter { length result.1.now < length text.now }
{
    text.split_at(first_length(text))
}

/// The lines of a text, each with the line feed that ends it; the last may have none.
///
/// # Errors
///
/// `AllocError` where there is no memory for them.
#[tactic(auto, using(crate::proofs::LineLemmas::lines_begun, crate::proofs::LineLemmas::lines_more, crate::proofs::LineLemmas::lines_done))]
pub fn lines<'a>(alloc: Global, text: &'a [u8]) -> Result<Vec<&'a [u8]>, AllocError>
    ensures { IfOk result (λ lines. AreLines lines.items text.now) }
{
    let mut lines = Vec::new(alloc);
    let mut rest = text;
    'lines: while !rest.is_empty() {
        let (line, behind) = first_line(rest);
        lines.push(line)?;
        rest = behind;
    }
    Ok(lines)
}
