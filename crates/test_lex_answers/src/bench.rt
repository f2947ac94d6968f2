//! What the lexical layer and the writers take, for the scripts in `bench/`:
//!
//! - `tokens FILE TIMES [comments]`: reads the tokens of a script so many times over, and prints how many there are.
//! - `pieces FILE [KIND]`: cuts a script into its tokens without a lexer, and prints how many there are of each kind.
//! - `spell KIND COUNT`: writes so many spellings of a kind to standard output.
//! - `write KIND COUNT`: gives a writer so many short texts, or marks, of a kind.

mod lexing;
mod pieces;
mod spelling;
mod writing;

/// What is measured.
const USAGE: &str =
    "usage: test_lex_answers tokens FILE TIMES [comments] | pieces FILE [KIND] | spell KIND COUNT | write KIND COUNT";

/// The greatest length of a file whose bytes have places.
const LONGEST: usize = 0xFFFF_FFFE;

/// Does what the first of two or more words asks for.
fn measure(rt: &HostRuntime, word: &str, first: &str, rest: &[String]) -> anyhow::Result<()> {
    match (word, rest) {
        ("tokens", [times]) => lexing::run(rt, first, times.as_str().parse::<u32>()?, false),
        ("tokens", [times, last]) if last.as_str() == "comments" => {
            lexing::run(rt, first, times.as_str().parse::<u32>()?, true)
        }
        ("pieces", []) => pieces::run(rt, first, None),
        ("pieces", [kind]) => pieces::run(rt, first, Some(kind.as_str())),
        ("spell", [count]) => spelling::run(rt, first, count.as_str().parse::<u32>()?),
        ("write", [count]) => writing::run(rt, first, count.as_str().parse::<u32>()?),
        _ => Err(anyhow::Error::msg(USAGE)),
    }
}

/// Measures what the words behind the program's name ask for.
pub fn run(rt: &HostRuntime, words: &[String]) -> anyhow::Result<()> {
    match words {
        [_, word, first, rest @ ..] => measure(rt, word.as_str(), first.as_str(), rest),
        _ => Err(anyhow::Error::msg(USAGE)),
    }
}
