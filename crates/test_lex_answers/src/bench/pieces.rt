//! A script cut into its tokens without a lexer: how many there are of each kind, or of one alone. A slash divides; for
//! the kind `regexps` it opens a regular expression. For the kind `bytes` nothing is cut, and the answer is the length
//! of the file.

mod tokens;

use crate::bench::LONGEST;
use lex_token::LexicalGoal;
use std::fs;
use tokens::{Kind, Tally, count};

/// The word for the length of the file.
const BYTES: &str = "bytes";

/// The goal that says what a slash is, where tokens of this kind are asked for.
fn goal(only: Option<&str>) -> LexicalGoal {
    if only == Some(Kind::RegExp.name()) {
        LexicalGoal::RegExp
    } else {
        LexicalGoal::Div
    }
}

/// Prints how many tokens there are of each kind, or of one.
fn report(rt: &HostRuntime, tally: &Tally, only: Option<&str>) -> anyhow::Result<()> {
    for kind in Kind::ALL {
        let name = kind.name();
        if only.is_none_or(|word| word == name) {
            println!(rt; "{name} {}", tally.of(*kind))?;
        }
    }
    Ok(())
}

/// Reads the file, cuts it and prints.
pub fn run(rt: &HostRuntime, path: &str, only: Option<&str>) -> anyhow::Result<()> {
    let text = fs::read_to_string(rt, path)?;
    if only == Some(BYTES) {
        println!(rt; "{BYTES} {}", text.len())?;
        return Ok(());
    }
    if text.len() > LONGEST {
        return Err(anyhow::Error::msg("the file is too long"));
    }
    let tally = count(rt.alloc(), goal(only), text.as_str())?;
    report(rt, &tally, only)
}
