//! Answers questions about whole programs: what the parser makes of texts, and what the printer writes for them. With
//! `--count [--script] [--nesting N] PATH` it counts the nodes of a file by family. `docs/ROWS.md` has the questions. Nothing is
//! proved of it but that it is safe: what is read and written, the crates below promise.
#![tactic(auto)]

mod families;
mod front;
mod part;
mod places;
mod print;
mod read;
mod rename;
mod trees;

use std::env;
use std::process::ExitCode;
use test_answers::{Answer, Question, Subject, answer_all};

/// Texts, and what parser and printer make of them.
struct Programs;

impl Subject for Programs {
    fn answer(&self, question: &Question<'_>, answer: &mut Answer) -> anyhow::Result<()> {
        match question.subject() {
            "read" => read::tell(question, answer),
            "same" => read::tell_same(question, answer),
            "part" => part::tell(question, answer),
            "print" => print::tell(question, answer),
            "count" => families::tell(question, answer),
            "front" => front::tell(question, answer),
            "run" => front::tell_run(question, answer),
            "tree" => trees::tell(question, answer),
            "messages" => front::tell_messages(answer),
            "place" => front::tell_place(question, answer),
            "rename" => rename::tell(question, answer),
            _ => Err(anyhow::Error::msg("no such question")),
        }
    }
}

fn main(rt: HostRuntime) -> anyhow::Result<ExitCode> {
    let words: Vec<String> = env::args(&rt)?.collect(rt.alloc())?;
    match words.as_slice() {
        [_, first, rest @ .., path] if first.as_str() == "--count" => {
            families::count_file(&rt, rest, path.as_str())
        }
        _ => answer_all(&rt, &Programs),
    }
}
