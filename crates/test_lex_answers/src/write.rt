//! Calls of the writers, and what is written and marked.

mod calls;
mod commented;
mod gathered;
mod written;

use test_answers::{Answer, Question};

/// Answers a question of a writer.
pub fn tell(question: &Question<'_>, answer: &mut Answer) -> anyhow::Result<()> {
    match question.subject() {
        "gather" => gathered::gather(question, answer),
        "whole" => gathered::whole(question, answer),
        "commented" => commented::tell(question, answer),
        _ => written::written(question, answer),
    }
}
