//! Tokens as the lexer hands them out, and the sources over it.

mod again;
mod run;
mod steps;
mod told;

use test_answers::{Answer, Question};

/// The tokens of a text, by the steps of the second field.
pub fn tell(question: &Question<'_>, text: &str, answer: &mut Answer) -> anyhow::Result<()> {
    if question.has("steps") {
        return run::by_steps(question, text, question.text(1), answer);
    }
    run::to_the_end(question, text, answer)
}
