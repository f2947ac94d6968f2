//! A program that answers the questions of its standard input.

use crate::answer::Answer;
use crate::question::{Question, read};
use std::io::{Read, Write};
use std::process::ExitCode;

/// What questions are about.
pub trait Subject {
    /// Adds to the answer the fields that the code has for a question.
    ///
    /// # Errors
    ///
    /// What keeps it from an answer.
    fn answer(&self, question: &Question<'_>, answer: &mut Answer) -> anyhow::Result<()>;
}

/// The line that answers a question: `ok` and the fields, or `error` and why there is no answer.
fn answer_line<S: Subject>(rt: &HostRuntime, subject: &S, line: &str) -> anyhow::Result<Vec<u8>> {
    let alloc = rt.alloc();
    let question = read(alloc, line)?;
    let mut answer = Answer::new(alloc);
    let mut word = "ok";
    if let Err(error) = subject.answer(&question, &mut answer) {
        word = "error";
        answer = Answer::new(alloc);
        answer.say(error)?;
    }
    let mut told = word.as_bytes().to_vec(alloc)?;
    told.extend_from_slice(answer.as_bytes())?;
    told.push(b'\n')?;
    Ok(told)
}

/// Answers each line of standard input by one of standard output.
///
/// # Errors
///
/// Why standard input can't be read, or an answer not be written.
pub fn answer_all<S: Subject>(rt: &HostRuntime, subject: &S) -> anyhow::Result<ExitCode> {
    let mut asked = String::new(rt.alloc());
    rt.stdin().read_to_string(&mut asked)?;
    let mut out = rt.stdout();
    for line in asked.lines() {
        let told = answer_line(rt, subject, line)?;
        out.write_all(told.as_slice())?;
    }
    Ok(ExitCode::SUCCESS)
}
