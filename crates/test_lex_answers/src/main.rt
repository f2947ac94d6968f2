//! Answers questions about the lexical layer: values of numbers, words, code units; the pieces between literals, literals and whole
//! tokens at the front of a text; tokens as the lexer and the sources over it hand them out; written spellings, what writers
//! write, and the words of a command line. Called with words, it measures the layer (`bench`). `docs/ROWS.md` has the questions.
//! Nothing is proved of it but that it is safe: what is read and written, the crates below promise.
#![tactic(auto)]

mod atoms;
mod bench;
mod classes;
mod kinds;
mod lexer;
mod literals;
mod names;
mod spellings;
mod tokens;
mod told;
mod trivia;
mod values;
mod words;
mod write;

use std::env;
use std::process::ExitCode;
use test_answers::{Answer, Question, Subject, answer_all};

/// The lexical layer.
struct Lexical;

/// Answers a question of what every layer speaks of.
fn answer_base(question: &Question<'_>, text: &str, answer: &mut Answer) -> anyhow::Result<()> {
    match question.subject() {
        "value" => values::value(text, answer),
        "same" => values::same(text, question.text(1), answer),
        "kind" => kinds::kind(text, answer),
        "reserving" => kinds::reserving(text, answer),
        "units" => kinds::units(text, answer),
        "atom" => atoms::atom(text, answer),
        "value_of" => atoms::str_value(text, answer),
        "settings" => atoms::settings(question, text, answer),
        "bytes" => classes::bytes(text, answer),
        "characters" => classes::characters(text, answer),
        "words" => words::words(text, answer),
        _ => Err(anyhow::Error::msg("no such question")),
    }
}

/// Answers a question of the pieces between literals.
fn answer_piece(question: &Question<'_>, text: &str, answer: &mut Answer) -> anyhow::Result<()> {
    match question.subject() {
        "piece" => trivia::piece(question, text, answer),
        "skip" => trivia::skip(question, text, answer),
        "comments" => trivia::comments(question, text, answer),
        "line" => trivia::line(text, answer),
        "hashbang" => trivia::hashbang(text, answer),
        "name" => names::name(text, answer),
        "word" => names::word(text, answer),
        "escaped" => names::escaped(question, text, answer),
        "punctuator" => names::punctuator(text, answer),
        "punctuators" => names::punctuators(text, answer),
        "regexp" => trivia::regexp(text, answer),
        "run" => trivia::run(text, answer),
        _ => answer_base(question, text, answer),
    }
}

impl Subject for Lexical {
    fn answer(&self, question: &Question<'_>, answer: &mut Answer) -> anyhow::Result<()> {
        let text = told::asked(question)?;
        match question.subject() {
            "string" => literals::string(text, answer),
            "template" => literals::template(question, text, answer),
            "pieces" => literals::pieces(text, answer),
            "raw" => literals::raw(text, answer),
            "number" => literals::number(text, answer),
            "tokens" => tokens::tokens(question, text, answer),
            "count" => tokens::count(question, text, answer),
            "context" => tokens::context(question, text, answer),
            "reserved" => tokens::reserved(text, answer),
            "lexer" => lexer::tell(question, text, answer),
            "spell" => spellings::spell(question, text, answer),
            "gather" | "whole" | "js" | "omit" | "twice" | "lent" | "boxed" | "commented" => {
                write::tell(question, answer)
            }
            _ => answer_piece(question, text, answer),
        }
    }
}

fn main(rt: HostRuntime) -> anyhow::Result<ExitCode> {
    let words: Vec<String> = env::args(&rt)?.collect(rt.alloc())?;
    if words.len() > 1 {
        bench::run(&rt, words.as_slice())?;
        return Ok(ExitCode::SUCCESS);
    }
    answer_all(&rt, &Lexical)
}
