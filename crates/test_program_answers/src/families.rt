//! How many nodes of each family a program has.

use crate::read::{Reading, read, reading_of, refuse};
use base_token::{EsSyntax, Syntax};
use std::process::ExitCode;
use std::{fmt, fs};
use test_answers::{Answer, Question};
use tree_visit::{Node, Walk, Watch};

/// How many nodes there are of each family.
#[derive(Clone, Copy, Debug, Default)]
pub struct Families {
    pub programs: u64,
    pub statements: u64,
    pub expressions: u64,
    pub patterns: u64,
    pub names: u64,
    pub literals: u64,
    pub others: u64,
}

impl Families {
    /// The count that a node belongs to.
    fn of(&mut self, node: Node<'_>) -> &mut u64 {
        match node {
            Node::Program(_) => &mut self.programs,
            Node::Stmt(_) => &mut self.statements,
            Node::Expr(_) => &mut self.expressions,
            Node::Pat(_) => &mut self.patterns,
            Node::Ident(_) | Node::IdentName(_) | Node::PrivateName(_) | Node::BindingIdent(_) =>
                &mut self.names,
            Node::Str(_) | Node::Number(_) | Node::BigInt(_) | Node::TplElement(_) => {
                &mut self.literals
            }
            Node::Part(_, _) => &mut self.others,
        }
    }
}

impl Watch for Families {
    ghost State = { Unit {0} };

    ghost step = { λ _ s. s };

    ghost state = { λ _. tt };

    fn enter(&mut self, node: Node<'_>) {
        let count = self.of(node);
        *count = count.saturating_add(1);
    }

    fn leave(&mut self, _node: Node<'_>) {}
}

impl fmt::Display for Families {
    fn fmt<W: fmt::Write>(&self, f: &mut fmt::Formatter<W>) -> fmt::Result {
        write!(
            f,
            "{} programs, {} statements, {} expressions, {} patterns, {} names, {} literals, {} others",
            self.programs,
            self.statements,
            self.expressions,
            self.patterns,
            self.names,
            self.literals,
            self.others
        )
    }
}

/// How many nodes of each family the text of a question has, or why it is refused.
pub fn tell(question: &Question<'_>, answer: &mut Answer) -> anyhow::Result<()> {
    match read(answer.alloc(), question.text(0), reading_of(question))? {
        Ok((program, _)) => {
            let mut families = Families::default();
            program.walk(&mut families);
            answer.say("counted")?;
            Ok(answer.say(families)?)
        }
        Err(error) => refuse(&error, answer),
    }
}

/// As what a file is read: a module, nested 256 deep at most, where these words don't say otherwise.
fn file_reading(words: &[String]) -> Reading {
    let limit = match words {
        [.., name, limit] if name.as_str() == "--nesting" => limit.as_str().parse().ok(),
        _ => None,
    };
    Reading {
        script: words.iter().any(|word| word.as_str() == "--script"),
        syntax: Syntax::Es(EsSyntax {
            import_attributes: true,
            ..EsSyntax::default()
        }),
        nesting: limit.unwrap_or(256),
    }
}

/// Prints how many nodes of each family a file has.
///
/// # Errors
///
/// Why it can't be read or isn't a program, or the count not be printed.
pub fn count_file(rt: &HostRuntime, words: &[String], path: &str) -> anyhow::Result<ExitCode> {
    let text = fs::read_to_string(rt, path)?;
    match read(rt.alloc(), text.as_str(), file_reading(words))? {
        Ok((program, _)) => {
            let mut families = Families::default();
            program.walk(&mut families);
            println!(rt; "{families}")?;
            Ok(ExitCode::SUCCESS)
        }
        Err(error) => Err(anyhow::Error::msg(error.kind.msg())),
    }
}
