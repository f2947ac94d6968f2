//! The tokens of a script, one after another.

ghost use Rattle.std.specs.Prelude.{◌<◌, length};

use base_token::{DUMMY_SP, Error, SyntaxError, Token};
use lex_pieces::{Goal, hashbang, skip_trivia};
use lex_token::{Lexeme, LexicalGoal, read_token};
use std::alloc::Global;

/// What a token is.
#[derive(Clone, Copy, Debug, PartialEq, Eq)]
pub enum Kind {
    Hashbang,
    /// All trivia up to the next token.
    Trivia,
    Name,
    /// A name with an escape.
    Escaped,
    Str,
    /// The characters of a template.
    Template,
    Number,
    RegExp,
    /// A punctuator, or a mark of a template.
    Punctuator,
}

impl Kind {
    /// All kinds.
    pub const ALL: &'static [Kind] = &[
        Kind::Hashbang,
        Kind::Trivia,
        Kind::Name,
        Kind::Escaped,
        Kind::Str,
        Kind::Template,
        Kind::Number,
        Kind::RegExp,
        Kind::Punctuator,
    ];

    /// Its word.
    pub fn name(self) -> &'static str {
        match self {
            Kind::Hashbang => "hashbangs",
            Kind::Trivia => "trivia",
            Kind::Name => "names",
            Kind::Escaped => "escaped",
            Kind::Str => "strings",
            Kind::Template => "templates",
            Kind::Number => "numbers",
            Kind::RegExp => "regexps",
            Kind::Punctuator => "punctuators",
        }
    }

    /// The kind of a token.
    fn of(lexeme: &Lexeme<'_>) -> Kind {
        match &lexeme.token {
            Token::Word(_) if lexeme.escaped => Kind::Escaped,
            Token::Word(_) => Kind::Name,
            Token::Str { .. } => Kind::Str,
            Token::Template { .. } => Kind::Template,
            Token::Num { .. } | Token::BigInt { .. } => Kind::Number,
            Token::Regex(_, _) => Kind::RegExp,
            _ => Kind::Punctuator,
        }
    }
}

/// How many tokens of each kind a text has.
#[derive(Clone, Copy, Debug, Default, PartialEq, Eq)]
pub struct Tally {
    hashbangs: u32,
    trivia: u32,
    names: u32,
    escaped: u32,
    strings: u32,
    templates: u32,
    numbers: u32,
    regexps: u32,
    punctuators: u32,
}

impl Tally {
    /// How many there are of a kind.
    pub fn of(&self, kind: Kind) -> u32 {
        match kind {
            Kind::Hashbang => self.hashbangs,
            Kind::Trivia => self.trivia,
            Kind::Name => self.names,
            Kind::Escaped => self.escaped,
            Kind::Str => self.strings,
            Kind::Template => self.templates,
            Kind::Number => self.numbers,
            Kind::RegExp => self.regexps,
            Kind::Punctuator => self.punctuators,
        }
    }

    /// Counts one more of a kind.
    fn add(&mut self, kind: Kind) {
        let count = match kind {
            Kind::Hashbang => &mut self.hashbangs,
            Kind::Trivia => &mut self.trivia,
            Kind::Name => &mut self.names,
            Kind::Escaped => &mut self.escaped,
            Kind::Str => &mut self.strings,
            Kind::Template => &mut self.templates,
            Kind::Number => &mut self.numbers,
            Kind::RegExp => &mut self.regexps,
            Kind::Punctuator => &mut self.punctuators,
        };
        *count = count.saturating_add(1);
    }
}

/// Under which goal the next token comes.
#[derive(Drop)]
struct Place {
    /// The goal outside templates.
    outside: LexicalGoal,
    /// The goal of the next token.
    goal: LexicalGoal,
    /// Of each open brace, whether it is one of a template.
    braces: Vec<bool>,
}

impl Place {
    /// The start of a text.
    fn start(alloc: Global, outside: LexicalGoal) -> Place {
        Place {
            outside,
            goal: outside,
            braces: Vec::new(alloc),
        }
    }

    /// Whether trivia may come.
    fn has_trivia(&self) -> bool {
        self.goal == self.outside
    }

    /// Opens a brace, behind which the goal is the one outside templates.
    fn open(&mut self, in_template: bool) -> Result<LexicalGoal, Error> {
        match self.braces.push(in_template) {
            Ok(()) => Ok(self.outside),
            Err(_) => Err(Error {
                span: DUMMY_SP,
                kind: SyntaxError::Memory,
            }),
        }
    }

    /// Closes a brace. Behind one of a template its characters go on.
    fn close(&mut self) -> LexicalGoal {
        match self.braces.pop() {
            Some(true) => LexicalGoal::TemplateTail,
            _ => self.outside,
        }
    }

    /// Goes past a token.
    fn pass(&mut self, token: &Token<'_>) -> Result<(), Error> {
        self.goal = match token {
            Token::BackQuote if self.goal != LexicalGoal::TemplateEnd => LexicalGoal::TemplateTail,
            Token::Template { .. } => LexicalGoal::TemplateEnd,
            Token::DollarLBrace => self.open(true)?,
            Token::LBrace => self.open(false)?,
            Token::RBrace => self.close(),
            _ => self.outside,
        };
        Ok(())
    }
}

/// Counts the tokens of a script. `goal` says what a slash is.
///
/// # Errors
///
/// What is wrong with the first token that can't be read; or memory ran out.
pub fn count(alloc: Global, goal: LexicalGoal, text: &str) -> Result<Tally, Error>
    requires { length text.now < 0xFFFF_FFFF }
{
    let end = text.len() as u32 + 1;
    let mut tally = Tally::default();
    let mut place = Place::start(alloc, goal);
    let mut rest = text;
    if let Some((_, more)) = hashbang(text) {
        tally.add(Kind::Hashbang);
        rest = more;
    }
    let mut first = true;
    'tokens: for _ in 0..=2 * text.len() {
        if place.has_trivia() {
            let (_, more) = skip_trivia(end, Goal::Script, first, rest)?;
            if more.len() < rest.len() {
                tally.add(Kind::Trivia);
            }
            rest = more;
            first = false;
        }
        let Some(lexeme) = read_token(alloc, place.goal, rest, end)? else {
            break;
        };
        tally.add(Kind::of(&lexeme));
        place.pass(&lexeme.token)?;
        rest = lexeme.rest;
    }
    Ok(tally)
}
