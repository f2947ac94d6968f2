//! The parser's state, and the smallest steps on it.
ghost use Rattle.std.specs.Prelude.{◌≡◌, ◌≢◌, ◌<◌, ◌≤◌, false, true, None, if◌then◌else◌, IfErr, IfOk, IsTrue, OnOk, option_map};
ghost use Rattle.grammar_spec.specs.Tokens.Input.{brk, brk2, content, escaped, first_span, hi, is_word, kind, kind2, lo, rest, span, text};
ghost use Rattle.lex_source.specs.Machine.{shown_spot};
ghost use Rattle.grammar_spec.specs.Reader.Source as spec;
ghost use Rattle.grammar_spec.specs.Reader.Expressions.{literal};
ghost use Rattle.parse_state.specs.Answers.{IsMemory, IsSyntax};
ghost use Rattle.parse_state.specs.Cursors.{stream_of};

use crate::failure::Failure;
use base_token::{BytePos, Error, Span, SyntaxError, Token, TokenAndSpan};
use lex_source::kind_numbers::token_number;
use lex_source::{Ahead, Look, Tokens, kinds};
use std::alloc::{AllocError, Global};

/// A source of tokens that is read, one token ahead.
#[derive(Drop)]
pub struct Parser<'a, I: Tokens<'a> + Drop> {
    /// Where the tree is made.
    pub alloc: Global,
    /// The source, which stands behind the token that comes.
    pub input: I,
    /// The token that comes.
    pub ahead: Ahead<'a>,
    /// Where the last token that was taken ends.
    pub last: BytePos,
    /// The starts of arrays and objects in which a comma follows a last spread.
    pub commas: Vec<u32>,
    /// Where the last `await` that was taken as a name ends.
    pub awaited: Option<BytePos>,
}

impl<'a, I: Tokens<'a> + Drop> Parser<'a, I> {
    ghost use Rattle.parse_state.specs.Reads.{at_hand, to_come, Passes, Shorter, NotLonger};
    ghost use Rattle.parse_state.specs.States.{state_of};

    /// Whether the token that comes has this kind.
    #[inline]
    #[tactic(auto, using(crate::proofs::Firsts::firsts), unfolding(crate::specs::Cursors::stream_of))]
    pub fn at(&self, kind: u8) -> bool
        ensures { result ≡ spec.at (stream_of I.machine) kind (state_of I.state self.now) }
    {
        self.ahead.kind() == kind
    }

    /// The kind of the token that comes.
    #[inline]
    #[tactic(auto, using(crate::proofs::Firsts::firsts), unfolding(crate::specs::Cursors::stream_of))]
    pub fn kind(&self) -> u8
        ensures { result ≡ kind (at_hand I.machine I.state self.now) }
    {
        self.ahead.kind()
    }

    /// Whether a line break stands before the token that comes.
    #[inline]
    #[tactic(auto, using(crate::proofs::Firsts::firsts), unfolding(crate::specs::Cursors::stream_of))]
    pub fn breaks(&self) -> bool
        ensures { result ≡ brk (at_hand I.machine I.state self.now) }
    {
        self.ahead.breaks()
    }

    /// Where the token that comes begins; at the end, where the last one ended.
    #[tactic(auto, using(crate::proofs::Firsts::firsts), unfolding(crate::specs::Cursors::stream_of))]
    pub fn lo(&self) -> BytePos
        ensures { result.0 ≡ lo (at_hand I.machine I.state self.now) }
    {
        self.ahead.lo(self.last)
    }

    /// Where the token that comes ends.
    #[tactic(auto, using(crate::proofs::Firsts::firsts), unfolding(crate::specs::Cursors::stream_of))]
    pub fn hi(&self) -> BytePos
        ensures { result.0 ≡ hi (at_hand I.machine I.state self.now) }
    {
        self.ahead.hi(self.last)
    }

    /// The place of the token that comes.
    pub fn place(&self) -> Span
        ensures { result ≡ first_span (at_hand I.machine I.state self.now) }
    {
        Span {
            lo: self.lo(),
            hi: self.hi(),
        }
    }

    /// From a place up to where the last token that was taken ends.
    #[tactic(auto, unfolding(crate::specs::Cursors::stream_of))]
    pub fn since(&self, start: BytePos) -> Span
        ensures { result ≡ span start.0 ((stream_of I.machine).last (state_of I.state self.now).source) }
    {
        Span {
            lo: start,
            hi: self.last,
        }
    }

    /// Takes the token that comes. At the end nothing changes.
    ///
    /// # Errors
    ///
    /// Want of memory.
    #[inline(never)]
    #[tactic(auto, using(crate::proofs::Taking::takes), unfolding(crate::specs::Cursors::stream_of))]
    fn advance(&mut self) -> Result<(), AllocError>
        ensures value { OnOk result (state_of I.state self.new
            ≡ spec.past (stream_of I.machine) (state_of I.state self.old)) }
        ensures shorter { OnOk result (kind (at_hand I.machine I.state self.old) ≢ 0
            → to_come I.machine I.state self.new < to_come I.machine I.state self.old) }
        ensures not_longer { OnOk result (to_come I.machine I.state self.new ≤ to_come I.machine I.state self.old) }
    {
        if self.ahead.is_none() {
            return Ok(());
        }
        let end = self.ahead.hi(self.last);
        self.input.next_into(&mut self.ahead)?;
        self.last = end;
        Ok(())
    }

    /// Takes the token that comes. At the end nothing changes.
    ///
    /// # Errors
    ///
    /// Want of memory.
    #[inline]
    pub fn bump(&mut self) -> Result<(), Failure>
        ensures value { OnOk result (state_of I.state self.new
            ≡ spec.past (stream_of I.machine) (state_of I.state self.old)) }
        ensures shorter { IfOk result (λ _. kind (at_hand I.machine I.state self.old) ≢ 0
            → to_come I.machine I.state self.new < to_come I.machine I.state self.old) }
        ensures not_longer { NotLonger I.machine I.state self.old self.new result }
        ensures full { IfErr result IsMemory }
    {
        match self.advance() {
            Ok(()) => Ok(()),
            Err(_) => Err(Failure::Memory),
        }
    }

    /// Takes the token that comes, and hands it out. At the end nothing changes.
    ///
    /// # Errors
    ///
    /// Want of memory.
    #[tactic(auto, using(crate::proofs::Taking::takes), unfolding(crate::specs::Cursors::stream_of))]
    pub fn take(&mut self) -> Result<Option<TokenAndSpan<'a>>, Failure>
        ensures token { IfOk result (λ t. option_map shown_spot t ≡ (state_of I.state self.old).source.first) }
        ensures value { OnOk result (state_of I.state self.new
            ≡ spec.past (stream_of I.machine) (state_of I.state self.old)) }
        ensures shorter { IfOk result (λ _. kind (at_hand I.machine I.state self.old) ≢ 0
            → to_come I.machine I.state self.new < to_come I.machine I.state self.old) }
        ensures not_longer { NotLonger I.machine I.state self.old self.new result }
        ensures full { IfErr result IsMemory }
    {
        let end = self.ahead.hi(self.last);
        let Some(token) = self.ahead.take() else {
            return Ok(None);
        };
        match self.input.next_into(&mut self.ahead) {
            Ok(()) => {
                self.last = end;
                Ok(Some(token))
            }
            Err(_) => Err(Failure::Memory),
        }
    }

    /// The kind of the token behind the one that comes, and whether a line break stands before it.
    ///
    /// # Errors
    ///
    /// Want of memory.
    #[tactic(auto, using(crate::proofs::Thirds::seconds), unfolding(crate::specs::Cursors::stream_of))]
    pub fn second(&self) -> Result<(u8, bool), Failure>
        ensures kind { IfOk result (λ x. kind (at_hand I.machine I.state self.now) ≢ 0 → x.0
            ≡ kind2 (at_hand I.machine I.state self.now)) }
        ensures breaks { IfOk result (λ x. kind (at_hand I.machine I.state self.now) ≢ 0 → x.1
            ≡ brk2 (at_hand I.machine I.state self.now)) }
        ensures full { IfErr result IsMemory }
    {
        match self.input.look(Look::Next) {
            Ok(Some(token)) => Ok((token_number(&token.token), token.had_line_break)),
            Ok(None) => Ok((kinds::END, false)),
            Err(_) => Err(Failure::Memory),
        }
    }

    /// The same of the token behind the second one.
    ///
    /// # Errors
    ///
    /// Want of memory.
    #[tactic(auto, using(crate::proofs::Thirds::thirds, crate::proofs::Taking::ends_and_thirds), unfolding(crate::specs::Cursors::stream_of))]
    pub fn third(&self) -> Result<(u8, bool), Failure>
        ensures kind { IfOk result (λ x. x.0 ≡ kind2
            (spec.input (stream_of I.machine)
            (spec.past (stream_of I.machine) (state_of I.state self.now)))) }
        ensures breaks { IfOk result (λ x. x.1 ≡ brk2
            (spec.input (stream_of I.machine)
            (spec.past (stream_of I.machine) (state_of I.state self.now)))) }
        ensures rest { IfOk result (λ x. x.0 ≡ kind2 (rest (at_hand I.machine I.state self.now))) }
        ensures full { IfErr result IsMemory }
    {
        if self.ahead.is_none() {
            return Ok((kinds::END, false));
        }
        match self.input.look(Look::Second) {
            Ok(Some(token)) => Ok((token_number(&token.token), token.had_line_break)),
            Ok(None) => Ok((kinds::END, false)),
            Err(_) => Err(Failure::Memory),
        }
    }

    /// The text of the word that comes, or nothing.
    #[tactic(auto, using(crate::proofs::Firsts::firsts), unfolding(crate::specs::Cursors::stream_of))]
    pub fn text(&self) -> &str
        ensures { result.now ≡ text (at_hand I.machine I.state self.now) }
    {
        self.ahead.text()
    }

    /// Whether the token that comes is a literal: a string, a number or a regular expression.
    #[tactic(auto, using(crate::proofs::Firsts::firsts, crate::proofs::Firsts::no_literal, crate::proofs::Firsts::literal_of), unfolding(crate::specs::Cursors::stream_of))]
    pub fn is_literal(&self) -> bool
        ensures some { result ≡ true → literal (kind (at_hand I.machine I.state self.now))
            (content (at_hand I.machine I.state self.now))
            (first_span (at_hand I.machine I.state self.now)) ≢ None }
        ensures none { result ≡ false → literal (kind (at_hand I.machine I.state self.now))
            (content (at_hand I.machine I.state self.now))
            (first_span (at_hand I.machine I.state self.now)) ≡ None }
    {
        match self.ahead.token() {
            Some(token) => match token {
                Token::Str { .. } | Token::Num { .. } | Token::BigInt { .. } | Token::Regex(_, _) =>
                    true,
                _ => false,
            },
            None => false,
        }
    }

    /// Takes the token that comes if it has this kind, and tells whether it had.
    ///
    /// # Errors
    ///
    /// Want of memory.
    #[inline]
    pub fn eat(&mut self, kind: u8) -> Result<bool, Failure>
        requires { 0 < kind }
        ensures value { IfOk result (λ b. b ≡ spec.at (stream_of I.machine) kind (state_of I.state self.old)) }
        ensures state { IfOk result (λ b. state_of I.state self.new
            ≡ (if b then spec.past (stream_of I.machine) (state_of I.state self.old) else state_of
            I.state self.old)) }
        ensures shorter { IfOk result (λ b. IsTrue b → to_come I.machine I.state self.new
            < to_come I.machine I.state self.old) }
        ensures not_longer { NotLonger I.machine I.state self.old self.new result }
        ensures full { IfErr result IsMemory }
    {
        if self.at(kind) {
            self.bump()?;
            return Ok(true);
        }
        Ok(false)
    }

    /// What is wrong with the token that comes, where the grammar has no place for it, without where.
    fn fault(&self) -> SyntaxError {
        if let Some(Token::Error(error)) = self.ahead.token() {
            return error.into_kind();
        }
        if self.ahead.is_none() {
            SyntaxError::Eof
        } else if self.follows_await() {
            SyntaxError::TopLevelAwaitInScript
        } else if self.is_word() {
            self.unexpected_word()
        } else if self.at(kinds::ARROW) {
            SyntaxError::ArrowNotAllowed
        } else {
            SyntaxError::Unexpected
        }
    }

    /// What is wrong with the token that comes, where the grammar has no place for it.
    pub fn unexpected(&self) -> Failure
        ensures { IsSyntax result }
    {
        Failure::Syntax(Error {
            span: self.place(),
            kind: self.fault(),
        })
    }

    /// What is wrong with the token that comes, where what stands before it should have ended: an operator that
    /// assigns stands behind what is no target.
    pub fn unexpected_end(&self) -> Failure
        ensures { IsSyntax result }
    {
        if self.kind() < kinds::ASSIGN || self.kind() > kinds::NULLISH_ASSIGN {
            return self.unexpected();
        }
        Failure::Syntax(Error {
            span: self.place(),
            kind: SyntaxError::NotSimpleAssign,
        })
    }

    /// Takes a token of this kind.
    ///
    /// # Errors
    ///
    /// Any other token is a fault.
    #[tactic(auto, unfolding(grammar_spec::specs::Reader::Source::eat))]
    pub fn expect(&mut self, kind: u8) -> Result<(), Failure>
        requires { 0 < kind }
        ensures value { Passes I.machine I.state self.old self.new result (λ m. spec.eat m kind) }
        ensures shorter { Shorter I.machine I.state self.old self.new result }
    {
        if self.eat(kind)? {
            Ok(())
        } else {
            Err(self.unexpected_end())
        }
    }

    /// Takes a token of this kind, where any other is a fault of what stands here.
    ///
    /// # Errors
    ///
    /// The fault of this kind in this place, where another token comes.
    #[tactic(auto, unfolding(grammar_spec::specs::Reader::Source::eat))]
    pub fn expect_or(&mut self, kind: u8, span: Span, fault: SyntaxError) -> Result<(), Failure>
        requires { 0 < kind }
        ensures value { Passes I.machine I.state self.old self.new result (λ m. spec.eat m kind) }
        ensures shorter { Shorter I.machine I.state self.old self.new result }
    {
        if self.eat(kind)? {
            Ok(())
        } else {
            Err(Failure::Syntax(Error { span, kind: fault }))
        }
    }

    /// Whether the token that comes is a word.
    pub fn is_word(&self) -> bool
        ensures { result ≡ is_word (kind (at_hand I.machine I.state self.now)) }
    {
        self.kind() >= kinds::NULL
    }

    /// Whether the token that comes is a word that is spelled with an escape: its span is longer than its text.
    #[tactic(auto, using(crate::proofs::Firsts::no_escape), unfolding(crate::specs::Cursors::stream_of))]
    pub fn is_escaped(&self) -> bool
        ensures { result ≡ escaped (at_hand I.machine I.state self.now) }
    {
        if !self.is_word() {
            return false;
        }
        let end = u64::from(self.lo().0) + self.text().len() as u64;
        end != u64::from(self.hi().0)
    }
}
