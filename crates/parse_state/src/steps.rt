//! Words and names, and the slash that is read again.
ghost use Rattle.std.specs.Prelude.{◌≡◌, ◌<◌, ◌≤◌, false, true, Some, IfErr, IfOk, IfSome, MatchOption, OnOk};
ghost use Rattle.grammar_spec.specs.Tokens.Input.{barred, kind};
ghost use Rattle.lex_source.specs.Ahead.{kind_in};
ghost use Rattle.lex_source.specs.Machine.{shown_spot};
ghost use Rattle.grammar_spec.specs.Reader.Source as spec;
ghost use Rattle.parse_state.specs.Answers.{IsMemory};
ghost use Rattle.parse_state.specs.Codes.{code_of};
ghost use Rattle.parse_state.specs.Cursors.{again_in, comes, in_place, is_slash, stream_of};

use crate::code::Around;
use crate::failure::Failure;
use crate::parser::Parser;
use crate::words::{no_name, starts_operand, strict_reserved};
use base_token::{Atom, Context, SyntaxError, TokenAndSpan};
use lex_source::kind_numbers::token_number;
use lex_source::{Ahead, Look, Tokens, kinds};

/// Whether a token that was read again from a slash on comes in its place: a regular expression, or a fault of one, that
/// begins there, with the same line-break flag.
fn comes(slash: &Ahead<'_>, token: &TokenAndSpan<'_>) -> bool
    ensures { result ≡ comes slash.now (shown_spot token.now) }
{
    let kind = token_number(&token.token);
    (kind == kinds::REGEX || kind == kinds::ERROR)
        && token.span.lo.0 == slash.lo(token.span.lo).0
        && token.had_line_break == slash.breaks()
}

impl<'a, I: Tokens<'a> + Drop> Parser<'a, I> {
    ghost use Rattle.parse_state.specs.Reads.{at_hand, ReadsAs, Passes, Shorter, NotLonger};
    ghost use Rattle.parse_state.specs.States.{noted, state_of};

    /// Whether an escape bars the word that comes from being a word of the grammar or a name.
    pub fn is_barred(&self, context: Context) -> bool
        ensures { result ≡ barred context (at_hand I.machine I.state self.now) }
    {
        let kind = self.kind();
        self.is_escaped() && (no_name(context, kind) || (strict_reserved(kind) && context.strict))
    }

    /// Whether the token that comes follows the name `await`, and could be its operand.
    pub fn follows_await(&self) -> bool {
        match self.awaited {
            Some(end) => end.0 == self.last.0 && starts_operand(self.kind()),
            None => false,
        }
    }

    /// What is wrong with a word, where the grammar has no place for it.
    pub fn unexpected_word(&self) -> SyntaxError {
        let context = self.input.ctx();
        if self.is_barred(context) {
            SyntaxError::EscapeInReservedWord
        } else if !self.at(kinds::EXPORT) {
            SyntaxError::Unexpected
        } else if context.module_ {
            SyntaxError::ExportNotAllowed
        } else {
            SyntaxError::ImportExportInScript
        }
    }

    /// Whether the token that comes is a word that is a name here.
    pub fn is_name(&self, code: Around) -> bool
        ensures { result ≡ spec.is_name (stream_of I.machine) (code_of code) (state_of I.state self.now) }
    {
        self.is_word() && !no_name(code.context, self.kind()) && !self.is_barred(code.context)
    }

    /// Takes a word as a word of the grammar.
    ///
    /// # Errors
    ///
    /// Any other token is a fault.
    #[tactic(auto, unfolding(grammar_spec::specs::Reader::Source::eat_word))]
    pub fn eat_word(&mut self, code: Around, kind: u8) -> Result<(), Failure>
        requires { 0 < kind }
        ensures value { Passes I.machine I.state self.old self.new result
            (λ m. spec.eat_word m (code_of code) kind) }
        ensures shorter { Shorter I.machine I.state self.old self.new result }
    {
        if !self.is_barred(code.context) && self.eat(kind)? {
            return Ok(());
        }
        Err(self.unexpected())
    }

    /// Takes a word, and keeps its text.
    ///
    /// # Errors
    ///
    /// Any other token is a fault.
    #[tactic(auto, unfolding(grammar_spec::specs::Reader::Source::any_word))]
    pub fn any_word(&mut self) -> Result<Atom, Failure>
        ensures value { ReadsAs I.machine I.state self.old self.new result (λ n. n) spec.any_word }
        ensures shorter { Shorter I.machine I.state self.old self.new result }
    {
        if !self.is_word() {
            return Err(self.unexpected());
        }
        let text = Atom::new(self.alloc, self.text())?;
        self.bump()?;
        Ok(text)
    }

    /// Takes a word that is a name here, and keeps its text.
    ///
    /// # Errors
    ///
    /// Any other token is a fault.
    #[tactic(auto, unfolding(grammar_spec::specs::Reader::Source::name))]
    pub fn name(&mut self, code: Around) -> Result<Atom, Failure>
        ensures value { ReadsAs I.machine I.state self.old self.new result
            (λ n. n) (λ m. spec.name m (code_of code)) }
        ensures shorter { Shorter I.machine I.state self.old self.new result }
    {
        if !self.is_name(code) {
            return Err(self.unexpected());
        }
        let text = Atom::new(self.alloc, self.text())?;
        if self.at(kinds::AWAIT) {
            self.awaited = Some(self.hi());
        }
        self.bump()?;
        Ok(text)
    }

    /// The kind of what the source hands out in place of the slash that comes: of a regular expression, or of a fault of
    /// one (ECMA-262, 12.9.5); or nothing where no such token comes in its place.
    ///
    /// # Errors
    ///
    /// Want of memory.
    #[tactic(auto, using(crate::proofs::Taking::agains), unfolding(crate::specs::Cursors::stream_of))]
    fn again(&self) -> Result<Option<u8>, Failure>
        ensures value { IfOk result (λ x. IfSome self.now.ahead (λ t. MatchOption x
            (in_place t (again_in I.machine t (I.state self.now.input)) ≡ false)
            (λ k. (in_place t (again_in I.machine t (I.state self.now.input)) ≡ true)
            × (k ≡ kind_in (again_in I.machine t (I.state self.now.input)))))) }
        ensures full { IfErr result IsMemory }
    {
        match self.input.look(Look::Slash(self.lo())) {
            Ok(Some(token)) if comes(&self.ahead, &token) => {
                Ok(Some(token_number(&token.token)))
            }
            Ok(_) => Ok(None),
            Err(_) => Err(Failure::Memory),
        }
    }

    /// Reads a slash that comes again, as a regular expression. Where the source hands out no such token in its place, the
    /// slash stays, and the source stands as it did.
    ///
    /// # Errors
    ///
    /// Want of memory.
    #[inline]
    #[tactic(auto, unfolding(crate::specs::Cursors::stream_of))]
    pub fn operand(&mut self) -> Result<(), Failure>
        ensures value { OnOk result (state_of I.state self.new
            ≡ spec.operand (stream_of I.machine) (state_of I.state self.old)) }
        ensures not_longer { NotLonger I.machine I.state self.old self.new result }
        ensures full { IfErr result IsMemory }
    {
        if !self.at(kinds::DIV) && !self.at(kinds::DIV_ASSIGN) {
            return Ok(());
        }
        self.reread()
    }

    /// The same where a slash comes.
    ///
    /// # Errors
    ///
    /// Want of memory.
    #[inline(never)]
    #[tactic(auto, using(crate::proofs::Taking::operands, crate::proofs::Firsts::firsts), unfolding(crate::specs::Cursors::stream_of))]
    fn reread(&mut self) -> Result<(), Failure>
        requires slash { is_slash (kind (at_hand I.machine I.state self.old)) ≡ true }
        ensures value { OnOk result (state_of I.state self.new
            ≡ spec.operand (stream_of I.machine) (state_of I.state self.old)) }
        ensures not_longer { NotLonger I.machine I.state self.old self.new result }
        ensures full { IfErr result IsMemory }
    {
        if self.ahead.is_none() {
            return Ok(());
        }
        if self.again()?.is_none() {
            return Ok(());
        }
        let place = self.lo();
        self.input.set_next_regexp(Some(place));
        self.input.next_into(&mut self.ahead)?;
        self.input.set_next_regexp(None);
        Ok(())
    }

    /// The kind of what a slash that comes is read again as.
    ///
    /// # Errors
    ///
    /// Want of memory.
    #[inline(never)]
    #[tactic(auto, using(crate::proofs::Taking::operands, crate::proofs::Firsts::firsts), unfolding(crate::specs::Cursors::stream_of))]
    pub fn reread_kind(&self) -> Result<u8, Failure>
        requires slash { is_slash (kind (at_hand I.machine I.state self.now)) ≡ true }
        ensures value { IfOk result (λ k. k ≡ kind
            (spec.input (stream_of I.machine)
            (spec.operand (stream_of I.machine) (state_of I.state self.now)))) }
        ensures full { IfErr result IsMemory }
    {
        match self.again()? {
            Some(kind) => Ok(kind),
            None => Ok(self.kind()),
        }
    }

    /// Notes the start of an array or an object in which a comma follows a last spread.
    ///
    /// # Errors
    ///
    /// Want of memory.
    #[inline(never)]
    pub fn note(&mut self, start: u32) -> Result<(), Failure>
        ensures value { OnOk result (state_of I.state self.new ≡ noted start (state_of I.state self.old)) }
        ensures full { IfErr result IsMemory }
    {
        self.commas.push(start)?;
        Ok(())
    }
}
