//! What goes on after a last part, and the semicolons.
ghost use Rattle.std.specs.Prelude.{◌≡◌, ◌≢◌, ◌<◌, ◌≤◌, nat_eq, IfErr, IfOk};
ghost use Rattle.base_token.specs.Kinds.{dot_kind};
ghost use Rattle.grammar_spec.specs.Tokens.Input.{kind, kind2};
ghost use Rattle.grammar_spec.specs.Tokens.Operators as ops;
ghost use Rattle.grammar_spec.specs.Reader.Source as spec;
ghost use Rattle.parse_state.specs.Answers.{IsMemory};
ghost use Rattle.parse_state.specs.Codes.{code_of};

use crate::code::Around;
use crate::failure::Failure;
use crate::kinds;
use crate::operators::{
    ACCESSOR_END, ASSIGNMENT, BINDING_END, CALL, CLOSED_END, CONDITIONAL, EXPORTS_END, EXPRESSION,
    KEY_END, LET_END, MEMBER, OTHER_END, POSTFIX_END, SOURCE_END, STATIC_END, UPDATE_LEVEL,
    between, binary_level, is_assign_op, may_name, operates, starts_key,
};
use crate::parser::Parser;
use lex_source::Tokens;

impl<'a, I: Tokens<'a> + Drop> Parser<'a, I> {
    ghost use Rattle.parse_state.specs.Reads.{at_hand, Passes, NotLonger};

    /// Whether a `?` is followed by a dot, and so starts a chain.
    fn is_chain_mark(&self) -> Result<bool, Failure>
        requires { kind (at_hand I.machine I.state self.now) ≡ 19 }
        ensures value { IfOk result (λ b. b ≡ nat_eq (kind2 (at_hand I.machine I.state self.now)) dot_kind) }
        ensures full { IfErr result IsMemory }
    {
        let (second, _) = self.second()?;
        Ok(second == kinds::DOT)
    }

    /// The level of what goes on after an operand that ends so, where that isn't a `?`.
    fn goes_plainly(&self, code: Around, end: u8) -> u8
        requires { kind (at_hand I.machine I.state self.now) ≢ 19 }
        ensures { result ≡ ops.goes_expr (code_of code) end (at_hand I.machine I.state self.now) }
    {
        let kind = self.kind();
        if kind == kinds::COMMA {
            EXPRESSION
        } else if end >= CLOSED_END {
            0
        } else if is_assign_op(kind) {
            ASSIGNMENT
        } else if operates(code, kind) {
            binary_level(kind)
        } else if kind == kinds::REGEX {
            binary_level(kinds::DIV)
        } else if end >= POSTFIX_END {
            0
        } else if between(kinds::PLUS_PLUS, kinds::MINUS_MINUS, kind) {
            if self.breaks() { 0 } else { UPDATE_LEVEL }
        } else if kind == kinds::LEFT_PAREN {
            CALL
        } else if kind == kinds::LEFT_BRACKET || (kind == kinds::DOT || kind == kinds::BACK_QUOTE) {
            MEMBER
        } else {
            0
        }
    }

    /// The level at which the token that comes goes on with an expression that ends so, or 0.
    ///
    /// # Errors
    ///
    /// Want of memory.
    #[inline(always)]
    pub fn goes(&self, code: Around, end: u8) -> Result<u8, Failure>
        ensures value { IfOk result (λ l. l ≡ ops.goes_expr (code_of code) end (at_hand I.machine I.state self.now)) }
        ensures full { IfErr result IsMemory }
    {
        if !self.at(kinds::QUESTION_MARK) {
            return Ok(self.goes_plainly(code, end));
        }
        if end >= CLOSED_END {
            return Ok(0);
        }
        if end == OTHER_END && self.is_chain_mark()? {
            return Ok(CALL);
        }
        Ok(CONDITIONAL)
    }

    /// Whether the token that comes goes on after what ends so.
    ///
    /// # Errors
    ///
    /// Want of memory.
    pub fn goes_on(&self, code: Around, end: u8) -> Result<bool, Failure>
        ensures value { IfOk result (λ b. b ≡ ops.goes_on (code_of code) end (at_hand I.machine I.state self.now)) }
        ensures full { IfErr result IsMemory }
    {
        if end <= CLOSED_END {
            let level = self.goes(code, end)?;
            return Ok(1 <= level);
        }
        if end == LET_END {
            let level = self.goes(code, OTHER_END)?;
            let kind = self.kind();
            return Ok((may_name(kind) || kind == kinds::LEFT_BRACE) || 1 <= level);
        }
        Ok(self.goes_on_item(code, end))
    }

    /// The same of a binding, a field, or a part of an import or export.
    fn goes_on_item(&self, code: Around, end: u8) -> bool
        requires { 3 < end }
        ensures { result ≡ ops.goes_on (code_of code) end (at_hand I.machine I.state self.now) }
    {
        let kind = self.kind();
        let opens = kind == kinds::ASSIGN || kind == kinds::LEFT_PAREN;
        if end == BINDING_END {
            kind == kinds::ASSIGN || kind == kinds::COMMA
        } else if end == KEY_END {
            opens
        } else if end == ACCESSOR_END {
            opens || starts_key(kind)
        } else if end == STATIC_END {
            opens || (starts_key(kind) || (kind == kinds::MUL || kind == kinds::LEFT_BRACE))
        } else if end == EXPORTS_END {
            kind == kinds::FROM
        } else if end == SOURCE_END {
            kind == kinds::WITH && code.syntax.import_attributes
        } else {
            false
        }
    }

    /// Whether what ends so may end here with no semicolon.
    ///
    /// # Errors
    ///
    /// Want of memory.
    pub fn pauses(&self, code: Around, end: u8) -> Result<bool, Failure>
        ensures value { IfOk result (λ b. b ≡ ops.pauses (code_of code) end (at_hand I.machine I.state self.now)) }
        ensures full { IfErr result IsMemory }
    {
        if self.at(kinds::RIGHT_BRACE) || self.at(kinds::END) {
            return Ok(true);
        }
        if !self.breaks() {
            return Ok(false);
        }
        let goes = self.goes_on(code, end)?;
        Ok(!goes)
    }

    /// Takes a semicolon, or sees that none is needed after what ends so.
    ///
    /// # Errors
    ///
    /// A fault where one is needed.
    #[tactic(auto, unfolding(grammar_spec::specs::Reader::Source::end_of))]
    pub fn end_of(&mut self, code: Around, end: u8) -> Result<(), Failure>
        ensures value { Passes I.machine I.state self.old self.new result
            (λ m. spec.end_of m (code_of code) end) }
        ensures not_longer { NotLonger I.machine I.state self.old self.new result }
    {
        if self.eat(kinds::SEMICOLON)? {
            return Ok(());
        }
        if self.pauses(code, end)? {
            return Ok(());
        }
        Err(self.unexpected_end())
    }
}
