//! Keys of properties and members.
ghost use Rattle.std.specs.Prelude.{◌≡◌, false, IfOk};
ghost use Rattle.base_token.specs.Kinds.{regex_kind};
ghost use Rattle.tree_nodes.specs.Fits.{fits_prop_name};
ghost use Rattle.tree_nodes.specs.Placed.{inner};
ghost use Rattle.tree_nodes.specs.View.{view_prop_name};
ghost use Rattle.grammar_spec.specs.Reader.Source as spec;
ghost use Rattle.grammar_spec.specs.Reader.Expressions as reads;
ghost use Rattle.parse_state.specs.Codes.{code_of};
ghost use Rattle.parse_state.specs.Cursors.{stream_of};
ghost use Rattle.parse_state.specs.States.{state_of};
ghost use Rattle.parse_state.specs.Reads.{Shorter};
ghost use Rattle.parse_operands.specs.Rules.{ReadsBy};

use crate::made;
use base_token::Token;
use parse_operands::Nested;
use parse_operands::names::computed;
use parse_state::operators::ASSIGNMENT;
use parse_state::{Around, Failure, Parser, Tokens, kinds};
use std::convert::AsStr;
use tree_nodes::{IdentName, PropName};

/// A literal as a key, which no regular expression is.
#[inline(never)]
#[tactic(auto, unfolding(grammar_spec::specs::Reader::Expressions::literal_by, parse_state::specs::Cursors::stream_of))]
pub fn literal_key<'a, I: Tokens<'a> + Drop, N: Nested<'a, I>>(
    p: &mut Parser<'a, I>,
    _nested: &N,
) -> Result<PropName, Failure>
    requires ready { N.ready _nested.now }
    requires other { spec.at (stream_of I.machine) regex_kind (state_of I.state p.old) ≡ false }
    ensures value { ReadsBy I.machine I.state (N.reads _nested.now) p.old p.new result
        (view_prop_name inner) (λ m r. reads.literal_by m r) }
    ensures fits { IfOk result (λ x. fits_prop_name (λ p. p) x) }
    ensures shorter { Shorter I.machine I.state p.old p.new result }
{
    let span = p.place();
    let fault = p.unexpected();
    if !p.is_literal() {
        return Err(fault);
    }
    let Some(token) = p.take()? else {
        return Err(fault);
    };
    match token.into_token() {
        Token::Str { units, raw } => made::str_key(p.alloc, span, units, raw),
        Token::Num { value, raw } => made::number_key(p.alloc, span, value, raw),
        Token::BigInt { radix, digits, raw } => {
            made::big_int_key(p.alloc, span, radix, digits.as_str(), raw)
        }
        _ => Err(fault),
    }
}

/// The key of a property or of a member.
#[inline(never)]
#[tactic(auto, unfolding(grammar_spec::specs::Reader::Expressions::key_by, grammar_spec::specs::Reader::Source::any_word))]
pub fn key<'a, I: Tokens<'a> + Drop, N: Nested<'a, I>>(
    p: &mut Parser<'a, I>,
    nested: &N,
    code: Around,
) -> Result<PropName, Failure>
    requires ready { N.ready nested.now }
    ensures value { ReadsBy I.machine I.state (N.reads nested.now) p.old p.new result
        (view_prop_name inner) (λ m r. reads.key_by m r (code_of code)) }
    ensures fits { IfOk result (λ x. fits_prop_name (λ p. p) x) }
    ensures shorter { Shorter I.machine I.state p.old p.new result }
{
    if p.at(kinds::LEFT_BRACKET) {
        return Ok(PropName::Computed(computed(p, nested, code, ASSIGNMENT)?));
    }
    if p.is_word() {
        let span = p.place();
        let sym = p.any_word()?;
        return Ok(PropName::Ident(IdentName { span, sym }));
    }
    if p.at(kinds::REGEX) {
        return Err(p.unexpected());
    }
    literal_key(p, nested)
}
