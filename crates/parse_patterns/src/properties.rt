//! Properties of patterns.
ghost use Rattle.std.specs.Prelude.{◌≡◌, true, IfOk};
ghost use Rattle.tree_nodes.specs.Fits.{fits_object_pat_prop, fits_prop_name};
ghost use Rattle.tree_nodes.specs.Placed.{inner};
ghost use Rattle.tree_nodes.specs.View.{view_object_pat_prop, view_prop_name};
ghost use Rattle.grammar_spec.specs.Reader.Source as spec;
ghost use Rattle.grammar_spec.specs.Reader.Statements as reads;
ghost use Rattle.parse_state.specs.Codes.{code_of};
ghost use Rattle.parse_state.specs.Cursors.{stream_of};
ghost use Rattle.parse_state.specs.States.{state_of};
ghost use Rattle.parse_state.specs.Reads.{Shorter, NotLonger};
ghost use Rattle.parse_operands.specs.Rules.{ReadsBy};
ghost use Rattle.parse_patterns.specs.Items.{named_rest};

use crate::items::item;
use base_token::{Atom, BytePos, Span};
use parse_functions::keys::key;
use parse_operands::Nested;
use parse_state::code::with_in;
use parse_state::operators::ASSIGNMENT;
use parse_state::{Around, Failure, Parser, Tokens, kinds};
use tree_nodes::{
    AssignPatProp, BindingIdent, Ident, IdentName, KeyValuePatProp, ObjectPatProp, PropName,
};

/// What follows the colon of a property.
#[inline(always)]
#[tactic(auto, unfolding(grammar_spec::specs::Reader::Statements::keyed_item, crate::specs::Items::item_by))]
pub fn keyed<'a, I: Tokens<'a> + Drop, N: Nested<'a, I>>(
    p: &mut Parser<'a, I>,
    nested: &N,
    code: Around,
    start: BytePos,
    key: PropName,
) -> Result<ObjectPatProp, Failure>
    requires ready { N.ready nested.now }
    requires key { fits_prop_name (λ p. p) key }
    ensures value { ReadsBy I.machine I.state (N.reads nested.now) p.old p.new result
        (view_object_pat_prop inner)
        (λ m r. reads.keyed_item m r (code_of code) start.0 (view_prop_name inner key)) }
    ensures fits { IfOk result (λ x. fits_object_pat_prop (λ p. p) x) }
    ensures shorter { Shorter I.machine I.state p.old p.new result }
{
    let value = item(p, nested, code)?;
    let span = p.since(start);
    Ok(ObjectPatProp::KeyValue(KeyValuePatProp { span, key, value }))
}

/// What follows a name that is both key and binding.
#[inline(never)]
#[tactic(auto, unfolding(crate::specs::Items::named_rest))]
pub fn named<'a, I: Tokens<'a> + Drop, N: Nested<'a, I>>(
    p: &mut Parser<'a, I>,
    nested: &N,
    code: Around,
    span: Span,
    sym: Atom,
) -> Result<ObjectPatProp, Failure>
    requires ready { N.ready nested.now }
    ensures value { ReadsBy I.machine I.state (N.reads nested.now) p.old p.new result
        (view_object_pat_prop inner) (λ m r. named_rest m r (code_of code) span sym) }
    ensures fits { IfOk result (λ x. fits_object_pat_prop (λ p. p) x) }
    ensures not_longer { NotLonger I.machine I.state p.old p.new result }
{
    let key = BindingIdent {
        span,
        id: Ident { span, sym },
    };
    if p.eat(kinds::ASSIGN)? {
        let value = nested.expr(p, with_in(code), ASSIGNMENT)?;
        let whole = p.since(span.lo);
        return Ok(ObjectPatProp::Assign(AssignPatProp {
            span: whole,
            key,
            value: Some(value.expr),
        }));
    }
    Ok(ObjectPatProp::Assign(AssignPatProp {
        span,
        key,
        value: None,
    }))
}

/// A property of a pattern that begins with a name.
#[inline(never)]
#[tactic(auto, using(crate::proofs::Words::word_prop), unfolding(grammar_spec::specs::Reader::Source::name))]
pub fn word_property<'a, I: Tokens<'a> + Drop, N: Nested<'a, I>>(
    p: &mut Parser<'a, I>,
    nested: &N,
    code: Around,
) -> Result<ObjectPatProp, Failure>
    requires ready { N.ready nested.now }
    requires word { spec.is_name (stream_of I.machine) (code_of code) (state_of I.state p.old) ≡ true }
    ensures value { ReadsBy I.machine I.state (N.reads nested.now) p.old p.new result
        (view_object_pat_prop inner) (λ m r. reads.pattern_prop m r (code_of code)) }
    ensures fits { IfOk result (λ x. fits_object_pat_prop (λ p. p) x) }
    ensures shorter { Shorter I.machine I.state p.old p.new result }
{
    let start = p.lo();
    let span = p.place();
    let sym = p.name(code)?;
    if p.eat(kinds::COLON)? {
        let key = PropName::Ident(IdentName { span, sym });
        return keyed(p, nested, code, start, key);
    }
    named(p, nested, code, span, sym)
}

/// A property of a pattern.
#[inline(always)]
#[tactic(auto, unfolding(grammar_spec::specs::Reader::Statements::pattern_prop, grammar_spec::specs::Reader::Statements::named_item, grammar_spec::specs::Reader::Source::name))]
pub fn property<'a, I: Tokens<'a> + Drop, N: Nested<'a, I>>(
    p: &mut Parser<'a, I>,
    nested: &N,
    code: Around,
) -> Result<ObjectPatProp, Failure>
    requires ready { N.ready nested.now }
    ensures value { ReadsBy I.machine I.state (N.reads nested.now) p.old p.new result
        (view_object_pat_prop inner) (λ m r. reads.pattern_prop m r (code_of code)) }
    ensures fits { IfOk result (λ x. fits_object_pat_prop (λ p. p) x) }
    ensures shorter { Shorter I.machine I.state p.old p.new result }
{
    if p.is_name(code) {
        return word_property(p, nested, code);
    }
    let start = p.lo();
    let key = key(p, nested, code)?;
    if p.eat(kinds::COLON)? {
        return keyed(p, nested, code, start, key);
    }
    Err(p.unexpected())
}
