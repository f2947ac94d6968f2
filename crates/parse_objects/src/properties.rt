//! Properties of objects.
ghost use Rattle.std.specs.Prelude.{IfOk};
ghost use Rattle.tree_nodes.specs.Fits.{fits_prop_name, fits_prop_or_spread};
ghost use Rattle.tree_nodes.specs.Placed.{inner};
ghost use Rattle.tree_nodes.specs.View.{view_prop_name, view_prop_or_spread};
ghost use Rattle.grammar_spec.specs.Reader.Expressions as reads;
ghost use Rattle.parse_state.specs.Codes.{code_of};
ghost use Rattle.parse_state.specs.Reads.{Shorter, NotLonger};
ghost use Rattle.parse_operands.specs.Rules.{ReadsBy};
ghost use Rattle.parse_objects.specs.Props as pieces;
ghost use Rattle.parse_objects.specs.Props.{word_of};

use crate::made;
use base_token::{Atom, BytePos, Span, SyntaxError};
use parse_functions::functions::{close_parameters, function, setter_parameter};
use parse_functions::heads::{is_accessor, is_async_head, star};
use parse_functions::keys::key;
use parse_operands::Nested;
use parse_state::code::{in_body, with_in};
use parse_state::operators::ASSIGNMENT;
use parse_state::{Around, Failure, Parser, Tokens, kinds};
use tree_nodes::{PropName, PropOrSpread};

/// A method, from its key on. The whole of it starts at `whole`.
#[inline(never)]
#[tactic(auto, unfolding(grammar_spec::specs::Reader::Expressions::method_prop_by))]
pub fn method<'a, I: Tokens<'a> + Drop, N: Nested<'a, I>>(
    p: &mut Parser<'a, I>,
    nested: &N,
    code: Around,
    whole: BytePos,
    generator: bool,
    is_async: bool,
) -> Result<PropOrSpread, Failure>
    requires ready { N.ready nested.now }
    ensures value { ReadsBy I.machine I.state (N.reads nested.now) p.old p.new result
        (view_prop_or_spread inner)
        (λ m r. reads.method_prop_by m r (code_of code) whole.0 generator is_async) }
    ensures fits { IfOk result (λ x. fits_prop_or_spread (λ p. p) x) }
    ensures shorter { Shorter I.machine I.state p.old p.new result }
{
    let key = key(p, nested, code)?;
    let function = function(p, nested, code, whole, generator, is_async)?;
    made::method(p.alloc, p.since(whole), key, function)
}

/// A getter, from `get` on.
#[inline(never)]
#[tactic(auto, unfolding(grammar_spec::specs::Reader::Expressions::getter_by))]
pub fn getter<'a, I: Tokens<'a> + Drop, N: Nested<'a, I>>(
    p: &mut Parser<'a, I>,
    nested: &N,
    code: Around,
) -> Result<PropOrSpread, Failure>
    requires ready { N.ready nested.now }
    ensures value { ReadsBy I.machine I.state (N.reads nested.now) p.old p.new result
        (view_prop_or_spread inner) (λ m r. reads.getter_by m r (code_of code)) }
    ensures fits { IfOk result (λ x. fits_prop_or_spread (λ p. p) x) }
    ensures shorter { Shorter I.machine I.state p.old p.new result }
{
    let start = p.lo();
    p.bump()?;
    let key = key(p, nested, code)?;
    p.expect(kinds::LEFT_PAREN)?;
    close_parameters(p, SyntaxError::GetterParam)?;
    let body = nested.body(p, in_body(false, false, code))?;
    made::getter(p.alloc, p.since(start), key, body)
}

/// A setter, from `set` on.
#[inline(never)]
#[tactic(auto, unfolding(grammar_spec::specs::Reader::Expressions::setter_by))]
pub fn setter<'a, I: Tokens<'a> + Drop, N: Nested<'a, I>>(
    p: &mut Parser<'a, I>,
    nested: &N,
    code: Around,
) -> Result<PropOrSpread, Failure>
    requires ready { N.ready nested.now }
    ensures value { ReadsBy I.machine I.state (N.reads nested.now) p.old p.new result
        (view_prop_or_spread inner) (λ m r. reads.setter_by m r (code_of code)) }
    ensures fits { IfOk result (λ x. fits_prop_or_spread (λ p. p) x) }
    ensures shorter { Shorter I.machine I.state p.old p.new result }
{
    let start = p.lo();
    p.bump()?;
    let key = key(p, nested, code)?;
    let inside = in_body(false, false, code);
    let param = setter_parameter(p, nested, inside)?;
    let body = nested.body(p, inside)?;
    made::setter(p.alloc, p.since(start), key, param, body)
}

/// A name as a property, with an initialiser or without.
#[inline(never)]
#[tactic(auto, unfolding(crate::specs::Props::shorthand_by))]
pub fn shorthand<'a, I: Tokens<'a> + Drop, N: Nested<'a, I>>(
    p: &mut Parser<'a, I>,
    nested: &N,
    code: Around,
    place: Span,
    sym: Atom,
) -> Result<PropOrSpread, Failure>
    requires ready { N.ready nested.now }
    ensures value { ReadsBy I.machine I.state (N.reads nested.now) p.old p.new result
        (view_prop_or_spread inner) (λ m r. pieces.shorthand_by m r (code_of code) place sym) }
    ensures fits { IfOk result (λ x. fits_prop_or_spread (λ p. p) x) }
    ensures not_longer { NotLonger I.machine I.state p.old p.new result }
{
    if p.eat(kinds::ASSIGN)? {
        let value = nested.expr(p, with_in(code), ASSIGNMENT)?;
        return made::assign_prop(p.alloc, p.since(place.lo), place, sym, value);
    }
    made::shorthand(p.alloc, place, sym)
}

/// What follows a key: a value, a method; or nothing, where the key is a name here.
#[inline(never)]
#[tactic(auto, unfolding(crate::specs::Props::prop_end))]
pub fn prop_end<'a, I: Tokens<'a> + Drop, N: Nested<'a, I>>(
    p: &mut Parser<'a, I>,
    nested: &N,
    code: Around,
    place: Span,
    named: bool,
    key: PropName,
) -> Result<PropOrSpread, Failure>
    requires ready { N.ready nested.now }
    requires fits { fits_prop_name (λ p. p) key }
    ensures value { ReadsBy I.machine I.state (N.reads nested.now) p.old p.new result
        (view_prop_or_spread inner)
        (λ m r. pieces.prop_end m r (code_of code) place (word_of named (view_prop_name inner key))
        (view_prop_name inner key)) }
    ensures fits { IfOk result (λ x. fits_prop_or_spread (λ p. p) x) }
    ensures not_longer { NotLonger I.machine I.state p.old p.new result }
{
    if p.eat(kinds::COLON)? {
        let value = nested.expr(p, with_in(code), ASSIGNMENT)?;
        return made::key_value(p.alloc, p.since(place.lo), key, value);
    }
    if p.at(kinds::LEFT_PAREN) {
        let function = function(p, nested, code, place.lo, false, false)?;
        return made::method(p.alloc, p.since(place.lo), key, function);
    }
    if !named {
        return Err(p.unexpected());
    }
    match key {
        PropName::Ident(word) => shorthand(p, nested, code, place, word.sym),
        _ => Err(p.unexpected()),
    }
}

/// A property that starts with its key.
#[inline(never)]
#[tactic(auto, using(crate::proofs::Keyed::keyed_is))]
pub fn keyed<'a, I: Tokens<'a> + Drop, N: Nested<'a, I>>(
    p: &mut Parser<'a, I>,
    nested: &N,
    code: Around,
) -> Result<PropOrSpread, Failure>
    requires ready { N.ready nested.now }
    ensures value { ReadsBy I.machine I.state (N.reads nested.now) p.old p.new result
        (view_prop_or_spread inner) (λ m r. pieces.keyed_by m r (code_of code)) }
    ensures fits { IfOk result (λ x. fits_prop_or_spread (λ p. p) x) }
    ensures shorter { Shorter I.machine I.state p.old p.new result }
{
    let place = p.place();
    let named = p.is_name(code);
    let key = key(p, nested, code)?;
    prop_end(p, nested, code, place, named, key)
}

/// `...` and an expression.
#[inline(never)]
pub fn spread<'a, I: Tokens<'a> + Drop, N: Nested<'a, I>>(
    p: &mut Parser<'a, I>,
    nested: &N,
    code: Around,
) -> Result<PropOrSpread, Failure>
    requires ready { N.ready nested.now }
    ensures value { ReadsBy I.machine I.state (N.reads nested.now) p.old p.new result
        (view_prop_or_spread inner) (λ m r. pieces.spread_by m r (code_of code)) }
    ensures fits { IfOk result (λ x. fits_prop_or_spread (λ p. p) x) }
    ensures shorter { Shorter I.machine I.state p.old p.new result }
{
    let start = p.lo();
    p.bump()?;
    let expr = nested.expr(p, with_in(code), ASSIGNMENT)?;
    Ok(made::spread(p.since(start), expr))
}

/// A generator, from its star on.
#[inline(never)]
pub fn generator<'a, I: Tokens<'a> + Drop, N: Nested<'a, I>>(
    p: &mut Parser<'a, I>,
    nested: &N,
    code: Around,
) -> Result<PropOrSpread, Failure>
    requires ready { N.ready nested.now }
    ensures value { ReadsBy I.machine I.state (N.reads nested.now) p.old p.new result
        (view_prop_or_spread inner) (λ m r. pieces.generator_by m r (code_of code)) }
    ensures fits { IfOk result (λ x. fits_prop_or_spread (λ p. p) x) }
    ensures shorter { Shorter I.machine I.state p.old p.new result }
{
    let start = p.lo();
    p.bump()?;
    method(p, nested, code, start, true, false)
}

/// A method, from `async` on.
#[inline(never)]
pub fn async_method<'a, I: Tokens<'a> + Drop, N: Nested<'a, I>>(
    p: &mut Parser<'a, I>,
    nested: &N,
    code: Around,
) -> Result<PropOrSpread, Failure>
    requires ready { N.ready nested.now }
    ensures value { ReadsBy I.machine I.state (N.reads nested.now) p.old p.new result
        (view_prop_or_spread inner) (λ m r. pieces.async_by m r (code_of code)) }
    ensures fits { IfOk result (λ x. fits_prop_or_spread (λ p. p) x) }
    ensures shorter { Shorter I.machine I.state p.old p.new result }
{
    let start = p.lo();
    p.bump()?;
    let generator = star(p, nested)?;
    method(p, nested, code, start, generator, true)
}

/// A property, or `...` and an expression.
#[inline(never)]
#[tactic(auto, unfolding(grammar_spec::specs::Reader::Expressions::prop_by, crate::specs::Props::keyed_by))]
pub fn prop<'a, I: Tokens<'a> + Drop, N: Nested<'a, I>>(
    p: &mut Parser<'a, I>,
    nested: &N,
    code: Around,
) -> Result<PropOrSpread, Failure>
    requires ready { N.ready nested.now }
    ensures value { ReadsBy I.machine I.state (N.reads nested.now) p.old p.new result
        (view_prop_or_spread inner) (λ m r. reads.prop_by m r (code_of code)) }
    ensures fits { IfOk result (λ x. fits_prop_or_spread (λ p. p) x) }
    ensures shorter { Shorter I.machine I.state p.old p.new result }
{
    if p.at(kinds::DOT_DOT_DOT) {
        return spread(p, nested, code);
    }
    if p.at(kinds::MUL) {
        return generator(p, nested, code);
    }
    if is_async_head(p, nested)? {
        return async_method(p, nested, code);
    }
    if is_accessor(p, nested, kinds::GET)? {
        return getter(p, nested, code);
    }
    if is_accessor(p, nested, kinds::SET)? {
        return setter(p, nested, code);
    }
    keyed(p, nested, code)
}
