//! Members of classes.
ghost use Rattle.std.specs.Prelude.{◌≡◌, false, true, IfOk};
ghost use Rattle.tree_nodes.specs.Fits.{fits_class_member, fits_key};
ghost use Rattle.tree_nodes.specs.Placed.{inner};
ghost use Rattle.tree_nodes.specs.View.{view_class_member, view_key};
ghost use Rattle.grammar_spec.specs.Reader.Statements as reads;
ghost use Rattle.parse_state.specs.Codes.{code_of};
ghost use Rattle.parse_state.specs.Reads.{Shorter};
ghost use Rattle.parse_operands.specs.Rules.{ReadsBy};
ghost use Rattle.parse_classes.specs.Members.{last_member, word_member};

use crate::fields::{auto_accessor, class_key, field};
use crate::heads::{field_end, is_auto_accessor, is_before_key};
use crate::made;
use base_token::{BytePos, SyntaxError};
use parse_functions::functions::{close_parameters, function, setter_parameter};
use parse_functions::heads::{is_async_head, star};
use parse_functions::made as functions;
use parse_operands::Nested;
use parse_state::code::in_body;
use parse_state::{Around, Failure, Parser, Tokens, kinds};
use tree_nodes::{ClassMember, Key, MethodKind};

/// A method, after its key; by its key a constructor.
#[inline(never)]
#[tactic(auto, using(crate::proofs::Keys::pairs), unfolding(grammar_spec::specs::Reader::Statements::class_method_by))]
pub fn method<'a, I: Tokens<'a> + Drop, N: Nested<'a, I>>(
    p: &mut Parser<'a, I>,
    nested: &N,
    code: Around,
    start: BytePos,
    is_static: bool,
    generator: bool,
    is_async: bool,
    key: Key,
) -> Result<ClassMember, Failure>
    requires ready { N.ready nested.now }
    requires key { fits_key (λ p. p) key }
    ensures value { ReadsBy I.machine I.state (N.reads nested.now) p.old p.new result
        (view_class_member inner)
        (λ m r. reads.class_method_by m r (code_of code) start.0 is_static generator is_async
        (view_key inner key)) }
    ensures fits { IfOk result (λ x. fits_class_member (λ p. p) x) }
    ensures shorter { Shorter I.machine I.state p.old p.new result }
{
    let function = function(p, nested, code, start, generator, is_async)?;
    let may_construct = !is_static && (!generator && !is_async);
    Ok(made::plain_method(p.since(start), key, function, is_static, may_construct))
}

/// A getter, from its word on.
#[inline(never)]
#[tactic(auto, unfolding(grammar_spec::specs::Reader::Statements::class_getter))]
pub fn getter<'a, I: Tokens<'a> + Drop, N: Nested<'a, I>>(
    p: &mut Parser<'a, I>,
    nested: &N,
    code: Around,
    start: BytePos,
    is_static: bool,
) -> Result<ClassMember, Failure>
    requires ready { N.ready nested.now }
    ensures value { ReadsBy I.machine I.state (N.reads nested.now) p.old p.new result
        (view_class_member inner)
        (λ m r. reads.class_getter m r (code_of code) start.0 is_static) }
    ensures fits { IfOk result (λ x. fits_class_member (λ p. p) x) }
    ensures shorter { Shorter I.machine I.state p.old p.new result }
{
    p.bump()?;
    let key = class_key(p, nested, code)?;
    p.expect(kinds::LEFT_PAREN)?;
    close_parameters(p, SyntaxError::GetterParam)?;
    let body = nested.body(p, in_body(false, false, code))?;
    let span = p.since(start);
    let function = functions::function(p.alloc, span, Vec::new(p.alloc), body, false, false)?;
    Ok(made::method(span, key, function, MethodKind::Getter, is_static))
}

/// A setter, from its word on.
#[inline(never)]
#[tactic(auto, unfolding(grammar_spec::specs::Reader::Statements::class_setter))]
pub fn setter<'a, I: Tokens<'a> + Drop, N: Nested<'a, I>>(
    p: &mut Parser<'a, I>,
    nested: &N,
    code: Around,
    start: BytePos,
    is_static: bool,
) -> Result<ClassMember, Failure>
    requires ready { N.ready nested.now }
    ensures value { ReadsBy I.machine I.state (N.reads nested.now) p.old p.new result
        (view_class_member inner)
        (λ m r. reads.class_setter m r (code_of code) start.0 is_static) }
    ensures fits { IfOk result (λ x. fits_class_member (λ p. p) x) }
    ensures shorter { Shorter I.machine I.state p.old p.new result }
{
    p.bump()?;
    let key = class_key(p, nested, code)?;
    let inside = in_body(false, false, code);
    let param = setter_parameter(p, nested, inside)?;
    let mut params = Vec::with_capacity(p.alloc, 1)?;
    params.push(param)?;
    let body = nested.body(p, inside)?;
    let span = p.since(start);
    let function = functions::function(p.alloc, span, params, body, false, false)?;
    Ok(made::method(span, key, function, MethodKind::Setter, is_static))
}

/// A field or a method.
#[inline(never)]
#[tactic(auto, unfolding(grammar_spec::specs::Reader::Statements::field_or_method, crate::specs::Members::field_by))]
pub fn field_or_method<'a, I: Tokens<'a> + Drop, N: Nested<'a, I>>(
    p: &mut Parser<'a, I>,
    nested: &N,
    code: Around,
    start: BytePos,
    is_static: bool,
) -> Result<ClassMember, Failure>
    requires ready { N.ready nested.now }
    ensures value { ReadsBy I.machine I.state (N.reads nested.now) p.old p.new result
        (view_class_member inner)
        (λ m r. reads.field_or_method m r (code_of code) start.0 is_static) }
    ensures fits { IfOk result (λ x. fits_class_member (λ p. p) x) }
    ensures shorter { Shorter I.machine I.state p.old p.new result }
{
    let end = field_end(is_static, p.kind());
    let key = class_key(p, nested, code)?;
    if p.at(kinds::LEFT_PAREN) {
        return method(p, nested, code, start, is_static, false, false, key);
    }
    field(p, nested, code, start, is_static, end, key)
}

/// A method, from its star or its key on.
#[inline(never)]
#[tactic(auto, unfolding(grammar_spec::specs::Reader::Statements::generator_member))]
pub fn generator_member<'a, I: Tokens<'a> + Drop, N: Nested<'a, I>>(
    p: &mut Parser<'a, I>,
    nested: &N,
    code: Around,
    start: BytePos,
    is_static: bool,
    is_async: bool,
) -> Result<ClassMember, Failure>
    requires ready { N.ready nested.now }
    ensures value { ReadsBy I.machine I.state (N.reads nested.now) p.old p.new result
        (view_class_member inner)
        (λ m r. reads.generator_member m r (code_of code) start.0 is_static is_async) }
    ensures fits { IfOk result (λ x. fits_class_member (λ p. p) x) }
    ensures shorter { Shorter I.machine I.state p.old p.new result }
{
    let generator = star(p, nested)?;
    let key = class_key(p, nested, code)?;
    method(p, nested, code, start, is_static, generator, is_async, key)
}

/// A member that is no generator, no `async` method, no getter and no setter.
#[inline(always)]
pub fn last_member<'a, I: Tokens<'a> + Drop, N: Nested<'a, I>>(
    p: &mut Parser<'a, I>,
    nested: &N,
    code: Around,
    start: BytePos,
    is_static: bool,
) -> Result<ClassMember, Failure>
    requires ready { N.ready nested.now }
    ensures value { ReadsBy I.machine I.state (N.reads nested.now) p.old p.new result
        (view_class_member inner) (λ m r. last_member m r (code_of code) start.0 is_static) }
    ensures fits { IfOk result (λ x. fits_class_member (λ p. p) x) }
    ensures shorter { Shorter I.machine I.state p.old p.new result }
{
    if is_auto_accessor(p, nested, code)? {
        return auto_accessor(p, nested, code, start, is_static);
    }
    field_or_method(p, nested, code, start, is_static)
}

/// A member that is no generator and no `async` method.
#[inline(always)]
pub fn word_member<'a, I: Tokens<'a> + Drop, N: Nested<'a, I>>(
    p: &mut Parser<'a, I>,
    nested: &N,
    code: Around,
    start: BytePos,
    is_static: bool,
) -> Result<ClassMember, Failure>
    requires ready { N.ready nested.now }
    ensures value { ReadsBy I.machine I.state (N.reads nested.now) p.old p.new result
        (view_class_member inner) (λ m r. word_member m r (code_of code) start.0 is_static) }
    ensures fits { IfOk result (λ x. fits_class_member (λ p. p) x) }
    ensures shorter { Shorter I.machine I.state p.old p.new result }
{
    if is_before_key(p, nested, kinds::GET)? {
        return getter(p, nested, code, start, is_static);
    }
    if is_before_key(p, nested, kinds::SET)? {
        return setter(p, nested, code, start, is_static);
    }
    last_member(p, nested, code, start, is_static)
}

/// A member, after `static` where it stands.
#[inline(never)]
#[tactic(auto, unfolding(grammar_spec::specs::Reader::Statements::member_rest))]
pub fn member_rest<'a, I: Tokens<'a> + Drop, N: Nested<'a, I>>(
    p: &mut Parser<'a, I>,
    nested: &N,
    code: Around,
    start: BytePos,
    is_static: bool,
) -> Result<ClassMember, Failure>
    requires ready { N.ready nested.now }
    ensures value { ReadsBy I.machine I.state (N.reads nested.now) p.old p.new result
        (view_class_member inner)
        (λ m r. reads.member_rest m r (code_of code) start.0 is_static) }
    ensures fits { IfOk result (λ x. fits_class_member (λ p. p) x) }
    ensures shorter { Shorter I.machine I.state p.old p.new result }
{
    if p.at(kinds::MUL) {
        return generator_member(p, nested, code, start, is_static, false);
    }
    if is_async_head(p, nested)? {
        p.bump()?;
        return generator_member(p, nested, code, start, is_static, true);
    }
    word_member(p, nested, code, start, is_static)
}
