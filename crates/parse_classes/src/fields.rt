//! Keys of members, and fields.
ghost use Rattle.std.specs.Prelude.{◌≡◌, IfOk};
ghost use Rattle.tree_spec.specs.Tree.{part_by};
ghost use Rattle.tree_nodes.specs.Fits.{fits_class_member, fits_held, fits_key};
ghost use Rattle.tree_nodes.specs.Placed.{holds_expr, inner};
ghost use Rattle.tree_nodes.specs.View.{view_class_member, view_key};
ghost use Rattle.grammar_spec.specs.Reader.Statements as reads;
ghost use Rattle.parse_state.specs.Codes.{code_of};
ghost use Rattle.parse_state.specs.Reads.{Shorter, NotLonger};
ghost use Rattle.parse_operands.specs.Rules.{ReadsBy};
ghost use Rattle.parse_classes.specs.Members.{field_by};

use crate::made;
use base_token::BytePos;
use parse_blocks::codes::in_field;
use parse_functions::{keys, private_name};
use parse_operands::Nested;
use parse_state::operators::{ASSIGNMENT, KEY_END};
use parse_state::{Around, Failure, Parser, Tokens, kinds};
use tree_nodes::{ClassMember, ExprBox, Key};

/// What follows a field's key: `=` and a value, or nothing, and the end.
#[inline(never)]
#[tactic(auto, unfolding(grammar_spec::specs::Reader::Statements::field_value))]
pub fn field_value<'a, I: Tokens<'a> + Drop, N: Nested<'a, I>>(
    p: &mut Parser<'a, I>,
    nested: &N,
    code: Around,
    end: u8,
) -> Result<Option<ExprBox>, Failure>
    requires ready { N.ready nested.now }
    ensures value { ReadsBy I.machine I.state (N.reads nested.now) p.old p.new result
        (part_by (λ y. inner y.part.value)) (λ m r. reads.field_value m r (code_of code) end) }
    ensures fits { IfOk result (λ x. fits_held (λ y. holds_expr y.part.value) x) }
    ensures not_longer { NotLonger I.machine I.state p.old p.new result }
{
    if p.eat(kinds::ASSIGN)? {
        let value = nested.expr(p, in_field(code), ASSIGNMENT)?;
        p.end_of(code, value.end)?;
        return Ok(Some(value.expr));
    }
    p.end_of(code, end)?;
    Ok(None)
}

/// The key of a member: a private name, or that of a property.
#[inline(never)]
#[tactic(auto, unfolding(grammar_spec::specs::Reader::Statements::class_key))]
pub fn class_key<'a, I: Tokens<'a> + Drop, N: Nested<'a, I>>(
    p: &mut Parser<'a, I>,
    nested: &N,
    code: Around,
) -> Result<Key, Failure>
    requires ready { N.ready nested.now }
    ensures value { ReadsBy I.machine I.state (N.reads nested.now) p.old p.new result
        (view_key inner) (λ m r. reads.class_key m r (code_of code)) }
    ensures fits { IfOk result (λ x. fits_key (λ p. p) x) }
    ensures shorter { Shorter I.machine I.state p.old p.new result }
{
    if p.at(kinds::HASH) {
        return Ok(Key::Private(private_name(p, nested)?));
    }
    Ok(Key::Public(keys::key(p, nested, code)?))
}

/// A field, after its key. Where it has no value, it ends so.
#[inline(always)]
#[tactic(auto, using(crate::proofs::Keys::pairs), unfolding(crate::specs::Members::field_by))]
pub fn field<'a, I: Tokens<'a> + Drop, N: Nested<'a, I>>(
    p: &mut Parser<'a, I>,
    nested: &N,
    code: Around,
    start: BytePos,
    is_static: bool,
    end: u8,
    key: Key,
) -> Result<ClassMember, Failure>
    requires ready { N.ready nested.now }
    requires key { fits_key (λ p. p) key }
    ensures value { ReadsBy I.machine I.state (N.reads nested.now) p.old p.new result
        (view_class_member inner)
        (λ m r. field_by m r (code_of code) start.0 is_static end (view_key inner key)) }
    ensures fits { IfOk result (λ x. fits_class_member (λ p. p) x) }
    ensures not_longer { NotLonger I.machine I.state p.old p.new result }
{
    let value = field_value(p, nested, code, end)?;
    Ok(made::field(p.alloc, p.since(start), key, value, is_static))
}

/// A field with `accessor` before its key.
#[inline(never)]
#[tactic(auto, unfolding(grammar_spec::specs::Reader::Statements::accessor_by))]
pub fn auto_accessor<'a, I: Tokens<'a> + Drop, N: Nested<'a, I>>(
    p: &mut Parser<'a, I>,
    nested: &N,
    code: Around,
    start: BytePos,
    is_static: bool,
) -> Result<ClassMember, Failure>
    requires ready { N.ready nested.now }
    ensures value { ReadsBy I.machine I.state (N.reads nested.now) p.old p.new result
        (view_class_member inner)
        (λ m r. reads.accessor_by m r (code_of code) start.0 is_static) }
    ensures fits { IfOk result (λ x. fits_class_member (λ p. p) x) }
    ensures shorter { Shorter I.machine I.state p.old p.new result }
{
    p.bump()?;
    let key = class_key(p, nested, code)?;
    let value = field_value(p, nested, code, KEY_END)?;
    Ok(made::auto_accessor(p.alloc, p.since(start), key, value, is_static))
}
