//! Arrays and objects of patterns, and a pattern of any kind.
ghost use Rattle.std.specs.Prelude.{◌≡◌, ◌++◌, ◌∷◌, [], true, false, All, IfErr, IfOk, map};
ghost use Rattle.grammar_spec.specs.Tokens.Shape as shape;
ghost use Rattle.tree_nodes.specs.Fits.{fits_held, fits_object_pat_prop};
ghost use Rattle.tree_nodes.specs.Placed.{holds_pat, inner};
ghost use Rattle.tree_nodes.specs.View.{view_object_pat_prop};
ghost use Rattle.tree_spec.specs.Tree.{element_by};
ghost use Rattle.grammar_spec.specs.Reader.Statements as reads;
ghost use Rattle.parse_state.specs.Answers.{Gives, going_on, IsMemory};
ghost use Rattle.parse_state.specs.Codes.{code_of};
ghost use Rattle.parse_state.specs.Cursors.{stream_of};
ghost use Rattle.parse_state.specs.Reads.{Shorter, to_come};
ghost use Rattle.parse_state.specs.States.{state_of};
ghost use Rattle.parse_operands.specs.Rules.{ReadsBy};
ghost use Rattle.parse_operands.specs.Operands.{tree_in};
ghost use Rattle.parse_patterns.specs.Items.{array_items, object_items, object_rest, rest_item};

use crate::items::{goes_on, item, rest};
use crate::made;
use crate::properties::property;
use parse_operands::Nested;
use parse_state::{Around, Failure, Parser, Tokens, kinds};
use tree_nodes::{ObjectPatProp, Pat, PatBox, PatKind};

/// Whether a pattern is an array or an object.
fn is_structured(pat: &Pat) -> bool
    ensures { result ≡ shape.is_structured pat.now }
{
    match &pat.kind {
        PatKind::Array(_) => true,
        PatKind::Object(_) => true,
        _ => false,
    }
}

/// One more item or hole of an array, or its bracket. Whether another may follow.
#[inline(always)]
#[tactic(auto, unfolding(grammar_spec::specs::Reader::Statements::array_item, grammar_spec::specs::Reader::Statements::after_item, crate::specs::Items::after_by, crate::specs::Items::item_by, crate::specs::Items::rest_by))]
pub fn array_turn<'a, I: Tokens<'a> + Drop, N: Nested<'a, I>>(
    p: &mut Parser<'a, I>,
    nested: &N,
    code: Around,
    list: &mut Vec<Option<PatBox>>,
) -> Result<bool, Failure>
    requires ready { N.ready nested.now }
    requires fits { All (λ y. fits_held (λ z. holds_pat z.part.value) y) list.old.items }
    ensures value { ReadsBy I.machine I.state (N.reads nested.now) p.old p.new result
        (λ x. going_on x (map (λ y. element_by (λ z. inner z.part.value) y) list.new.items))
        (λ m r. reads.array_item m r (code_of code)
        (map (λ y. element_by (λ z. inner z.part.value) y) list.old.items)) }
    ensures fits { IfOk result (λ x. All (λ y. fits_held (λ z. holds_pat z.part.value) y) list.new.items) }
    ensures shorter { Shorter I.machine I.state p.old p.new result }
{
    if p.eat(kinds::RIGHT_BRACKET)? {
        return Ok(false);
    }
    if p.eat(kinds::COMMA)? {
        list.push(None)?;
        return Ok(true);
    }
    if p.at(kinds::DOT_DOT_DOT) {
        let read = rest(p, nested, code)?;
        let item = made::rest_pat(p.alloc, read)?;
        list.push(Some(item))?;
        return goes_on(p, kinds::RIGHT_BRACKET, true);
    }
    let item = item(p, nested, code)?;
    list.push(Some(item))?;
    goes_on(p, kinds::RIGHT_BRACKET, false)
}

/// The items of an array, after its bracket.
#[inline(never)]
#[tactic(auto, using(parse_state::proofs::Iterate::iterates), unfolding(crate::specs::Items::array_items))]
pub fn array_items<'a, I: Tokens<'a> + Drop, N: Nested<'a, I>>(
    p: &mut Parser<'a, I>,
    nested: &N,
    code: Around,
) -> Result<Vec<Option<PatBox>>, Failure>
    requires ready { N.ready nested.now }
    ensures value { ReadsBy I.machine I.state (N.reads nested.now) p.old p.new result
        (λ x. map (λ y. element_by (λ z. inner z.part.value) y) x.items)
        (λ m r. array_items m r (code_of code)) }
    ensures fits { IfOk result (λ x. All (λ y. fits_held (λ z. holds_pat z.part.value) y) x.items) }
    ensures shorter { Shorter I.machine I.state p.old p.new result }
{
    let mut list = Vec::new(p.alloc);
    'turns: while array_turn(p, nested, code, &mut list)? {}
    Ok(list)
}

/// An array, from its bracket on.
#[inline(always)]
#[tactic(auto, using(parse_operands::proofs::Packs::packs), unfolding(grammar_spec::specs::Reader::Statements::array_pat_by, crate::specs::Items::array_items))]
pub fn array<'a, I: Tokens<'a> + Drop, N: Nested<'a, I>>(
    p: &mut Parser<'a, I>,
    nested: &N,
    code: Around,
) -> Result<PatBox, Failure>
    requires ready { N.ready nested.now }
    ensures value { ReadsBy I.machine I.state (N.reads nested.now) p.old p.new result
        tree_in (λ m r. reads.array_pat_by m r (code_of code)) }
    ensures fits { IfOk result (λ x. holds_pat x.part.value) }
    ensures shorter { Shorter I.machine I.state p.old p.new result }
{
    let start = p.lo();
    p.bump()?;
    let items = array_items(p, nested, code)?;
    made::array_pat(p.alloc, p.since(start), items)
}

/// A rest of an object, from its dots on, which takes no pattern.
#[inline(never)]
#[tactic(auto, unfolding(crate::specs::Items::object_rest, crate::specs::Items::rest_by))]
pub fn object_rest<'a, I: Tokens<'a> + Drop, N: Nested<'a, I>>(
    p: &mut Parser<'a, I>,
    nested: &N,
    code: Around,
) -> Result<ObjectPatProp, Failure>
    requires ready { N.ready nested.now }
    ensures value { ReadsBy I.machine I.state (N.reads nested.now) p.old p.new result
        (view_object_pat_prop inner) (λ m r. object_rest m r (code_of code)) }
    ensures fits { IfOk result (λ x. fits_object_pat_prop (λ p. p) x) }
    ensures shorter { Shorter I.machine I.state p.old p.new result }
{
    let read = rest(p, nested, code)?;
    if is_structured(read.arg.get()) {
        return Err(p.unexpected());
    }
    Ok(ObjectPatProp::Rest(read))
}

/// Adds a property to those so far.
#[inline(never)]
fn add(list: &mut Vec<ObjectPatProp>, item: ObjectPatProp) -> Result<(), Failure>
    requires list { All (λ y. fits_object_pat_prop (λ p. p) y) list.old.items }
    requires item { fits_object_pat_prop (λ p. p) item }
    ensures value { IfOk result (λ _. map (view_object_pat_prop inner) list.new.items
        ≡ map (view_object_pat_prop inner) list.old.items ++ view_object_pat_prop inner item ∷ []) }
    ensures fits { IfOk result (λ _. All (λ y. fits_object_pat_prop (λ p. p) y) list.new.items) }
    ensures full { IfErr result IsMemory }
{
    list.push(item)?;
    Ok(())
}

/// A rest of an object, and its brace, since none follows.
#[inline(always)]
#[tactic(auto, unfolding(crate::specs::Items::rest_item, crate::specs::Items::object_rest, crate::specs::Items::after_by, grammar_spec::specs::Reader::Statements::after_item))]
fn rest_turn<'a, I: Tokens<'a> + Drop, N: Nested<'a, I>>(
    p: &mut Parser<'a, I>,
    nested: &N,
    code: Around,
    list: &mut Vec<ObjectPatProp>,
) -> Result<bool, Failure>
    requires ready { N.ready nested.now }
    requires fits { All (λ y. fits_object_pat_prop (λ p. p) y) list.old.items }
    ensures value { Gives
        (λ x. (going_on x (map (view_object_pat_prop inner) list.new.items), state_of I.state p.new))
        (to_come I.machine I.state p.new) result
        (rest_item (stream_of I.machine) (N.reads nested.now I.State I.machine)
        (code_of code) (map (view_object_pat_prop inner) list.old.items) (state_of I.state p.old)) }
    ensures fits { IfOk result (λ x. All (λ y. fits_object_pat_prop (λ p. p) y) list.new.items) }
    ensures shorter { Shorter I.machine I.state p.old p.new result }
{
    let item = object_rest(p, nested, code)?;
    add(list, item)?;
    goes_on(p, kinds::RIGHT_BRACE, true)
}

/// One more property of an object, or its brace. Whether another may follow.
#[inline(always)]
#[tactic(auto, unfolding(grammar_spec::specs::Reader::Statements::object_item, grammar_spec::specs::Reader::Statements::after_item, crate::specs::Items::after_by, crate::specs::Items::rest_item))]
pub fn object_turn<'a, I: Tokens<'a> + Drop, N: Nested<'a, I>>(
    p: &mut Parser<'a, I>,
    nested: &N,
    code: Around,
    list: &mut Vec<ObjectPatProp>,
) -> Result<bool, Failure>
    requires ready { N.ready nested.now }
    requires fits { All (λ y. fits_object_pat_prop (λ p. p) y) list.old.items }
    ensures value { Gives
        (λ x. (going_on x (map (view_object_pat_prop inner) list.new.items), state_of I.state p.new))
        (to_come I.machine I.state p.new) result
        (reads.object_item (stream_of I.machine) (N.reads nested.now I.State I.machine)
        (code_of code) (map (view_object_pat_prop inner) list.old.items) (state_of I.state p.old)) }
    ensures fits { IfOk result (λ x. All (λ y. fits_object_pat_prop (λ p. p) y) list.new.items) }
    ensures shorter { Shorter I.machine I.state p.old p.new result }
{
    if p.eat(kinds::RIGHT_BRACE)? {
        return Ok(false);
    }
    if p.at(kinds::DOT_DOT_DOT) {
        return rest_turn(p, nested, code, list);
    }
    let item = property(p, nested, code)?;
    add(list, item)?;
    goes_on(p, kinds::RIGHT_BRACE, false)
}

/// The properties of an object, after its brace.
#[inline(never)]
#[tactic(auto, using(parse_state::proofs::Iterate::iterates), unfolding(crate::specs::Items::object_items))]
pub fn object_items<'a, I: Tokens<'a> + Drop, N: Nested<'a, I>>(
    p: &mut Parser<'a, I>,
    nested: &N,
    code: Around,
) -> Result<Vec<ObjectPatProp>, Failure>
    requires ready { N.ready nested.now }
    ensures value { ReadsBy I.machine I.state (N.reads nested.now) p.old p.new result
        (λ x. map (view_object_pat_prop inner) x.items) (λ m r. object_items m r (code_of code)) }
    ensures fits { IfOk result (λ x. All (λ y. fits_object_pat_prop (λ p. p) y) x.items) }
    ensures shorter { Shorter I.machine I.state p.old p.new result }
{
    let mut list = Vec::new(p.alloc);
    'turns: while object_turn(p, nested, code, &mut list)? {}
    Ok(list)
}

/// An object, from its brace on.
#[inline(always)]
#[tactic(auto, using(parse_operands::proofs::Packs::packs), unfolding(grammar_spec::specs::Reader::Statements::object_pat_by, crate::specs::Items::object_items))]
pub fn object<'a, I: Tokens<'a> + Drop, N: Nested<'a, I>>(
    p: &mut Parser<'a, I>,
    nested: &N,
    code: Around,
) -> Result<PatBox, Failure>
    requires ready { N.ready nested.now }
    ensures value { ReadsBy I.machine I.state (N.reads nested.now) p.old p.new result
        tree_in (λ m r. reads.object_pat_by m r (code_of code)) }
    ensures fits { IfOk result (λ x. holds_pat x.part.value) }
    ensures shorter { Shorter I.machine I.state p.old p.new result }
{
    let start = p.lo();
    p.bump()?;
    let items = object_items(p, nested, code)?;
    made::object_pat(p.alloc, p.since(start), items)
}

/// A binding: a name or a pattern.
#[inline(never)]
#[tactic(auto, unfolding(grammar_spec::specs::Reader::Statements::pat_by))]
pub fn pattern<'a, I: Tokens<'a> + Drop, N: Nested<'a, I>>(
    p: &mut Parser<'a, I>,
    nested: &N,
    code: Around,
) -> Result<PatBox, Failure>
    requires ready { N.ready nested.now }
    ensures value { ReadsBy I.machine I.state (N.reads nested.now) p.old p.new result
        tree_in (λ m r. reads.pat_by m r (code_of code)) }
    ensures fits { IfOk result (λ x. holds_pat x.part.value) }
    ensures shorter { Shorter I.machine I.state p.old p.new result }
{
    if p.at(kinds::LEFT_BRACKET) {
        return array(p, nested, code);
    }
    if p.at(kinds::LEFT_BRACE) {
        return object(p, nested, code);
    }
    let span = p.place();
    let sym = p.name(code)?;
    made::name(p.alloc, span, sym)
}
