//! Objects.
ghost use Rattle.std.specs.Prelude.{◌≡◌, IfOk};
ghost use Rattle.tree_nodes.specs.Placed.{inner};
ghost use Rattle.tree_nodes.specs.View.{view_prop_or_spread};
ghost use Rattle.grammar_spec.specs.Reader.Cover.{is_rest_item};
ghost use Rattle.grammar_spec.specs.Reader.Expressions as reads;
ghost use Rattle.parse_state.specs.Answers.{going_on};
ghost use Rattle.parse_state.specs.Codes.{code_of};
ghost use Rattle.parse_state.specs.Reads.{Shorter};
ghost use Rattle.parse_operands.specs.Operands.{tree_of};
ghost use Rattle.parse_operands.specs.Rules.{ReadsBy};
ghost use Rattle.parse_objects.specs.Lists.{FitProps, TellsRest, props_by, props_of};

use crate::lists::Props;
use crate::properties::prop;
use parse_operands::elements::goes_on;
use parse_operands::{Nested, Operand, made};
use parse_state::{Around, Failure, Parser, Tokens, kinds};
use tree_nodes::PropOrSpread;

/// Whether a part of an object is spread.
#[tactic(auto, using(crate::proofs::Rests::no_spread))]
pub fn is_spread(item: &PropOrSpread) -> bool
    ensures { result ≡ is_rest_item (view_prop_or_spread inner item.now) }
{
    match item {
        PropOrSpread::Spread(_) => true,
        PropOrSpread::Prop(_) => false,
    }
}

/// One more property, or the end of the object. Whether another may follow.
#[inline(always)]
#[tactic(auto, using(parse_operands::proofs::Packs::rests_more), unfolding(grammar_spec::specs::Reader::Expressions::prop_step, grammar_spec::specs::Reader::Expressions::after_element, parse_operands::specs::Elements::after_item))]
pub fn prop_turn<'a, I: Tokens<'a> + Drop, N: Nested<'a, I>>(
    p: &mut Parser<'a, I>,
    nested: &N,
    code: Around,
    list: &mut Props,
) -> Result<bool, Failure>
    requires ready { N.ready nested.now }
    requires fits { FitProps list.old }
    requires rest { TellsRest list.old }
    ensures value { ReadsBy I.machine I.state (N.reads nested.now) p.old p.new result
        (λ x. going_on x (props_of list.new))
        (λ m r. reads.prop_step m r (code_of code) (props_of list.old)) }
    ensures fits { IfOk result (λ _. FitProps list.new) }
    ensures rest { IfOk result (λ _. TellsRest list.new) }
    ensures shorter { Shorter I.machine I.state p.old p.new result }
{
    if p.eat(kinds::RIGHT_BRACE)? {
        return Ok(false);
    }
    let item = prop(p, nested, code)?;
    list.rest = is_spread(&item);
    list.items.push(item)?;
    list.comma = goes_on(p, kinds::RIGHT_BRACE)?;
    Ok(list.comma)
}

/// The properties of an object, after its brace.
#[inline(always)]
#[tactic(auto, using(parse_state::proofs::Iterate::iterates), unfolding(crate::specs::Lists::props_by))]
pub fn props<'a, I: Tokens<'a> + Drop, N: Nested<'a, I>>(
    p: &mut Parser<'a, I>,
    nested: &N,
    code: Around,
) -> Result<Props, Failure>
    requires ready { N.ready nested.now }
    ensures value { ReadsBy I.machine I.state (N.reads nested.now) p.old p.new result
        props_of (λ m r. props_by m r (code_of code)) }
    ensures fits { IfOk result (λ x. FitProps x) }
    ensures rest { IfOk result (λ x. TellsRest x) }
    ensures shorter { Shorter I.machine I.state p.old p.new result }
{
    let mut list = Props {
        items: Vec::new(p.alloc),
        comma: false,
        rest: false,
    };
    'turns: while prop_turn(p, nested, code, &mut list)? {}
    Ok(list)
}

/// An object, from its brace on.
#[inline(never)]
#[tactic(auto, using(parse_operands::proofs::Packs::packs), unfolding(grammar_spec::specs::Reader::Expressions::object_by, crate::specs::Lists::props_by))]
pub fn object<'a, I: Tokens<'a> + Drop, N: Nested<'a, I>>(
    p: &mut Parser<'a, I>,
    nested: &N,
    code: Around,
) -> Result<Operand, Failure>
    requires ready { N.ready nested.now }
    ensures value { ReadsBy I.machine I.state (N.reads nested.now) p.old p.new result
        tree_of (λ m r. reads.object_by m r (code_of code)) }
    ensures shorter { Shorter I.machine I.state p.old p.new result }
{
    let start = p.lo();
    p.bump()?;
    let list = props(p, nested, code)?;
    let span = p.since(start);
    if list.comma && list.rest {
        p.note(start.0)?;
    }
    made::object_lit(p.alloc, span, list.items)
}
