//! `switch` and its cases.
ghost use Rattle.std.specs.Prelude.{◌≡◌, None, ◌<◌, ◌||◌, ◌&&◌, true, false, All, IfOk, IsTrue, map};
ghost use Rattle.grammar_spec.specs.Tokens.Shape as shape;
ghost use Rattle.tree_nodes.specs.Fits.{fits_switch_case};
ghost use Rattle.tree_nodes.specs.Placed.{holds_stmt, inner};
ghost use Rattle.tree_nodes.specs.View.{view_switch_case};
ghost use Rattle.grammar_spec.specs.Reader.Statements as reads;
ghost use Rattle.parse_state.specs.Answers.{going_on};
ghost use Rattle.parse_state.specs.Codes.{code_of};
ghost use Rattle.parse_state.specs.Reads.{to_come, Shorter, NotLonger};
ghost use Rattle.parse_operands.specs.Rules.{ReadsBy};
ghost use Rattle.parse_operands.specs.Operands.{tree_in};
ghost use Rattle.parse_statements.specs.Lists.{case_items, switch_cases, cases_of, FitCases, TellsDefault};

use parse_blocks::made;
use parse_blocks::parts::in_parens;
use parse_operands::Nested;
use parse_state::code::in_list;
use parse_state::operators::EXPRESSION;
use parse_state::{Around, Failure, Parser, Tokens, kinds};
use tree_nodes::{ExprKind, StmtBox, SwitchCase};

/// The cases of a `switch` so far, and whether one of them is `default`.
#[derive(Drop)]
pub struct CaseList {
    pub items: Vec<SwitchCase>,
    pub has_default: bool,
}

/// One more statement of a case, if one follows. Whether one did.
#[inline(always)]
#[tactic(auto, unfolding(grammar_spec::specs::Reader::Statements::case_step))]
pub fn case_turn<'a, I: Tokens<'a> + Drop, N: Nested<'a, I>>(
    p: &mut Parser<'a, I>,
    nested: &N,
    code: Around,
    list: &mut Vec<StmtBox>,
) -> Result<bool, Failure>
    requires ready { N.ready nested.now }
    requires fits { All (λ x. holds_stmt x.part.value) list.old.items }
    ensures value { ReadsBy I.machine I.state (N.reads nested.now) p.old p.new result
        (λ x. going_on x (map (λ y. inner y.part.value) list.new.items))
        (λ m r. reads.case_step m r (code_of code) (map (λ y. inner y.part.value) list.old.items)) }
    ensures fits { IfOk result (λ x. All (λ y. holds_stmt y.part.value) list.new.items) }
    ensures shorter { IfOk result (λ b. IsTrue b → to_come I.machine I.state p.new < to_come I.machine I.state p.old) }
    ensures not_longer { NotLonger I.machine I.state p.old p.new result }
{
    if p.at(kinds::CASE) || (p.at(kinds::DEFAULT) || p.at(kinds::RIGHT_BRACE)) {
        return Ok(false);
    }
    let item = nested.stmt(p, in_list(code))?;
    list.push(item)?;
    Ok(true)
}

/// The statements of a case, from its colon on.
#[inline(never)]
#[tactic(auto, using(parse_state::proofs::Iterate::iterates), unfolding(crate::specs::Lists::case_items))]
pub fn case_items<'a, I: Tokens<'a> + Drop, N: Nested<'a, I>>(
    p: &mut Parser<'a, I>,
    nested: &N,
    code: Around,
) -> Result<Vec<StmtBox>, Failure>
    requires ready { N.ready nested.now }
    ensures value { ReadsBy I.machine I.state (N.reads nested.now) p.old p.new result
        (λ x. map (λ y. inner y.part.value) x.items) (λ m r. case_items m r (code_of code)) }
    ensures fits { IfOk result (λ x. All (λ y. holds_stmt y.part.value) x.items) }
    ensures shorter { Shorter I.machine I.state p.old p.new result }
{
    p.expect(kinds::COLON)?;
    let mut list = Vec::new(p.alloc);
    'turns: while case_turn(p, nested, code, &mut list)? {}
    Ok(list)
}

/// A case of a `switch`.
#[inline(never)]
#[tactic(auto, using(parse_operands::proofs::Packs::packs), unfolding(grammar_spec::specs::Reader::Statements::case_by, grammar_spec::specs::Reader::Statements::case_rest, crate::specs::Lists::case_items))]
pub fn case<'a, I: Tokens<'a> + Drop, N: Nested<'a, I>>(
    p: &mut Parser<'a, I>,
    nested: &N,
    code: Around,
) -> Result<SwitchCase, Failure>
    requires ready { N.ready nested.now }
    ensures value { ReadsBy I.machine I.state (N.reads nested.now) p.old p.new result
        (view_switch_case inner) (λ m r. reads.case_by m r (code_of code)) }
    ensures fits { IfOk result (λ x. fits_switch_case (λ p. p) x) }
    ensures shorter { Shorter I.machine I.state p.old p.new result }
{
    let start = p.lo();
    if p.at(kinds::DEFAULT) {
        p.eat_word(code, kinds::DEFAULT)?;
        let cons = case_items(p, nested, code)?;
        let span = p.since(start);
        return Ok(SwitchCase {
            span,
            test: None,
            cons,
        });
    }
    p.eat_word(code, kinds::CASE)?;
    let test = nested.expr(p, code, EXPRESSION)?;
    let cons = case_items(p, nested, code)?;
    let span = p.since(start);
    Ok(SwitchCase {
        span,
        test: Some(test.expr),
        cons,
    })
}

/// Whether a case is `default`.
fn is_default(case: &SwitchCase) -> bool
    requires { fits_switch_case (λ p. p) case.now }
    ensures { result ≡ shape.is_default_case (view_switch_case inner case.now) }
{
    match &case.test {
        None => true,
        // For the proof: the match shows the kind, and by it no expression is left out.
        Some(test) => match &test.get().kind {
            ExprKind::Seq(_) => false,
            _ => false,
        },
    }
}

/// One more case of a `switch`, or its brace. Whether another may follow.
#[inline(always)]
#[tactic(auto, using(crate::proofs::Lists::default_more), unfolding(grammar_spec::specs::Reader::Statements::cases_step))]
pub fn cases_turn<'a, I: Tokens<'a> + Drop, N: Nested<'a, I>>(
    p: &mut Parser<'a, I>,
    nested: &N,
    code: Around,
    cases: &mut CaseList,
) -> Result<bool, Failure>
    requires ready { N.ready nested.now }
    requires fits { FitCases cases.old }
    requires tells { TellsDefault cases.old }
    ensures value { ReadsBy I.machine I.state (N.reads nested.now) p.old p.new result
        (λ x. going_on x (cases_of cases.new))
        (λ m r. reads.cases_step m r (code_of code) (cases_of cases.old)) }
    ensures fits { IfOk result (λ x. FitCases cases.new) }
    ensures tells { IfOk result (λ _. TellsDefault cases.new) }
    ensures shorter { Shorter I.machine I.state p.old p.new result }
{
    if p.eat(kinds::RIGHT_BRACE)? {
        return Ok(false);
    }
    let read = case(p, nested, code)?;
    let default = is_default(&read);
    if cases.has_default && default {
        return Err(p.unexpected());
    }
    cases.has_default = cases.has_default || default;
    cases.items.push(read)?;
    Ok(true)
}

/// The cases of a `switch`, after its first brace.
#[inline(never)]
#[tactic(auto, using(parse_state::proofs::Iterate::iterates), unfolding(crate::specs::Lists::switch_cases))]
pub fn cases<'a, I: Tokens<'a> + Drop, N: Nested<'a, I>>(
    p: &mut Parser<'a, I>,
    nested: &N,
    code: Around,
) -> Result<Vec<SwitchCase>, Failure>
    requires ready { N.ready nested.now }
    ensures value { ReadsBy I.machine I.state (N.reads nested.now) p.old p.new result
        (λ x. map (view_switch_case inner) x.items) (λ m r. switch_cases m r (code_of code)) }
    ensures fits { IfOk result (λ x. All (λ x. fits_switch_case (λ p. p) x) x.items) }
    ensures shorter { Shorter I.machine I.state p.old p.new result }
{
    let mut read = CaseList {
        items: Vec::new(p.alloc),
        has_default: false,
    };
    'turns: while cases_turn(p, nested, code, &mut read)? {}
    Ok(read.items)
}

/// `switch`.
#[inline(never)]
#[tactic(auto, using(parse_operands::proofs::Packs::packs), unfolding(grammar_spec::specs::Reader::Statements::switch_by, crate::specs::Lists::switch_cases))]
pub fn switch<'a, I: Tokens<'a> + Drop, N: Nested<'a, I>>(
    p: &mut Parser<'a, I>,
    nested: &N,
    code: Around,
) -> Result<StmtBox, Failure>
    requires ready { N.ready nested.now }
    ensures value { ReadsBy I.machine I.state (N.reads nested.now) p.old p.new result
        tree_in (λ m r. reads.switch_by m r (code_of code)) }
    ensures holds { IfOk result (λ x. holds_stmt x.part.value) }
    ensures shorter { Shorter I.machine I.state p.old p.new result }
{
    let start = p.lo();
    p.eat_word(code, kinds::SWITCH)?;
    let test = in_parens(p, nested, code)?;
    p.expect(kinds::LEFT_BRACE)?;
    let items = cases(p, nested, code)?;
    made::switch_stmt(p.alloc, p.since(start), test, items)
}
