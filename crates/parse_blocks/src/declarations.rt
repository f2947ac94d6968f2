//! Declarations of variables (ECMA-262, 14.3).
ghost use Rattle.std.specs.Prelude.{◌≡◌, ◌≢◌, None, false, IfOk};
ghost use Rattle.grammar_spec.specs.Tokens.Input.{kind};
ghost use Rattle.grammar_spec.specs.Tokens.Shape as shape;
ghost use Rattle.tree_nodes.specs.Fits.{fits_var_declarator};
ghost use Rattle.tree_nodes.specs.Placed.{holds_stmt, inner};
ghost use Rattle.tree_nodes.specs.View.{var_decl_kind_word, view_var_declarator};
ghost use Rattle.grammar_spec.specs.Reader.Statements as reads;
ghost use Rattle.parse_state.specs.Answers.{going_on};
ghost use Rattle.parse_state.specs.Codes.{code_of};
ghost use Rattle.parse_state.specs.Reads.{at_hand, Shorter};
ghost use Rattle.parse_operands.specs.Operands.{tree_of, tree_in};
ghost use Rattle.parse_operands.specs.Rules.{ReadsBy};
ghost use Rattle.parse_blocks.specs.Declarators.{declarators_of, FitDeclarators, TellsEnd};

use crate::made;
use base_token::BytePos;
use parse_operands::{Nested, Operand};
use parse_state::operators::{ASSIGNMENT, BINDING_END};
use parse_state::{Around, Failure, Parser, Tokens, kinds};
use tree_nodes::{ExprKind, StmtBox, VarDeclKind, VarDeclarator};

/// Declarators so far, and the class of the last one's end.
#[derive(Drop)]
pub struct DeclaratorList {
    pub items: Vec<VarDeclarator>,
    pub end: u8,
}

/// Whether an expression is left out, which none is.
fn is_absent(operand: &Operand) -> bool
    ensures { result ≡ shape.is_absent (tree_of operand.now) }
{
    // For the proof: the match shows the kind, and by it no expression is left out.
    match &operand.expr.get().kind {
        ExprKind::Seq(_) => false,
        _ => false,
    }
}

/// A name or a pattern, and its initialiser where one follows; beside the class of its end.
#[inline(never)]
#[tactic(auto, unfolding(grammar_spec::specs::Reader::Statements::declarator_by))]
pub fn declarator<'a, I: Tokens<'a> + Drop, N: Nested<'a, I>>(
    p: &mut Parser<'a, I>,
    nested: &N,
    code: Around,
) -> Result<(VarDeclarator, u8), Failure>
    requires ready { N.ready nested.now }
    ensures value { ReadsBy I.machine I.state (N.reads nested.now) p.old p.new result
        (λ x. view_var_declarator inner x.0) (λ m r. reads.declarator_by m r (code_of code)) }
    ensures fits { IfOk result (λ x. fits_var_declarator (λ p. p) x.0) }
    ensures end { IfOk result (λ x. x.1 ≡ shape.declarator_end (view_var_declarator inner x.0)) }
    ensures shorter { Shorter I.machine I.state p.old p.new result }
{
    let start = p.lo();
    let name = nested.pat(p, code)?;
    if p.eat(kinds::ASSIGN)? {
        let init = nested.expr(p, code, ASSIGNMENT)?;
        let end = if is_absent(&init) {
            BINDING_END
        } else {
            init.end
        };
        let span = p.since(start);
        return Ok((
            VarDeclarator {
                span,
                name,
                init: Some(init.expr),
            },
            end,
        ));
    }
    let span = p.since(start);
    Ok((
        VarDeclarator {
            span,
            name,
            init: None,
        },
        BINDING_END,
    ))
}

/// One more declarator. Whether another follows, behind a comma.
#[inline(always)]
#[tactic(auto, using(crate::proofs::Declarators::declared_more), unfolding(grammar_spec::specs::Reader::Statements::declarator_step))]
pub fn declarator_turn<'a, I: Tokens<'a> + Drop, N: Nested<'a, I>>(
    p: &mut Parser<'a, I>,
    nested: &N,
    code: Around,
    list: &mut DeclaratorList,
) -> Result<bool, Failure>
    requires ready { N.ready nested.now }
    requires fits { FitDeclarators list.old }
    ensures value { ReadsBy I.machine I.state (N.reads nested.now) p.old p.new result
        (λ x. going_on x (declarators_of list.new))
        (λ m r. reads.declarator_step m r (code_of code) (declarators_of list.old)) }
    ensures fits { IfOk result (λ x. FitDeclarators list.new) }
    ensures end { IfOk result (λ _. TellsEnd list.new) }
    ensures shorter { Shorter I.machine I.state p.old p.new result }
{
    let (item, end) = declarator(p, nested, code)?;
    list.items.push(item)?;
    list.end = end;
    p.eat(kinds::COMMA)
}

/// The declarators of a declaration.
#[inline(never)]
#[tactic(auto, using(parse_state::proofs::Iterate::iterates), unfolding(grammar_spec::specs::Reader::Statements::declarators_by))]
pub fn declarators<'a, I: Tokens<'a> + Drop, N: Nested<'a, I>>(
    p: &mut Parser<'a, I>,
    nested: &N,
    code: Around,
) -> Result<DeclaratorList, Failure>
    requires ready { N.ready nested.now }
    ensures value { ReadsBy I.machine I.state (N.reads nested.now) p.old p.new result
        declarators_of (λ m r. reads.declarators_by m r (code_of code)) }
    ensures fits { IfOk result (λ x. FitDeclarators x) }
    ensures end { IfOk result (λ x. TellsEnd x) }
    ensures shorter { Shorter I.machine I.state p.old p.new result }
{
    let mut list = DeclaratorList {
        items: Vec::new(p.alloc),
        end: BINDING_END,
    };
    'turns: while declarator_turn(p, nested, code, &mut list)? {}
    Ok(list)
}

/// `var`, `let` or `const`, with what it declares.
#[inline(never)]
#[tactic(auto, using(parse_operands::proofs::Packs::packs), unfolding(grammar_spec::specs::Reader::Statements::variables_by))]
pub fn variables<'a, I: Tokens<'a> + Drop, N: Nested<'a, I>>(
    p: &mut Parser<'a, I>,
    nested: &N,
    code: Around,
    word: VarDeclKind,
) -> Result<StmtBox, Failure>
    requires ready { N.ready nested.now }
    requires kind { var_decl_kind_word word ≡ kind (at_hand I.machine I.state p.old) }
    requires some { kind (at_hand I.machine I.state p.old) ≢ 0 }
    ensures value { ReadsBy I.machine I.state (N.reads nested.now) p.old p.new result
        tree_in (λ m r. reads.variables_by m r (code_of code)) }
    ensures holds { IfOk result (λ x. holds_stmt x.part.value) }
    ensures shorter { Shorter I.machine I.state p.old p.new result }
{
    let start = p.lo();
    p.eat_word(code, p.kind())?;
    let list = declarators(p, nested, code)?;
    p.end_of(code, list.end)?;
    made::var_decl(p.alloc, p.since(start), word, list.items)
}

/// `using`, with what it declares. Before it `await` may stand.
#[inline(never)]
#[tactic(auto, using(parse_operands::proofs::Packs::packs), unfolding(grammar_spec::specs::Reader::Statements::using_by))]
pub fn using<'a, I: Tokens<'a> + Drop, N: Nested<'a, I>>(
    p: &mut Parser<'a, I>,
    nested: &N,
    code: Around,
    start: BytePos,
    awaits: bool,
) -> Result<StmtBox, Failure>
    requires ready { N.ready nested.now }
    ensures value { ReadsBy I.machine I.state (N.reads nested.now) p.old p.new result
        tree_in (λ m r. reads.using_by m r (code_of code) start.0 awaits) }
    ensures holds { IfOk result (λ x. holds_stmt x.part.value) }
    ensures shorter { Shorter I.machine I.state p.old p.new result }
{
    p.eat_word(code, kinds::USING)?;
    let list = declarators(p, nested, code)?;
    p.end_of(code, list.end)?;
    made::using_decl(p.alloc, p.since(start), awaits, list.items)
}
