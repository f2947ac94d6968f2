//! Heads of `for` that declare.
ghost use Rattle.std.specs.Prelude.{◌≡◌, ◌≢◌, true, false, All, IfOk, map};
ghost use Rattle.grammar_spec.specs.Tokens.Input.{kind};
ghost use Rattle.grammar_spec.specs.Tokens.Shape as shape;
ghost use Rattle.tree_nodes.specs.Fits.{fits_for_head, fits_var_decl_or_expr, fits_var_declarator};
ghost use Rattle.tree_nodes.specs.Placed.{holds_stmt, inner};
ghost use Rattle.tree_nodes.specs.View.{var_decl_kind_word, view_for_head, view_var_decl_or_expr, view_var_declarator};
ghost use Rattle.grammar_spec.specs.Reader.Statements as reads;
ghost use Rattle.parse_state.specs.Codes.{code_of};
ghost use Rattle.parse_state.specs.Cursors.{stream_of};
ghost use Rattle.parse_state.specs.Reads.{at_hand, Shorter};
ghost use Rattle.parse_operands.specs.Rules.{ReadsBy};
ghost use Rattle.parse_operands.specs.Operands.{tree_in};
ghost use Rattle.parse_loops.specs.Heads.{declared_of, FitDeclared, view_declared};

use crate::for_tails::{for_rest, in_rest, of_rest};
use crate::made;
use base_token::BytePos;
use parse_blocks::declarations::declarators;
use parse_operands::Nested;
use parse_state::code::without_in;
use parse_state::{Around, Failure, Parser, Tokens, kinds};
use tree_nodes::{
    ExprKind, ForHead, StmtBox, UsingDecl, VarDecl, VarDeclKind, VarDeclOrExpr, VarDeclarator,
};

/// What the head of a `for` declares.
#[derive(Drop)]
pub enum Declared {
    Variables(Box<VarDecl>),
    Using(Box<UsingDecl>),
}

/// Whether a declarator has no initialiser.
fn is_bare(item: &VarDeclarator) -> bool
    requires { fits_var_declarator (λ p. p) item.now }
    ensures { result ≡ shape.is_bare_declarator (view_var_declarator inner item.now) }
{
    match &item.init {
        None => true,
        // For the proof: the match shows the kind, and by it no expression is left out.
        Some(init) => match &init.get().kind {
            ExprKind::Seq(_) => false,
            _ => false,
        },
    }
}

/// Whether there is one declarator, and it has no initialiser.
fn one_bare<'a, I: Tokens<'a> + Drop, N: Nested<'a, I>>(
    _p: &Parser<'a, I>,
    _nested: &N,
    items: &[VarDeclarator],
) -> bool
    requires { All (λ x. fits_var_declarator (λ p. p) x) items.now }
    ensures { result ≡ reads.one_bare (stream_of I.machine) (N.reads _nested.now I.State I.machine)
        (map (view_var_declarator inner) items.now) }
{
    match items {
        [item] => is_bare(item),
        _ => false,
    }
}

/// What is declared, as what a `for` with `in` or `of` binds.
fn as_head(declared: Declared) -> ForHead
    requires { FitDeclared declared }
    ensures value { view_for_head inner result ≡ view_declared declared }
    ensures fits { fits_for_head (λ p. p) result }
{
    match declared {
        Declared::Variables(x) => ForHead::VarDecl(x),
        Declared::Using(x) => ForHead::UsingDecl(x),
    }
}

/// What is declared, as what a `for` begins with.
fn as_init(declared: Declared) -> VarDeclOrExpr
    requires { FitDeclared declared }
    ensures value { view_var_decl_or_expr inner result ≡ view_declared declared }
    ensures fits { fits_var_decl_or_expr (λ p. p) result }
{
    match declared {
        Declared::Variables(x) => VarDeclOrExpr::VarDecl(x),
        Declared::Using(x) => VarDeclOrExpr::UsingDecl(x),
    }
}

/// Whether one name or pattern is declared, with no initialiser.
fn declares_one<'a, I: Tokens<'a> + Drop, N: Nested<'a, I>>(
    p: &Parser<'a, I>,
    nested: &N,
    declared: &Declared,
) -> bool
    requires { FitDeclared declared.now }
    ensures { result ≡ reads.one_bare (stream_of I.machine) (N.reads nested.now I.State I.machine)
        (declared_of declared.now) }
{
    match declared {
        Declared::Variables(x) => one_bare(p, nested, x.decls.as_slice()),
        Declared::Using(x) => one_bare(p, nested, x.decls.as_slice()),
    }
}

/// What follows what is declared: `in`, `of` or a semicolon.
#[inline(always)]
#[tactic(auto, unfolding(grammar_spec::specs::Reader::Statements::head_rest))]
pub fn head_rest<'a, I: Tokens<'a> + Drop, N: Nested<'a, I>>(
    p: &mut Parser<'a, I>,
    nested: &N,
    code: Around,
    start: BytePos,
    awaits: bool,
    declared: Declared,
) -> Result<StmtBox, Failure>
    requires ready { N.ready nested.now }
    requires declared { FitDeclared declared }
    ensures value { ReadsBy I.machine I.state (N.reads nested.now) p.old p.new result
        tree_in
        (λ m r. reads.head_rest m r (code_of code) start.0 awaits (declared_of declared)
        (view_declared declared)) }
    ensures holds { IfOk result (λ x. holds_stmt x.part.value) }
    ensures shorter { Shorter I.machine I.state p.old p.new result }
{
    if p.at(kinds::OF) {
        if !declares_one(p, nested, &declared) {
            return Err(p.unexpected());
        }
        return of_rest(p, nested, code, start, awaits, as_head(declared));
    }
    if awaits {
        return Err(p.unexpected());
    }
    if p.at(kinds::IN) {
        if !declares_one(p, nested, &declared) {
            return Err(p.unexpected());
        }
        return in_rest(p, nested, code, start, as_head(declared));
    }
    for_rest(p, nested, code, start, Some(as_init(declared)))
}

/// `var`, `let` or `const` in a head, and what follows.
#[inline(never)]
#[tactic(auto, using(parse_operands::proofs::Packs::packs), unfolding(grammar_spec::specs::Reader::Statements::for_variables))]
pub fn for_variables<'a, I: Tokens<'a> + Drop, N: Nested<'a, I>>(
    p: &mut Parser<'a, I>,
    nested: &N,
    code: Around,
    start: BytePos,
    awaits: bool,
    word: VarDeclKind,
) -> Result<StmtBox, Failure>
    requires ready { N.ready nested.now }
    requires word { var_decl_kind_word word ≡ kind (at_hand I.machine I.state p.old) }
    requires some { kind (at_hand I.machine I.state p.old) ≢ 0 }
    ensures value { ReadsBy I.machine I.state (N.reads nested.now) p.old p.new result
        tree_in (λ m r. reads.for_variables m r (code_of code) start.0 awaits) }
    ensures holds { IfOk result (λ x. holds_stmt x.part.value) }
    ensures shorter { Shorter I.machine I.state p.old p.new result }
{
    let own = p.lo();
    p.eat_word(code, p.kind())?;
    let list = declarators(p, nested, without_in(code))?;
    let node = made::variables(p.alloc, p.since(own), word, list.items)?;
    head_rest(p, nested, code, start, awaits, Declared::Variables(node))
}

/// `using` in a head, and what follows. Before it `await` may stand.
#[inline(never)]
#[tactic(auto, using(parse_operands::proofs::Packs::packs), unfolding(grammar_spec::specs::Reader::Statements::for_using))]
pub fn for_using<'a, I: Tokens<'a> + Drop, N: Nested<'a, I>>(
    p: &mut Parser<'a, I>,
    nested: &N,
    code: Around,
    start: BytePos,
    awaits: bool,
    own: BytePos,
    waits: bool,
) -> Result<StmtBox, Failure>
    requires ready { N.ready nested.now }
    ensures value { ReadsBy I.machine I.state (N.reads nested.now) p.old p.new result
        tree_in
        (λ m r. reads.for_using m r (code_of code) start.0 awaits own.0 waits) }
    ensures holds { IfOk result (λ x. holds_stmt x.part.value) }
    ensures shorter { Shorter I.machine I.state p.old p.new result }
{
    p.eat_word(code, kinds::USING)?;
    let list = declarators(p, nested, without_in(code))?;
    let node = made::using(p.alloc, p.since(own), waits, list.items)?;
    head_rest(p, nested, code, start, awaits, Declared::Using(node))
}
