//! A walk that looks for what is left of a cover.
ghost use Rattle.std.specs.Prelude.{◌≡◌, if◌then◌else◌, false, Bool};
ghost use Rattle.grammar_spec.specs.Tokens.Shape.{is_clean};
ghost use Rattle.tree_nodes.specs.Placed.{inner};
ghost use Rattle.tree_nodes.specs.View.{view_module, view_script};
ghost use Rattle.tree_visit.specs.Told.{seen_in};
ghost use Rattle.tree_visit.specs.Walk.{enter, told};
ghost use Rattle.parse_alone.specs.Covers.{after_event, covers, is_cover};

use base_token::Span;
use tree_nodes::{
    Expr, ExprKind, Module, Pat, PatKind, Program, ProgramKind, Script, Stmt, StmtKind,
};
use tree_visit::{Hooks, Kind, Node, Visit, Walk, Watch};

/// Whether nothing was found so far.
#[derive(Drop)]
struct Clean {
    clean: bool,
}

/// Whether a program is a property with an initialiser, which none is.
fn program_covers(program: &Program) -> bool
    ensures { result ≡ covers program.now }
{
    // For the proof: the match shows the kind, and by it no program is a property.
    match &program.kind {
        ProgramKind::Script(_) => false,
        _ => false,
    }
}

/// The same of a statement.
fn stmt_covers(stmt: &Stmt) -> bool
    ensures { result ≡ covers stmt.now }
{
    // For the proof: the match shows the kind, and by it no statement is a property.
    match &stmt.kind {
        StmtKind::Empty(_) => false,
        _ => false,
    }
}

/// The same of an expression.
fn expr_covers(expr: &Expr) -> bool
    ensures { result ≡ covers expr.now }
{
    // For the proof: the match shows the kind, and by it no expression is a property.
    match &expr.kind {
        ExprKind::This(_) => false,
        _ => false,
    }
}

/// The same of a pattern.
fn pat_covers(pat: &Pat) -> bool
    ensures { result ≡ covers pat.now }
{
    // For the proof: the match shows the kind, and by it no pattern is a property.
    match &pat.kind {
        PatKind::Ident(_) => false,
        _ => false,
    }
}

/// Whether a kind is that of properties with an initialiser.
fn kind_covers(kind: Kind) -> bool
    ensures { result ≡ is_cover kind }
{
    matches!(kind, Kind::AssignProp)
}

/// Whether a node is a property with an initialiser.
#[tactic(auto, using(crate::proofs::Walks::told_of))]
fn node_covers(node: Node<'_>) -> bool
    ensures { (s : Bool) → told (λ x. after_event (enter x)) (seen_in node.entry) s ≡ (if result then false else s) }
{
    match node {
        Node::Program(x) => program_covers(x),
        Node::Stmt(x) => stmt_covers(x),
        Node::Expr(x) => expr_covers(x),
        Node::Pat(x) => pat_covers(x),
        Node::Part(kind, _) => kind_covers(kind),
        _ => false,
    }
}

impl Watch for Clean {
    ghost State = { Bool };

    ghost step = { after_event };

    ghost state = { λ watch. watch.clean };

    fn enter(&mut self, node: Node<'_>) {
        if node_covers(node) {
            self.clean = false;
        }
    }

    fn leave(&mut self, _node: Node<'_>) {}
}

/// Whether nothing of a cover is left in a part of a tree.
#[tactic(auto, using(crate::proofs::Walks::part_clean))]
pub fn is_clean<T: Walk>(part: &T) -> bool
    ensures { result ≡ is_clean (T.tree part.now) }
{
    let mut watch = Clean { clean: true };
    part.walk(&mut watch);
    watch.clean
}

/// Whether nothing of a cover is left in a script.
#[tactic(auto, using(crate::proofs::Walks::finds))]
pub fn script_is_clean(script: &Script) -> bool
    ensures { result ≡ is_clean (view_script inner script.now) }
{
    let mut watch = Clean { clean: true };
    script.body.walk(&mut watch);
    watch.clean
}

/// Whether nothing of a cover is left in a module.
#[tactic(auto, using(crate::proofs::Walks::finds))]
pub fn module_is_clean(program: &Module) -> bool
    ensures { result ≡ is_clean (view_module inner program.now) }
{
    let mut watch = Clean { clean: true };
    program.body.walk(&mut watch);
    watch.clean
}

/// The place of the first property with an initialiser that was met.
struct Cover {
    place: Option<Span>,
}

impl Visit for Cover {
    fn enter_part(&mut self, kind: Kind, span: Span) {
        if kind_covers(kind) && self.place.is_none() {
            self.place = Some(span);
        }
    }
}

/// Where the first thing left of a cover stands in a part of a tree.
pub fn cover_in<T: Walk>(part: &T) -> Option<Span> {
    let mut hooks = Hooks {
        visit: Cover { place: None },
    };
    part.walk(&mut hooks);
    let Hooks { visit } = hooks;
    let Cover { place } = visit;
    place
}
