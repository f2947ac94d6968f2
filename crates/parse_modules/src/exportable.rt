//! What `export` may stand before.
ghost use Rattle.std.specs.Prelude.{◌≡◌, false, true, MatchOption};
ghost use Rattle.grammar_spec.specs.Tokens.Shape as shape;
ghost use Rattle.tree_nodes.specs.Fits.{fits_decl};
ghost use Rattle.tree_nodes.specs.Placed.{inner};
ghost use Rattle.tree_nodes.specs.View.{view_decl};

use tree_nodes::{Decl, Stmt, StmtKind};

/// A declaration that `export` may stand before (ECMA-262, 16.2.3), out of its statement.
pub fn exportable(stmt: Stmt) -> Option<Decl>
    ensures { MatchOption result (shape.is_exportable stmt ≡ false)
        (λ d. (shape.is_exportable stmt ≡ true) × (stmt ≡ view_decl inner d) × fits_decl
        (λ p. p) d) }
{
    match stmt.kind {
        StmtKind::Decl(Decl::Using(_)) => None,
        StmtKind::Decl(decl) => Some(decl),
        _ => None,
    }
}
