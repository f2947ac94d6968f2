//! Chains as long as a text may have them, of left operands and of `else if`: how many links a chain has, and what stands so many
//! links down. What goes over all nodes goes along them in loops.
ghost use Rattle.std.specs.Prelude.{◌≡◌, ◌<◌, false};
ghost use Rattle.tree_nodes.specs.Spines.{Linked, below, further_on, is_absent, is_binary};

use crate::{Expr, ExprKind, Stmt, StmtKind};

/// How many links a chain of left operands has, from this expression down: none, where it is no binary expression. A chain of
/// 4,294,967,295 links or more has so many.
#[tactic(auto, using(crate::proofs::Spines::counted, crate::proofs::Spines::literal_is_none))]
pub fn links(expr: &Expr) -> u32
    ensures linked { Linked result expr.now }
    ensures whole { result < 4294967295 → is_binary (below result expr.now) ≡ false }
{
    let mut rest = expr;
    let mut links: u32 = 0;
    while let ExprKind::Bin(bin) = &rest.kind {
        if links == u32::MAX {
            break;
        }
        rest = bin.left.get();
        links += 1;
    }
    links
}

/// The expression so many left operands down.
#[tactic(auto, using(crate::proofs::Spines::counted, crate::proofs::Spines::literal_stays))]
pub fn below<'e>(expr: &'e Expr, links: u32) -> &'e Expr
    ensures { result.now ≡ below links expr.now }
{
    let mut at = expr;
    for _ in 0..links {
        if let ExprKind::Bin(bin) = &at.kind {
            at = bin.left.get();
        }
    }
    at
}

/// The statement itself, with the fact that no statement is an absent part.
#[tactic(auto, using(crate::proofs::Spines::declaration_is_there))]
pub fn there(stmt: &Stmt) -> &Stmt
    ensures same { result.now ≡ stmt.now }
    ensures there { is_absent result.now ≡ false }
{
    // For the proof: the read shows the kind, and by it no statement is an absent part.
    let _ = &stmt.kind;
    stmt
}

/// The statement so many alternatives of `if` statements on. What is no `if`, or has none, is its own.
#[tactic(auto, using(crate::proofs::Spines::counted, crate::proofs::Spines::declaration_stays))]
pub fn further_on<'s>(stmt: &'s Stmt, links: u32) -> &'s Stmt
    ensures { result.now ≡ further_on links stmt.now }
{
    let mut at = stmt;
    for _ in 0..links {
        if let StmtKind::If(branch) = &at.kind {
            if let Some(alt) = &branch.alt {
                // For the proof: `there` hands on what it is given, with the fact that it is no absent part.
                at = there(alt.get());
            }
        }
    }
    at
}
