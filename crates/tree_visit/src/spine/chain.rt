//! What goes over all nodes goes along the links of a chain in loops, so that its length takes no stack.
ghost use Rattle.std.specs.Prelude.{◌≡◌, ◌<◌, true, false, MatchOption};
ghost use Rattle.tree_visit.specs.Spine.Chains.{Linked, below, is_head_word, is_link, left_part};

use tree_nodes::{Callee, Expr, ExprKind, OptChainBase};

/// The expression itself, with the fact that none is `super` or `import`.
#[tactic(auto, using(crate::proofs::spine::Chains::literal_is_no_word))]
fn operand(expr: &Expr) -> &Expr
    ensures same { result.now ≡ expr.now }
    ensures no_word { is_head_word result.now ≡ false }
{
    // For the proof: the read shows the kind, and by it no expression is `super` or `import`.
    let _ = &expr.kind;
    expr
}

/// What an expression goes on from, if it is a link of a chain: the left operand of a binary operator, the object of a member,
/// the callee of a call, the tag of a template, and of an optional chain those of the member or the call that it is.
#[tactic(auto, using(crate::proofs::spine::Chains::goes_on, crate::proofs::spine::Chains::call_links, crate::proofs::spine::Chains::literal_is_none))]
pub fn left_part(expr: &Expr) -> Option<&Expr>
    ensures { MatchOption result (is_link expr.now ≡ false) (λ left. (is_link expr.now ≡ true) × (left.now ≡ left_part expr.now)) }
{
    match &expr.kind {
        ExprKind::Bin(x) => Some(x.left.get()),
        ExprKind::Member(x) => Some(x.obj.get()),
        ExprKind::TaggedTpl(x) => Some(x.tag.get()),
        ExprKind::Call(x) => match &x.callee {
            // For the proof: `operand` hands on what it is given, with the fact that it is no `super` or `import`.
            Callee::Expr(callee) => Some(operand(callee.get())),
            Callee::Super(_) | Callee::Import(_) => None,
        },
        ExprKind::OptChain(x) => match &x.base {
            OptChainBase::Member(member) => Some(member.obj.get()),
            OptChainBase::Call(call) => Some(call.callee.get()),
        },
        _ => None,
    }
}

/// How many links a chain has, from this expression down: none, where it is no link. A chain of 4,294,967,295 links or more has
/// so many.
#[tactic(auto, using(crate::proofs::spine::Chains::counted, crate::proofs::spine::Chains::left_falls))]
pub fn links(expr: &Expr) -> u32
    ensures linked { Linked result expr.now }
    ensures whole { result < 4294967295 → is_link (below result expr.now) ≡ false }
{
    let mut rest = expr;
    let mut count: u32 = 0;
    'down: while let Some(left) = left_part(rest) {
        if count == u32::MAX {
            break;
        }
        rest = left;
        count += 1;
    }
    count
}

/// The expression so many left parts down.
#[tactic(auto, using(crate::proofs::spine::Chains::counted, crate::proofs::spine::Chains::stays))]
pub fn below<'e>(expr: &'e Expr, links: u32) -> &'e Expr
    ensures { result.now ≡ below links expr.now }
{
    let mut at = expr;
    for _ in 0..links {
        if let Some(left) = left_part(at) {
            at = left;
        }
    }
    at
}
