//! Goes over chains in loops, so that none is too long for the stack. What is told on the way back begins with the innermost link,
//! so a chain is gone back over by halves, the inner half first.
ghost use Rattle.std.specs.Prelude.{◌≡◌, true};
ghost use Rattle.tree_nodes.specs.Spines.{further_on};
ghost use Rattle.tree_visit.specs.Spine.Chains.{Linked, below, is_link};
ghost use Rattle.tree_visit.specs.Spines.{entered_link, entered_links, left_ifs, left_links, walk_of_rest};

use crate::kinds::Kind;
use crate::lists::walk_args;
use crate::spine::chain::{below, left_part};
use crate::told::{enter_part, leave_part};
use crate::watch::{Node, Walk, Watch};
use tree_nodes::spine::further_on;
use tree_nodes::{Expr, ExprKind, OptChainBase, Stmt};

/// Enters an expression and what it goes on from, down a chain. Answers the last of them, which is not entered, and how many
/// links lead there.
#[tactic(auto, using(crate::proofs::Chains::on_the_way_down))]
pub(crate) fn enter_links<'e, V: Watch>(expr: &'e Expr, visitor: &mut V) -> (&'e Expr, u32)
    ensures state { V.state visitor.new ≡ entered_links V.step result.1 expr.now (V.state visitor.old) }
    ensures rest { result.0.now ≡ below result.1 expr.now }
    ensures linked { Linked result.1 expr.now }
{
    let mut rest = expr;
    let mut links: u32 = 0;
    'down: while let Some(left) = left_part(rest) {
        if links == u32::MAX {
            break;
        }
        enter_link(rest, visitor);
        rest = left;
        links += 1;
    }
    (rest, links)
}

/// Enters a link, and of an optional chain the member or the call that it is.
#[tactic(auto, using(crate::proofs::Chains::literal_entered))]
fn enter_link<V: Watch>(link: &Expr, visitor: &mut V)
    ensures { V.state visitor.new ≡ entered_link V.step link.now (V.state visitor.old) }
{
    visitor.enter(Node::Expr(link));
    if let ExprKind::OptChain(x) = &link.kind {
        match &x.base {
            OptChainBase::Member(member) => enter_part(Kind::MemberExpr, member.span, visitor),
            OptChainBase::Call(call) => enter_part(Kind::OptCall, call.span, visitor),
        }
    }
}

/// Goes over what stands right of the left part of a link, and leaves the member or the call that an optional chain is.
#[cycle(walk)]
#[tactic(auto, using(crate::proofs::Chains::literal_has_no_rest))]
fn walk_rest<V: Watch>(link: &Expr, visitor: &mut V)
    requires linked { is_link link.now ≡ true }
    ensures { V.state visitor.new ≡ walk_of_rest V.step link.now (V.state visitor.old) }
{
    match &link.kind {
        ExprKind::Bin(x) => x.right.walk(visitor),
        ExprKind::Member(x) => x.prop.walk(visitor),
        ExprKind::Call(x) => walk_args(&x.args, visitor),
        ExprKind::TaggedTpl(x) => x.tpl.walk(visitor),
        ExprKind::OptChain(x) => match &x.base {
            OptChainBase::Member(member) => {
                member.prop.walk(visitor);
                leave_part(Kind::MemberExpr, member.span, visitor);
            }
            OptChainBase::Call(call) => {
                walk_args(&call.args, visitor);
                leave_part(Kind::OptCall, call.span, visitor);
            }
        },
        _ => {}
    }
}

/// Goes over what stands right of the left parts of so many links and leaves the links, from the innermost outwards.
#[cycle(walk)]
#[tactic(auto, using(crate::proofs::Chains::on_the_way_back))]
pub(crate) fn leave_links<V: Watch>(top: &Expr, links: u32, visitor: &mut V)
    requires linked { Linked links top.now }
    ensures { V.state visitor.new ≡ left_links V.step links top.now (V.state visitor.old) }
{
    match links {
        0 => {}
        1 => {
            walk_rest(top, visitor);
            visitor.leave(Node::Expr(top));
        }
        _ => {
            let outer = links / 2;
            leave_links(below(top, outer), links - outer, visitor);
            leave_links(top, outer, visitor);
        }
    }
}

/// Leaves so many `if` statements, from the innermost outwards.
#[tactic(auto, using(crate::proofs::Chains::out_of_ifs))]
pub(crate) fn leave_ifs<V: Watch>(top: &Stmt, links: u32, visitor: &mut V)
    ensures { V.state visitor.new ≡ left_ifs V.step links top.now (V.state visitor.old) }
{
    match links {
        0 => {}
        1 => visitor.leave(Node::Stmt(top)),
        _ => {
            let outer = links / 2;
            leave_ifs(further_on(top, outer), links - outer, visitor);
            leave_ifs(top, outer, visitor);
        }
    }
}
