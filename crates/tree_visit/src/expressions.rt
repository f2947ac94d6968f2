// Written by tools/tree/visit.py from tools/tree/tree.table. Don't edit this file.
//! Goes over expressions (ECMA-262, clause 13).
ghost use Rattle.tree_nodes.specs.View.{view_expr_kind, view_object_lit, view_fn_expr, view_member_expr, view_super_prop_expr, view_new_expr, view_ident, view_tpl, view_tpl_element, view_arrow_expr, view_class_expr, view_paren_expr, view_opt_chain_expr, view_opt_call, view_super, view_import, view_invalid, view_expr_or_spread, view_spread_element, view_callee, view_member_prop, view_super_prop, view_opt_chain_base, view_block_stmt_or_expr};

use crate::kinds::Kind;
use crate::lists::{
    walk_all, walk_elements, walk_headed, walk_part, walk_template, walk_three, walk_two,
};
use crate::told::{enter_part, leave_part, tell_leaf, tell_list, tell_one, tell_two};
use crate::watch::{Inside, Node, Walk, Watch};
use tree_nodes::{
    ArrowExprOf, BlockStmtOrExprOf, CalleeOf, ClassExprOf, ExprKindOf, ExprOrSpreadOf, FnExprOf,
    Ident, Import, Invalid, MemberExprOf, MemberPropOf, NewExprOf, ObjectLitOf, OptCallOf,
    OptChainBaseOf, OptChainExprOf, ParenExprOf, SpreadElementOf, Super, SuperPropExprOf,
    SuperPropOf, TplElement, TplOf,
};

impl<T: Walk> Inside for ExprKindOf<T> {
    ghost tree = { view_expr_kind T.tree };

    fn inside<V: Watch>(&self, visitor: &mut V) {
        match self {
            ExprKindOf::This(_) => {}
            ExprKindOf::Array(x) => walk_elements(x.elems.as_slice(), visitor),
            ExprKindOf::Object(x) => walk_all(x.props.as_slice(), visitor),
            ExprKindOf::Fn(x) => x.inside(visitor),
            ExprKindOf::Unary(x) => x.arg.walk(visitor),
            ExprKindOf::Update(x) => x.arg.walk(visitor),
            ExprKindOf::Bin(x) => walk_two(&x.left, &x.right, visitor),
            ExprKindOf::Assign(x) => walk_two(&x.left, &x.right, visitor),
            ExprKindOf::Member(x) => walk_two(&x.obj, &x.prop, visitor),
            ExprKindOf::SuperProp(x) => walk_two(&x.obj, &x.prop, visitor),
            ExprKindOf::Cond(x) => walk_three(&x.test, &x.cons, &x.alt, visitor),
            ExprKindOf::Call(x) => walk_headed(&x.callee, x.args.as_slice(), visitor),
            ExprKindOf::New(x) => x.inside(visitor),
            ExprKindOf::Seq(x) => walk_all(x.exprs.as_slice(), visitor),
            ExprKindOf::Ident(_) => {}
            ExprKindOf::Lit(_) => {}
            ExprKindOf::Tpl(x) => walk_template(x.quasis.as_slice(), x.exprs.as_slice(), visitor),
            ExprKindOf::TaggedTpl(x) => walk_two(&x.tag, &*x.tpl, visitor),
            ExprKindOf::Arrow(x) => x.inside(visitor),
            ExprKindOf::Class(x) => x.inside(visitor),
            ExprKindOf::Yield(x) => walk_part(&x.arg, visitor),
            ExprKindOf::MetaProp(_) => {}
            ExprKindOf::Await(x) => x.arg.walk(visitor),
            ExprKindOf::Paren(x) => x.expr.walk(visitor),
            ExprKindOf::PrivateName(_) => {}
            ExprKindOf::OptChain(x) => x.base.walk(visitor),
            ExprKindOf::Invalid(_) => {}
        }
    }
}

impl<T: Walk> Walk for ObjectLitOf<T> {
    ghost tree = { view_object_lit T.tree };

    fn walk<V: Watch>(&self, visitor: &mut V) {
        tell_list(Kind::ObjectLit, self.span, self.props.as_slice(), visitor);
    }
}

impl<T: Walk> Inside for FnExprOf<T> {
    ghost tree = { view_fn_expr T.tree };

    fn inside<V: Watch>(&self, visitor: &mut V) {
        walk_part(&self.ident, visitor);
        self.function.walk(visitor);
    }
}

impl<T: Walk> Walk for FnExprOf<T> {
    ghost tree = { view_fn_expr T.tree };

    fn walk<V: Watch>(&self, visitor: &mut V) {
        enter_part(Kind::FnExpr, self.span, visitor);
        self.inside(visitor);
        leave_part(Kind::FnExpr, self.span, visitor);
    }
}

impl<T: Walk> Walk for MemberExprOf<T> {
    ghost tree = { view_member_expr T.tree };

    fn walk<V: Watch>(&self, visitor: &mut V) {
        tell_two(Kind::MemberExpr, self.span, &self.obj, &self.prop, visitor);
    }
}

impl<T: Walk> Walk for SuperPropExprOf<T> {
    ghost tree = { view_super_prop_expr T.tree };

    fn walk<V: Watch>(&self, visitor: &mut V) {
        tell_two(
            Kind::SuperPropExpr,
            self.span,
            &self.obj,
            &self.prop,
            visitor,
        );
    }
}

impl<T: Walk> Inside for NewExprOf<T> {
    ghost tree = { view_new_expr T.tree };

    fn inside<V: Watch>(&self, visitor: &mut V) {
        self.callee.walk(visitor);
        walk_part(&self.args, visitor);
    }
}

impl Walk for Ident {
    ghost tree = { view_ident };

    fn walk<V: Watch>(&self, visitor: &mut V) {
        visitor.enter(Node::Ident(self));
        visitor.leave(Node::Ident(self));
    }
}

impl<T: Walk> Walk for TplOf<T> {
    ghost tree = { view_tpl T.tree };

    fn walk<V: Watch>(&self, visitor: &mut V) {
        enter_part(Kind::Tpl, self.span, visitor);
        walk_template(self.quasis.as_slice(), self.exprs.as_slice(), visitor);
        leave_part(Kind::Tpl, self.span, visitor);
    }
}

impl Walk for TplElement {
    ghost tree = { view_tpl_element };

    fn walk<V: Watch>(&self, visitor: &mut V) {
        visitor.enter(Node::TplElement(self));
        visitor.leave(Node::TplElement(self));
    }
}

impl<T: Walk> Inside for ArrowExprOf<T> {
    ghost tree = { view_arrow_expr T.tree };

    fn inside<V: Watch>(&self, visitor: &mut V) {
        walk_all(self.params.as_slice(), visitor);
        self.body.walk(visitor);
    }
}

impl<T: Walk> Inside for ClassExprOf<T> {
    ghost tree = { view_class_expr T.tree };

    fn inside<V: Watch>(&self, visitor: &mut V) {
        walk_part(&self.ident, visitor);
        self.class.walk(visitor);
    }
}

impl<T: Walk> Walk for ClassExprOf<T> {
    ghost tree = { view_class_expr T.tree };

    fn walk<V: Watch>(&self, visitor: &mut V) {
        enter_part(Kind::ClassExpr, self.span, visitor);
        self.inside(visitor);
        leave_part(Kind::ClassExpr, self.span, visitor);
    }
}

impl<T: Walk> Walk for ParenExprOf<T> {
    ghost tree = { view_paren_expr T.tree };

    fn walk<V: Watch>(&self, visitor: &mut V) {
        tell_one(Kind::ParenExpr, self.span, &self.expr, visitor);
    }
}

impl<T: Walk> Walk for OptChainExprOf<T> {
    ghost tree = { view_opt_chain_expr T.tree };

    fn walk<V: Watch>(&self, visitor: &mut V) {
        tell_one(Kind::OptChainExpr, self.span, &self.base, visitor);
    }
}

impl<T: Walk> Walk for OptCallOf<T> {
    ghost tree = { view_opt_call T.tree };

    fn walk<V: Watch>(&self, visitor: &mut V) {
        enter_part(Kind::OptCall, self.span, visitor);
        walk_headed(&self.callee, self.args.as_slice(), visitor);
        leave_part(Kind::OptCall, self.span, visitor);
    }
}

impl Walk for Super {
    ghost tree = { view_super };

    fn walk<V: Watch>(&self, visitor: &mut V) {
        tell_leaf(Kind::Super, self.span, visitor);
    }
}

impl Walk for Import {
    ghost tree = { view_import };

    fn walk<V: Watch>(&self, visitor: &mut V) {
        tell_leaf(Kind::Import, self.span, visitor);
    }
}

impl Walk for Invalid {
    ghost tree = { view_invalid };

    fn walk<V: Watch>(&self, visitor: &mut V) {
        tell_leaf(Kind::Invalid, self.span, visitor);
    }
}

impl<T: Walk> Walk for ExprOrSpreadOf<T> {
    ghost tree = { view_expr_or_spread T.tree };

    fn walk<V: Watch>(&self, visitor: &mut V) {
        tell_one(Kind::ExprOrSpread, self.span, &self.expr, visitor);
    }
}

impl<T: Walk> Walk for SpreadElementOf<T> {
    ghost tree = { view_spread_element T.tree };

    fn walk<V: Watch>(&self, visitor: &mut V) {
        tell_one(Kind::SpreadElement, self.span, &self.expr, visitor);
    }
}

impl<T: Walk> Walk for CalleeOf<T> {
    ghost tree = { view_callee T.tree };

    fn walk<V: Watch>(&self, visitor: &mut V) {
        match self {
            CalleeOf::Super(x) => x.walk(visitor),
            CalleeOf::Import(x) => x.walk(visitor),
            CalleeOf::Expr(x) => x.walk(visitor),
        }
    }
}

impl<T: Walk> Walk for MemberPropOf<T> {
    ghost tree = { view_member_prop T.tree };

    fn walk<V: Watch>(&self, visitor: &mut V) {
        match self {
            MemberPropOf::Ident(x) => x.walk(visitor),
            MemberPropOf::PrivateName(x) => x.walk(visitor),
            MemberPropOf::Computed(x) => x.walk(visitor),
        }
    }
}

impl<T: Walk> Walk for SuperPropOf<T> {
    ghost tree = { view_super_prop T.tree };

    fn walk<V: Watch>(&self, visitor: &mut V) {
        match self {
            SuperPropOf::Ident(x) => x.walk(visitor),
            SuperPropOf::Computed(x) => x.walk(visitor),
        }
    }
}

impl<T: Walk> Walk for OptChainBaseOf<T> {
    ghost tree = { view_opt_chain_base T.tree };

    fn walk<V: Watch>(&self, visitor: &mut V) {
        match self {
            OptChainBaseOf::Member(x) => x.walk(visitor),
            OptChainBaseOf::Call(x) => x.walk(visitor),
        }
    }
}

impl<T: Walk> Walk for BlockStmtOrExprOf<T> {
    ghost tree = { view_block_stmt_or_expr T.tree };

    fn walk<V: Watch>(&self, visitor: &mut V) {
        match self {
            BlockStmtOrExprOf::BlockStmt(x) => x.walk(visitor),
            BlockStmtOrExprOf::Expr(x) => x.walk(visitor),
        }
    }
}
