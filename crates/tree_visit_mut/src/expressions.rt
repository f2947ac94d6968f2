// Written by tools/tree/visit_mut.py from tools/tree/tree.table. Don't edit this file.
//! Changes expressions (ECMA-262, clause 13).
ghost use Rattle.tree_nodes.specs.Fits.{fits_expr_kind, fits_object_lit, fits_fn_expr, fits_member_expr, fits_super_prop_expr, fits_tpl, fits_class_expr, fits_opt_chain_expr, fits_expr_or_spread, fits_callee, fits_member_prop, fits_super_prop, fits_opt_chain_base, fits_block_stmt_or_expr};

use crate::walk::{
    Change, WalkMut, Word, walk_all, walk_args, walk_elements, walk_expr_at, walk_place,
    walk_value_at,
};
use tree_nodes::{
    BlockStmtOrExprOf, CalleeOf, ClassExprOf, ExprKindOf, ExprOrSpreadOf, FnExprOf, Ident,
    MemberExprOf, MemberPropOf, ObjectLitOf, OptChainBaseOf, OptChainExprOf, SuperPropExprOf,
    SuperPropOf, TplElement, TplOf,
};

impl<T, C: Change<T>> WalkMut<T, C> for ExprKindOf<T> {
    ghost fits = { λ x. fits_expr_kind C.placed x };

    fn walk_mut(&mut self, by: &mut C) {
        match self {
            ExprKindOf::This(x) => by.span(&mut x.span),
            ExprKindOf::Array(x) => {
                walk_elements(&mut x.elems, by);
                by.span(&mut x.span);
            }
            ExprKindOf::Object(x) => x.walk_mut(by),
            ExprKindOf::Fn(x) => x.walk_mut(by),
            ExprKindOf::Unary(x) => walk_expr_at(&mut x.arg, &mut x.span, by),
            ExprKindOf::Update(x) => walk_expr_at(&mut x.arg, &mut x.span, by),
            ExprKindOf::Bin(x) => {
                x.left.walk_mut(by);
                walk_expr_at(&mut x.right, &mut x.span, by);
            }
            ExprKindOf::Assign(x) => {
                x.left.walk_mut(by);
                walk_expr_at(&mut x.right, &mut x.span, by);
            }
            ExprKindOf::Member(x) => x.walk_mut(by),
            ExprKindOf::SuperProp(x) => x.walk_mut(by),
            ExprKindOf::Cond(x) => {
                x.test.walk_mut(by);
                x.cons.walk_mut(by);
                walk_expr_at(&mut x.alt, &mut x.span, by);
            }
            ExprKindOf::Call(x) => {
                x.callee.walk_mut(by);
                walk_args(&mut x.args, by);
                by.span(&mut x.span);
            }
            ExprKindOf::New(x) => {
                x.callee.walk_mut(by);
                if let Some(part) = &mut x.args {
                    walk_args(part, by);
                }
                by.span(&mut x.span);
            }
            ExprKindOf::Seq(x) => {
                walk_all(&mut x.exprs, by);
                by.span(&mut x.span);
            }
            ExprKindOf::Ident(x) => x.walk_mut(by),
            ExprKindOf::Lit(x) => x.walk_mut(by),
            ExprKindOf::Tpl(x) => x.walk_mut(by),
            ExprKindOf::TaggedTpl(x) => {
                x.tag.walk_mut(by);
                x.tpl.walk_mut(by);
                by.span(&mut x.span);
            }
            ExprKindOf::Arrow(x) => {
                walk_all(&mut x.params, by);
                x.body.walk_mut(by);
                by.span(&mut x.span);
            }
            ExprKindOf::Class(x) => x.walk_mut(by),
            ExprKindOf::Yield(x) => walk_value_at(&mut x.arg, &mut x.span, by),
            ExprKindOf::MetaProp(x) => by.span(&mut x.span),
            ExprKindOf::Await(x) => walk_expr_at(&mut x.arg, &mut x.span, by),
            ExprKindOf::Paren(x) => walk_expr_at(&mut x.expr, &mut x.span, by),
            ExprKindOf::PrivateName(x) => x.walk_mut(by),
            ExprKindOf::OptChain(x) => x.walk_mut(by),
            ExprKindOf::Invalid(x) => by.span(&mut x.span),
        }
    }
}

impl<T, C: Change<T>> WalkMut<T, C> for ObjectLitOf<T> {
    ghost fits = { λ x. fits_object_lit C.placed x };

    fn walk_mut(&mut self, by: &mut C) {
        walk_all(&mut self.props, by);
        by.span(&mut self.span);
    }
}

impl<T, C: Change<T>> WalkMut<T, C> for FnExprOf<T> {
    ghost fits = { λ x. fits_fn_expr C.placed x };

    fn walk_mut(&mut self, by: &mut C) {
        if let Some(part) = &mut self.ident {
            part.walk_mut(by);
        }
        self.function.walk_mut(by);
        by.span(&mut self.span);
    }
}

impl<T, C: Change<T>> WalkMut<T, C> for MemberExprOf<T> {
    ghost fits = { λ x. fits_member_expr C.placed x };

    fn walk_mut(&mut self, by: &mut C) {
        self.obj.walk_mut(by);
        self.prop.walk_mut(by);
        by.span(&mut self.span);
    }
}

impl<T, C: Change<T>> WalkMut<T, C> for SuperPropExprOf<T> {
    ghost fits = { λ x. fits_super_prop_expr C.placed x };

    fn walk_mut(&mut self, by: &mut C) {
        by.span(&mut self.obj.span);
        self.prop.walk_mut(by);
        by.span(&mut self.span);
    }
}

impl<T, C: Change<T>> WalkMut<T, C> for Ident {
    ghost fits = { λ _. Unit {0} };

    fn walk_mut(&mut self, by: &mut C) {
        by.span(&mut self.span);
        by.word(Word::Ident(self));
    }
}

impl<T, C: Change<T>> WalkMut<T, C> for TplOf<T> {
    ghost fits = { λ x. fits_tpl C.placed x };

    fn walk_mut(&mut self, by: &mut C) {
        walk_all(&mut self.exprs, by);
        walk_all(&mut self.quasis, by);
        by.span(&mut self.span);
    }
}

impl<T, C: Change<T>> WalkMut<T, C> for TplElement {
    ghost fits = { λ _. Unit {0} };

    fn walk_mut(&mut self, by: &mut C) {
        by.span(&mut self.span);
        by.word(Word::TplElement(self));
    }
}

impl<T, C: Change<T>> WalkMut<T, C> for ClassExprOf<T> {
    ghost fits = { λ x. fits_class_expr C.placed x };

    fn walk_mut(&mut self, by: &mut C) {
        if let Some(part) = &mut self.ident {
            part.walk_mut(by);
        }
        self.class.walk_mut(by);
        by.span(&mut self.span);
    }
}

impl<T, C: Change<T>> WalkMut<T, C> for OptChainExprOf<T> {
    ghost fits = { λ x. fits_opt_chain_expr C.placed x };

    fn walk_mut(&mut self, by: &mut C) {
        self.base.walk_mut(by);
        by.span(&mut self.span);
    }
}

impl<T, C: Change<T>> WalkMut<T, C> for ExprOrSpreadOf<T> {
    ghost fits = { λ x. fits_expr_or_spread C.placed x };

    fn walk_mut(&mut self, by: &mut C) {
        walk_expr_at(&mut self.expr, &mut self.span, by);
        walk_place(&mut self.spread, by);
    }
}

impl<T, C: Change<T>> WalkMut<T, C> for CalleeOf<T> {
    ghost fits = { λ x. fits_callee C.placed x };

    fn walk_mut(&mut self, by: &mut C) {
        match self {
            CalleeOf::Super(x) => by.span(&mut x.span),
            CalleeOf::Import(x) => by.span(&mut x.span),
            CalleeOf::Expr(x) => x.walk_mut(by),
        }
    }
}

impl<T, C: Change<T>> WalkMut<T, C> for MemberPropOf<T> {
    ghost fits = { λ x. fits_member_prop C.placed x };

    fn walk_mut(&mut self, by: &mut C) {
        match self {
            MemberPropOf::Ident(x) => x.walk_mut(by),
            MemberPropOf::PrivateName(x) => x.walk_mut(by),
            MemberPropOf::Computed(x) => walk_expr_at(&mut x.expr, &mut x.span, by),
        }
    }
}

impl<T, C: Change<T>> WalkMut<T, C> for SuperPropOf<T> {
    ghost fits = { λ x. fits_super_prop C.placed x };

    fn walk_mut(&mut self, by: &mut C) {
        match self {
            SuperPropOf::Ident(x) => x.walk_mut(by),
            SuperPropOf::Computed(x) => walk_expr_at(&mut x.expr, &mut x.span, by),
        }
    }
}

impl<T, C: Change<T>> WalkMut<T, C> for OptChainBaseOf<T> {
    ghost fits = { λ x. fits_opt_chain_base C.placed x };

    fn walk_mut(&mut self, by: &mut C) {
        match self {
            OptChainBaseOf::Member(x) => x.walk_mut(by),
            OptChainBaseOf::Call(x) => {
                x.callee.walk_mut(by);
                walk_args(&mut x.args, by);
                by.span(&mut x.span);
            }
        }
    }
}

impl<T, C: Change<T>> WalkMut<T, C> for BlockStmtOrExprOf<T> {
    ghost fits = { λ x. fits_block_stmt_or_expr C.placed x };

    fn walk_mut(&mut self, by: &mut C) {
        match self {
            BlockStmtOrExprOf::BlockStmt(x) => x.walk_mut(by),
            BlockStmtOrExprOf::Expr(x) => x.walk_mut(by),
        }
    }
}
