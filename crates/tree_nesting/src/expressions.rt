// Written by tools/tree/nesting.py from tools/tree/tree.table. Don't edit this file.
//! How deep expressions (ECMA-262, clause 13) go.
ghost use Rattle.tree_nodes.specs.View.{view_expr_kind, view_this_expr, view_array_lit, view_object_lit, view_fn_expr, view_unary_expr, view_update_expr, view_bin_expr, view_assign_expr, view_member_expr, view_super_prop_expr, view_cond_expr, view_call_expr, view_new_expr, view_seq_expr, view_ident, view_tpl, view_tpl_element, view_tagged_tpl, view_arrow_expr, view_class_expr, view_yield_expr, view_meta_prop_expr, view_await_expr, view_paren_expr, view_opt_chain_expr, view_opt_call, view_super, view_import, view_invalid, view_expr_or_spread, view_spread_element, view_callee, view_member_prop, view_super_prop, view_opt_chain_base, view_block_stmt_or_expr};

use crate::counts::{Held, Nesting, above, deepest_element};
use tree_nodes::{
    ArrayLitOf, ArrowExprOf, AssignExprOf, AwaitExprOf, BinExprOf, BlockStmtOrExprOf, CallExprOf,
    CalleeOf, ClassExprOf, CondExprOf, ExprKindOf, ExprOrSpreadOf, FnExprOf, Ident, Import,
    Invalid, MemberExprOf, MemberPropOf, MetaPropExpr, NewExprOf, ObjectLitOf, OptCallOf,
    OptChainBaseOf, OptChainExprOf, ParenExprOf, SeqExprOf, SpreadElementOf, Super,
    SuperPropExprOf, SuperPropOf, TaggedTplOf, ThisExpr, TplElement, TplOf, UnaryExprOf,
    UpdateExprOf, YieldExprOf,
};

impl<T: Held> Nesting for ExprKindOf<T> {
    ghost tree = { view_expr_kind T.tree };

    fn nesting(&self) -> u32 {
        match self {
            ExprKindOf::This(x) => x.nesting(),
            ExprKindOf::Array(x) => x.nesting(),
            ExprKindOf::Object(x) => x.nesting(),
            ExprKindOf::Fn(x) => x.nesting(),
            ExprKindOf::Unary(x) => x.nesting(),
            ExprKindOf::Update(x) => x.nesting(),
            ExprKindOf::Bin(x) => x.nesting(),
            ExprKindOf::Assign(x) => x.nesting(),
            ExprKindOf::Member(x) => x.nesting(),
            ExprKindOf::SuperProp(x) => x.nesting(),
            ExprKindOf::Cond(x) => x.nesting(),
            ExprKindOf::Call(x) => x.nesting(),
            ExprKindOf::New(x) => x.nesting(),
            ExprKindOf::Seq(x) => x.nesting(),
            ExprKindOf::Ident(x) => x.nesting(),
            ExprKindOf::Lit(x) => x.nesting(),
            ExprKindOf::Tpl(x) => x.nesting(),
            ExprKindOf::TaggedTpl(x) => x.nesting(),
            ExprKindOf::Arrow(x) => x.nesting(),
            ExprKindOf::Class(x) => x.nesting(),
            ExprKindOf::Yield(x) => x.nesting(),
            ExprKindOf::MetaProp(x) => x.nesting(),
            ExprKindOf::Await(x) => x.nesting(),
            ExprKindOf::Paren(x) => x.nesting(),
            ExprKindOf::PrivateName(x) => x.nesting(),
            ExprKindOf::OptChain(x) => x.nesting(),
            ExprKindOf::Invalid(x) => x.nesting(),
        }
    }
}

impl Nesting for ThisExpr {
    ghost tree = { view_this_expr };

    fn nesting(&self) -> u32 {
        1
    }
}

impl<T: Held> Nesting for ArrayLitOf<T> {
    ghost tree = { view_array_lit T.tree };

    fn nesting(&self) -> u32 {
        above(deepest_element(self.elems.as_slice()))
    }
}

impl<T: Held> Nesting for ObjectLitOf<T> {
    ghost tree = { view_object_lit T.tree };

    fn nesting(&self) -> u32 {
        above(self.props.nesting())
    }
}

impl<T: Held> Nesting for FnExprOf<T> {
    ghost tree = { view_fn_expr T.tree };

    fn nesting(&self) -> u32 {
        above(self.ident.nesting().max(self.function.nesting()))
    }
}

impl<T: Held> Nesting for UnaryExprOf<T> {
    ghost tree = { view_unary_expr T.tree };

    fn nesting(&self) -> u32 {
        above(self.arg.nesting())
    }
}

impl<T: Held> Nesting for UpdateExprOf<T> {
    ghost tree = { view_update_expr T.tree };

    fn nesting(&self) -> u32 {
        above(self.arg.nesting())
    }
}

impl<T: Held> Nesting for BinExprOf<T> {
    ghost tree = { view_bin_expr T.tree };

    fn nesting(&self) -> u32 {
        self.left.nesting().max(above(self.right.nesting()))
    }
}

impl<T: Held> Nesting for AssignExprOf<T> {
    ghost tree = { view_assign_expr T.tree };

    fn nesting(&self) -> u32 {
        above(self.left.nesting().max(self.right.nesting()))
    }
}

impl<T: Held> Nesting for MemberExprOf<T> {
    ghost tree = { view_member_expr T.tree };

    fn nesting(&self) -> u32 {
        self.obj.nesting().max(above(self.prop.nesting()))
    }
}

impl<T: Held> Nesting for SuperPropExprOf<T> {
    ghost tree = { view_super_prop_expr T.tree };

    fn nesting(&self) -> u32 {
        above(self.obj.nesting().max(self.prop.nesting()))
    }
}

impl<T: Held> Nesting for CondExprOf<T> {
    ghost tree = { view_cond_expr T.tree };

    fn nesting(&self) -> u32 {
        let test = self.test.nesting();
        let cons = self.cons.nesting();
        let alt = self.alt.nesting();
        above(test.max(cons).max(alt))
    }
}

impl<T: Held> Nesting for CallExprOf<T> {
    ghost tree = { view_call_expr T.tree };

    fn nesting(&self) -> u32 {
        self.callee.nesting().max(above(self.args.nesting()))
    }
}

impl<T: Held> Nesting for NewExprOf<T> {
    ghost tree = { view_new_expr T.tree };

    fn nesting(&self) -> u32 {
        above(self.callee.nesting().max(self.args.nesting()))
    }
}

impl<T: Held> Nesting for SeqExprOf<T> {
    ghost tree = { view_seq_expr T.tree };

    fn nesting(&self) -> u32 {
        above(self.exprs.nesting())
    }
}

impl Nesting for Ident {
    ghost tree = { view_ident };

    fn nesting(&self) -> u32 {
        1
    }
}

impl<T: Held> Nesting for TplOf<T> {
    ghost tree = { view_tpl T.tree };

    fn nesting(&self) -> u32 {
        above(self.exprs.nesting().max(self.quasis.nesting()))
    }
}

impl Nesting for TplElement {
    ghost tree = { view_tpl_element };

    fn nesting(&self) -> u32 {
        1
    }
}

impl<T: Held> Nesting for TaggedTplOf<T> {
    ghost tree = { view_tagged_tpl T.tree };

    fn nesting(&self) -> u32 {
        self.tag.nesting().max(above(self.tpl.nesting()))
    }
}

impl<T: Held> Nesting for ArrowExprOf<T> {
    ghost tree = { view_arrow_expr T.tree };

    fn nesting(&self) -> u32 {
        above(self.params.nesting().max(self.body.nesting()))
    }
}

impl<T: Held> Nesting for ClassExprOf<T> {
    ghost tree = { view_class_expr T.tree };

    fn nesting(&self) -> u32 {
        above(self.ident.nesting().max(self.class.nesting()))
    }
}

impl<T: Held> Nesting for YieldExprOf<T> {
    ghost tree = { view_yield_expr T.tree };

    fn nesting(&self) -> u32 {
        above(self.arg.nesting())
    }
}

impl Nesting for MetaPropExpr {
    ghost tree = { view_meta_prop_expr };

    fn nesting(&self) -> u32 {
        1
    }
}

impl<T: Held> Nesting for AwaitExprOf<T> {
    ghost tree = { view_await_expr T.tree };

    fn nesting(&self) -> u32 {
        above(self.arg.nesting())
    }
}

impl<T: Held> Nesting for ParenExprOf<T> {
    ghost tree = { view_paren_expr T.tree };

    fn nesting(&self) -> u32 {
        above(self.expr.nesting())
    }
}

impl<T: Held> Nesting for OptChainExprOf<T> {
    ghost tree = { view_opt_chain_expr T.tree };

    fn nesting(&self) -> u32 {
        self.base.nesting()
    }
}

impl<T: Held> Nesting for OptCallOf<T> {
    ghost tree = { view_opt_call T.tree };

    fn nesting(&self) -> u32 {
        self.callee.nesting().max(above(self.args.nesting()))
    }
}

impl Nesting for Super {
    ghost tree = { view_super };

    fn nesting(&self) -> u32 {
        1
    }
}

impl Nesting for Import {
    ghost tree = { view_import };

    fn nesting(&self) -> u32 {
        1
    }
}

impl Nesting for Invalid {
    ghost tree = { view_invalid };

    fn nesting(&self) -> u32 {
        1
    }
}

impl<T: Held> Nesting for ExprOrSpreadOf<T> {
    ghost tree = { view_expr_or_spread T.tree };

    fn nesting(&self) -> u32 {
        above(self.expr.nesting())
    }
}

impl<T: Held> Nesting for SpreadElementOf<T> {
    ghost tree = { view_spread_element T.tree };

    fn nesting(&self) -> u32 {
        above(self.expr.nesting())
    }
}

impl<T: Held> Nesting for CalleeOf<T> {
    ghost tree = { view_callee T.tree };

    fn nesting(&self) -> u32 {
        match self {
            CalleeOf::Super(x) => x.nesting(),
            CalleeOf::Import(x) => x.nesting(),
            CalleeOf::Expr(x) => x.nesting(),
        }
    }
}

impl<T: Held> Nesting for MemberPropOf<T> {
    ghost tree = { view_member_prop T.tree };

    fn nesting(&self) -> u32 {
        match self {
            MemberPropOf::Ident(x) => x.nesting(),
            MemberPropOf::PrivateName(x) => x.nesting(),
            MemberPropOf::Computed(x) => x.nesting(),
        }
    }
}

impl<T: Held> Nesting for SuperPropOf<T> {
    ghost tree = { view_super_prop T.tree };

    fn nesting(&self) -> u32 {
        match self {
            SuperPropOf::Ident(x) => x.nesting(),
            SuperPropOf::Computed(x) => x.nesting(),
        }
    }
}

impl<T: Held> Nesting for OptChainBaseOf<T> {
    ghost tree = { view_opt_chain_base T.tree };

    fn nesting(&self) -> u32 {
        match self {
            OptChainBaseOf::Member(x) => x.nesting(),
            OptChainBaseOf::Call(x) => x.nesting(),
        }
    }
}

impl<T: Held> Nesting for BlockStmtOrExprOf<T> {
    ghost tree = { view_block_stmt_or_expr T.tree };

    fn nesting(&self) -> u32 {
        match self {
            BlockStmtOrExprOf::BlockStmt(x) => x.nesting(),
            BlockStmtOrExprOf::Expr(x) => x.nesting(),
        }
    }
}
