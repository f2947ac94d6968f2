// Written by tools/tree/goal.py from tools/tree/tree.table. Don't edit this file.
//! What tells of a module in expressions (ECMA-262, clause 13).
ghost use Rattle.tree_nodes.specs.View.{view_expr_kind, view_array_lit, view_object_lit, view_unary_expr, view_update_expr, view_bin_expr, view_assign_expr, view_member_expr, view_super_prop_expr, view_cond_expr, view_call_expr, view_new_expr, view_seq_expr, view_tpl, view_tagged_tpl, view_class_expr, view_yield_expr, view_paren_expr, view_opt_chain_expr, view_opt_call, view_expr_or_spread, view_spread_element, view_callee, view_member_prop, view_super_prop, view_opt_chain_base};

use crate::parts::{Tells, any_element};
use tree_nodes::{
    ArrayLitOf, AssignExprOf, BinExprOf, CallExprOf, CalleeOf, ClassExprOf, CondExprOf, ExprKindOf,
    ExprOrSpreadOf, MemberExprOf, MemberPropOf, NewExprOf, ObjectLitOf, OptCallOf, OptChainBaseOf,
    OptChainExprOf, ParenExprOf, SeqExprOf, SpreadElementOf, SuperPropExprOf, SuperPropOf,
    TaggedTplOf, TplOf, UnaryExprOf, UpdateExprOf, YieldExprOf,
};

impl<T: Tells> Tells for ExprKindOf<T> {
    ghost tree = { view_expr_kind T.tree };

    fn tells(&self) -> bool {
        match self {
            ExprKindOf::Array(x) => x.tells(),
            ExprKindOf::Object(x) => x.tells(),
            ExprKindOf::Unary(x) => x.tells(),
            ExprKindOf::Update(x) => x.tells(),
            ExprKindOf::Bin(x) => x.tells(),
            ExprKindOf::Assign(x) => x.tells(),
            ExprKindOf::Member(x) => x.tells(),
            ExprKindOf::SuperProp(x) => x.tells(),
            ExprKindOf::Cond(x) => x.tells(),
            ExprKindOf::Call(x) => x.tells(),
            ExprKindOf::New(x) => x.tells(),
            ExprKindOf::Seq(x) => x.tells(),
            ExprKindOf::Tpl(x) => x.tells(),
            ExprKindOf::TaggedTpl(x) => x.tells(),
            ExprKindOf::Class(x) => x.tells(),
            ExprKindOf::Yield(x) => x.tells(),
            ExprKindOf::Await(_) => true,
            ExprKindOf::Paren(x) => x.tells(),
            ExprKindOf::OptChain(x) => x.tells(),
            ExprKindOf::This(_)
            | ExprKindOf::Fn(_)
            | ExprKindOf::Ident(_)
            | ExprKindOf::Lit(_)
            | ExprKindOf::Arrow(_)
            | ExprKindOf::MetaProp(_)
            | ExprKindOf::PrivateName(_)
            | ExprKindOf::Invalid(_) => false,
        }
    }
}

impl<T: Tells> Tells for ArrayLitOf<T> {
    ghost tree = { view_array_lit T.tree };

    fn tells(&self) -> bool {
        any_element(self.elems.as_slice())
    }
}

impl<T: Tells> Tells for ObjectLitOf<T> {
    ghost tree = { view_object_lit T.tree };

    fn tells(&self) -> bool {
        self.props.tells()
    }
}

impl<T: Tells> Tells for UnaryExprOf<T> {
    ghost tree = { view_unary_expr T.tree };

    fn tells(&self) -> bool {
        self.arg.tells()
    }
}

impl<T: Tells> Tells for UpdateExprOf<T> {
    ghost tree = { view_update_expr T.tree };

    fn tells(&self) -> bool {
        self.arg.tells()
    }
}

impl<T: Tells> Tells for BinExprOf<T> {
    ghost tree = { view_bin_expr T.tree };

    fn tells(&self) -> bool {
        self.left.tells() || self.right.tells()
    }
}

impl<T: Tells> Tells for AssignExprOf<T> {
    ghost tree = { view_assign_expr T.tree };

    fn tells(&self) -> bool {
        self.left.tells() || self.right.tells()
    }
}

impl<T: Tells> Tells for MemberExprOf<T> {
    ghost tree = { view_member_expr T.tree };

    fn tells(&self) -> bool {
        self.obj.tells() || self.prop.tells()
    }
}

impl<T: Tells> Tells for SuperPropExprOf<T> {
    ghost tree = { view_super_prop_expr T.tree };

    fn tells(&self) -> bool {
        self.prop.tells()
    }
}

impl<T: Tells> Tells for CondExprOf<T> {
    ghost tree = { view_cond_expr T.tree };

    fn tells(&self) -> bool {
        self.test.tells() || self.cons.tells() || self.alt.tells()
    }
}

impl<T: Tells> Tells for CallExprOf<T> {
    ghost tree = { view_call_expr T.tree };

    fn tells(&self) -> bool {
        self.callee.tells() || self.args.tells()
    }
}

impl<T: Tells> Tells for NewExprOf<T> {
    ghost tree = { view_new_expr T.tree };

    fn tells(&self) -> bool {
        self.callee.tells() || self.args.tells()
    }
}

impl<T: Tells> Tells for SeqExprOf<T> {
    ghost tree = { view_seq_expr T.tree };

    fn tells(&self) -> bool {
        self.exprs.tells()
    }
}

impl<T: Tells> Tells for TplOf<T> {
    ghost tree = { view_tpl T.tree };

    #[tactic(auto, using(crate::proofs::Texts::no_text))]
    fn tells(&self) -> bool {
        self.exprs.tells()
    }
}

impl<T: Tells> Tells for TaggedTplOf<T> {
    ghost tree = { view_tagged_tpl T.tree };

    fn tells(&self) -> bool {
        self.tag.tells() || self.tpl.tells()
    }
}

impl<T: Tells> Tells for ClassExprOf<T> {
    ghost tree = { view_class_expr T.tree };

    fn tells(&self) -> bool {
        self.class.tells()
    }
}

impl<T: Tells> Tells for YieldExprOf<T> {
    ghost tree = { view_yield_expr T.tree };

    fn tells(&self) -> bool {
        self.arg.tells()
    }
}

impl<T: Tells> Tells for ParenExprOf<T> {
    ghost tree = { view_paren_expr T.tree };

    fn tells(&self) -> bool {
        self.expr.tells()
    }
}

impl<T: Tells> Tells for OptChainExprOf<T> {
    ghost tree = { view_opt_chain_expr T.tree };

    fn tells(&self) -> bool {
        self.base.tells()
    }
}

impl<T: Tells> Tells for OptCallOf<T> {
    ghost tree = { view_opt_call T.tree };

    fn tells(&self) -> bool {
        self.callee.tells() || self.args.tells()
    }
}

impl<T: Tells> Tells for ExprOrSpreadOf<T> {
    ghost tree = { view_expr_or_spread T.tree };

    fn tells(&self) -> bool {
        self.expr.tells()
    }
}

impl<T: Tells> Tells for SpreadElementOf<T> {
    ghost tree = { view_spread_element T.tree };

    fn tells(&self) -> bool {
        self.expr.tells()
    }
}

impl<T: Tells> Tells for CalleeOf<T> {
    ghost tree = { view_callee T.tree };

    fn tells(&self) -> bool {
        match self {
            CalleeOf::Expr(x) => x.tells(),
            CalleeOf::Super(_) | CalleeOf::Import(_) => false,
        }
    }
}

impl<T: Tells> Tells for MemberPropOf<T> {
    ghost tree = { view_member_prop T.tree };

    fn tells(&self) -> bool {
        match self {
            MemberPropOf::Computed(x) => x.tells(),
            MemberPropOf::Ident(_) | MemberPropOf::PrivateName(_) => false,
        }
    }
}

impl<T: Tells> Tells for SuperPropOf<T> {
    ghost tree = { view_super_prop T.tree };

    fn tells(&self) -> bool {
        match self {
            SuperPropOf::Computed(x) => x.tells(),
            SuperPropOf::Ident(_) => false,
        }
    }
}

impl<T: Tells> Tells for OptChainBaseOf<T> {
    ghost tree = { view_opt_chain_base T.tree };

    fn tells(&self) -> bool {
        match self {
            OptChainBaseOf::Member(x) => x.tells(),
            OptChainBaseOf::Call(x) => x.tells(),
        }
    }
}
