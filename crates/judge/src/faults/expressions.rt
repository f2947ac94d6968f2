//! Expressions (ECMA-262, clause 13).
ghost use Rattle.tree_nodes.specs.View.{view_expr_kind, view_array_lit, view_object_lit, view_fn_expr, view_unary_expr, view_update_expr, view_bin_expr, view_assign_expr, view_member_expr, view_super_prop_expr, view_cond_expr, view_call_expr, view_new_expr, view_seq_expr, view_ident, view_tpl, view_tagged_tpl, view_arrow_expr, view_class_expr, view_yield_expr, view_meta_prop_expr, view_await_expr, view_paren_expr, view_opt_chain_expr, view_opt_call, view_expr_or_spread, view_spread_element, view_callee, view_member_prop, view_super_prop, view_opt_chain_base, view_block_stmt_or_expr};

use crate::base::Code;
use crate::base::listed::add;
use crate::base::texts::{is_await, is_strict_reserved};
use crate::faults::check::{Check, Held, check_elements};
use crate::faults::modes::{are_bare, arrow_use_strict, mode};
use crate::faults::names::{evil, evil_name, evil_option};
use crate::faults::protos::second_protos;
use crate::faults::targets::{evil_target, is_super};
use base_token::{Error, SyntaxError};
use std::alloc::AllocError;
use std::convert::AsStr;
use tree_nodes::{
    ArrayLitOf, ArrowExprOf, AssignExprOf, AwaitExprOf, BinExprOf, BlockStmtOrExprOf, CallExprOf,
    CalleeOf, ClassExprOf, CondExprOf, ExprKindOf, ExprOrSpreadOf, FnExprOf, Ident, MemberExprOf,
    MemberPropOf, MetaPropExpr, MetaPropKind, NewExprOf, ObjectLitOf, OptCallOf, OptChainBaseOf,
    OptChainExprOf, ParenExprOf, SeqExprOf, SpreadElementOf, SuperPropExprOf, SuperPropOf,
    TaggedTplOf, TplOf, UnaryExprOf, UpdateExprOf, YieldExprOf,
};

impl<T: Held> Check for ExprKindOf<T> {
    ghost tree = { view_expr_kind T.tree };

    fn check(&self, code: Code<'_>, faults: &mut Vec<Error>) -> Result<(), AllocError> {
        match self {
            ExprKindOf::This(_) => Ok(()),
            ExprKindOf::Array(x) => x.check(code, faults),
            ExprKindOf::Object(x) => x.check(code, faults),
            ExprKindOf::Fn(x) => x.check(code, faults),
            ExprKindOf::Unary(x) => x.check(code, faults),
            ExprKindOf::Update(x) => x.check(code, faults),
            ExprKindOf::Bin(x) => x.check(code, faults),
            ExprKindOf::Assign(x) => x.check(code, faults),
            ExprKindOf::Member(x) => x.check(code, faults),
            ExprKindOf::SuperProp(x) => x.check(code, faults),
            ExprKindOf::Cond(x) => x.check(code, faults),
            ExprKindOf::Call(x) => x.check(code, faults),
            ExprKindOf::New(x) => x.check(code, faults),
            ExprKindOf::Seq(x) => x.check(code, faults),
            ExprKindOf::Ident(x) => x.check(code, faults),
            ExprKindOf::Lit(x) => x.check(code, faults),
            ExprKindOf::Tpl(x) => x.check(code, faults),
            ExprKindOf::TaggedTpl(x) => x.check(code, faults),
            ExprKindOf::Arrow(x) => x.check(code, faults),
            ExprKindOf::Class(x) => x.check(code, faults),
            ExprKindOf::Yield(x) => x.check(code, faults),
            ExprKindOf::MetaProp(x) => x.check(code, faults),
            ExprKindOf::Await(x) => x.check(code, faults),
            ExprKindOf::Paren(x) => x.check(code, faults),
            ExprKindOf::PrivateName(_) => Ok(()),
            ExprKindOf::OptChain(x) => x.check(code, faults),
            ExprKindOf::Invalid(_) => Ok(()),
        }
    }
}

impl<T: Held> Check for ArrayLitOf<T> {
    ghost tree = { view_array_lit T.tree };

    fn check(&self, code: Code<'_>, faults: &mut Vec<Error>) -> Result<(), AllocError> {
        check_elements(self.elems.as_slice(), code, faults)?;
        Ok(())
    }
}

impl<T: Held> Check for ObjectLitOf<T> {
    ghost tree = { view_object_lit T.tree };

    fn check(&self, code: Code<'_>, faults: &mut Vec<Error>) -> Result<(), AllocError> {
        second_protos(self.props.as_slice(), faults)?;
        self.props.check(code, faults)
    }
}

impl<T: Held> Check for FnExprOf<T> {
    ghost tree = { view_fn_expr T.tree };

    fn check(&self, code: Code<'_>, faults: &mut Vec<Error>) -> Result<(), AllocError> {
        if let Some(name) = &self.ident {
            evil(name, code, faults)?;
        }
        self.ident.check(code.as_function(), faults)?;
        self.function.check(code.as_function(), faults)
    }
}

impl<T: Held> Check for UnaryExprOf<T> {
    ghost tree = { view_unary_expr T.tree };

    fn check(&self, code: Code<'_>, faults: &mut Vec<Error>) -> Result<(), AllocError> {
        self.arg.check(code, faults)
    }
}

impl<T: Held> Check for UpdateExprOf<T> {
    ghost tree = { view_update_expr T.tree };

    fn check(&self, code: Code<'_>, faults: &mut Vec<Error>) -> Result<(), AllocError> {
        let bad = !self.arg.part.is_updatable();
        add(faults, bad, SyntaxError::NotSimpleAssign, self.span)?;
        evil_name(&*self.arg.part, code, faults)?;
        self.arg.check(code, faults)
    }
}

impl<T: Held> Check for BinExprOf<T> {
    ghost tree = { view_bin_expr T.tree };

    fn check(&self, code: Code<'_>, faults: &mut Vec<Error>) -> Result<(), AllocError> {
        self.left.check(code, faults)?;
        self.right.check(code, faults)
    }
}

impl<T: Held> Check for AssignExprOf<T> {
    ghost tree = { view_assign_expr T.tree };

    #[tactic(auto, using(crate::proofs::faults::Asking::assign_step))]
    fn check(&self, code: Code<'_>, faults: &mut Vec<Error>) -> Result<(), AllocError> {
        evil_target(&self.left, code, faults)?;
        self.left.check(code, faults)?;
        self.right.check(code, faults)
    }
}

impl<T: Held> Check for MemberExprOf<T> {
    ghost tree = { view_member_expr T.tree };

    fn check(&self, code: Code<'_>, faults: &mut Vec<Error>) -> Result<(), AllocError> {
        self.obj.check(code, faults)?;
        self.prop.check(code, faults)
    }
}

impl<T: Held> Check for SuperPropExprOf<T> {
    ghost tree = { view_super_prop_expr T.tree };

    fn check(&self, code: Code<'_>, faults: &mut Vec<Error>) -> Result<(), AllocError> {
        let allowed = code.supers || code.syntax.allow_super_outside_method;
        add(faults, !allowed, SyntaxError::InvalidSuper, self.obj.span)?;
        self.prop.check(code, faults)
    }
}

impl<T: Held> Check for CondExprOf<T> {
    ghost tree = { view_cond_expr T.tree };

    fn check(&self, code: Code<'_>, faults: &mut Vec<Error>) -> Result<(), AllocError> {
        self.test.check(code, faults)?;
        self.cons.check(code, faults)?;
        self.alt.check(code, faults)
    }
}

impl<T: Held> Check for CallExprOf<T> {
    ghost tree = { view_call_expr T.tree };

    #[tactic(auto, using(crate::proofs::faults::Asking::call_step))]
    fn check(&self, code: Code<'_>, faults: &mut Vec<Error>) -> Result<(), AllocError> {
        let bad = is_super(&self.callee) && !code.calls;
        add(faults, bad, SyntaxError::InvalidSuperCall, self.span)?;
        self.callee.check(code, faults)?;
        self.args.check(code, faults)?;
        Ok(())
    }
}

impl<T: Held> Check for NewExprOf<T> {
    ghost tree = { view_new_expr T.tree };

    fn check(&self, code: Code<'_>, faults: &mut Vec<Error>) -> Result<(), AllocError> {
        self.callee.check(code, faults)?;
        self.args.check(code, faults)
    }
}

impl<T: Held> Check for SeqExprOf<T> {
    ghost tree = { view_seq_expr T.tree };

    fn check(&self, code: Code<'_>, faults: &mut Vec<Error>) -> Result<(), AllocError> {
        self.exprs.check(code, faults)
    }
}

impl Check for Ident {
    ghost tree = { view_ident };

    fn check(&self, code: Code<'_>, faults: &mut Vec<Error>) -> Result<(), AllocError> {
        let name = self.sym.as_str();
        let awaits = code.awaits && is_await(name);
        add(faults, awaits, SyntaxError::Unexpected, self.span)?;
        let reserved = code.strict && is_strict_reserved(name);
        add(
            faults,
            reserved,
            SyntaxError::InvalidIdentInStrict,
            self.span,
        )
    }
}

impl<T: Held> Check for TplOf<T> {
    ghost tree = { view_tpl T.tree };

    #[tactic(auto, using(crate::proofs::faults::Asking::texts_have_none))]
    fn check(&self, code: Code<'_>, faults: &mut Vec<Error>) -> Result<(), AllocError> {
        self.exprs.check(code, faults)?;
        Ok(())
    }
}

impl<T: Held> Check for TaggedTplOf<T> {
    ghost tree = { view_tagged_tpl T.tree };

    fn check(&self, code: Code<'_>, faults: &mut Vec<Error>) -> Result<(), AllocError> {
        self.tag.check(code, faults)?;
        self.tpl.check(code, faults)
    }
}

impl<T: Held> Check for ArrowExprOf<T> {
    ghost tree = { view_arrow_expr T.tree };

    #[tactic(auto, using(crate::proofs::faults::Asking::mode_by_own))]
    fn check(&self, code: Code<'_>, faults: &mut Vec<Error>) -> Result<(), AllocError> {
        let inside = code.in_arrow();
        let bare = are_bare(self.params.as_slice());
        mode(bare, arrow_use_strict(&self.body), faults)?;
        let params = code.in_arrow_params(self.is_async);
        self.params.check(params, faults)?;
        self.body.check(inside.as_body(), faults)
    }
}

impl<T: Held> Check for ClassExprOf<T> {
    ghost tree = { view_class_expr T.tree };

    fn check(&self, code: Code<'_>, faults: &mut Vec<Error>) -> Result<(), AllocError> {
        let inside = code.strictly();
        evil_option(&self.ident, inside, faults)?;
        self.ident.check(inside, faults)?;
        self.class.check(inside, faults)?;
        Ok(())
    }
}

impl<T: Held> Check for YieldExprOf<T> {
    ghost tree = { view_yield_expr T.tree };

    fn check(&self, code: Code<'_>, faults: &mut Vec<Error>) -> Result<(), AllocError> {
        self.arg.check(code, faults)
    }
}

impl Check for MetaPropExpr {
    ghost tree = { view_meta_prop_expr };

    fn check(&self, code: Code<'_>, faults: &mut Vec<Error>) -> Result<(), AllocError> {
        let bad = match self.kind {
            MetaPropKind::NewTarget => !code.targets,
            MetaPropKind::ImportMeta => false,
        };
        add(faults, bad, SyntaxError::InvalidNewTarget, self.span)
    }
}

impl<T: Held> Check for AwaitExprOf<T> {
    ghost tree = { view_await_expr T.tree };

    fn check(&self, code: Code<'_>, faults: &mut Vec<Error>) -> Result<(), AllocError> {
        self.arg.check(code, faults)
    }
}

impl<T: Held> Check for ParenExprOf<T> {
    ghost tree = { view_paren_expr T.tree };

    fn check(&self, code: Code<'_>, faults: &mut Vec<Error>) -> Result<(), AllocError> {
        self.expr.check(code, faults)
    }
}

impl<T: Held> Check for OptChainExprOf<T> {
    ghost tree = { view_opt_chain_expr T.tree };

    fn check(&self, code: Code<'_>, faults: &mut Vec<Error>) -> Result<(), AllocError> {
        self.base.check(code, faults)
    }
}

impl<T: Held> Check for OptCallOf<T> {
    ghost tree = { view_opt_call T.tree };

    fn check(&self, code: Code<'_>, faults: &mut Vec<Error>) -> Result<(), AllocError> {
        self.callee.check(code, faults)?;
        self.args.check(code, faults)
    }
}

impl<T: Held> Check for ExprOrSpreadOf<T> {
    ghost tree = { view_expr_or_spread T.tree };

    fn check(&self, code: Code<'_>, faults: &mut Vec<Error>) -> Result<(), AllocError> {
        self.expr.check(code, faults)
    }
}

impl<T: Held> Check for SpreadElementOf<T> {
    ghost tree = { view_spread_element T.tree };

    fn check(&self, code: Code<'_>, faults: &mut Vec<Error>) -> Result<(), AllocError> {
        self.expr.check(code, faults)
    }
}

impl<T: Held> Check for CalleeOf<T> {
    ghost tree = { view_callee T.tree };

    fn check(&self, code: Code<'_>, faults: &mut Vec<Error>) -> Result<(), AllocError> {
        match self {
            CalleeOf::Super(_) => Ok(()),
            CalleeOf::Import(_) => Ok(()),
            CalleeOf::Expr(x) => x.check(code, faults),
        }
    }
}

impl<T: Held> Check for MemberPropOf<T> {
    ghost tree = { view_member_prop T.tree };

    fn check(&self, code: Code<'_>, faults: &mut Vec<Error>) -> Result<(), AllocError> {
        match self {
            MemberPropOf::Ident(_) => Ok(()),
            MemberPropOf::PrivateName(_) => Ok(()),
            MemberPropOf::Computed(x) => x.check(code, faults),
        }
    }
}

impl<T: Held> Check for SuperPropOf<T> {
    ghost tree = { view_super_prop T.tree };

    fn check(&self, code: Code<'_>, faults: &mut Vec<Error>) -> Result<(), AllocError> {
        match self {
            SuperPropOf::Ident(_) => Ok(()),
            SuperPropOf::Computed(x) => x.check(code, faults),
        }
    }
}

impl<T: Held> Check for OptChainBaseOf<T> {
    ghost tree = { view_opt_chain_base T.tree };

    fn check(&self, code: Code<'_>, faults: &mut Vec<Error>) -> Result<(), AllocError> {
        match self {
            OptChainBaseOf::Member(x) => x.check(code, faults),
            OptChainBaseOf::Call(x) => x.check(code, faults),
        }
    }
}

impl<T: Held> Check for BlockStmtOrExprOf<T> {
    ghost tree = { view_block_stmt_or_expr T.tree };

    fn check(&self, code: Code<'_>, faults: &mut Vec<Error>) -> Result<(), AllocError> {
        match self {
            BlockStmtOrExprOf::BlockStmt(x) => x.check(code, faults),
            BlockStmtOrExprOf::Expr(x) => x.check(code, faults),
        }
    }
}
