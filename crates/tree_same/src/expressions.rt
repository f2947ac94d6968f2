// Written by tools/tree/same.py from tools/tree/tree.table. Don't edit this file.
//! Whether expressions (ECMA-262, clause 13) say the same.
ghost use Rattle.std.specs.Prelude.{◌≡◌, ◌&&◌};
ghost use Rattle.tree_spec.specs.Tree.{trees_by, list};
ghost use Rattle.tree_program_spec.specs.Same.{same};
ghost use Rattle.tree_nodes.specs.View.{view_this_expr, view_array_lit, view_object_lit, view_fn_expr, view_unary_expr, view_update_expr, view_bin_expr, view_assign_expr, view_member_expr, view_super_prop_expr, view_cond_expr, view_call_expr, view_new_expr, view_seq_expr, view_ident, view_tpl, view_tpl_element, view_tagged_tpl, view_class_expr, view_yield_expr, view_meta_prop_expr, view_await_expr, view_paren_expr, view_opt_chain_expr, view_opt_call, view_super, view_import, view_invalid, view_expr_or_spread, view_spread_element, view_callee, view_member_prop, view_super_prop, view_opt_chain_base};
ghost use Rattle.tree_same.specs.Compared.{same_spellings};
ghost use Rattle.tree_same.specs.Seen.{seen_expr_kind, seen_arrow_expr, seen_block_stmt_or_expr};

use crate::parts::{
    Held, Present, Same, is_statement, same_arguments, same_elements, same_in_place,
};
use crate::texts::{same_cooked, same_spellings};
use crate::words::{
    same_assign_op, same_binary_op, same_meta_prop_kind, same_unary_op, same_update_op,
};
use tree_nodes::{
    ArrayLitOf, ArrowExprOf, AssignExprOf, AwaitExprOf, BinExprOf, BlockStmtOrExprOf, CallExprOf,
    CalleeOf, ClassExprOf, CondExprOf, ExprKindOf, ExprOrSpreadOf, FnExprOf, Ident, Import,
    Invalid, MemberExprOf, MemberPropOf, MetaPropExpr, NewExprOf, ObjectLitOf, OptCallOf,
    OptChainBaseOf, OptChainExprOf, ParenExprOf, SeqExprOf, SpreadElementOf, Super,
    SuperPropExprOf, SuperPropOf, TaggedTplOf, ThisExpr, TplElement, TplOf, UnaryExprOf,
    UpdateExprOf, YieldExprOf,
};

impl<T: Held> Same for ExprKindOf<T> {
    ghost tree = { seen_expr_kind T.in_stmt T.tree };

    #[tactic(auto, using(crate::proofs::Apart::expr_kind_apart))]
    fn same(&self, other: &ExprKindOf<T>) -> bool {
        match (self, other) {
            (ExprKindOf::This(x), ExprKindOf::This(y)) => x.same(y),
            (ExprKindOf::Array(x), ExprKindOf::Array(y)) => x.same(y),
            (ExprKindOf::Object(x), ExprKindOf::Object(y)) => x.same(y),
            (ExprKindOf::Fn(x), ExprKindOf::Fn(y)) => x.same(y),
            (ExprKindOf::Unary(x), ExprKindOf::Unary(y)) => x.same(y),
            (ExprKindOf::Update(x), ExprKindOf::Update(y)) => x.same(y),
            (ExprKindOf::Bin(x), ExprKindOf::Bin(y)) => x.same(y),
            (ExprKindOf::Assign(x), ExprKindOf::Assign(y)) => x.same(y),
            (ExprKindOf::Member(x), ExprKindOf::Member(y)) => x.same(y),
            (ExprKindOf::SuperProp(x), ExprKindOf::SuperProp(y)) => x.same(y),
            (ExprKindOf::Cond(x), ExprKindOf::Cond(y)) => x.same(y),
            (ExprKindOf::Call(x), ExprKindOf::Call(y)) => x.same(y),
            (ExprKindOf::New(x), ExprKindOf::New(y)) => x.same(y),
            (ExprKindOf::Seq(x), ExprKindOf::Seq(y)) => x.same(y),
            (ExprKindOf::Ident(x), ExprKindOf::Ident(y)) => x.same(y),
            (ExprKindOf::Lit(x), ExprKindOf::Lit(y)) => x.same(y),
            (ExprKindOf::Tpl(x), ExprKindOf::Tpl(y)) => x.same(y),
            (ExprKindOf::TaggedTpl(x), ExprKindOf::TaggedTpl(y)) => x.same(y),
            (ExprKindOf::Arrow(x), ExprKindOf::Arrow(y)) => x.same(y),
            (ExprKindOf::Class(x), ExprKindOf::Class(y)) => x.same(y),
            (ExprKindOf::Yield(x), ExprKindOf::Yield(y)) => x.same(y),
            (ExprKindOf::MetaProp(x), ExprKindOf::MetaProp(y)) => x.same(y),
            (ExprKindOf::Await(x), ExprKindOf::Await(y)) => x.same(y),
            (ExprKindOf::Paren(x), ExprKindOf::Paren(y)) => x.same(y),
            (ExprKindOf::PrivateName(x), ExprKindOf::PrivateName(y)) => x.same(y),
            (ExprKindOf::OptChain(x), ExprKindOf::OptChain(y)) => x.same(y),
            (ExprKindOf::Invalid(x), ExprKindOf::Invalid(y)) => x.same(y),
            _ => false,
        }
    }
}

impl Same for ThisExpr {
    ghost tree = { view_this_expr };

    #[tactic(auto, using(crate::proofs::Rules::this_expr_rule))]
    fn same(&self, _other: &ThisExpr) -> bool {
        true
    }
}

impl<T: Held> Same for ArrayLitOf<T> {
    ghost tree = { view_array_lit T.tree };

    #[tactic(auto, using(crate::proofs::Rules::array_lit_rule))]
    fn same(&self, other: &ArrayLitOf<T>) -> bool {
        same_elements(self.elems.as_slice(), other.elems.as_slice())
    }
}

impl<T: Held> Same for ObjectLitOf<T> {
    ghost tree = { view_object_lit T.tree };

    #[tactic(auto, using(crate::proofs::Rules::object_lit_rule))]
    fn same(&self, other: &ObjectLitOf<T>) -> bool {
        self.props.same(&other.props)
    }
}

impl<T: Held> Present for ObjectLitOf<T> {
    fn is_left_out(&self) -> bool {
        false
    }
}

impl<T: Held> Same for FnExprOf<T> {
    ghost tree = { view_fn_expr T.tree };

    #[tactic(auto, using(crate::proofs::Rules::fn_expr_rule))]
    fn same(&self, other: &FnExprOf<T>) -> bool {
        self.ident.same(&other.ident) && self.function.same(&other.function)
    }
}

impl<T: Held> Same for UnaryExprOf<T> {
    ghost tree = { view_unary_expr T.tree };

    #[tactic(auto, using(crate::proofs::Rules::unary_expr_rule))]
    fn same(&self, other: &UnaryExprOf<T>) -> bool {
        same_unary_op(self.op, other.op) && self.arg.same(&other.arg)
    }
}

impl<T: Held> Same for UpdateExprOf<T> {
    ghost tree = { view_update_expr T.tree };

    #[tactic(auto, using(crate::proofs::Rules::update_expr_rule))]
    fn same(&self, other: &UpdateExprOf<T>) -> bool {
        same_update_op(self.op, other.op)
            && self.prefix == other.prefix
            && self.arg.same(&other.arg)
    }
}

impl<T: Held> Same for BinExprOf<T> {
    ghost tree = { view_bin_expr T.tree };

    #[tactic(auto, using(crate::proofs::Rules::bin_expr_rule))]
    fn same(&self, other: &BinExprOf<T>) -> bool {
        same_binary_op(self.op, other.op)
            && self.left.same(&other.left)
            && self.right.same(&other.right)
    }
}

impl<T: Held> Same for AssignExprOf<T> {
    ghost tree = { view_assign_expr T.tree };

    #[tactic(auto, using(crate::proofs::Rules::assign_expr_rule))]
    fn same(&self, other: &AssignExprOf<T>) -> bool {
        same_assign_op(self.op, other.op)
            && self.left.same(&other.left)
            && self.right.same(&other.right)
    }
}

impl<T: Held> Same for MemberExprOf<T> {
    ghost tree = { view_member_expr T.tree };

    #[tactic(auto, using(crate::proofs::Rules::member_expr_rule))]
    fn same(&self, other: &MemberExprOf<T>) -> bool {
        self.obj.same(&other.obj) && self.prop.same(&other.prop)
    }
}

impl<T: Held> Same for SuperPropExprOf<T> {
    ghost tree = { view_super_prop_expr T.tree };

    #[tactic(auto, using(crate::proofs::Rules::super_prop_expr_rule))]
    fn same(&self, other: &SuperPropExprOf<T>) -> bool {
        self.obj.same(&other.obj) && self.prop.same(&other.prop)
    }
}

impl<T: Held> Same for CondExprOf<T> {
    ghost tree = { view_cond_expr T.tree };

    #[tactic(auto, using(crate::proofs::Rules::cond_expr_rule))]
    fn same(&self, other: &CondExprOf<T>) -> bool {
        self.test.same(&other.test) && self.cons.same(&other.cons) && self.alt.same(&other.alt)
    }
}

impl<T: Held> Same for CallExprOf<T> {
    ghost tree = { view_call_expr T.tree };

    #[tactic(auto, using(crate::proofs::Rules::call_expr_rule))]
    fn same(&self, other: &CallExprOf<T>) -> bool {
        self.callee.same(&other.callee) && self.args.same(&other.args)
    }
}

impl<T: Held> Same for NewExprOf<T> {
    ghost tree = { view_new_expr T.tree };

    #[tactic(auto, using(crate::proofs::Rules::new_expr_rule))]
    fn same(&self, other: &NewExprOf<T>) -> bool {
        self.callee.same(&other.callee) && same_arguments(&self.args, &other.args)
    }
}

impl<T: Held> Same for SeqExprOf<T> {
    ghost tree = { view_seq_expr T.tree };

    #[tactic(auto, using(crate::proofs::Rules::seq_expr_rule))]
    fn same(&self, other: &SeqExprOf<T>) -> bool {
        self.exprs.same(&other.exprs)
    }
}

impl Same for Ident {
    ghost tree = { view_ident };

    #[tactic(auto, using(crate::proofs::Rules::ident_rule))]
    fn same(&self, other: &Ident) -> bool {
        self.sym == other.sym
    }
}

impl Present for Ident {
    fn is_left_out(&self) -> bool {
        false
    }
}

impl<T: Held> Same for TplOf<T> {
    ghost tree = { view_tpl T.tree };

    #[tactic(auto, using(crate::proofs::Rules::tpl_rule))]
    fn same(&self, other: &TplOf<T>) -> bool {
        self.exprs.same(&other.exprs) && self.quasis.same(&other.quasis)
    }
}

impl Same for TplElement {
    ghost tree = { view_tpl_element };

    #[tactic(auto, using(crate::proofs::Rules::tpl_element_rule))]
    fn same(&self, other: &TplElement) -> bool {
        self.tail == other.tail && same_cooked(&self.cooked, &other.cooked)
    }
}

impl<T: Held> Same for TaggedTplOf<T> {
    ghost tree = { view_tagged_tpl T.tree };

    #[tactic(auto, using(crate::proofs::Spellings::tagged_tpl_rule))]
    fn same(&self, other: &TaggedTplOf<T>) -> bool {
        self.tag.same(&other.tag) && same_template(&self.tpl, &other.tpl)
    }
}

/// Whether the templates behind two tags say the same: their texts are spelled alike.
pub(crate) fn same_template<T: Held>(tpl: &TplOf<T>, other: &TplOf<T>) -> bool
    ensures { result ≡ (same (list (trees_by (λ c. T.tree c.part.value) tpl.now.exprs.items)) (list (trees_by (λ c. T.tree c.part.value) other.now.exprs.items)) && same_spellings (trees_by view_tpl_element tpl.now.quasis.items) (trees_by view_tpl_element other.now.quasis.items)) }
{
    tpl.exprs.same(&other.exprs) && same_spellings(tpl.quasis.as_slice(), other.quasis.as_slice())
}

impl<T: Held> Same for ArrowExprOf<T> {
    ghost tree = { seen_arrow_expr T.in_stmt T.tree };

    #[tactic(auto, using(crate::proofs::Rules::arrow_expr_rule))]
    fn same(&self, other: &ArrowExprOf<T>) -> bool {
        self.params.same(&other.params)
            && self.body.same(&other.body)
            && self.is_async == other.is_async
    }
}

impl<T: Held> Same for ClassExprOf<T> {
    ghost tree = { view_class_expr T.tree };

    #[tactic(auto, using(crate::proofs::Rules::class_expr_rule))]
    fn same(&self, other: &ClassExprOf<T>) -> bool {
        self.ident.same(&other.ident) && self.class.same(&other.class)
    }
}

impl<T: Held> Same for YieldExprOf<T> {
    ghost tree = { view_yield_expr T.tree };

    #[tactic(auto, using(crate::proofs::Rules::yield_expr_rule))]
    fn same(&self, other: &YieldExprOf<T>) -> bool {
        self.arg.same(&other.arg) && self.delegate == other.delegate
    }
}

impl Same for MetaPropExpr {
    ghost tree = { view_meta_prop_expr };

    #[tactic(auto, using(crate::proofs::Rules::meta_prop_expr_rule))]
    fn same(&self, other: &MetaPropExpr) -> bool {
        same_meta_prop_kind(self.kind, other.kind)
    }
}

impl<T: Held> Same for AwaitExprOf<T> {
    ghost tree = { view_await_expr T.tree };

    #[tactic(auto, using(crate::proofs::Rules::await_expr_rule))]
    fn same(&self, other: &AwaitExprOf<T>) -> bool {
        self.arg.same(&other.arg)
    }
}

impl<T: Held> Same for ParenExprOf<T> {
    ghost tree = { view_paren_expr T.tree };

    #[tactic(auto, using(crate::proofs::Rules::paren_expr_rule))]
    fn same(&self, other: &ParenExprOf<T>) -> bool {
        self.expr.same(&other.expr)
    }
}

impl<T: Held> Same for OptChainExprOf<T> {
    ghost tree = { view_opt_chain_expr T.tree };

    #[tactic(auto, using(crate::proofs::Rules::opt_chain_expr_rule))]
    fn same(&self, other: &OptChainExprOf<T>) -> bool {
        self.optional == other.optional && self.base.same(&other.base)
    }
}

impl<T: Held> Same for OptCallOf<T> {
    ghost tree = { view_opt_call T.tree };

    #[tactic(auto, using(crate::proofs::Rules::opt_call_rule))]
    fn same(&self, other: &OptCallOf<T>) -> bool {
        self.callee.same(&other.callee) && self.args.same(&other.args)
    }
}

impl Same for Super {
    ghost tree = { view_super };

    #[tactic(auto, using(crate::proofs::Rules::super_rule))]
    fn same(&self, _other: &Super) -> bool {
        true
    }
}

impl Same for Import {
    ghost tree = { view_import };

    #[tactic(auto, using(crate::proofs::Rules::import_rule))]
    fn same(&self, _other: &Import) -> bool {
        true
    }
}

impl Same for Invalid {
    ghost tree = { view_invalid };

    #[tactic(auto, using(crate::proofs::Rules::invalid_rule))]
    fn same(&self, _other: &Invalid) -> bool {
        true
    }
}

impl<T: Held> Same for ExprOrSpreadOf<T> {
    ghost tree = { view_expr_or_spread T.tree };

    #[tactic(auto, using(crate::proofs::Spellings::expr_or_spread_rule))]
    fn same(&self, other: &ExprOrSpreadOf<T>) -> bool {
        self.spread.is_some() == other.spread.is_some() && self.expr.same(&other.expr)
    }
}

impl<T: Held> Present for ExprOrSpreadOf<T> {
    fn is_left_out(&self) -> bool {
        false
    }
}

impl<T: Held> Same for SpreadElementOf<T> {
    ghost tree = { view_spread_element T.tree };

    #[tactic(auto, using(crate::proofs::Rules::spread_element_rule))]
    fn same(&self, other: &SpreadElementOf<T>) -> bool {
        self.expr.same(&other.expr)
    }
}

impl<T: Held> Same for CalleeOf<T> {
    ghost tree = { view_callee T.tree };

    #[tactic(auto, using(crate::proofs::Mixed::callee_cases))]
    fn same(&self, other: &CalleeOf<T>) -> bool {
        match (self, other) {
            (CalleeOf::Super(x), CalleeOf::Super(y)) => x.same(y),
            (CalleeOf::Import(x), CalleeOf::Import(y)) => x.same(y),
            (CalleeOf::Expr(x), CalleeOf::Expr(y)) => x.same(y),
            // For the proof: a part is always a node; the calls bring that fact.
            (CalleeOf::Expr(x), _) => !x.part.is_node(),
            (_, CalleeOf::Expr(y)) => !y.part.is_node(),
            _ => false,
        }
    }
}

impl<T: Held> Same for MemberPropOf<T> {
    ghost tree = { view_member_prop T.tree };

    #[tactic(auto, using(crate::proofs::Apart::member_prop_apart))]
    fn same(&self, other: &MemberPropOf<T>) -> bool {
        match (self, other) {
            (MemberPropOf::Ident(x), MemberPropOf::Ident(y)) => x.same(y),
            (MemberPropOf::PrivateName(x), MemberPropOf::PrivateName(y)) => x.same(y),
            (MemberPropOf::Computed(x), MemberPropOf::Computed(y)) => x.same(y),
            _ => false,
        }
    }
}

impl<T: Held> Same for SuperPropOf<T> {
    ghost tree = { view_super_prop T.tree };

    #[tactic(auto, using(crate::proofs::Apart::super_prop_apart))]
    fn same(&self, other: &SuperPropOf<T>) -> bool {
        match (self, other) {
            (SuperPropOf::Ident(x), SuperPropOf::Ident(y)) => x.same(y),
            (SuperPropOf::Computed(x), SuperPropOf::Computed(y)) => x.same(y),
            _ => false,
        }
    }
}

impl<T: Held> Same for OptChainBaseOf<T> {
    ghost tree = { view_opt_chain_base T.tree };

    #[tactic(auto, using(crate::proofs::Apart::opt_chain_base_apart))]
    fn same(&self, other: &OptChainBaseOf<T>) -> bool {
        match (self, other) {
            (OptChainBaseOf::Member(x), OptChainBaseOf::Member(y)) => x.same(y),
            (OptChainBaseOf::Call(x), OptChainBaseOf::Call(y)) => x.same(y),
            _ => false,
        }
    }
}

impl<T: Held> Same for BlockStmtOrExprOf<T> {
    ghost tree = { seen_block_stmt_or_expr T.in_stmt T.tree };

    #[tactic(auto, using(crate::proofs::Mixed::block_stmt_or_expr_cases))]
    fn same(&self, other: &BlockStmtOrExprOf<T>) -> bool {
        match (self, other) {
            (BlockStmtOrExprOf::BlockStmt(x), BlockStmtOrExprOf::BlockStmt(y)) => x.same(y),
            (BlockStmtOrExprOf::Expr(x), BlockStmtOrExprOf::Expr(y)) => same_in_place(x, y),
            // For the proof: no child is a statement here; the calls bring that fact.
            (BlockStmtOrExprOf::Expr(x), _) => is_statement(x),
            (_, BlockStmtOrExprOf::Expr(y)) => is_statement(y),
        }
    }
}
