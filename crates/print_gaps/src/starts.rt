//! Whether a node starts with a word (the crate's module `util`).
ghost use Rattle.std.specs.Prelude.{◌≡◌};
ghost use Rattle.tree_nodes.specs.Tree.{Tree, trees_by, invalid_target};
ghost use Rattle.tree_nodes.specs.Placed.{inner};
ghost use Rattle.tree_nodes.specs.View.{unary_op_word, view_array_pat, view_arrow_expr, view_assign_target, view_binding_ident, view_callee, view_decl, view_expr_kind, view_expr_or_spread, view_ident, view_lit, view_member_expr, view_object_pat, view_opt_chain_base, view_opt_chain_expr, view_paren_expr, view_pat_kind, view_prop_name, view_seq_expr, view_stmt_kind, view_super_prop_expr};
ghost use Rattle.print_gaps.specs.Edges.{starts_with_word, alone_starts_with_word, is_word_operator};

use tree_nodes::{
    ArrayPatOf, ArrowExprOf, AssignTargetOf, BindingIdent, CallExpr, Callee, CalleeOf, Child,
    DeclOf, Expr, ExprKind, ExprKindOf, ExprOrSpreadOf, Ident, Invalid, Lit, MemberExprOf,
    ObjectPatOf, OptChainBase, OptChainBaseOf, OptChainExpr, OptChainExprOf, ParenExprOf, Part,
    PartKind, Pat, PatKindOf, PropNameOf, SeqExprOf, Stmt, StmtKindOf, SuperPropExprOf, UnaryOp,
};

/// What starts with a word or doesn't: a part of a tree.
pub trait StartsWithAlphaNum {
    /// What it stands for.
    ghost tree: { Self → Tree };

    /// Whether its text starts with a word: a name, a number or a keyword. It takes no memory.
    fn starts_with_alpha_num(&self) -> bool
        ensures { result ≡ starts_with_word (tree self.now) };
}

impl<T: StartsWithAlphaNum, K> StartsWithAlphaNum for Child<T, K> {
    ghost tree = { λ c. T.tree c.part.value };

    fn starts_with_alpha_num(&self) -> bool {
        self.part.starts_with_alpha_num()
    }
}

impl<T: StartsWithAlphaNum> StartsWithAlphaNum for Box<T> {
    ghost tree = { λ b. T.tree b.value };

    fn starts_with_alpha_num(&self) -> bool {
        (**self).starts_with_alpha_num()
    }
}

impl<T: StartsWithAlphaNum> StartsWithAlphaNum for ExprKindOf<T> {
    ghost tree = { view_expr_kind T.tree };

    fn starts_with_alpha_num(&self) -> bool {
        match self {
            ExprKindOf::This(_) => true,
            ExprKindOf::Array(_) => false,
            ExprKindOf::Object(_) => false,
            ExprKindOf::Fn(_) => true,
            ExprKindOf::Unary(x) => is_word(x.op),
            ExprKindOf::Update(x) => !x.prefix && x.arg.starts_with_alpha_num(),
            ExprKindOf::Bin(x) => x.left.starts_with_alpha_num(),
            ExprKindOf::Assign(x) => x.left.starts_with_alpha_num(),
            ExprKindOf::Member(x) => x.starts_with_alpha_num(),
            ExprKindOf::SuperProp(_) => true,
            ExprKindOf::Cond(x) => x.test.starts_with_alpha_num(),
            ExprKindOf::Call(x) => x.callee.starts_with_alpha_num(),
            ExprKindOf::New(_) => true,
            ExprKindOf::Seq(x) => x.starts_with_alpha_num(),
            ExprKindOf::Ident(_) => true,
            ExprKindOf::Lit(x) => x.starts_with_alpha_num(),
            ExprKindOf::Tpl(_) => false,
            ExprKindOf::TaggedTpl(x) => x.tag.starts_with_alpha_num(),
            ExprKindOf::Arrow(x) => x.starts_with_alpha_num(),
            ExprKindOf::Class(_) => true,
            ExprKindOf::Yield(_) => true,
            ExprKindOf::MetaProp(_) => true,
            ExprKindOf::Await(_) => true,
            ExprKindOf::Paren(_) => false,
            ExprKindOf::PrivateName(_) => false,
            ExprKindOf::OptChain(x) => x.starts_with_alpha_num(),
            ExprKindOf::Invalid(_) => true,
        }
    }
}

/// Whether an operator is a word.
pub(crate) fn is_word(op: UnaryOp) -> bool
    ensures { result ≡ is_word_operator (unary_op_word op) }
{
    matches!(op, UnaryOp::TypeOf | UnaryOp::Void | UnaryOp::Delete)
}

impl StartsWithAlphaNum for Lit {
    ghost tree = { view_lit };

    fn starts_with_alpha_num(&self) -> bool {
        match self {
            Lit::Str(_) => false,
            Lit::Bool(_) => true,
            Lit::Null(_) => true,
            Lit::Num(_) => true,
            Lit::BigInt(_) => true,
            Lit::Regex(_) => false,
        }
    }
}

impl StartsWithAlphaNum for Ident {
    ghost tree = { view_ident };

    fn starts_with_alpha_num(&self) -> bool {
        true
    }
}

impl StartsWithAlphaNum for BindingIdent {
    ghost tree = { view_binding_ident };

    fn starts_with_alpha_num(&self) -> bool {
        true
    }
}

impl<T: StartsWithAlphaNum> StartsWithAlphaNum for MemberExprOf<T> {
    ghost tree = { view_member_expr T.tree };

    fn starts_with_alpha_num(&self) -> bool {
        self.obj.starts_with_alpha_num()
    }
}

impl<T: StartsWithAlphaNum> StartsWithAlphaNum for SuperPropExprOf<T> {
    ghost tree = { view_super_prop_expr T.tree };

    fn starts_with_alpha_num(&self) -> bool {
        true
    }
}

impl<T: StartsWithAlphaNum> StartsWithAlphaNum for ParenExprOf<T> {
    ghost tree = { view_paren_expr T.tree };

    fn starts_with_alpha_num(&self) -> bool {
        false
    }
}

impl<T: StartsWithAlphaNum> StartsWithAlphaNum for OptChainExprOf<T> {
    ghost tree = { view_opt_chain_expr T.tree };

    fn starts_with_alpha_num(&self) -> bool {
        match &self.base {
            OptChainBaseOf::Member(x) => x.starts_with_alpha_num(),
            OptChainBaseOf::Call(x) => x.callee.starts_with_alpha_num(),
        }
    }
}

impl<T: StartsWithAlphaNum> StartsWithAlphaNum for SeqExprOf<T> {
    ghost tree = { view_seq_expr T.tree };

    fn starts_with_alpha_num(&self) -> bool {
        match self.exprs.as_slice() {
            [first, ..] => first.starts_with_alpha_num(),
            [] => false,
        }
    }
}

impl<T: StartsWithAlphaNum> StartsWithAlphaNum for ArrowExprOf<T> {
    ghost tree = { view_arrow_expr T.tree };

    fn starts_with_alpha_num(&self) -> bool {
        if self.is_async {
            return true;
        }
        alone_starts(self.params.as_slice())
    }
}

/// Whether a single parameter starts with a word; any other number of them stands in parentheses.
#[tactic(auto, using(crate::proofs::Lasts::alone_is, crate::proofs::Lasts::not_alone))]
fn alone_starts<T: StartsWithAlphaNum>(params: &[T]) -> bool
    ensures { result ≡ alone_starts_with_word (trees_by T.tree params.now) }
{
    if params.len() == 1 {
        params[0].starts_with_alpha_num()
    } else {
        false
    }
}

impl<T: StartsWithAlphaNum> StartsWithAlphaNum for CalleeOf<T> {
    ghost tree = { view_callee T.tree };

    fn starts_with_alpha_num(&self) -> bool {
        match self {
            CalleeOf::Super(_) => true,
            CalleeOf::Import(_) => true,
            CalleeOf::Expr(x) => x.starts_with_alpha_num(),
        }
    }
}

impl<T: StartsWithAlphaNum> StartsWithAlphaNum for ExprOrSpreadOf<T> {
    ghost tree = { view_expr_or_spread T.tree };

    fn starts_with_alpha_num(&self) -> bool {
        self.spread.is_none() && self.expr.starts_with_alpha_num()
    }
}

impl<T: StartsWithAlphaNum> StartsWithAlphaNum for AssignTargetOf<T> {
    ghost tree = { view_assign_target T.tree };

    fn starts_with_alpha_num(&self) -> bool {
        match self {
            AssignTargetOf::Ident(_) => true,
            AssignTargetOf::Member(x) => x.starts_with_alpha_num(),
            AssignTargetOf::SuperProp(_) => true,
            AssignTargetOf::Paren(_) => false,
            AssignTargetOf::OptChain(x) => x.starts_with_alpha_num(),
            AssignTargetOf::Array(_) => false,
            AssignTargetOf::Object(_) => false,
            AssignTargetOf::Invalid(_) => false,
        }
    }
}

impl<T: StartsWithAlphaNum> StartsWithAlphaNum for PatKindOf<T> {
    ghost tree = { view_pat_kind T.tree };

    fn starts_with_alpha_num(&self) -> bool {
        match self {
            PatKindOf::Ident(_) => true,
            PatKindOf::Array(_) => false,
            PatKindOf::Rest(_) => false,
            PatKindOf::Object(_) => false,
            PatKindOf::Assign(x) => x.left.starts_with_alpha_num(),
            PatKindOf::Expr(x) => x.starts_with_alpha_num(),
            PatKindOf::Invalid(_) => true,
        }
    }
}

impl<T: StartsWithAlphaNum> StartsWithAlphaNum for ArrayPatOf<T> {
    ghost tree = { view_array_pat T.tree };

    fn starts_with_alpha_num(&self) -> bool {
        false
    }
}

impl<T: StartsWithAlphaNum> StartsWithAlphaNum for ObjectPatOf<T> {
    ghost tree = { view_object_pat T.tree };

    fn starts_with_alpha_num(&self) -> bool {
        false
    }
}

/// What could not be read, by itself: as what could not be read as a target.
impl StartsWithAlphaNum for Invalid {
    ghost tree = { λ x. invalid_target x.span };

    fn starts_with_alpha_num(&self) -> bool {
        false
    }
}

impl<T: StartsWithAlphaNum> StartsWithAlphaNum for PropNameOf<T> {
    ghost tree = { view_prop_name T.tree };

    fn starts_with_alpha_num(&self) -> bool {
        match self {
            PropNameOf::Ident(_) => true,
            PropNameOf::Str(_) => false,
            PropNameOf::Num(_) => true,
            PropNameOf::BigInt(_) => true,
            PropNameOf::Computed(_) => false,
        }
    }
}

impl<T: StartsWithAlphaNum> StartsWithAlphaNum for DeclOf<T> {
    ghost tree = { view_decl T.tree };

    fn starts_with_alpha_num(&self) -> bool {
        // For the proof: the match shows which declaration it is, and each starts with a word.
        match self {
            DeclOf::Class(_) => true,
            DeclOf::Fn(_) => true,
            DeclOf::Var(_) => true,
            DeclOf::Using(_) => true,
        }
    }
}

impl<T: StartsWithAlphaNum> StartsWithAlphaNum for StmtKindOf<T> {
    ghost tree = { view_stmt_kind T.tree };

    fn starts_with_alpha_num(&self) -> bool {
        match self {
            StmtKindOf::Block(_) => false,
            StmtKindOf::Empty(_) => false,
            StmtKindOf::Debugger(_) => true,
            StmtKindOf::With(_) => true,
            StmtKindOf::Return(_) => true,
            StmtKindOf::Labeled(_) => true,
            StmtKindOf::Break(_) => true,
            StmtKindOf::Continue(_) => true,
            StmtKindOf::If(_) => true,
            StmtKindOf::Switch(_) => true,
            StmtKindOf::Throw(_) => true,
            StmtKindOf::Try(_) => true,
            StmtKindOf::While(_) => true,
            StmtKindOf::DoWhile(_) => true,
            StmtKindOf::For(_) => true,
            StmtKindOf::ForIn(_) => true,
            StmtKindOf::ForOf(_) => true,
            StmtKindOf::Decl(x) => x.starts_with_alpha_num(),
            StmtKindOf::Expr(x) => x.expr.starts_with_alpha_num(),
        }
    }
}

impl StartsWithAlphaNum for Part {
    ghost tree = { inner };

    #[cycle(starts)]
    fn starts_with_alpha_num(&self) -> bool {
        match &self.sort {
            PartKind::Expr(x) => x.starts_with_alpha_num(),
            PartKind::Stmt(x) => x.starts_with_alpha_num(),
            PartKind::Pat(x) => x.starts_with_alpha_num(),
        }
    }
}

impl StartsWithAlphaNum for Expr {
    ghost tree = { λ t. t };

    #[cycle(starts)]
    fn starts_with_alpha_num(&self) -> bool {
        let mut expr = self;
        'chain: loop {
            match &expr.kind {
                ExprKind::Bin(x) => expr = x.left.get(),
                ExprKind::Member(x) => expr = x.obj.get(),
                ExprKind::TaggedTpl(x) => expr = x.tag.get(),
                ExprKind::Call(
                    CallExpr {
                        callee: Callee::Expr(callee),
                        ..
                    },
                ) => expr = callee.get(),
                ExprKind::OptChain(
                    OptChainExpr {
                        base: OptChainBase::Member(x),
                        ..
                    },
                ) => expr = x.obj.get(),
                ExprKind::OptChain(
                    OptChainExpr {
                        base: OptChainBase::Call(x),
                        ..
                    },
                ) => expr = x.callee.get(),
                _ => return expr.kind.starts_with_alpha_num(),
            }
        }
    }
}

impl StartsWithAlphaNum for Stmt {
    ghost tree = { λ t. t };

    #[cycle(starts)]
    fn starts_with_alpha_num(&self) -> bool {
        self.kind.starts_with_alpha_num()
    }
}

impl StartsWithAlphaNum for Pat {
    ghost tree = { λ t. t };

    #[cycle(starts)]
    fn starts_with_alpha_num(&self) -> bool {
        self.kind.starts_with_alpha_num()
    }
}
