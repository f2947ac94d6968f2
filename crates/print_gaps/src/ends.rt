//! Whether a node ends with a word (the crate's module `util`).
ghost use Rattle.std.specs.Prelude.{◌≡◌, true};
ghost use Rattle.tree_nodes.specs.Tree.{Tree};
ghost use Rattle.tree_nodes.specs.Placed.{inner};
ghost use Rattle.tree_nodes.specs.View.{view_expr_kind, view_for_head, view_lit, view_member_expr, view_pat_kind, view_using_decl, view_var_decl, view_var_declarator};
ghost use Rattle.print_gaps.specs.Edges.{ends_with_word, is_there};

use tree_nodes::{
    Child, DeclOf, Expr, ExprKindOf, ForHeadOf, Lit, MemberExprOf, MemberPropOf, Part, PartKind,
    Pat, PatKindOf, Stmt, StmtKind, UsingDeclOf, VarDeclOf, VarDeclaratorOf,
};

/// What ends with a word or doesn't: a part of a tree.
pub trait EndsWithAlphaNum {
    /// What it stands for.
    ghost tree: { Self → Tree };

    /// Whether a word behind it has to be kept from it. It takes no memory.
    fn ends_with_alpha_num(&self) -> bool
        ensures answer { result ≡ ends_with_word (tree self.now) }
        ensures there { is_there (tree self.now) ≡ true };
}

impl<T: EndsWithAlphaNum, K> EndsWithAlphaNum for Child<T, K> {
    ghost tree = { λ c. T.tree c.part.value };

    fn ends_with_alpha_num(&self) -> bool {
        self.part.ends_with_alpha_num()
    }
}

impl<T: EndsWithAlphaNum> EndsWithAlphaNum for Box<T> {
    ghost tree = { λ b. T.tree b.value };

    fn ends_with_alpha_num(&self) -> bool {
        (**self).ends_with_alpha_num()
    }
}

impl<T: EndsWithAlphaNum> EndsWithAlphaNum for ExprKindOf<T> {
    ghost tree = { view_expr_kind T.tree };

    fn ends_with_alpha_num(&self) -> bool {
        match self {
            ExprKindOf::This(_) => true,
            ExprKindOf::Array(_) => false,
            ExprKindOf::Object(_) => false,
            ExprKindOf::Fn(_) => true,
            ExprKindOf::Unary(_) => true,
            ExprKindOf::Update(_) => true,
            ExprKindOf::Bin(_) => true,
            ExprKindOf::Assign(_) => true,
            ExprKindOf::Member(x) => x.ends_with_alpha_num(),
            ExprKindOf::SuperProp(_) => true,
            ExprKindOf::Cond(_) => true,
            ExprKindOf::Call(_) => true,
            ExprKindOf::New(_) => true,
            ExprKindOf::Seq(_) => true,
            ExprKindOf::Ident(_) => true,
            ExprKindOf::Lit(x) => lit_ends(x),
            ExprKindOf::Tpl(_) => true,
            ExprKindOf::TaggedTpl(_) => true,
            ExprKindOf::Arrow(_) => true,
            ExprKindOf::Class(_) => true,
            ExprKindOf::Yield(_) => true,
            ExprKindOf::MetaProp(_) => true,
            ExprKindOf::Await(_) => true,
            ExprKindOf::Paren(_) => false,
            ExprKindOf::PrivateName(_) => true,
            ExprKindOf::OptChain(_) => true,
            ExprKindOf::Invalid(_) => true,
        }
    }
}

/// Whether a literal ends with a word: each but a string.
fn lit_ends(lit: &Lit) -> bool
    ensures { result ≡ ends_with_word (view_lit lit.now) }
{
    match lit {
        Lit::Str(_) => false,
        Lit::Bool(_) => true,
        Lit::Null(_) => true,
        Lit::Num(_) => true,
        Lit::BigInt(_) => true,
        Lit::Regex(_) => true,
    }
}

impl<T: EndsWithAlphaNum> EndsWithAlphaNum for MemberExprOf<T> {
    ghost tree = { view_member_expr T.tree };

    fn ends_with_alpha_num(&self) -> bool {
        match &self.prop {
            MemberPropOf::Ident(_) => true,
            MemberPropOf::PrivateName(_) => true,
            MemberPropOf::Computed(_) => false,
        }
    }
}

impl<T: EndsWithAlphaNum> EndsWithAlphaNum for PatKindOf<T> {
    ghost tree = { view_pat_kind T.tree };

    fn ends_with_alpha_num(&self) -> bool {
        match self {
            PatKindOf::Ident(_) => true,
            PatKindOf::Array(_) => false,
            PatKindOf::Rest(x) => x.arg.ends_with_alpha_num(),
            PatKindOf::Object(_) => false,
            PatKindOf::Assign(x) => x.right.ends_with_alpha_num(),
            PatKindOf::Expr(x) => x.ends_with_alpha_num(),
            PatKindOf::Invalid(_) => true,
        }
    }
}

impl<T: EndsWithAlphaNum> EndsWithAlphaNum for VarDeclaratorOf<T> {
    ghost tree = { view_var_declarator T.tree };

    fn ends_with_alpha_num(&self) -> bool {
        match &self.init {
            Some(x) => x.ends_with_alpha_num(),
            None => self.name.ends_with_alpha_num(),
        }
    }
}

impl<T: EndsWithAlphaNum> EndsWithAlphaNum for VarDeclOf<T> {
    ghost tree = { view_var_decl T.tree };

    #[tactic(auto, using(crate::proofs::Lasts::last_is, crate::proofs::Lasts::no_last))]
    fn ends_with_alpha_num(&self) -> bool {
        match self.decls.as_slice().last() {
            Some(x) => x.ends_with_alpha_num(),
            None => true,
        }
    }
}

impl<T: EndsWithAlphaNum> EndsWithAlphaNum for UsingDeclOf<T> {
    ghost tree = { view_using_decl T.tree };

    #[tactic(auto, using(crate::proofs::Lasts::last_is, crate::proofs::Lasts::no_last))]
    fn ends_with_alpha_num(&self) -> bool {
        match self.decls.as_slice().last() {
            Some(x) => x.ends_with_alpha_num(),
            None => true,
        }
    }
}

impl<T: EndsWithAlphaNum> EndsWithAlphaNum for ForHeadOf<T> {
    ghost tree = { view_for_head T.tree };

    fn ends_with_alpha_num(&self) -> bool {
        match self {
            ForHeadOf::VarDecl(x) => x.ends_with_alpha_num(),
            ForHeadOf::UsingDecl(x) => x.ends_with_alpha_num(),
            ForHeadOf::Pat(x) => x.ends_with_alpha_num(),
        }
    }
}

/// Whether a statement ends with a word, which no printer asks: a declaration of variables as its last part.
#[cycle(ends)]
fn stmt_ends(stmt: &Stmt) -> bool
    ensures answer { result ≡ ends_with_word stmt.now }
    ensures there { is_there stmt.now ≡ true }
{
    match &stmt.kind {
        StmtKind::Decl(DeclOf::Var(x)) => x.ends_with_alpha_num(),
        StmtKind::Decl(DeclOf::Using(x)) => x.ends_with_alpha_num(),
        _ => true,
    }
}

impl EndsWithAlphaNum for Part {
    ghost tree = { inner };

    #[cycle(ends)]
    fn ends_with_alpha_num(&self) -> bool {
        match &self.sort {
            PartKind::Expr(x) => x.ends_with_alpha_num(),
            PartKind::Stmt(x) => stmt_ends(x),
            PartKind::Pat(x) => x.ends_with_alpha_num(),
        }
    }
}

impl EndsWithAlphaNum for Expr {
    ghost tree = { λ t. t };

    #[cycle(ends)]
    fn ends_with_alpha_num(&self) -> bool {
        self.kind.ends_with_alpha_num()
    }
}

impl EndsWithAlphaNum for Pat {
    ghost tree = { λ t. t };

    #[cycle(ends)]
    fn ends_with_alpha_num(&self) -> bool {
        self.kind.ends_with_alpha_num()
    }
}
