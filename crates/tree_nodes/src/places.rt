// Written by tools/tree/node_types.py from tools/tree/tree.table. Don't edit this file.
//! Where each struct and enum stands in the text.
ghost use Rattle.tree_spec.specs.Places.{place_of};
ghost use Rattle.tree_nodes.specs.Placed.{inner};
ghost use Rattle.tree_nodes.specs.View.{view_program_kind, view_module_item, view_module_decl, view_default_decl, view_import_specifier, view_export_specifier, view_module_export_name, view_stmt_kind, view_var_decl_or_expr, view_for_head, view_decl, view_class_member, view_key, view_prop_name, view_expr_kind, view_callee, view_member_prop, view_super_prop, view_opt_chain_base, view_block_stmt_or_expr, view_prop_or_spread, view_prop, view_lit, view_pat_kind, view_object_pat_prop, view_assign_target};

use crate::declarations::ClassDeclOf;
use crate::declarations::DeclOf;
use crate::declarations::FnDeclOf;
use crate::declarations::UsingDeclOf;
use crate::declarations::VarDeclOf;
use crate::declarations::VarDeclaratorOf;
use crate::expressions::ArrayLitOf;
use crate::expressions::ArrowExprOf;
use crate::expressions::AssignExprOf;
use crate::expressions::AwaitExprOf;
use crate::expressions::BinExprOf;
use crate::expressions::BlockStmtOrExprOf;
use crate::expressions::CallExprOf;
use crate::expressions::CalleeOf;
use crate::expressions::ClassExprOf;
use crate::expressions::CondExprOf;
use crate::expressions::ExprKindOf;
use crate::expressions::ExprOrSpreadOf;
use crate::expressions::FnExprOf;
use crate::expressions::Ident;
use crate::expressions::Import;
use crate::expressions::Invalid;
use crate::expressions::MemberExprOf;
use crate::expressions::MemberPropOf;
use crate::expressions::MetaPropExpr;
use crate::expressions::NewExprOf;
use crate::expressions::ObjectLitOf;
use crate::expressions::OptCallOf;
use crate::expressions::OptChainBaseOf;
use crate::expressions::OptChainExprOf;
use crate::expressions::ParenExprOf;
use crate::expressions::SeqExprOf;
use crate::expressions::SpreadElementOf;
use crate::expressions::Super;
use crate::expressions::SuperPropExprOf;
use crate::expressions::SuperPropOf;
use crate::expressions::TaggedTplOf;
use crate::expressions::ThisExpr;
use crate::expressions::TplElement;
use crate::expressions::TplOf;
use crate::expressions::UnaryExprOf;
use crate::expressions::UpdateExprOf;
use crate::expressions::YieldExprOf;
use crate::functions::AutoAccessorOf;
use crate::functions::ClassMemberOf;
use crate::functions::ClassMethodOf;
use crate::functions::ClassOf;
use crate::functions::ClassPropOf;
use crate::functions::ComputedPropNameOf;
use crate::functions::ConstructorOf;
use crate::functions::DecoratorOf;
use crate::functions::FunctionOf;
use crate::functions::IdentName;
use crate::functions::KeyOf;
use crate::functions::ParamOf;
use crate::functions::PrivateMethodOf;
use crate::functions::PrivateName;
use crate::functions::PrivatePropOf;
use crate::functions::PropNameOf;
use crate::functions::StaticBlockOf;
use crate::knot::Part;
use crate::literals::BigInt;
use crate::literals::Bool;
use crate::literals::Lit;
use crate::literals::Null;
use crate::literals::Number;
use crate::literals::Regex;
use crate::literals::Str;
use crate::objects::AssignPropOf;
use crate::objects::GetterPropOf;
use crate::objects::KeyValuePropOf;
use crate::objects::MethodPropOf;
use crate::objects::PropOf;
use crate::objects::PropOrSpreadOf;
use crate::objects::SetterPropOf;
use crate::patterns::ArrayPatOf;
use crate::patterns::AssignPatOf;
use crate::patterns::AssignPatPropOf;
use crate::patterns::AssignTargetOf;
use crate::patterns::BindingIdent;
use crate::patterns::KeyValuePatPropOf;
use crate::patterns::ObjectPatOf;
use crate::patterns::ObjectPatPropOf;
use crate::patterns::PatKindOf;
use crate::patterns::RestPatOf;
use crate::programs::DefaultDeclOf;
use crate::programs::ExportAllOf;
use crate::programs::ExportDeclOf;
use crate::programs::ExportDefaultDeclOf;
use crate::programs::ExportDefaultExprOf;
use crate::programs::ExportDefaultSpecifier;
use crate::programs::ExportNamedSpecifier;
use crate::programs::ExportNamespaceSpecifier;
use crate::programs::ExportSpecifier;
use crate::programs::ImportDeclOf;
use crate::programs::ImportDefaultSpecifier;
use crate::programs::ImportNamedSpecifier;
use crate::programs::ImportSpecifier;
use crate::programs::ImportStarAsSpecifier;
use crate::programs::ModuleDeclOf;
use crate::programs::ModuleExportName;
use crate::programs::ModuleItemOf;
use crate::programs::ModuleOf;
use crate::programs::NamedExportOf;
use crate::programs::ProgramKindOf;
use crate::programs::ScriptOf;
use crate::statements::BlockStmtOf;
use crate::statements::BreakStmt;
use crate::statements::CatchClauseOf;
use crate::statements::ContinueStmt;
use crate::statements::DebuggerStmt;
use crate::statements::DoWhileStmtOf;
use crate::statements::EmptyStmt;
use crate::statements::ExprStmtOf;
use crate::statements::ForHeadOf;
use crate::statements::ForInStmtOf;
use crate::statements::ForOfStmtOf;
use crate::statements::ForStmtOf;
use crate::statements::IfStmtOf;
use crate::statements::LabeledStmtOf;
use crate::statements::ReturnStmtOf;
use crate::statements::StmtKindOf;
use crate::statements::SwitchCaseOf;
use crate::statements::SwitchStmtOf;
use crate::statements::ThrowStmtOf;
use crate::statements::TryStmtOf;
use crate::statements::VarDeclOrExprOf;
use crate::statements::WhileStmtOf;
use crate::statements::WithStmtOf;
use base_token::Span;
use base_token::Spanned;

impl Spanned for ProgramKindOf<Part> {
    ghost span_of = { λ x. place_of (view_program_kind inner x) };

    fn span(&self) -> Span {
        match self {
            ProgramKindOf::Script(x) => x.span,
            ProgramKindOf::Module(x) => x.span,
        }
    }
}

impl<T> Spanned for ScriptOf<T> {
    ghost span_of = { λ x. x.span };

    fn span(&self) -> Span {
        self.span
    }
}

impl<T> Spanned for ModuleOf<T> {
    ghost span_of = { λ x. x.span };

    fn span(&self) -> Span {
        self.span
    }
}

impl Spanned for ModuleItemOf<Part> {
    ghost span_of = { λ x. place_of (view_module_item inner x) };

    fn span(&self) -> Span {
        match self {
            ModuleItemOf::ModuleDecl(x) => x.span(),
            ModuleItemOf::Stmt(x) => x.span(),
        }
    }
}

impl Spanned for ModuleDeclOf<Part> {
    ghost span_of = { λ x. place_of (view_module_decl inner x) };

    fn span(&self) -> Span {
        match self {
            ModuleDeclOf::Import(x) => x.span,
            ModuleDeclOf::ExportDecl(x) => x.span,
            ModuleDeclOf::ExportNamed(x) => x.span,
            ModuleDeclOf::ExportDefaultDecl(x) => x.span,
            ModuleDeclOf::ExportDefaultExpr(x) => x.span,
            ModuleDeclOf::ExportAll(x) => x.span,
        }
    }
}

impl<T> Spanned for ImportDeclOf<T> {
    ghost span_of = { λ x. x.span };

    fn span(&self) -> Span {
        self.span
    }
}

impl<T> Spanned for ExportDeclOf<T> {
    ghost span_of = { λ x. x.span };

    fn span(&self) -> Span {
        self.span
    }
}

impl<T> Spanned for NamedExportOf<T> {
    ghost span_of = { λ x. x.span };

    fn span(&self) -> Span {
        self.span
    }
}

impl<T> Spanned for ExportDefaultDeclOf<T> {
    ghost span_of = { λ x. x.span };

    fn span(&self) -> Span {
        self.span
    }
}

impl<T> Spanned for ExportDefaultExprOf<T> {
    ghost span_of = { λ x. x.span };

    fn span(&self) -> Span {
        self.span
    }
}

impl<T> Spanned for ExportAllOf<T> {
    ghost span_of = { λ x. x.span };

    fn span(&self) -> Span {
        self.span
    }
}

impl Spanned for DefaultDeclOf<Part> {
    ghost span_of = { λ x. place_of (view_default_decl inner x) };

    fn span(&self) -> Span {
        match self {
            DefaultDeclOf::Class(x) => x.span,
            DefaultDeclOf::Fn(x) => x.span,
        }
    }
}

impl Spanned for ImportSpecifier {
    ghost span_of = { λ x. place_of (view_import_specifier x) };

    fn span(&self) -> Span {
        match self {
            ImportSpecifier::Named(x) => x.span,
            ImportSpecifier::Default(x) => x.span,
            ImportSpecifier::Namespace(x) => x.span,
        }
    }
}

impl Spanned for ImportNamedSpecifier {
    ghost span_of = { λ x. x.span };

    fn span(&self) -> Span {
        self.span
    }
}

impl Spanned for ImportDefaultSpecifier {
    ghost span_of = { λ x. x.span };

    fn span(&self) -> Span {
        self.span
    }
}

impl Spanned for ImportStarAsSpecifier {
    ghost span_of = { λ x. x.span };

    fn span(&self) -> Span {
        self.span
    }
}

impl Spanned for ExportSpecifier {
    ghost span_of = { λ x. place_of (view_export_specifier x) };

    fn span(&self) -> Span {
        match self {
            ExportSpecifier::Namespace(x) => x.span,
            ExportSpecifier::Default(x) => x.span,
            ExportSpecifier::Named(x) => x.span,
        }
    }
}

impl Spanned for ExportNamespaceSpecifier {
    ghost span_of = { λ x. x.span };

    fn span(&self) -> Span {
        self.span
    }
}

impl Spanned for ExportDefaultSpecifier {
    ghost span_of = { λ x. x.span };

    fn span(&self) -> Span {
        self.span
    }
}

impl Spanned for ExportNamedSpecifier {
    ghost span_of = { λ x. x.span };

    fn span(&self) -> Span {
        self.span
    }
}

impl Spanned for ModuleExportName {
    ghost span_of = { λ x. place_of (view_module_export_name x) };

    fn span(&self) -> Span {
        match self {
            ModuleExportName::Ident(x) => x.span,
            ModuleExportName::Str(x) => x.span,
        }
    }
}

impl Spanned for StmtKindOf<Part> {
    ghost span_of = { λ x. place_of (view_stmt_kind inner x) };

    fn span(&self) -> Span {
        match self {
            StmtKindOf::Block(x) => x.span,
            StmtKindOf::Empty(x) => x.span,
            StmtKindOf::Debugger(x) => x.span,
            StmtKindOf::With(x) => x.span,
            StmtKindOf::Return(x) => x.span,
            StmtKindOf::Labeled(x) => x.span,
            StmtKindOf::Break(x) => x.span,
            StmtKindOf::Continue(x) => x.span,
            StmtKindOf::If(x) => x.span,
            StmtKindOf::Switch(x) => x.span,
            StmtKindOf::Throw(x) => x.span,
            StmtKindOf::Try(x) => x.span,
            StmtKindOf::While(x) => x.span,
            StmtKindOf::DoWhile(x) => x.span,
            StmtKindOf::For(x) => x.span,
            StmtKindOf::ForIn(x) => x.span,
            StmtKindOf::ForOf(x) => x.span,
            StmtKindOf::Decl(x) => x.span(),
            StmtKindOf::Expr(x) => x.span,
        }
    }
}

impl<T> Spanned for BlockStmtOf<T> {
    ghost span_of = { λ x. x.span };

    fn span(&self) -> Span {
        self.span
    }
}

impl Spanned for EmptyStmt {
    ghost span_of = { λ x. x.span };

    fn span(&self) -> Span {
        self.span
    }
}

impl Spanned for DebuggerStmt {
    ghost span_of = { λ x. x.span };

    fn span(&self) -> Span {
        self.span
    }
}

impl<T> Spanned for WithStmtOf<T> {
    ghost span_of = { λ x. x.span };

    fn span(&self) -> Span {
        self.span
    }
}

impl<T> Spanned for ReturnStmtOf<T> {
    ghost span_of = { λ x. x.span };

    fn span(&self) -> Span {
        self.span
    }
}

impl<T> Spanned for LabeledStmtOf<T> {
    ghost span_of = { λ x. x.span };

    fn span(&self) -> Span {
        self.span
    }
}

impl Spanned for BreakStmt {
    ghost span_of = { λ x. x.span };

    fn span(&self) -> Span {
        self.span
    }
}

impl Spanned for ContinueStmt {
    ghost span_of = { λ x. x.span };

    fn span(&self) -> Span {
        self.span
    }
}

impl<T> Spanned for IfStmtOf<T> {
    ghost span_of = { λ x. x.span };

    fn span(&self) -> Span {
        self.span
    }
}

impl<T> Spanned for SwitchStmtOf<T> {
    ghost span_of = { λ x. x.span };

    fn span(&self) -> Span {
        self.span
    }
}

impl<T> Spanned for SwitchCaseOf<T> {
    ghost span_of = { λ x. x.span };

    fn span(&self) -> Span {
        self.span
    }
}

impl<T> Spanned for ThrowStmtOf<T> {
    ghost span_of = { λ x. x.span };

    fn span(&self) -> Span {
        self.span
    }
}

impl<T> Spanned for TryStmtOf<T> {
    ghost span_of = { λ x. x.span };

    fn span(&self) -> Span {
        self.span
    }
}

impl<T> Spanned for CatchClauseOf<T> {
    ghost span_of = { λ x. x.span };

    fn span(&self) -> Span {
        self.span
    }
}

impl<T> Spanned for WhileStmtOf<T> {
    ghost span_of = { λ x. x.span };

    fn span(&self) -> Span {
        self.span
    }
}

impl<T> Spanned for DoWhileStmtOf<T> {
    ghost span_of = { λ x. x.span };

    fn span(&self) -> Span {
        self.span
    }
}

impl<T> Spanned for ForStmtOf<T> {
    ghost span_of = { λ x. x.span };

    fn span(&self) -> Span {
        self.span
    }
}

impl<T> Spanned for ForInStmtOf<T> {
    ghost span_of = { λ x. x.span };

    fn span(&self) -> Span {
        self.span
    }
}

impl<T> Spanned for ForOfStmtOf<T> {
    ghost span_of = { λ x. x.span };

    fn span(&self) -> Span {
        self.span
    }
}

impl<T> Spanned for ExprStmtOf<T> {
    ghost span_of = { λ x. x.span };

    fn span(&self) -> Span {
        self.span
    }
}

impl Spanned for VarDeclOrExprOf<Part> {
    ghost span_of = { λ x. place_of (view_var_decl_or_expr inner x) };

    fn span(&self) -> Span {
        match self {
            VarDeclOrExprOf::VarDecl(x) => x.span,
            VarDeclOrExprOf::UsingDecl(x) => x.span,
            VarDeclOrExprOf::Expr(x) => x.span(),
        }
    }
}

impl Spanned for ForHeadOf<Part> {
    ghost span_of = { λ x. place_of (view_for_head inner x) };

    fn span(&self) -> Span {
        match self {
            ForHeadOf::VarDecl(x) => x.span,
            ForHeadOf::UsingDecl(x) => x.span,
            ForHeadOf::Pat(x) => x.span(),
        }
    }
}

impl Spanned for DeclOf<Part> {
    ghost span_of = { λ x. place_of (view_decl inner x) };

    fn span(&self) -> Span {
        match self {
            DeclOf::Class(x) => x.span,
            DeclOf::Fn(x) => x.span,
            DeclOf::Var(x) => x.span,
            DeclOf::Using(x) => x.span,
        }
    }
}

impl<T> Spanned for ClassDeclOf<T> {
    ghost span_of = { λ x. x.span };

    fn span(&self) -> Span {
        self.span
    }
}

impl<T> Spanned for FnDeclOf<T> {
    ghost span_of = { λ x. x.span };

    fn span(&self) -> Span {
        self.span
    }
}

impl<T> Spanned for VarDeclOf<T> {
    ghost span_of = { λ x. x.span };

    fn span(&self) -> Span {
        self.span
    }
}

impl<T> Spanned for UsingDeclOf<T> {
    ghost span_of = { λ x. x.span };

    fn span(&self) -> Span {
        self.span
    }
}

impl<T> Spanned for VarDeclaratorOf<T> {
    ghost span_of = { λ x. x.span };

    fn span(&self) -> Span {
        self.span
    }
}

impl<T> Spanned for FunctionOf<T> {
    ghost span_of = { λ x. x.span };

    fn span(&self) -> Span {
        self.span
    }
}

impl<T> Spanned for ParamOf<T> {
    ghost span_of = { λ x. x.span };

    fn span(&self) -> Span {
        self.span
    }
}

impl<T> Spanned for DecoratorOf<T> {
    ghost span_of = { λ x. x.span };

    fn span(&self) -> Span {
        self.span
    }
}

impl<T> Spanned for ClassOf<T> {
    ghost span_of = { λ x. x.span };

    fn span(&self) -> Span {
        self.span
    }
}

impl Spanned for ClassMemberOf<Part> {
    ghost span_of = { λ x. place_of (view_class_member inner x) };

    fn span(&self) -> Span {
        match self {
            ClassMemberOf::Constructor(x) => x.span,
            ClassMemberOf::Method(x) => x.span,
            ClassMemberOf::PrivateMethod(x) => x.span,
            ClassMemberOf::ClassProp(x) => x.span,
            ClassMemberOf::PrivateProp(x) => x.span,
            ClassMemberOf::StaticBlock(x) => x.span,
            ClassMemberOf::AutoAccessor(x) => x.span,
            ClassMemberOf::Empty(x) => x.span,
        }
    }
}

impl<T> Spanned for ConstructorOf<T> {
    ghost span_of = { λ x. x.span };

    fn span(&self) -> Span {
        self.span
    }
}

impl<T> Spanned for ClassMethodOf<T> {
    ghost span_of = { λ x. x.span };

    fn span(&self) -> Span {
        self.span
    }
}

impl<T> Spanned for PrivateMethodOf<T> {
    ghost span_of = { λ x. x.span };

    fn span(&self) -> Span {
        self.span
    }
}

impl<T> Spanned for ClassPropOf<T> {
    ghost span_of = { λ x. x.span };

    fn span(&self) -> Span {
        self.span
    }
}

impl<T> Spanned for PrivatePropOf<T> {
    ghost span_of = { λ x. x.span };

    fn span(&self) -> Span {
        self.span
    }
}

impl<T> Spanned for StaticBlockOf<T> {
    ghost span_of = { λ x. x.span };

    fn span(&self) -> Span {
        self.span
    }
}

impl<T> Spanned for AutoAccessorOf<T> {
    ghost span_of = { λ x. x.span };

    fn span(&self) -> Span {
        self.span
    }
}

impl Spanned for KeyOf<Part> {
    ghost span_of = { λ x. place_of (view_key inner x) };

    fn span(&self) -> Span {
        match self {
            KeyOf::Private(x) => x.span,
            KeyOf::Public(x) => x.span(),
        }
    }
}

impl Spanned for PropNameOf<Part> {
    ghost span_of = { λ x. place_of (view_prop_name inner x) };

    fn span(&self) -> Span {
        match self {
            PropNameOf::Ident(x) => x.span,
            PropNameOf::Str(x) => x.span,
            PropNameOf::Num(x) => x.span,
            PropNameOf::BigInt(x) => x.span,
            PropNameOf::Computed(x) => x.span,
        }
    }
}

impl Spanned for IdentName {
    ghost span_of = { λ x. x.span };

    fn span(&self) -> Span {
        self.span
    }
}

impl<T> Spanned for ComputedPropNameOf<T> {
    ghost span_of = { λ x. x.span };

    fn span(&self) -> Span {
        self.span
    }
}

impl Spanned for PrivateName {
    ghost span_of = { λ x. x.span };

    fn span(&self) -> Span {
        self.span
    }
}

impl Spanned for ExprKindOf<Part> {
    ghost span_of = { λ x. place_of (view_expr_kind inner x) };

    fn span(&self) -> Span {
        match self {
            ExprKindOf::This(x) => x.span,
            ExprKindOf::Array(x) => x.span,
            ExprKindOf::Object(x) => x.span,
            ExprKindOf::Fn(x) => x.span,
            ExprKindOf::Unary(x) => x.span,
            ExprKindOf::Update(x) => x.span,
            ExprKindOf::Bin(x) => x.span,
            ExprKindOf::Assign(x) => x.span,
            ExprKindOf::Member(x) => x.span,
            ExprKindOf::SuperProp(x) => x.span,
            ExprKindOf::Cond(x) => x.span,
            ExprKindOf::Call(x) => x.span,
            ExprKindOf::New(x) => x.span,
            ExprKindOf::Seq(x) => x.span,
            ExprKindOf::Ident(x) => x.span,
            ExprKindOf::Lit(x) => x.span(),
            ExprKindOf::Tpl(x) => x.span,
            ExprKindOf::TaggedTpl(x) => x.span,
            ExprKindOf::Arrow(x) => x.span,
            ExprKindOf::Class(x) => x.span,
            ExprKindOf::Yield(x) => x.span,
            ExprKindOf::MetaProp(x) => x.span,
            ExprKindOf::Await(x) => x.span,
            ExprKindOf::Paren(x) => x.span,
            ExprKindOf::PrivateName(x) => x.span,
            ExprKindOf::OptChain(x) => x.span,
            ExprKindOf::Invalid(x) => x.span,
        }
    }
}

impl Spanned for ThisExpr {
    ghost span_of = { λ x. x.span };

    fn span(&self) -> Span {
        self.span
    }
}

impl<T> Spanned for ArrayLitOf<T> {
    ghost span_of = { λ x. x.span };

    fn span(&self) -> Span {
        self.span
    }
}

impl<T> Spanned for ObjectLitOf<T> {
    ghost span_of = { λ x. x.span };

    fn span(&self) -> Span {
        self.span
    }
}

impl<T> Spanned for FnExprOf<T> {
    ghost span_of = { λ x. x.span };

    fn span(&self) -> Span {
        self.span
    }
}

impl<T> Spanned for UnaryExprOf<T> {
    ghost span_of = { λ x. x.span };

    fn span(&self) -> Span {
        self.span
    }
}

impl<T> Spanned for UpdateExprOf<T> {
    ghost span_of = { λ x. x.span };

    fn span(&self) -> Span {
        self.span
    }
}

impl<T> Spanned for BinExprOf<T> {
    ghost span_of = { λ x. x.span };

    fn span(&self) -> Span {
        self.span
    }
}

impl<T> Spanned for AssignExprOf<T> {
    ghost span_of = { λ x. x.span };

    fn span(&self) -> Span {
        self.span
    }
}

impl<T> Spanned for MemberExprOf<T> {
    ghost span_of = { λ x. x.span };

    fn span(&self) -> Span {
        self.span
    }
}

impl<T> Spanned for SuperPropExprOf<T> {
    ghost span_of = { λ x. x.span };

    fn span(&self) -> Span {
        self.span
    }
}

impl<T> Spanned for CondExprOf<T> {
    ghost span_of = { λ x. x.span };

    fn span(&self) -> Span {
        self.span
    }
}

impl<T> Spanned for CallExprOf<T> {
    ghost span_of = { λ x. x.span };

    fn span(&self) -> Span {
        self.span
    }
}

impl<T> Spanned for NewExprOf<T> {
    ghost span_of = { λ x. x.span };

    fn span(&self) -> Span {
        self.span
    }
}

impl<T> Spanned for SeqExprOf<T> {
    ghost span_of = { λ x. x.span };

    fn span(&self) -> Span {
        self.span
    }
}

impl Spanned for Ident {
    ghost span_of = { λ x. x.span };

    fn span(&self) -> Span {
        self.span
    }
}

impl<T> Spanned for TplOf<T> {
    ghost span_of = { λ x. x.span };

    fn span(&self) -> Span {
        self.span
    }
}

impl Spanned for TplElement {
    ghost span_of = { λ x. x.span };

    fn span(&self) -> Span {
        self.span
    }
}

impl<T> Spanned for TaggedTplOf<T> {
    ghost span_of = { λ x. x.span };

    fn span(&self) -> Span {
        self.span
    }
}

impl<T> Spanned for ArrowExprOf<T> {
    ghost span_of = { λ x. x.span };

    fn span(&self) -> Span {
        self.span
    }
}

impl<T> Spanned for ClassExprOf<T> {
    ghost span_of = { λ x. x.span };

    fn span(&self) -> Span {
        self.span
    }
}

impl<T> Spanned for YieldExprOf<T> {
    ghost span_of = { λ x. x.span };

    fn span(&self) -> Span {
        self.span
    }
}

impl Spanned for MetaPropExpr {
    ghost span_of = { λ x. x.span };

    fn span(&self) -> Span {
        self.span
    }
}

impl<T> Spanned for AwaitExprOf<T> {
    ghost span_of = { λ x. x.span };

    fn span(&self) -> Span {
        self.span
    }
}

impl<T> Spanned for ParenExprOf<T> {
    ghost span_of = { λ x. x.span };

    fn span(&self) -> Span {
        self.span
    }
}

impl<T> Spanned for OptChainExprOf<T> {
    ghost span_of = { λ x. x.span };

    fn span(&self) -> Span {
        self.span
    }
}

impl<T> Spanned for OptCallOf<T> {
    ghost span_of = { λ x. x.span };

    fn span(&self) -> Span {
        self.span
    }
}

impl Spanned for Super {
    ghost span_of = { λ x. x.span };

    fn span(&self) -> Span {
        self.span
    }
}

impl Spanned for Import {
    ghost span_of = { λ x. x.span };

    fn span(&self) -> Span {
        self.span
    }
}

impl Spanned for Invalid {
    ghost span_of = { λ x. x.span };

    fn span(&self) -> Span {
        self.span
    }
}

impl<T> Spanned for ExprOrSpreadOf<T> {
    ghost span_of = { λ x. x.span };

    fn span(&self) -> Span {
        self.span
    }
}

impl<T> Spanned for SpreadElementOf<T> {
    ghost span_of = { λ x. x.span };

    fn span(&self) -> Span {
        self.span
    }
}

impl Spanned for CalleeOf<Part> {
    ghost span_of = { λ x. place_of (view_callee inner x) };

    fn span(&self) -> Span {
        match self {
            CalleeOf::Super(x) => x.span,
            CalleeOf::Import(x) => x.span,
            CalleeOf::Expr(x) => x.span(),
        }
    }
}

impl Spanned for MemberPropOf<Part> {
    ghost span_of = { λ x. place_of (view_member_prop inner x) };

    fn span(&self) -> Span {
        match self {
            MemberPropOf::Ident(x) => x.span,
            MemberPropOf::PrivateName(x) => x.span,
            MemberPropOf::Computed(x) => x.span,
        }
    }
}

impl Spanned for SuperPropOf<Part> {
    ghost span_of = { λ x. place_of (view_super_prop inner x) };

    fn span(&self) -> Span {
        match self {
            SuperPropOf::Ident(x) => x.span,
            SuperPropOf::Computed(x) => x.span,
        }
    }
}

impl Spanned for OptChainBaseOf<Part> {
    ghost span_of = { λ x. place_of (view_opt_chain_base inner x) };

    fn span(&self) -> Span {
        match self {
            OptChainBaseOf::Member(x) => x.span,
            OptChainBaseOf::Call(x) => x.span,
        }
    }
}

impl Spanned for BlockStmtOrExprOf<Part> {
    ghost span_of = { λ x. place_of (view_block_stmt_or_expr inner x) };

    fn span(&self) -> Span {
        match self {
            BlockStmtOrExprOf::BlockStmt(x) => x.span,
            BlockStmtOrExprOf::Expr(x) => x.span(),
        }
    }
}

impl Spanned for PropOrSpreadOf<Part> {
    ghost span_of = { λ x. place_of (view_prop_or_spread inner x) };

    fn span(&self) -> Span {
        match self {
            PropOrSpreadOf::Spread(x) => x.span,
            PropOrSpreadOf::Prop(x) => x.span(),
        }
    }
}

impl Spanned for PropOf<Part> {
    ghost span_of = { λ x. place_of (view_prop inner x) };

    fn span(&self) -> Span {
        match self {
            PropOf::Shorthand(x) => x.span,
            PropOf::KeyValue(x) => x.span,
            PropOf::Assign(x) => x.span,
            PropOf::Getter(x) => x.span,
            PropOf::Setter(x) => x.span,
            PropOf::Method(x) => x.span,
        }
    }
}

impl<T> Spanned for KeyValuePropOf<T> {
    ghost span_of = { λ x. x.span };

    fn span(&self) -> Span {
        self.span
    }
}

impl<T> Spanned for AssignPropOf<T> {
    ghost span_of = { λ x. x.span };

    fn span(&self) -> Span {
        self.span
    }
}

impl<T> Spanned for GetterPropOf<T> {
    ghost span_of = { λ x. x.span };

    fn span(&self) -> Span {
        self.span
    }
}

impl<T> Spanned for SetterPropOf<T> {
    ghost span_of = { λ x. x.span };

    fn span(&self) -> Span {
        self.span
    }
}

impl<T> Spanned for MethodPropOf<T> {
    ghost span_of = { λ x. x.span };

    fn span(&self) -> Span {
        self.span
    }
}

impl Spanned for Lit {
    ghost span_of = { λ x. place_of (view_lit x) };

    fn span(&self) -> Span {
        match self {
            Lit::Str(x) => x.span,
            Lit::Bool(x) => x.span,
            Lit::Null(x) => x.span,
            Lit::Num(x) => x.span,
            Lit::BigInt(x) => x.span,
            Lit::Regex(x) => x.span,
        }
    }
}

impl Spanned for Str {
    ghost span_of = { λ x. x.span };

    fn span(&self) -> Span {
        self.span
    }
}

impl Spanned for Bool {
    ghost span_of = { λ x. x.span };

    fn span(&self) -> Span {
        self.span
    }
}

impl Spanned for Null {
    ghost span_of = { λ x. x.span };

    fn span(&self) -> Span {
        self.span
    }
}

impl Spanned for Number {
    ghost span_of = { λ x. x.span };

    fn span(&self) -> Span {
        self.span
    }
}

impl Spanned for BigInt {
    ghost span_of = { λ x. x.span };

    fn span(&self) -> Span {
        self.span
    }
}

impl Spanned for Regex {
    ghost span_of = { λ x. x.span };

    fn span(&self) -> Span {
        self.span
    }
}

impl Spanned for PatKindOf<Part> {
    ghost span_of = { λ x. place_of (view_pat_kind inner x) };

    #[cycle(span)]
    fn span(&self) -> Span {
        match self {
            PatKindOf::Ident(x) => x.span,
            PatKindOf::Array(x) => x.span,
            PatKindOf::Rest(x) => x.span,
            PatKindOf::Object(x) => x.span,
            PatKindOf::Assign(x) => x.span,
            PatKindOf::Expr(x) => x.span(),
            PatKindOf::Invalid(x) => x.span,
        }
    }
}

impl Spanned for BindingIdent {
    ghost span_of = { λ x. x.span };

    fn span(&self) -> Span {
        self.span
    }
}

impl<T> Spanned for ArrayPatOf<T> {
    ghost span_of = { λ x. x.span };

    fn span(&self) -> Span {
        self.span
    }
}

impl<T> Spanned for RestPatOf<T> {
    ghost span_of = { λ x. x.span };

    fn span(&self) -> Span {
        self.span
    }
}

impl<T> Spanned for ObjectPatOf<T> {
    ghost span_of = { λ x. x.span };

    fn span(&self) -> Span {
        self.span
    }
}

impl<T> Spanned for AssignPatOf<T> {
    ghost span_of = { λ x. x.span };

    fn span(&self) -> Span {
        self.span
    }
}

impl Spanned for ObjectPatPropOf<Part> {
    ghost span_of = { λ x. place_of (view_object_pat_prop inner x) };

    fn span(&self) -> Span {
        match self {
            ObjectPatPropOf::KeyValue(x) => x.span,
            ObjectPatPropOf::Assign(x) => x.span,
            ObjectPatPropOf::Rest(x) => x.span,
        }
    }
}

impl<T> Spanned for KeyValuePatPropOf<T> {
    ghost span_of = { λ x. x.span };

    fn span(&self) -> Span {
        self.span
    }
}

impl<T> Spanned for AssignPatPropOf<T> {
    ghost span_of = { λ x. x.span };

    fn span(&self) -> Span {
        self.span
    }
}

impl Spanned for AssignTargetOf<Part> {
    ghost span_of = { λ x. place_of (view_assign_target inner x) };

    fn span(&self) -> Span {
        match self {
            AssignTargetOf::Ident(x) => x.span,
            AssignTargetOf::Member(x) => x.span,
            AssignTargetOf::SuperProp(x) => x.span,
            AssignTargetOf::Paren(x) => x.span,
            AssignTargetOf::OptChain(x) => x.span,
            AssignTargetOf::Array(x) => x.span,
            AssignTargetOf::Object(x) => x.span,
            AssignTargetOf::Invalid(x) => x.span,
        }
    }
}
