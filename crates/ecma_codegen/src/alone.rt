//! Printing a node alone.
ghost use Rattle.print_layout_spec.specs.declared.look.Look.{Look};
ghost use Rattle.print_layout_spec.specs.declared.look.Stand.TheVariants.{Alone};
ghost use Rattle.print_layout_spec.specs.Layout.{laid};
ghost use Rattle.print_layout_spec.specs.Looks.{Laid};
ghost use Rattle.tree_nodes.specs.View.{view_module_decl, view_module_item};
ghost use Rattle.print_pieces.specs.Prints.{Prints};
ghost use Rattle.ecma_codegen.specs.Items.{element_laid, item_laid, placed_laid};

use print_layout_spec::Look;
use print_layout_spec::Stand;
use print_nodes::Print;
use print_nodes::PrintItem;
use print_nodes::PrintPart;
use print_nodes::knot::print_end;
use print_nodes::print::print_closing;
use print_pieces::Printer;
use print_writers::WriteJs;
use tree_nodes::ArrayLitOf;
use tree_nodes::ArrayPatOf;
use tree_nodes::ArrowExprOf;
use tree_nodes::AssignExprOf;
use tree_nodes::AssignPatOf;
use tree_nodes::AssignPatPropOf;
use tree_nodes::AssignPropOf;
use tree_nodes::AssignTargetOf;
use tree_nodes::AutoAccessorOf;
use tree_nodes::AwaitExprOf;
use tree_nodes::BigInt;
use tree_nodes::BinExprOf;
use tree_nodes::BindingIdent;
use tree_nodes::BlockStmtOf;
use tree_nodes::BlockStmtOrExprOf;
use tree_nodes::Bool;
use tree_nodes::BreakStmt;
use tree_nodes::CallExprOf;
use tree_nodes::CalleeOf;
use tree_nodes::CatchClauseOf;
use tree_nodes::Child;
use tree_nodes::ClassDeclOf;
use tree_nodes::ClassExprOf;
use tree_nodes::ClassMemberOf;
use tree_nodes::ClassMethodOf;
use tree_nodes::ClassOf;
use tree_nodes::ClassPropOf;
use tree_nodes::ComputedPropNameOf;
use tree_nodes::CondExprOf;
use tree_nodes::ConstructorOf;
use tree_nodes::ContinueStmt;
use tree_nodes::DebuggerStmt;
use tree_nodes::DeclOf;
use tree_nodes::DecoratorOf;
use tree_nodes::DoWhileStmtOf;
use tree_nodes::EmptyStmt;
use tree_nodes::ExportAllOf;
use tree_nodes::ExportDeclOf;
use tree_nodes::ExportDefaultDeclOf;
use tree_nodes::ExportDefaultExprOf;
use tree_nodes::ExportDefaultSpecifier;
use tree_nodes::ExportNamedSpecifier;
use tree_nodes::ExportNamespaceSpecifier;
use tree_nodes::ExportSpecifier;
use tree_nodes::Expr;
use tree_nodes::ExprKindOf;
use tree_nodes::ExprOrSpreadOf;
use tree_nodes::ExprStmtOf;
use tree_nodes::FnDeclOf;
use tree_nodes::FnExprOf;
use tree_nodes::ForHeadOf;
use tree_nodes::ForInStmtOf;
use tree_nodes::ForOfStmtOf;
use tree_nodes::ForStmtOf;
use tree_nodes::FunctionOf;
use tree_nodes::GetterPropOf;
use tree_nodes::Ident;
use tree_nodes::IdentName;
use tree_nodes::IfStmtOf;
use tree_nodes::Import;
use tree_nodes::ImportDeclOf;
use tree_nodes::ImportDefaultSpecifier;
use tree_nodes::ImportNamedSpecifier;
use tree_nodes::ImportSpecifier;
use tree_nodes::ImportStarAsSpecifier;
use tree_nodes::Invalid;
use tree_nodes::KeyOf;
use tree_nodes::KeyValuePatPropOf;
use tree_nodes::KeyValuePropOf;
use tree_nodes::LabeledStmtOf;
use tree_nodes::Lit;
use tree_nodes::MemberExprOf;
use tree_nodes::MemberPropOf;
use tree_nodes::MetaPropExpr;
use tree_nodes::MethodPropOf;
use tree_nodes::ModuleDeclOf;
use tree_nodes::ModuleExportName;
use tree_nodes::ModuleItemOf;
use tree_nodes::ModuleOf;
use tree_nodes::NamedExportOf;
use tree_nodes::NewExprOf;
use tree_nodes::Null;
use tree_nodes::Number;
use tree_nodes::ObjectLitOf;
use tree_nodes::ObjectPatOf;
use tree_nodes::ObjectPatPropOf;
use tree_nodes::OptCallOf;
use tree_nodes::OptChainBaseOf;
use tree_nodes::OptChainExprOf;
use tree_nodes::ParamOf;
use tree_nodes::ParenExprOf;
use tree_nodes::Part;
use tree_nodes::PartKind;
use tree_nodes::Pat;
use tree_nodes::PatKindOf;
use tree_nodes::PrivateMethodOf;
use tree_nodes::PrivateName;
use tree_nodes::PrivatePropOf;
use tree_nodes::Program;
use tree_nodes::ProgramKindOf;
use tree_nodes::PropNameOf;
use tree_nodes::PropOf;
use tree_nodes::PropOrSpreadOf;
use tree_nodes::Regex;
use tree_nodes::RestPatOf;
use tree_nodes::ReturnStmtOf;
use tree_nodes::ScriptOf;
use tree_nodes::SeqExprOf;
use tree_nodes::SetterPropOf;
use tree_nodes::SpreadElementOf;
use tree_nodes::StaticBlockOf;
use tree_nodes::Stmt;
use tree_nodes::StmtKindOf;
use tree_nodes::Str;
use tree_nodes::Super;
use tree_nodes::SuperPropExprOf;
use tree_nodes::SuperPropOf;
use tree_nodes::SwitchCaseOf;
use tree_nodes::SwitchStmtOf;
use tree_nodes::TaggedTplOf;
use tree_nodes::ThisExpr;
use tree_nodes::ThrowStmtOf;
use tree_nodes::TplElement;
use tree_nodes::TplOf;
use tree_nodes::TryStmtOf;
use tree_nodes::UnaryExprOf;
use tree_nodes::UpdateExprOf;
use tree_nodes::UsingDeclOf;
use tree_nodes::VarDeclOf;
use tree_nodes::VarDeclOrExprOf;
use tree_nodes::VarDeclaratorOf;
use tree_nodes::WhileStmtOf;
use tree_nodes::WithStmtOf;
use tree_nodes::YieldExprOf;

/// What can be printed alone. A statement, a declaration of a module and a part of a module have their ends then: they
/// end their line, behind a semicolon where they declare variables. A block has none.
pub trait PrintAlone: Print {
    /// What is laid out.
    ghost alone: { Look → Self → Laid };

    /// Prints it with its end.
    fn print_alone<W: WriteJs>(&self, p: &mut Printer<W>, look: Look)
        ensures { Prints W.tells W.state W.failed_writes W.loans (alone look self.now) p.old.wr p.old.fault p.new.wr p.new.fault };
}

/// What has no end: any node but those.
pub trait WithoutEnd: Print {}

impl<N: WithoutEnd> PrintAlone for N {
    ghost alone = { λ look x. laid look Alone (N.tree x) };

    fn print_alone<W: WriteJs>(&self, p: &mut Printer<W>, look: Look) {
        self.print(p, look, Stand::Alone);
    }
}

impl PrintAlone for Stmt {
    ghost alone = { λ look t. item_laid look t };

    fn print_alone<W: WriteJs>(&self, p: &mut Printer<W>, look: Look) {
        self.print(p, look, Stand::Alone);
        print_end(self, p, look);
    }
}

impl<T: PrintPart> PrintAlone for ModuleDeclOf<T> {
    ghost alone = { λ look x. item_laid look (view_module_decl T.tree x) };

    fn print_alone<W: WriteJs>(&self, p: &mut Printer<W>, look: Look) {
        self.print(p, look, Stand::Alone);
        print_closing(self, p, look);
    }
}

impl<T: PrintPart> PrintAlone for ModuleItemOf<T> {
    ghost alone = { λ look x. item_laid look (view_module_item T.tree x) };

    fn print_alone<W: WriteJs>(&self, p: &mut Printer<W>, look: Look) {
        self.print(p, look, Stand::Alone);
        print_closing(self, p, look);
    }
}

impl PrintAlone for Part {
    ghost alone = { placed_laid };

    fn print_alone<W: WriteJs>(&self, p: &mut Printer<W>, look: Look) {
        match &self.sort {
            PartKind::Expr(x) => x.print_alone(p, look),
            PartKind::Stmt(x) => x.print_alone(p, look),
            PartKind::Pat(x) => x.print_alone(p, look),
        }
    }
}

impl<T: PrintAlone, K> PrintAlone for Child<T, K> {
    ghost alone = { λ look c. T.alone look c.part.value };

    fn print_alone<W: WriteJs>(&self, p: &mut Printer<W>, look: Look) {
        self.part.print_alone(p, look)
    }
}

impl<T: PrintAlone> PrintAlone for Box<T> {
    ghost alone = { λ look b. T.alone look b.value };

    fn print_alone<W: WriteJs>(&self, p: &mut Printer<W>, look: Look) {
        (**self).print_alone(p, look)
    }
}

impl<T: PrintAlone> PrintAlone for Option<T> {
    ghost alone = { λ look x. element_laid (T.alone look) x };

    fn print_alone<W: WriteJs>(&self, p: &mut Printer<W>, look: Look) {
        if let Some(x) = self {
            x.print_alone(p, look);
        }
    }
}

impl PrintAlone for &Stmt {
    ghost alone = { λ look r. item_laid look r.now };

    fn print_alone<W: WriteJs>(&self, p: &mut Printer<W>, look: Look) {
        (**self).print_alone(p, look)
    }
}

impl<T: PrintPart> PrintAlone for &ModuleDeclOf<T> {
    ghost alone = { λ look r. item_laid look (view_module_decl T.tree r.now) };

    fn print_alone<W: WriteJs>(&self, p: &mut Printer<W>, look: Look) {
        (**self).print_alone(p, look)
    }
}

impl<T: PrintPart> PrintAlone for &ModuleItemOf<T> {
    ghost alone = { λ look r. item_laid look (view_module_item T.tree r.now) };

    fn print_alone<W: WriteJs>(&self, p: &mut Printer<W>, look: Look) {
        (**self).print_alone(p, look)
    }
}

impl PrintAlone for &Part {
    ghost alone = { λ look r. placed_laid look r.now };

    fn print_alone<W: WriteJs>(&self, p: &mut Printer<W>, look: Look) {
        (**self).print_alone(p, look)
    }
}

impl<T: PrintAlone, K> PrintAlone for &Child<T, K> {
    ghost alone = { λ look r. T.alone look r.now.part.value };

    fn print_alone<W: WriteJs>(&self, p: &mut Printer<W>, look: Look) {
        (**self).print_alone(p, look)
    }
}

impl<T: PrintAlone> PrintAlone for &Box<T> {
    ghost alone = { λ look r. T.alone look r.now.value };

    fn print_alone<W: WriteJs>(&self, p: &mut Printer<W>, look: Look) {
        (**self).print_alone(p, look)
    }
}

impl<T: PrintAlone> PrintAlone for &Option<T> {
    ghost alone = { λ look r. element_laid (T.alone look) r.now };

    fn print_alone<W: WriteJs>(&self, p: &mut Printer<W>, look: Look) {
        (**self).print_alone(p, look)
    }
}

impl<T: WithoutEnd> WithoutEnd for &T {}

impl<T: PrintPart> WithoutEnd for ArrayLitOf<T> {}

impl<T: PrintPart> WithoutEnd for ArrayPatOf<T> {}

impl<T: PrintPart> WithoutEnd for ArrowExprOf<T> {}

impl<T: PrintPart> WithoutEnd for AssignExprOf<T> {}

impl<T: PrintPart> WithoutEnd for AssignPatOf<T> {}

impl<T: PrintPart> WithoutEnd for AssignPatPropOf<T> {}

impl<T: PrintPart> WithoutEnd for AssignPropOf<T> {}

impl<T: PrintPart> WithoutEnd for AssignTargetOf<T> {}

impl<T: PrintPart> WithoutEnd for AutoAccessorOf<T> {}

impl<T: PrintPart> WithoutEnd for AwaitExprOf<T> {}

impl WithoutEnd for BigInt {}

impl<T: PrintPart> WithoutEnd for BinExprOf<T> {}

impl WithoutEnd for BindingIdent {}

impl<T: PrintItem> WithoutEnd for BlockStmtOf<T> {}

impl<T: PrintPart> WithoutEnd for BlockStmtOrExprOf<T> {}

impl WithoutEnd for Bool {}

impl WithoutEnd for BreakStmt {}

impl<T: PrintPart> WithoutEnd for CallExprOf<T> {}

impl<T: PrintPart> WithoutEnd for CalleeOf<T> {}

impl<T: PrintPart> WithoutEnd for CatchClauseOf<T> {}

impl<T: PrintPart> WithoutEnd for ClassDeclOf<T> {}

impl<T: PrintPart> WithoutEnd for ClassExprOf<T> {}

impl<T: PrintPart> WithoutEnd for ClassMemberOf<T> {}

impl<T: PrintPart> WithoutEnd for ClassMethodOf<T> {}

impl<T: PrintPart> WithoutEnd for ClassOf<T> {}

impl<T: PrintPart> WithoutEnd for ClassPropOf<T> {}

impl<T: PrintPart> WithoutEnd for ComputedPropNameOf<T> {}

impl<T: PrintPart> WithoutEnd for CondExprOf<T> {}

impl<T: PrintPart> WithoutEnd for ConstructorOf<T> {}

impl WithoutEnd for ContinueStmt {}

impl WithoutEnd for DebuggerStmt {}

impl<T: PrintPart> WithoutEnd for DeclOf<T> {}

impl<T: PrintPart> WithoutEnd for DecoratorOf<T> {}

impl<T: PrintPart> WithoutEnd for DoWhileStmtOf<T> {}

impl WithoutEnd for EmptyStmt {}

impl<T: PrintPart> WithoutEnd for ExportAllOf<T> {}

impl<T: PrintPart> WithoutEnd for ExportDeclOf<T> {}

impl<T: PrintPart> WithoutEnd for ExportDefaultDeclOf<T> {}

impl<T: PrintPart> WithoutEnd for ExportDefaultExprOf<T> {}

impl WithoutEnd for ExportDefaultSpecifier {}

impl WithoutEnd for ExportNamedSpecifier {}

impl WithoutEnd for ExportNamespaceSpecifier {}

impl WithoutEnd for ExportSpecifier {}

impl WithoutEnd for Expr {}

impl<T: PrintPart> WithoutEnd for ExprKindOf<T> {}

impl<T: PrintPart> WithoutEnd for ExprOrSpreadOf<T> {}

impl<T: PrintPart> WithoutEnd for ExprStmtOf<T> {}

impl<T: PrintPart> WithoutEnd for FnDeclOf<T> {}

impl<T: PrintPart> WithoutEnd for FnExprOf<T> {}

impl<T: PrintPart> WithoutEnd for ForHeadOf<T> {}

impl<T: PrintPart> WithoutEnd for ForInStmtOf<T> {}

impl<T: PrintPart> WithoutEnd for ForOfStmtOf<T> {}

impl<T: PrintPart> WithoutEnd for ForStmtOf<T> {}

impl<T: PrintPart> WithoutEnd for FunctionOf<T> {}

impl<T: PrintPart> WithoutEnd for GetterPropOf<T> {}

impl WithoutEnd for Ident {}

impl WithoutEnd for IdentName {}

impl<T: PrintPart> WithoutEnd for IfStmtOf<T> {}

impl WithoutEnd for Import {}

impl<T: PrintPart> WithoutEnd for ImportDeclOf<T> {}

impl WithoutEnd for ImportDefaultSpecifier {}

impl WithoutEnd for ImportNamedSpecifier {}

impl WithoutEnd for ImportSpecifier {}

impl WithoutEnd for ImportStarAsSpecifier {}

impl WithoutEnd for Invalid {}

impl<T: PrintPart> WithoutEnd for KeyOf<T> {}

impl<T: PrintPart> WithoutEnd for KeyValuePatPropOf<T> {}

impl<T: PrintPart> WithoutEnd for KeyValuePropOf<T> {}

impl<T: PrintPart> WithoutEnd for LabeledStmtOf<T> {}

impl WithoutEnd for Lit {}

impl<T: PrintPart> WithoutEnd for MemberExprOf<T> {}

impl<T: PrintPart> WithoutEnd for MemberPropOf<T> {}

impl WithoutEnd for MetaPropExpr {}

impl<T: PrintPart> WithoutEnd for MethodPropOf<T> {}

impl WithoutEnd for ModuleExportName {}

impl<T: PrintPart> WithoutEnd for ModuleOf<T> {}

impl<T: PrintPart> WithoutEnd for NamedExportOf<T> {}

impl<T: PrintPart> WithoutEnd for NewExprOf<T> {}

impl WithoutEnd for Null {}

impl WithoutEnd for Number {}

impl<T: PrintPart> WithoutEnd for ObjectLitOf<T> {}

impl<T: PrintPart> WithoutEnd for ObjectPatOf<T> {}

impl<T: PrintPart> WithoutEnd for ObjectPatPropOf<T> {}

impl<T: PrintPart> WithoutEnd for OptCallOf<T> {}

impl<T: PrintPart> WithoutEnd for OptChainBaseOf<T> {}

impl<T: PrintPart> WithoutEnd for OptChainExprOf<T> {}

impl<T: PrintPart> WithoutEnd for ParamOf<T> {}

impl<T: PrintPart> WithoutEnd for ParenExprOf<T> {}

impl WithoutEnd for Pat {}

impl<T: PrintPart> WithoutEnd for PatKindOf<T> {}

impl<T: PrintPart> WithoutEnd for PrivateMethodOf<T> {}

impl WithoutEnd for PrivateName {}

impl<T: PrintPart> WithoutEnd for PrivatePropOf<T> {}

impl WithoutEnd for Program {}

impl<T: PrintPart> WithoutEnd for ProgramKindOf<T> {}

impl<T: PrintPart> WithoutEnd for PropNameOf<T> {}

impl<T: PrintPart> WithoutEnd for PropOf<T> {}

impl<T: PrintPart> WithoutEnd for PropOrSpreadOf<T> {}

impl WithoutEnd for Regex {}

impl<T: PrintPart> WithoutEnd for RestPatOf<T> {}

impl<T: PrintPart> WithoutEnd for ReturnStmtOf<T> {}

impl<T: PrintPart> WithoutEnd for ScriptOf<T> {}

impl<T: PrintPart> WithoutEnd for SeqExprOf<T> {}

impl<T: PrintPart> WithoutEnd for SetterPropOf<T> {}

impl<T: PrintPart> WithoutEnd for SpreadElementOf<T> {}

impl<T: PrintPart> WithoutEnd for StaticBlockOf<T> {}

impl<T: PrintPart> WithoutEnd for StmtKindOf<T> {}

impl WithoutEnd for Str {}

impl WithoutEnd for Super {}

impl<T: PrintPart> WithoutEnd for SuperPropExprOf<T> {}

impl<T: PrintPart> WithoutEnd for SuperPropOf<T> {}

impl<T: PrintPart> WithoutEnd for SwitchCaseOf<T> {}

impl<T: PrintPart> WithoutEnd for SwitchStmtOf<T> {}

impl<T: PrintPart> WithoutEnd for TaggedTplOf<T> {}

impl WithoutEnd for ThisExpr {}

impl<T: PrintPart> WithoutEnd for ThrowStmtOf<T> {}

impl WithoutEnd for TplElement {}

impl<T: PrintPart> WithoutEnd for TplOf<T> {}

impl<T: PrintPart> WithoutEnd for TryStmtOf<T> {}

impl<T: PrintPart> WithoutEnd for UnaryExprOf<T> {}

impl<T: PrintPart> WithoutEnd for UpdateExprOf<T> {}

impl<T: PrintPart> WithoutEnd for UsingDeclOf<T> {}

impl<T: PrintPart> WithoutEnd for VarDeclOf<T> {}

impl<T: PrintPart> WithoutEnd for VarDeclOrExprOf<T> {}

impl<T: PrintPart> WithoutEnd for VarDeclaratorOf<T> {}

impl<T: PrintPart> WithoutEnd for WhileStmtOf<T> {}

impl<T: PrintPart> WithoutEnd for WithStmtOf<T> {}

impl<T: PrintPart> WithoutEnd for YieldExprOf<T> {}
