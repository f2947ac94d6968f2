//! The names of kinds of nodes.

use tree_visit::Kind;

/// The name of a kind: that of its struct.
pub fn kind_name(kind: Kind) -> &'static str {
    of_program(kind)
}

/// The name of a kind among programs and declarations of modules.
fn of_program(kind: Kind) -> &'static str {
    match kind {
        Kind::Script => "Script",
        Kind::Module => "Module",
        Kind::ImportDecl => "ImportDecl",
        Kind::ExportDecl => "ExportDecl",
        Kind::NamedExport => "NamedExport",
        Kind::ExportDefaultDecl => "ExportDefaultDecl",
        Kind::ExportDefaultExpr => "ExportDefaultExpr",
        Kind::ExportAll => "ExportAll",
        Kind::ImportNamedSpecifier => "ImportNamedSpecifier",
        Kind::ImportDefaultSpecifier => "ImportDefaultSpecifier",
        Kind::ImportStarAsSpecifier => "ImportStarAsSpecifier",
        Kind::ExportNamespaceSpecifier => "ExportNamespaceSpecifier",
        Kind::ExportDefaultSpecifier => "ExportDefaultSpecifier",
        Kind::ExportNamedSpecifier => "ExportNamedSpecifier",
        _ => of_statement(kind),
    }
}

/// The name of a kind among statements.
fn of_statement(kind: Kind) -> &'static str {
    match kind {
        Kind::BlockStmt => "BlockStmt",
        Kind::EmptyStmt => "EmptyStmt",
        Kind::DebuggerStmt => "DebuggerStmt",
        Kind::WithStmt => "WithStmt",
        Kind::ReturnStmt => "ReturnStmt",
        Kind::LabeledStmt => "LabeledStmt",
        Kind::BreakStmt => "BreakStmt",
        Kind::ContinueStmt => "ContinueStmt",
        Kind::IfStmt => "IfStmt",
        Kind::SwitchStmt => "SwitchStmt",
        Kind::SwitchCase => "SwitchCase",
        Kind::ThrowStmt => "ThrowStmt",
        Kind::TryStmt => "TryStmt",
        Kind::CatchClause => "CatchClause",
        Kind::WhileStmt => "WhileStmt",
        Kind::DoWhileStmt => "DoWhileStmt",
        Kind::ForStmt => "ForStmt",
        Kind::ForInStmt => "ForInStmt",
        Kind::ForOfStmt => "ForOfStmt",
        Kind::ExprStmt => "ExprStmt",
        Kind::ClassDecl => "ClassDecl",
        Kind::FnDecl => "FnDecl",
        Kind::VarDecl => "VarDecl",
        Kind::UsingDecl => "UsingDecl",
        Kind::VarDeclarator => "VarDeclarator",
        _ => of_class(kind),
    }
}

/// The name of a kind among functions, classes and keys.
fn of_class(kind: Kind) -> &'static str {
    match kind {
        Kind::Function => "Function",
        Kind::Param => "Param",
        Kind::Decorator => "Decorator",
        Kind::Class => "Class",
        Kind::Constructor => "Constructor",
        Kind::ClassMethod => "ClassMethod",
        Kind::PrivateMethod => "PrivateMethod",
        Kind::ClassProp => "ClassProp",
        Kind::PrivateProp => "PrivateProp",
        Kind::StaticBlock => "StaticBlock",
        Kind::AutoAccessor => "AutoAccessor",
        Kind::IdentName => "IdentName",
        Kind::ComputedPropName => "ComputedPropName",
        Kind::PrivateName => "PrivateName",
        _ => of_expression(kind),
    }
}

/// The name of a kind among expressions.
fn of_expression(kind: Kind) -> &'static str {
    match kind {
        Kind::ThisExpr => "ThisExpr",
        Kind::ArrayLit => "ArrayLit",
        Kind::ObjectLit => "ObjectLit",
        Kind::FnExpr => "FnExpr",
        Kind::UnaryExpr => "UnaryExpr",
        Kind::UpdateExpr => "UpdateExpr",
        Kind::BinExpr => "BinExpr",
        Kind::AssignExpr => "AssignExpr",
        Kind::MemberExpr => "MemberExpr",
        Kind::SuperPropExpr => "SuperPropExpr",
        Kind::CondExpr => "CondExpr",
        Kind::CallExpr => "CallExpr",
        Kind::NewExpr => "NewExpr",
        Kind::SeqExpr => "SeqExpr",
        Kind::Ident => "Ident",
        Kind::Tpl => "Tpl",
        Kind::TplElement => "TplElement",
        Kind::TaggedTpl => "TaggedTpl",
        Kind::ArrowExpr => "ArrowExpr",
        Kind::ClassExpr => "ClassExpr",
        Kind::YieldExpr => "YieldExpr",
        Kind::MetaPropExpr => "MetaPropExpr",
        Kind::AwaitExpr => "AwaitExpr",
        Kind::ParenExpr => "ParenExpr",
        Kind::OptChainExpr => "OptChainExpr",
        Kind::OptCall => "OptCall",
        Kind::Super => "Super",
        Kind::Import => "Import",
        Kind::Invalid => "Invalid",
        _ => of_part(kind),
    }
}

/// The name of a kind among elements, properties, literals and patterns.
fn of_part(kind: Kind) -> &'static str {
    match kind {
        Kind::ExprOrSpread => "ExprOrSpread",
        Kind::SpreadElement => "SpreadElement",
        Kind::KeyValueProp => "KeyValueProp",
        Kind::AssignProp => "AssignProp",
        Kind::GetterProp => "GetterProp",
        Kind::SetterProp => "SetterProp",
        Kind::MethodProp => "MethodProp",
        Kind::Str => "Str",
        Kind::Bool => "Bool",
        Kind::Null => "Null",
        Kind::Number => "Number",
        Kind::BigInt => "BigInt",
        Kind::Regex => "Regex",
        Kind::BindingIdent => "BindingIdent",
        Kind::ArrayPat => "ArrayPat",
        Kind::RestPat => "RestPat",
        Kind::ObjectPat => "ObjectPat",
        Kind::AssignPat => "AssignPat",
        Kind::KeyValuePatProp => "KeyValuePatProp",
        Kind::AssignPatProp => "AssignPatProp",
        Kind::ExprPat => "ExprPat",
        Kind::InvalidPat => "InvalidPat",
        _ => "InvalidTarget",
    }
}
