//! What a function or a class becomes where it was parsed.
ghost use Rattle.std.specs.Prelude.{◌≡◌, ◌≢◌, false, true, Bool, IfErr, IfOk, None};
ghost use Rattle.base_token.specs.declared.error.SyntaxError.TheVariants.{Memory};
ghost use Rattle.base_token.specs.declared.place.Span.{Span};
ghost use Rattle.tree_spec.specs.Tree.{Tree, class_decl, class_expr, export_default_decl, fn_decl, fn_expr, part_by};
ghost use Rattle.tree_nodes.specs.Fits.{fits_class, fits_function};
ghost use Rattle.tree_nodes.specs.Placed.{inner};
ghost use Rattle.tree_nodes.specs.View.{view_class, view_decl, view_export_default_decl, view_function, view_ident};

use base_token::{Span, SyntaxError};
use std::alloc::Global;
use tree_nodes::{
    Class, ClassDecl, ClassExpr, Decl, DefaultDecl, ExportDefaultDecl, Expr, ExprBox, ExprKind,
    FnDecl, FnExpr, Function, Ident,
};

/// What a function or a class becomes: an expression, what is exported by default, or a declaration.
pub trait OutputType: Sized {
    /// What it stands for.
    ghost tree: { Self → Tree };

    /// The tree of a function with its name, and of a class with its name.
    ghost of_fn: { Span → Tree → Tree → Tree };

    ghost of_class: { Span → Tree → Tree → Tree };

    ghost IS_IDENT_REQUIRED: { Bool };

    /// Whether it can't be without a name.
    const IS_IDENT_REQUIRED: bool;

    /// Whether it is an expression.
    ghost expression: { Bool };

    /// Whether a function is an expression, so that its name is judged in its own code.
    fn is_fn_expr() -> bool
        ensures { result ≡ expression };

    /// A function, with its name where it has one.
    ///
    /// # Errors
    ///
    /// Want of memory, or that a name is missing.
    fn finish_fn(
        alloc: Global,
        span: Span,
        ident: Option<Ident>,
        function: Box<Function>,
    ) -> Result<Self, SyntaxError>
        requires { fits_function (λ p. p) function.value }
        ensures value { IfOk result (λ x. tree x
            ≡ of_fn span (part_by view_ident ident) (view_function inner function.value)) }
        ensures missing { IfErr result (λ e. e ≢ Memory → (IS_IDENT_REQUIRED ≡ true) × (ident ≡ None)) };

    /// A class, with its name where it has one.
    ///
    /// # Errors
    ///
    /// Want of memory, or that a name is missing.
    fn finish_class(
        alloc: Global,
        span: Span,
        ident: Option<Ident>,
        class: Box<Class>,
    ) -> Result<Self, SyntaxError>
        requires { fits_class (λ p. p) class.value }
        ensures value { IfOk result (λ x. tree x
            ≡ of_class span (part_by view_ident ident) (view_class inner class.value)) }
        ensures missing { IfErr result (λ e. e ≢ Memory → (IS_IDENT_REQUIRED ≡ true) × (ident ≡ None)) };
}

impl OutputType for ExprBox {
    ghost tree = { λ x. inner x.part.value };

    ghost of_fn = { fn_expr };

    ghost of_class = { class_expr };

    ghost IS_IDENT_REQUIRED = { false };

    const IS_IDENT_REQUIRED: bool = false;

    ghost expression = { true };

    fn is_fn_expr() -> bool {
        true
    }

    fn finish_fn(
        alloc: Global,
        span: Span,
        ident: Option<Ident>,
        function: Box<Function>,
    ) -> Result<Self, SyntaxError> {
        let kind = ExprKind::Fn(FnExpr {
            span,
            ident,
            function,
        });
        ExprBox::new(alloc, Expr { kind }).map_err(|_| SyntaxError::Memory)
    }

    fn finish_class(
        alloc: Global,
        span: Span,
        ident: Option<Ident>,
        class: Box<Class>,
    ) -> Result<Self, SyntaxError> {
        let kind = ExprKind::Class(ClassExpr { span, ident, class });
        ExprBox::new(alloc, Expr { kind }).map_err(|_| SyntaxError::Memory)
    }
}

impl OutputType for ExportDefaultDecl {
    ghost tree = { view_export_default_decl inner };

    ghost of_fn = { λ s n f. export_default_decl s (fn_expr s n f) };

    ghost of_class = { λ s n k. export_default_decl s (class_expr s n k) };

    ghost IS_IDENT_REQUIRED = { false };

    const IS_IDENT_REQUIRED: bool = false;

    ghost expression = { false };

    fn is_fn_expr() -> bool {
        false
    }

    fn finish_fn(
        _alloc: Global,
        span: Span,
        ident: Option<Ident>,
        function: Box<Function>,
    ) -> Result<Self, SyntaxError> {
        let decl = DefaultDecl::Fn(FnExpr {
            span,
            ident,
            function,
        });
        Ok(ExportDefaultDecl { span, decl })
    }

    fn finish_class(
        _alloc: Global,
        span: Span,
        ident: Option<Ident>,
        class: Box<Class>,
    ) -> Result<Self, SyntaxError> {
        let decl = DefaultDecl::Class(ClassExpr { span, ident, class });
        Ok(ExportDefaultDecl { span, decl })
    }
}

impl OutputType for Decl {
    ghost tree = { view_decl inner };

    ghost of_fn = { fn_decl };

    ghost of_class = { class_decl };

    ghost IS_IDENT_REQUIRED = { true };

    const IS_IDENT_REQUIRED: bool = true;

    ghost expression = { false };

    fn is_fn_expr() -> bool {
        false
    }

    fn finish_fn(
        _alloc: Global,
        span: Span,
        ident: Option<Ident>,
        function: Box<Function>,
    ) -> Result<Self, SyntaxError> {
        match ident {
            Some(ident) => Ok(Decl::Fn(FnDecl {
                span,
                ident,
                function,
            })),
            None => Err(SyntaxError::Unexpected),
        }
    }

    fn finish_class(
        _alloc: Global,
        span: Span,
        ident: Option<Ident>,
        class: Box<Class>,
    ) -> Result<Self, SyntaxError> {
        match ident {
            Some(ident) => Ok(Decl::Class(ClassDecl { span, ident, class })),
            None => Err(SyntaxError::Unexpected),
        }
    }
}
