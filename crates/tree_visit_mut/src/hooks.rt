//! What a visitor does with the nodes of a tree.
ghost use Rattle.std.specs.Prelude.{All};
ghost use Rattle.tree_nodes.specs.Placed.{holds_stmt};
ghost use Rattle.tree_nodes.specs.Fits.{fits_function, fits_class, fits_module_item};

use base_token::Span;
use tree_nodes::{
    BigInt, Class, Expr, Function, Ident, IdentName, ModuleItem, Number, Pat, PrivateName, Program,
    Stmt, StmtBox, Str, TplElement,
};

/// Changes a tree in place. A hook that begins with `enter` is called before what is below a node is changed, one that
/// begins with `leave` after that; a node may be put in the place of another there, which is not gone over. Each hook
/// does nothing by itself.
pub trait VisitMut {
    fn enter_program(&mut self, _program: &Program) {}

    fn leave_program(&mut self, _program: &mut Program) {}

    fn enter_stmt(&mut self, _stmt: &Stmt) {}

    fn leave_stmt(&mut self, _stmt: &mut Stmt) {}

    fn enter_expr(&mut self, _expr: &Expr) {}

    fn leave_expr(&mut self, _expr: &mut Expr) {}

    fn enter_pat(&mut self, _pat: &Pat) {}

    fn leave_pat(&mut self, _pat: &mut Pat) {}

    /// The statements of a block, a script or a clause of `switch`.
    fn leave_stmts(&mut self, _stmts: &mut Vec<StmtBox>)
        requires { All (λ x. holds_stmt x.part.value) _stmts.old.items }
        ensures { All (λ x. holds_stmt x.part.value) _stmts.new.items }
    {}

    /// The parts of a module.
    fn leave_module_items(&mut self, _items: &mut Vec<ModuleItem>)
        requires { All (fits_module_item (λ p. p)) _items.old.items }
        ensures { All (fits_module_item (λ p. p)) _items.new.items }
    {}

    fn enter_function(&mut self, _function: &Function)
        requires { fits_function (λ p. p) _function.now }
    {}

    fn leave_function(&mut self, _function: &mut Function)
        requires { fits_function (λ p. p) _function.old }
        ensures { fits_function (λ p. p) _function.new }
    {}

    fn enter_class(&mut self, _class: &Class)
        requires { fits_class (λ p. p) _class.now }
    {}

    fn leave_class(&mut self, _class: &mut Class)
        requires { fits_class (λ p. p) _class.old }
        ensures { fits_class (λ p. p) _class.new }
    {}

    fn tpl_element(&mut self, _text: &mut TplElement) {}

    /// A name, as an expression, a pattern, a label or what an import or an export names.
    fn ident(&mut self, _ident: &mut Ident) {}

    /// A word as a key or after a dot.
    fn ident_name(&mut self, _name: &mut IdentName) {}

    fn private_name(&mut self, _name: &mut PrivateName) {}

    fn str(&mut self, _text: &mut Str) {}

    fn number(&mut self, _number: &mut Number) {}

    fn big_int(&mut self, _number: &mut BigInt) {}

    /// The place of a node, or of the dots before one.
    fn span(&mut self, _span: &mut Span) {}
}
