//! Makers of classes and of their members. Each stands in a function of its own, so that rules keep small frames.
ghost use Rattle.std.specs.Prelude.{◌≡◌, true, All, IfErr, IfOk};
ghost use Rattle.grammar_spec.specs.Tokens.Shape as shape;
ghost use Rattle.tree_nodes.specs.Fits.{fits_block_stmt, fits_class, fits_class_expr, fits_class_member};
ghost use Rattle.tree_nodes.specs.Fits.{fits_function, fits_held, fits_key, fits_prop_name};
ghost use Rattle.tree_nodes.specs.Placed.{holds_expr, holds_stmt, inner};
ghost use Rattle.tree_nodes.specs.View.{method_kind_word, view_block_stmt, view_class, view_class_expr, view_class_member};
ghost use Rattle.tree_nodes.specs.View.{view_function, view_ident, view_key, view_private_name, view_prop_name};
ghost use Rattle.tree_spec.specs.Tree.{auto_accessor, class, class_decl, class_expr, class_method, class_prop, empty_stmt, ident};
ghost use Rattle.tree_spec.specs.Tree.{none, part_by, private_method, private_prop, static_block, trees_by};
ghost use Rattle.parse_state.specs.Answers.{IsMemory};
ghost use Rattle.parse_operands.specs.Operands.{tree_of};
ghost use Rattle.parse_classes.specs.Members.{constructor_from, field_of, method_of, plain_method_of};

use base_token::Span;
use parse_operands::Operand;
use parse_operands::made::operand;
use parse_state::Failure;
use parse_state::operators::{OTHER_END, PRIMARY};
use std::alloc::Global;
use std::convert::AsStr;
use tree_nodes::{
    AutoAccessor, BlockStmt, Class, ClassDecl, ClassExpr, ClassMember, ClassMethod, ClassProp,
    Constructor, Decl, EmptyStmt, ExprBox, ExprKind, Function, Ident, Key, MethodKind,
    PrivateMethod, PrivateName, PrivateProp, PropName, StaticBlock, Stmt, StmtBox, StmtKind,
};

/// `constructor` in units.
const CONSTRUCTOR: [u16; 11] = [99, 111, 110, 115, 116, 114, 117, 99, 116, 111, 114];

/// Whether a key is the word or the string `constructor`.
pub fn constructs(key: &PropName) -> bool
    ensures { result ≡ shape.constructs (view_prop_name inner key.now) }
{
    match key {
        PropName::Ident(name) => name.sym.as_str() == "constructor",
        PropName::Str(text) => text.units.as_slice() == CONSTRUCTOR.as_slice(),
        _ => false,
    }
}

/// A constructor.
#[inline(never)]
pub fn constructor(span: Span, key: PropName, function: Box<Function>) -> ClassMember
    requires key { fits_prop_name (λ p. p) key }
    requires function { fits_function (λ p. p) function.value }
    ensures value { view_class_member inner result
        ≡ constructor_from span (view_prop_name inner key) (view_function inner function.value) }
    ensures fits { fits_class_member (λ p. p) result }
{
    let function = Box::into_inner(function);
    ClassMember::Constructor(Constructor {
        span,
        key,
        params: function.params,
        body: function.body,
    })
}

/// A method, a getter or a setter.
#[inline(never)]
pub fn class_method(
    span: Span,
    key: PropName,
    function: Box<Function>,
    kind: MethodKind,
    is_static: bool,
) -> ClassMember
    requires key { fits_prop_name (λ p. p) key }
    requires function { fits_function (λ p. p) function.value }
    ensures value { view_class_member inner result
        ≡ class_method span (view_prop_name inner key) (view_function inner function.value)
        (method_kind_word kind) is_static }
    ensures fits { fits_class_member (λ p. p) result }
{
    ClassMember::Method(ClassMethod {
        span,
        key,
        function,
        kind,
        is_static,
    })
}

/// A method, a getter or a setter with a private name.
#[inline(never)]
pub fn private_method(
    span: Span,
    key: PrivateName,
    function: Box<Function>,
    kind: MethodKind,
    is_static: bool,
) -> ClassMember
    requires { fits_function (λ p. p) function.value }
    ensures value { view_class_member inner result
        ≡ private_method span (view_private_name key) (view_function inner function.value)
        (method_kind_word kind) is_static }
    ensures fits { fits_class_member (λ p. p) result }
{
    ClassMember::PrivateMethod(PrivateMethod {
        span,
        key,
        function,
        kind,
        is_static,
    })
}

/// A method, a getter or a setter, by its key.
#[tactic(auto, using(crate::proofs::Keys::keys))]
pub fn method(
    span: Span,
    key: Key,
    function: Box<Function>,
    kind: MethodKind,
    is_static: bool,
) -> ClassMember
    requires key { fits_key (λ p. p) key }
    requires function { fits_function (λ p. p) function.value }
    ensures value { view_class_member inner result
        ≡ method_of span (view_key inner key) (view_function inner function.value)
        (method_kind_word kind) is_static }
    ensures fits { fits_class_member (λ p. p) result }
{
    match key {
        Key::Private(key) => private_method(span, key, function, kind, is_static),
        Key::Public(key) => class_method(span, key, function, kind, is_static),
    }
}

/// A method that is no getter and no setter; by its key a constructor, where one may stand.
#[inline(never)]
#[tactic(auto, using(crate::proofs::Keys::keys))]
pub fn plain_method(
    span: Span,
    key: Key,
    function: Box<Function>,
    is_static: bool,
    may_construct: bool,
) -> ClassMember
    requires key { fits_key (λ p. p) key }
    requires function { fits_function (λ p. p) function.value }
    ensures value { view_class_member inner result
        ≡ plain_method_of span (view_key inner key) (view_function inner function.value) is_static
        may_construct }
    ensures fits { fits_class_member (λ p. p) result }
{
    match key {
        Key::Private(key) => private_method(span, key, function, MethodKind::Method, is_static),
        Key::Public(key) => {
            if constructs(&key) && may_construct {
                return constructor(span, key, function);
            }
            class_method(span, key, function, MethodKind::Method, is_static)
        }
    }
}

/// A field.
#[inline(never)]
pub fn class_prop(
    alloc: Global,
    span: Span,
    key: PropName,
    value: Option<ExprBox>,
    is_static: bool,
) -> ClassMember
    requires key { fits_prop_name (λ p. p) key }
    requires value { fits_held (λ x. holds_expr x.part.value) value }
    ensures value { view_class_member inner result
        ≡ class_prop span (view_prop_name inner key) (part_by (λ x. inner x.part.value) value)
        is_static none }
    ensures fits { fits_class_member (λ p. p) result }
{
    ClassMember::ClassProp(ClassProp {
        span,
        key,
        value,
        is_static,
        decorators: Vec::new(alloc),
    })
}

/// A field with a private name.
#[inline(never)]
pub fn private_prop(
    alloc: Global,
    span: Span,
    key: PrivateName,
    value: Option<ExprBox>,
    is_static: bool,
) -> ClassMember
    requires { fits_held (λ x. holds_expr x.part.value) value }
    ensures value { view_class_member inner result
        ≡ private_prop span (view_private_name key) (part_by (λ x. inner x.part.value) value)
        is_static none }
    ensures fits { fits_class_member (λ p. p) result }
{
    ClassMember::PrivateProp(PrivateProp {
        span,
        key,
        value,
        is_static,
        decorators: Vec::new(alloc),
    })
}

/// A field, by its key.
#[inline(never)]
#[tactic(auto, using(crate::proofs::Keys::keys))]
pub fn field(
    alloc: Global,
    span: Span,
    key: Key,
    value: Option<ExprBox>,
    is_static: bool,
) -> ClassMember
    requires key { fits_key (λ p. p) key }
    requires value { fits_held (λ x. holds_expr x.part.value) value }
    ensures value { view_class_member inner result
        ≡ field_of span (view_key inner key) (part_by (λ x. inner x.part.value) value) is_static }
    ensures fits { fits_class_member (λ p. p) result }
{
    match key {
        Key::Private(key) => private_prop(alloc, span, key, value, is_static),
        Key::Public(key) => class_prop(alloc, span, key, value, is_static),
    }
}

/// A field that is made of a getter and a setter.
#[inline(never)]
pub fn auto_accessor(
    alloc: Global,
    span: Span,
    key: Key,
    value: Option<ExprBox>,
    is_static: bool,
) -> ClassMember
    requires key { fits_key (λ p. p) key }
    requires value { fits_held (λ x. holds_expr x.part.value) value }
    ensures value { view_class_member inner result
        ≡ auto_accessor span (view_key inner key) (part_by (λ x. inner x.part.value) value)
        is_static none }
    ensures fits { fits_class_member (λ p. p) result }
{
    ClassMember::AutoAccessor(AutoAccessor {
        span,
        key,
        value,
        is_static,
        decorators: Vec::new(alloc),
    })
}

/// A static block.
#[inline(never)]
pub fn static_block(span: Span, body: BlockStmt) -> ClassMember
    requires { fits_block_stmt (λ p. p) body }
    ensures value { view_class_member inner result ≡ static_block span (view_block_stmt inner body) }
    ensures fits { fits_class_member (λ p. p) result }
{
    ClassMember::StaticBlock(StaticBlock { span, body })
}

/// A semicolon as a member.
pub fn empty_member(span: Span) -> ClassMember
    ensures value { view_class_member inner result ≡ empty_stmt span }
    ensures fits { fits_class_member (λ p. p) result }
{
    ClassMember::Empty(EmptyStmt { span })
}

/// A class.
#[inline(never)]
pub fn class(
    alloc: Global,
    span: Span,
    body: Vec<ClassMember>,
    super_class: Option<ExprBox>,
) -> Result<Box<Class>, Failure>
    requires body { All (λ x. fits_class_member (λ p. p) x) body.items }
    requires super_class { fits_held (λ x. holds_expr x.part.value) super_class }
    ensures value { IfOk result (λ x. view_class inner x.value
        ≡ class span none (trees_by (view_class_member inner) body.items)
        (part_by (λ x. inner x.part.value) super_class)) }
    ensures fits { IfOk result (λ x. fits_class (λ p. p) x.value) }
    ensures full { IfErr result IsMemory }
{
    let node = Class {
        span,
        decorators: Vec::new(alloc),
        body,
        super_class,
    };
    Ok(Box::new(alloc, node)?)
}

/// A class with its name, as a statement.
#[inline(never)]
pub fn class_decl(
    alloc: Global,
    span: Span,
    ident: Ident,
    class: Box<Class>,
) -> Result<StmtBox, Failure>
    requires { fits_class (λ p. p) class.value }
    ensures value { IfOk result (λ x. inner x.part.value
        ≡ class_decl span (view_ident ident) (view_class inner class.value)) }
    ensures holds { IfOk result (λ x. holds_stmt x.part.value) }
    ensures full { IfErr result IsMemory }
{
    let node = ClassDecl { span, ident, class };
    let kind = StmtKind::Decl(Decl::Class(node));
    Ok(StmtBox::new(alloc, Stmt { kind })?)
}

/// A class as an expression, with its name or without.
pub fn class_expr(span: Span, ident: Option<Ident>, class: Box<Class>) -> ClassExpr
    requires { fits_class (λ p. p) class.value }
    ensures value { view_class_expr inner result
        ≡ class_expr span (part_by view_ident ident) (view_class inner class.value) }
    ensures fits { fits_class_expr (λ p. p) result }
{
    ClassExpr { span, ident, class }
}

/// A class as an expression, as an operand.
#[inline(never)]
pub fn class_operand(alloc: Global, node: ClassExpr) -> Result<Operand, Failure>
    requires { fits_class_expr (λ p. p) node }
    ensures value { IfOk result (λ o. tree_of o ≡ view_class_expr inner node) }
    ensures full { IfErr result IsMemory }
{
    operand(alloc, ExprKind::Class(node), PRIMARY, OTHER_END)
}
