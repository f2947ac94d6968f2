// Written by tools/tree/build.py from tools/tree/tree.table. Don't edit this file.
//! Makes expressions.
ghost use Rattle.std.specs.Prelude.{◌≡◌};
ghost use Rattle.std.specs.Prelude.{All, IfOk};
ghost use Rattle.base_token.specs.OperatorKinds.{assign_op_kind, binary_op_kind};
ghost use Rattle.tree_spec.specs.Places.{no_place};
ghost use Rattle.tree_nodes.specs.Placed.{holds_expr, holds_pat, in_expr, inner};
ghost use Rattle.tree_nodes.specs.Fits.{fits_assign_target, fits_block_stmt_or_expr, fits_callee, fits_class, fits_expr_or_spread, fits_function, fits_held, fits_member_prop, fits_opt_chain_base, fits_prop_or_spread, fits_super_prop, fits_tpl};
ghost use Rattle.tree_nodes.specs.View.{meta_prop_kind_word, unary_op_word, update_op_word, view_assign_target, view_block_stmt_or_expr, view_callee, view_class, view_expr_or_spread, view_function, view_ident, view_member_prop, view_opt_chain_base, view_prop_or_spread, view_super, view_super_prop, view_tpl, view_tpl_element};
ghost use Rattle.tree_spec.specs.Tree.{array_lit, arrow_expr, assign_expr, await_expr, big_int_lit, bin_expr, bool_lit, call_expr, class_expr, cond_expr, element_by, fn_expr, ident, invalid, list, member_expr, meta_prop_expr, new_expr, null_lit, number_lit, object_lit, opt_chain_expr, paren_expr, part_by, private_name, regex_lit, seq_expr, str_lit, super_prop_expr, tagged_tpl, this_expr, tpl, trees_by, unary_expr, update_expr, yield_expr};

use crate::Build;
use base_token::{AssignOp, Atom, BinaryOp, DUMMY_SP, NumValue, StrValue};
use std::alloc::AllocError;
use tree_nodes::{
    ArrayLit, ArrowExpr, AssignExpr, AssignTarget, AwaitExpr, BigInt, BinExpr, BlockStmtOrExpr,
    Bool, CallExpr, Callee, Class, ClassExpr, CondExpr, ExprBox, ExprKind, ExprOrSpread, FnExpr,
    Function, Ident, Invalid, Lit, MemberExpr, MemberProp, MetaPropExpr, MetaPropKind, NewExpr,
    Null, Number, ObjectLit, OptChainBase, OptChainExpr, ParenExpr, PatBox, PrivateName,
    PropOrSpread, Regex, SeqExpr, Str, Super, SuperProp, SuperPropExpr, TaggedTpl, ThisExpr, Tpl,
    TplElement, UnaryExpr, UnaryOp, UpdateExpr, UpdateOp, YieldExpr,
};

impl Build {
    /// `this`.
    pub fn this_expr(&self) -> Result<ExprBox, AllocError>
        ensures { IfOk result (λ c. c.part.value ≡ in_expr (this_expr no_place)) }
    {
        let node = ThisExpr { span: DUMMY_SP };
        self.expr(ExprKind::This(node))
    }

    /// `[a, , ...b]`.
    pub fn array_lit(&self, elems: Vec<Option<ExprOrSpread>>) -> Result<ExprBox, AllocError>
        requires elems { All (λ x. fits_held (λ x. fits_expr_or_spread (λ p. p) x) x) elems.items }
        ensures { IfOk result (λ c. c.part.value ≡ in_expr (array_lit no_place (trees_by (λ x. element_by (view_expr_or_spread inner) x) elems.items))) }
    {
        let node = ArrayLit {
            span: DUMMY_SP,
            elems,
        };
        self.expr(ExprKind::Array(node))
    }

    /// `{ a, b: c, ...d }`.
    pub fn object_lit(&self, props: Vec<PropOrSpread>) -> Result<ExprBox, AllocError>
        requires props { All (λ x. fits_prop_or_spread (λ p. p) x) props.items }
        ensures { IfOk result (λ c. c.part.value ≡ in_expr (object_lit no_place (trees_by (view_prop_or_spread inner) props.items))) }
    {
        let node = ObjectLit {
            span: DUMMY_SP,
            props,
        };
        self.expr(ExprKind::Object(node))
    }

    /// A function as an expression.
    pub fn fn_expr(
        &self,
        ident: Option<Ident>,
        function: Box<Function>,
    ) -> Result<ExprBox, AllocError>
        requires function { fits_function (λ p. p) function.value }
        ensures { IfOk result (λ c. c.part.value ≡ in_expr (fn_expr no_place (part_by view_ident ident) (view_function inner function.value))) }
    {
        let node = FnExpr {
            span: DUMMY_SP,
            ident,
            function,
        };
        self.expr(ExprKind::Fn(node))
    }

    /// An operator before its operand.
    pub fn unary_expr(&self, op: UnaryOp, arg: ExprBox) -> Result<ExprBox, AllocError>
        requires arg { holds_expr (arg.part.value) }
        ensures { IfOk result (λ c. c.part.value ≡ in_expr (unary_expr no_place (unary_op_word op) (inner arg.part.value))) }
    {
        let node = UnaryExpr {
            span: DUMMY_SP,
            op,
            arg,
        };
        self.expr(ExprKind::Unary(node))
    }

    /// `++` or `--`, before or after its operand.
    pub fn update_expr(
        &self,
        op: UpdateOp,
        prefix: bool,
        arg: ExprBox,
    ) -> Result<ExprBox, AllocError>
        requires arg { holds_expr (arg.part.value) }
        ensures { IfOk result (λ c. c.part.value ≡ in_expr (update_expr no_place (update_op_word op) prefix (inner arg.part.value))) }
    {
        let node = UpdateExpr {
            span: DUMMY_SP,
            op,
            prefix,
            arg,
        };
        self.expr(ExprKind::Update(node))
    }

    /// An operator between two operands.
    pub fn bin_expr(
        &self,
        op: BinaryOp,
        left: ExprBox,
        right: ExprBox,
    ) -> Result<ExprBox, AllocError>
        requires left { holds_expr (left.part.value) }
        requires right { holds_expr (right.part.value) }
        ensures { IfOk result (λ c. c.part.value ≡ in_expr (bin_expr no_place (binary_op_kind op) (inner left.part.value) (inner right.part.value))) }
    {
        let node = BinExpr {
            span: DUMMY_SP,
            op,
            left,
            right,
        };
        self.expr(ExprKind::Bin(node))
    }

    /// An assignment.
    pub fn assign_expr(
        &self,
        op: AssignOp,
        left: AssignTarget,
        right: ExprBox,
    ) -> Result<ExprBox, AllocError>
        requires left { fits_assign_target (λ p. p) left }
        requires right { holds_expr (right.part.value) }
        ensures { IfOk result (λ c. c.part.value ≡ in_expr (assign_expr no_place (assign_op_kind op) (view_assign_target inner left) (inner right.part.value))) }
    {
        let node = AssignExpr {
            span: DUMMY_SP,
            op,
            left,
            right,
        };
        self.expr(ExprKind::Assign(node))
    }

    /// `obj.prop`, `obj[prop]` or `obj.#prop`.
    pub fn member_expr(&self, obj: ExprBox, prop: MemberProp) -> Result<ExprBox, AllocError>
        requires obj { holds_expr (obj.part.value) }
        requires prop { fits_member_prop (λ p. p) prop }
        ensures { IfOk result (λ c. c.part.value ≡ in_expr (member_expr no_place (inner obj.part.value) (view_member_prop inner prop))) }
    {
        let node = MemberExpr {
            span: DUMMY_SP,
            obj,
            prop,
        };
        self.expr(ExprKind::Member(node))
    }

    /// `super.prop` or `super[prop]`.
    pub fn super_prop_expr(&self, obj: Super, prop: SuperProp) -> Result<ExprBox, AllocError>
        requires prop { fits_super_prop (λ p. p) prop }
        ensures { IfOk result (λ c. c.part.value ≡ in_expr (super_prop_expr no_place (view_super obj) (view_super_prop inner prop))) }
    {
        let node = SuperPropExpr {
            span: DUMMY_SP,
            obj,
            prop,
        };
        self.expr(ExprKind::SuperProp(node))
    }

    /// `test ? cons : alt`.
    pub fn cond_expr(
        &self,
        test: ExprBox,
        cons: ExprBox,
        alt: ExprBox,
    ) -> Result<ExprBox, AllocError>
        requires test { holds_expr (test.part.value) }
        requires cons { holds_expr (cons.part.value) }
        requires alt { holds_expr (alt.part.value) }
        ensures { IfOk result (λ c. c.part.value ≡ in_expr (cond_expr no_place (inner test.part.value) (inner cons.part.value) (inner alt.part.value))) }
    {
        let node = CondExpr {
            span: DUMMY_SP,
            test,
            cons,
            alt,
        };
        self.expr(ExprKind::Cond(node))
    }

    /// `callee(..)`.
    pub fn call_expr(&self, callee: Callee, args: Vec<ExprOrSpread>) -> Result<ExprBox, AllocError>
        requires callee { fits_callee (λ p. p) callee }
        requires args { All (λ x. fits_expr_or_spread (λ p. p) x) args.items }
        ensures { IfOk result (λ c. c.part.value ≡ in_expr (call_expr no_place (view_callee inner callee) (trees_by (view_expr_or_spread inner) args.items))) }
    {
        let node = CallExpr {
            span: DUMMY_SP,
            callee,
            args,
        };
        self.expr(ExprKind::Call(node))
    }

    /// `new callee(..)`, or without a list of arguments.
    pub fn new_expr(
        &self,
        callee: ExprBox,
        args: Option<Vec<ExprOrSpread>>,
    ) -> Result<ExprBox, AllocError>
        requires callee { holds_expr (callee.part.value) }
        requires args { fits_held (λ x. All (λ x. fits_expr_or_spread (λ p. p) x) x.items) args }
        ensures { IfOk result (λ c. c.part.value ≡ in_expr (new_expr no_place (inner callee.part.value) (part_by (λ x. list (trees_by (view_expr_or_spread inner) x.items)) args))) }
    {
        let node = NewExpr {
            span: DUMMY_SP,
            callee,
            args,
        };
        self.expr(ExprKind::New(node))
    }

    /// Expressions with commas between them.
    pub fn seq_expr(&self, exprs: Vec<ExprBox>) -> Result<ExprBox, AllocError>
        requires exprs { All (λ x. holds_expr (x.part.value)) exprs.items }
        ensures { IfOk result (λ c. c.part.value ≡ in_expr (seq_expr no_place (trees_by (λ x. inner x.part.value) exprs.items))) }
    {
        let node = SeqExpr {
            span: DUMMY_SP,
            exprs,
        };
        self.expr(ExprKind::Seq(node))
    }

    /// A name.
    pub fn ident(&self, sym: Atom) -> Result<ExprBox, AllocError>
        ensures { IfOk result (λ c. c.part.value ≡ in_expr (ident no_place sym)) }
    {
        let node = Ident {
            span: DUMMY_SP,
            sym,
        };
        self.expr(ExprKind::Ident(node))
    }

    /// A string: its units, and its spelling with the quotes where it was read.
    pub fn str(&self, units: StrValue, raw: Option<Atom>) -> Result<ExprBox, AllocError>
        ensures { IfOk result (λ c. c.part.value ≡ in_expr (str_lit no_place units raw)) }
    {
        let node = Str {
            span: DUMMY_SP,
            units,
            raw,
        };
        self.expr(ExprKind::Lit(Lit::Str(node)))
    }

    /// `true` or `false`.
    pub fn bool(&self, value: bool) -> Result<ExprBox, AllocError>
        ensures { IfOk result (λ c. c.part.value ≡ in_expr (bool_lit no_place value)) }
    {
        let node = Bool {
            span: DUMMY_SP,
            value,
        };
        self.expr(ExprKind::Lit(Lit::Bool(node)))
    }

    /// `null`.
    pub fn null(&self) -> Result<ExprBox, AllocError>
        ensures { IfOk result (λ c. c.part.value ≡ in_expr (null_lit no_place)) }
    {
        let node = Null { span: DUMMY_SP };
        self.expr(ExprKind::Lit(Lit::Null(node)))
    }

    /// A number, and its spelling where it was read.
    pub fn number(&self, value: Box<NumValue>, raw: Option<Atom>) -> Result<ExprBox, AllocError>
        ensures { IfOk result (λ c. c.part.value ≡ in_expr (number_lit no_place value.value raw)) }
    {
        let node = Number {
            span: DUMMY_SP,
            value,
            raw,
        };
        self.expr(ExprKind::Lit(Lit::Num(node)))
    }

    /// A big integer: radix and digits as spelled without prefix and separators, and its spelling where it was read.
    pub fn big_int(
        &self,
        radix: u32,
        digits: Atom,
        raw: Option<Atom>,
    ) -> Result<ExprBox, AllocError>
        ensures { IfOk result (λ c. c.part.value ≡ in_expr (big_int_lit no_place radix digits raw)) }
    {
        let node = BigInt {
            span: DUMMY_SP,
            radix,
            digits,
            raw,
        };
        self.expr(ExprKind::Lit(Lit::BigInt(node)))
    }

    /// A regular expression: what stands between its slashes, and its flags.
    pub fn regex(&self, exp: Atom, flags: Atom) -> Result<ExprBox, AllocError>
        ensures { IfOk result (λ c. c.part.value ≡ in_expr (regex_lit no_place exp flags)) }
    {
        let node = Regex {
            span: DUMMY_SP,
            exp,
            flags,
        };
        self.expr(ExprKind::Lit(Lit::Regex(node)))
    }

    /// A template: its texts, and an expression between each and the next.
    pub fn tpl(&self, exprs: Vec<ExprBox>, quasis: Vec<TplElement>) -> Result<ExprBox, AllocError>
        requires exprs { All (λ x. holds_expr (x.part.value)) exprs.items }
        ensures { IfOk result (λ c. c.part.value ≡ in_expr (tpl no_place (trees_by (λ x. inner x.part.value) exprs.items) (trees_by view_tpl_element quasis.items))) }
    {
        let node = Tpl {
            span: DUMMY_SP,
            exprs,
            quasis,
        };
        self.expr(ExprKind::Tpl(node))
    }

    /// A template after its tag.
    pub fn tagged_tpl(&self, tag: ExprBox, tpl: Box<Tpl>) -> Result<ExprBox, AllocError>
        requires tag { holds_expr (tag.part.value) }
        requires tpl { fits_tpl (λ p. p) tpl.value }
        ensures { IfOk result (λ c. c.part.value ≡ in_expr (tagged_tpl no_place (inner tag.part.value) (view_tpl inner tpl.value))) }
    {
        let node = TaggedTpl {
            span: DUMMY_SP,
            tag,
            tpl,
        };
        self.expr(ExprKind::TaggedTpl(node))
    }

    /// An arrow function.
    pub fn arrow_expr(
        &self,
        params: Vec<PatBox>,
        body: BlockStmtOrExpr,
        is_async: bool,
    ) -> Result<ExprBox, AllocError>
        requires params { All (λ x. holds_pat (x.part.value)) params.items }
        requires body { fits_block_stmt_or_expr (λ p. p) body }
        ensures { IfOk result (λ c. c.part.value ≡ in_expr (arrow_expr no_place (trees_by (λ x. inner x.part.value) params.items) (view_block_stmt_or_expr inner body) is_async)) }
    {
        let node = ArrowExpr {
            span: DUMMY_SP,
            params,
            body,
            is_async,
        };
        self.expr(ExprKind::Arrow(node))
    }

    /// A class as an expression.
    pub fn class_expr(&self, ident: Option<Ident>, class: Box<Class>) -> Result<ExprBox, AllocError>
        requires class { fits_class (λ p. p) class.value }
        ensures { IfOk result (λ c. c.part.value ≡ in_expr (class_expr no_place (part_by view_ident ident) (view_class inner class.value))) }
    {
        let node = ClassExpr {
            span: DUMMY_SP,
            ident,
            class,
        };
        self.expr(ExprKind::Class(node))
    }

    /// `yield arg` or `yield* arg`.
    pub fn yield_expr(&self, arg: Option<ExprBox>, delegate: bool) -> Result<ExprBox, AllocError>
        requires arg { fits_held (λ x. holds_expr (x.part.value)) arg }
        ensures { IfOk result (λ c. c.part.value ≡ in_expr (yield_expr no_place (part_by (λ x. inner x.part.value) arg) delegate)) }
    {
        let node = YieldExpr {
            span: DUMMY_SP,
            arg,
            delegate,
        };
        self.expr(ExprKind::Yield(node))
    }

    /// `new.target` or `import.meta`.
    pub fn meta_prop_expr(&self, kind: MetaPropKind) -> Result<ExprBox, AllocError>
        ensures { IfOk result (λ c. c.part.value ≡ in_expr (meta_prop_expr no_place (meta_prop_kind_word kind))) }
    {
        let node = MetaPropExpr {
            span: DUMMY_SP,
            kind,
        };
        self.expr(ExprKind::MetaProp(node))
    }

    /// `await arg`.
    pub fn await_expr(&self, arg: ExprBox) -> Result<ExprBox, AllocError>
        requires arg { holds_expr (arg.part.value) }
        ensures { IfOk result (λ c. c.part.value ≡ in_expr (await_expr no_place (inner arg.part.value))) }
    {
        let node = AwaitExpr {
            span: DUMMY_SP,
            arg,
        };
        self.expr(ExprKind::Await(node))
    }

    /// `(expr)`.
    pub fn paren_expr(&self, expr: ExprBox) -> Result<ExprBox, AllocError>
        requires expr { holds_expr (expr.part.value) }
        ensures { IfOk result (λ c. c.part.value ≡ in_expr (paren_expr no_place (inner expr.part.value))) }
    {
        let node = ParenExpr {
            span: DUMMY_SP,
            expr,
        };
        self.expr(ExprKind::Paren(node))
    }

    /// `#name`; the name is without `#`.
    pub fn private_name(&self, name: Atom) -> Result<ExprBox, AllocError>
        ensures { IfOk result (λ c. c.part.value ≡ in_expr (private_name no_place name)) }
    {
        let node = PrivateName {
            span: DUMMY_SP,
            name,
        };
        self.expr(ExprKind::PrivateName(node))
    }

    /// A member or a call in an optional chain; `optional` where `?.` stands before it.
    pub fn opt_chain_expr(&self, optional: bool, base: OptChainBase) -> Result<ExprBox, AllocError>
        requires base { fits_opt_chain_base (λ p. p) base }
        ensures { IfOk result (λ c. c.part.value ≡ in_expr (opt_chain_expr no_place optional (view_opt_chain_base inner base))) }
    {
        let node = OptChainExpr {
            span: DUMMY_SP,
            optional,
            base,
        };
        self.expr(ExprKind::OptChain(node))
    }

    /// What stands in the place of an expression or a pattern that could not be read.
    pub fn invalid(&self) -> Result<ExprBox, AllocError>
        ensures { IfOk result (λ c. c.part.value ≡ in_expr (invalid no_place)) }
    {
        let node = Invalid { span: DUMMY_SP };
        self.expr(ExprKind::Invalid(node))
    }
}
