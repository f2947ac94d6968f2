//! The rules whose parts are read alone in a script's code: expressions, bindings, parameters, keys, statements and
//! properties.
ghost use Rattle.std.specs.Prelude.{◌≡◌, All, IfOk};
ghost use Rattle.tree_spec.specs.Tree.{list, trees_by};
ghost use Rattle.tree_nodes.specs.Fits.{fits_object_pat_prop, fits_param, fits_prop_name, fits_prop_or_spread};
ghost use Rattle.tree_nodes.specs.Placed.{holds_expr, holds_pat, holds_stmt, inner};
ghost use Rattle.tree_nodes.specs.View.{view_object_pat_prop, view_param, view_prop_name, view_prop_or_spread};
ghost use Rattle.grammar_spec.specs.Judge.Early.{early_errors};
ghost use Rattle.judge_is_module.specs.Items as program;
ghost use Rattle.parse_state.specs.Cursors.{stream_of};
ghost use Rattle.parse_alone.specs.Items as items;
ghost use Rattle.parse_alone.specs.Parts as parts;
ghost use Rattle.parse_alone.specs.Props as props;

use crate::each_part::Rule;
use base_token::{Error, EsSyntax};
use judge::{item_errors, part_errors};
use lex_source::Tokens;
use parse_alone::items::{list_item_part, statement_part};
use parse_alone::parts::{binding_part, expression_part, key_part, parameters_part};
use parse_alone::properties::{item_part, prop_part};
use parse_state::{Around, Failure, Parser};
use std::alloc::{AllocError, Global};
use tree_nodes::{ExprBox, ObjectPatProp, Param, PatBox, PropName, PropOrSpread, StmtBox};

/// The early errors of a statement, which stands directly in a script's body or not.
#[tactic(auto, unfolding(grammar_spec::specs::Judge::Early::early_errors))]
fn stmt_errors(
    alloc: Global,
    syntax: EsSyntax,
    top_level: bool,
    stmt: &StmtBox,
) -> Result<Vec<Error>, AllocError>
    ensures { IfOk result (λ found. found.items ≡ program.item_errors syntax top_level (inner stmt.now.part.value)) }
{
    if top_level {
        item_errors(alloc, syntax, stmt)
    } else {
        part_errors(alloc, syntax, false, stmt)
    }
}

/// An expression of a level (ECMA-262, 13.15 and 13.16).
#[derive(Drop)]
pub(crate) struct Expression {
    /// The level: nothing that binds less tightly is read.
    pub level: u8,
}

impl<'a, I: Tokens<'a> + Drop> Rule<'a, I> for Expression {
    type Node = ExprBox;

    ghost tree = { λ x. inner x.part.value };

    ghost fits = { λ x. holds_expr x.part.value };

    ghost reads = { λ rule _ m. parts.expression_part (stream_of m) rule.level };

    ghost faults = { λ _ syntax. early_errors syntax };

    fn read(&self, p: &mut Parser<'a, I>, limit: u32, code: Around) -> Result<ExprBox, Failure> {
        expression_part(p, limit, code, self.level)
    }

    #[tactic(auto, unfolding(grammar_spec::specs::Judge::Early::early_errors))]
    fn errors(
        &self,
        alloc: Global,
        syntax: EsSyntax,
        node: &ExprBox,
    ) -> Result<Vec<Error>, AllocError> {
        part_errors(alloc, syntax, false, node)
    }
}

/// A name or a pattern that binds, without an initialiser (ECMA-262, 14.3.3).
#[derive(Drop)]
pub(crate) struct Binding;

impl<'a, I: Tokens<'a> + Drop> Rule<'a, I> for Binding {
    type Node = PatBox;

    ghost tree = { λ x. inner x.part.value };

    ghost fits = { λ x. holds_pat x.part.value };

    ghost reads = { λ _ _ m. parts.binding_part (stream_of m) };

    ghost faults = { λ _ syntax. early_errors syntax };

    fn read(&self, p: &mut Parser<'a, I>, limit: u32, code: Around) -> Result<PatBox, Failure> {
        binding_part(p, limit, code)
    }

    #[tactic(auto, unfolding(grammar_spec::specs::Judge::Early::early_errors))]
    fn errors(
        &self,
        alloc: Global,
        syntax: EsSyntax,
        node: &PatBox,
    ) -> Result<Vec<Error>, AllocError> {
        part_errors(alloc, syntax, false, node)
    }
}

/// The parameters of a function without their parentheses (ECMA-262, 15.1).
#[derive(Drop)]
pub(crate) struct Parameters;

impl<'a, I: Tokens<'a> + Drop> Rule<'a, I> for Parameters {
    type Node = Vec<Param>;

    ghost tree = { λ x. list (trees_by (view_param inner) x.items) };

    ghost fits = { λ x. All (λ y. fits_param (λ p. p) y) x.items };

    ghost reads = { λ _ _ m. parts.parameters_part (stream_of m) };

    ghost faults = { λ _ syntax. early_errors syntax };

    fn read(&self, p: &mut Parser<'a, I>, limit: u32, code: Around) -> Result<Vec<Param>, Failure> {
        parameters_part(p, limit, code)
    }

    #[tactic(auto, unfolding(grammar_spec::specs::Judge::Early::early_errors))]
    fn errors(
        &self,
        alloc: Global,
        syntax: EsSyntax,
        node: &Vec<Param>,
    ) -> Result<Vec<Error>, AllocError> {
        part_errors(alloc, syntax, false, node)
    }
}

/// The key of a property (ECMA-262, 13.2.5).
#[derive(Drop)]
pub(crate) struct Key;

impl<'a, I: Tokens<'a> + Drop> Rule<'a, I> for Key {
    type Node = PropName;

    ghost tree = { λ x. view_prop_name inner x };

    ghost fits = { λ x. fits_prop_name (λ p. p) x };

    ghost reads = { λ _ _ m. parts.key_part (stream_of m) };

    ghost faults = { λ _ syntax. early_errors syntax };

    fn read(&self, p: &mut Parser<'a, I>, limit: u32, code: Around) -> Result<PropName, Failure> {
        key_part(p, limit, code)
    }

    #[tactic(auto, unfolding(grammar_spec::specs::Judge::Early::early_errors))]
    fn errors(
        &self,
        alloc: Global,
        syntax: EsSyntax,
        node: &PropName,
    ) -> Result<Vec<Error>, AllocError> {
        part_errors(alloc, syntax, false, node)
    }
}

/// A property of an object (ECMA-262, 13.2.5).
#[derive(Drop)]
pub(crate) struct Property;

impl<'a, I: Tokens<'a> + Drop> Rule<'a, I> for Property {
    type Node = PropOrSpread;

    ghost tree = { λ x. view_prop_or_spread inner x };

    ghost fits = { λ x. fits_prop_or_spread (λ p. p) x };

    ghost reads = { λ _ _ m. props.prop_part (stream_of m) };

    ghost faults = { λ _ syntax. early_errors syntax };

    fn read(
        &self,
        p: &mut Parser<'a, I>,
        limit: u32,
        code: Around,
    ) -> Result<PropOrSpread, Failure> {
        prop_part(p, limit, code)
    }

    #[tactic(auto, unfolding(grammar_spec::specs::Judge::Early::early_errors))]
    fn errors(
        &self,
        alloc: Global,
        syntax: EsSyntax,
        node: &PropOrSpread,
    ) -> Result<Vec<Error>, AllocError> {
        part_errors(alloc, syntax, false, node)
    }
}

/// A property of a pattern, or its rest (ECMA-262, 14.3.3).
#[derive(Drop)]
pub(crate) struct PatternProperty;

impl<'a, I: Tokens<'a> + Drop> Rule<'a, I> for PatternProperty {
    type Node = ObjectPatProp;

    ghost tree = { λ x. view_object_pat_prop inner x };

    ghost fits = { λ x. fits_object_pat_prop (λ p. p) x };

    ghost reads = { λ _ _ m. props.item_part (stream_of m) };

    ghost faults = { λ _ syntax. early_errors syntax };

    fn read(
        &self,
        p: &mut Parser<'a, I>,
        limit: u32,
        code: Around,
    ) -> Result<ObjectPatProp, Failure> {
        item_part(p, limit, code)
    }

    #[tactic(auto, unfolding(grammar_spec::specs::Judge::Early::early_errors))]
    fn errors(
        &self,
        alloc: Global,
        syntax: EsSyntax,
        node: &ObjectPatProp,
    ) -> Result<Vec<Error>, AllocError> {
        part_errors(alloc, syntax, false, node)
    }
}

/// A statement that is no declaration (ECMA-262, clause 14).
#[derive(Drop)]
pub(crate) struct Statement {
    /// Whether it stands directly in the body of its script.
    pub top_level: bool,
}

impl<'a, I: Tokens<'a> + Drop> Rule<'a, I> for Statement {
    type Node = StmtBox;

    ghost tree = { λ x. inner x.part.value };

    ghost fits = { λ x. holds_stmt x.part.value };

    ghost reads = { λ _ _ m. items.statement_part (stream_of m) };

    ghost faults = { λ rule syntax. program.item_errors syntax rule.top_level };

    fn read(&self, p: &mut Parser<'a, I>, limit: u32, code: Around) -> Result<StmtBox, Failure> {
        statement_part(p, limit, code)
    }

    fn errors(
        &self,
        alloc: Global,
        syntax: EsSyntax,
        node: &StmtBox,
    ) -> Result<Vec<Error>, AllocError> {
        stmt_errors(alloc, syntax, self.top_level, node)
    }
}

/// A statement or a declaration (ECMA-262, 14.2).
#[derive(Drop)]
pub(crate) struct ListItem {
    /// Whether it stands directly in the body of its script.
    pub top_level: bool,
}

impl<'a, I: Tokens<'a> + Drop> Rule<'a, I> for ListItem {
    type Node = StmtBox;

    ghost tree = { λ x. inner x.part.value };

    ghost fits = { λ x. holds_stmt x.part.value };

    ghost reads = { λ _ _ m. items.list_item_part (stream_of m) };

    ghost faults = { λ rule syntax. program.item_errors syntax rule.top_level };

    fn read(&self, p: &mut Parser<'a, I>, limit: u32, code: Around) -> Result<StmtBox, Failure> {
        list_item_part(p, limit, code)
    }

    fn errors(
        &self,
        alloc: Global,
        syntax: EsSyntax,
        node: &StmtBox,
    ) -> Result<Vec<Error>, AllocError> {
        stmt_errors(alloc, syntax, self.top_level, node)
    }
}
