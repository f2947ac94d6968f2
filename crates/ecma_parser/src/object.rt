//! Objects, as expressions and as patterns: their properties, and what is made of them.
ghost use Rattle.std.specs.Prelude.{◌≡◌, ◌≢◌, Bool, List, Option, true, false, All, IfErr, IfOk, map};
ghost use Rattle.base_token.specs.declared.error.SyntaxError.TheVariants.{Memory};
ghost use Rattle.base_token.specs.declared.place.Span.{Span};
ghost use Rattle.tree_spec.specs.Tree.{Tree, object_lit, object_pat, trees_by};
ghost use Rattle.tree_nodes.specs.Fits.{fits_object_pat_prop, fits_prop_or_spread};
ghost use Rattle.tree_nodes.specs.Placed.{holds_expr, holds_pat, inner};
ghost use Rattle.tree_nodes.specs.View.{view_object_pat_prop, view_prop_or_spread};
ghost use Rattle.grammar_spec.specs.Judge.Early.{early_errors};
ghost use Rattle.parse_state.specs.Cursors.{stream_of};
ghost use Rattle.parse_alone.specs.Props as reads;
ghost use Rattle.ecma_parser.specs.Answers.{StayRead};
ghost use Rattle.ecma_parser.specs.Entries.{Keeps, ctx_in, faults_in, stood, syntax_in};
ghost use Rattle.ecma_parser.specs.Parts.{ParsesPart, script_part};
ghost use Rattle.ecma_parser.specs.Programs.{script_start};

use crate::entries::{Entries, Reading};
use crate::faults::PResult;
use crate::rules::{PatternProperty, Property};
use base_token::{Error, Span, SyntaxError};
use lex_source::Tokens;
use lex_source::settings::out_of_memory;
use tree_nodes::{
    Expr, ExprBox, ExprKind, ObjectLit, ObjectPat, ObjectPatProp, Pat, PatBox, PatKind,
    PropOrSpread,
};

/// How objects of a sort are parsed, as expressions or as patterns.
pub trait ParseObject<Obj> {
    /// A property.
    type Prop;

    /// Its children are of their sorts.
    ghost fits: { Self.Prop → Type 0 };

    /// What an object stands for.
    ghost tree: { Obj → Tree };

    /// The object of properties, at a place.
    ghost object: { Span → List Self.Prop → Tree };

    /// Whether properties, and a comma behind them where there is one, are such an object's.
    ghost allowed: { List Self.Prop → Option Span → Bool };

    /// An object of properties, with the place of the comma behind the last one where one stands there (ECMA-262, 13.2.5 and
    /// 14.3.3). The parser stays as it is.
    ///
    /// # Errors
    ///
    /// Want of memory, or properties that are no such object's.
    fn make_object(
        &mut self,
        span: Span,
        props: Vec<Self::Prop>,
        trailing_comma: Option<Span>,
    ) -> PResult<Obj>
        requires { All fits props.items }
        ensures value { IfOk result (λ x. tree x ≡ object span props.items) }
        ensures allowed { IfOk result (λ _. allowed props.items trailing_comma ≡ true) }
        ensures refused { IfErr result (λ e. e.kind ≢ Memory → allowed props.items trailing_comma ≡ false) }
        ensures stays { self.new ≡ self.old };

    /// A property (ECMA-262, 13.2.5 and 14.3.3), as in a script, in the way of the entries for parts.
    ///
    /// # Errors
    ///
    /// Want of memory, a text that nests deeper than the limit, or a fault of the text.
    fn parse_object_prop(&mut self) -> PResult<Self::Prop>
        ensures fits { IfOk result fits };
}

impl<'a, I: Tokens<'a> + Drop> ParseObject<ExprBox> for Entries<Reading<'a, I>> {
    type Prop = PropOrSpread;

    ghost fits = { λ x. fits_prop_or_spread (λ p. p) x };

    ghost tree = { λ x. inner x.part.value };

    ghost object = { λ span props. object_lit span (trees_by (view_prop_or_spread inner) props) };

    ghost allowed = { λ _ _. true };

    fn make_object(
        &mut self,
        span: Span,
        props: Vec<PropOrSpread>,
        _trailing_comma: Option<Span>,
    ) -> PResult<ExprBox>
        requires fit { All (λ x. fits_prop_or_spread (λ p. p) x) props.items }
        ensures value { IfOk result (λ x. inner x.part.value
            ≡ object_lit span (trees_by (view_prop_or_spread inner) props.items)) }
        ensures holds { IfOk result (λ x. holds_expr x.part.value) }
        ensures allowed { IfOk result (λ _. true ≡ true) }
        ensures full { IfErr result (λ e. e.kind ≡ Memory) }
        ensures refused { IfErr result (λ e. e.kind ≢ Memory → true ≡ false) }
        ensures stays { self.new ≡ self.old }
    {
        let kind = ExprKind::Object(ObjectLit { span, props });
        ExprBox::new(self.reading.alloc, Expr { kind }).map_err(out_of_memory)
    }

    fn parse_object_prop(&mut self) -> PResult<PropOrSpread>
        ensures value { ParsesPart (stream_of I.machine) (ctx_in I.state self.old)
            (view_prop_or_spread inner) (early_errors (syntax_in I.state self.old)) result
            (script_part I.machine I.state (reads.prop_part (stream_of I.machine)) self.old)
            (stood I.state self.new) (faults_in self.old) (faults_in self.new) }
        ensures fits { IfOk result (λ x. fits_prop_or_spread (λ p. p) x) }
        ensures keeps { Keeps I.state result self.old self.new }
        ensures stays { StayRead (stream_of I.machine) result
            (script_start I.machine I.state self.old) (stood I.state self.new) }
    {
        self.parse_part(&Property)
    }
}

impl<'a, I: Tokens<'a> + Drop> ParseObject<PatBox> for Entries<Reading<'a, I>> {
    type Prop = ObjectPatProp;

    ghost fits = { λ x. fits_object_pat_prop (λ p. p) x };

    ghost tree = { λ x. inner x.part.value };

    ghost object = { λ span props. object_pat span (trees_by (view_object_pat_prop inner) props) };

    ghost allowed = { λ props comma. reads.rests_last (reads.is_held comma) false (map (view_object_pat_prop inner) props) };

    /// A rest stands last, and no comma behind it: else the answer is `Unexpected`, at the place of the object.
    fn make_object(
        &mut self,
        span: Span,
        props: Vec<ObjectPatProp>,
        trailing_comma: Option<Span>,
    ) -> PResult<PatBox>
        requires fit { All (λ x. fits_object_pat_prop (λ p. p) x) props.items }
        ensures value { IfOk result (λ x. inner x.part.value
            ≡ object_pat span (trees_by (view_object_pat_prop inner) props.items)) }
        ensures rests { IfOk result (λ _. reads.rests_last (reads.is_held trailing_comma) false
            (map (view_object_pat_prop inner) props.items) ≡ true) }
        ensures holds { IfOk result (λ x. holds_pat x.part.value) }
        ensures refused { IfErr result (λ e. e.kind ≢ Memory
            → reads.rests_last (reads.is_held trailing_comma) false
            (map (view_object_pat_prop inner) props.items) ≡ false) }
        ensures stays { self.new ≡ self.old }
    {
        if !rests_last(props.as_slice(), trailing_comma.is_some()) {
            return Err(Error {
                span,
                kind: SyntaxError::Unexpected,
            });
        }
        let kind = PatKind::Object(ObjectPat { span, props });
        PatBox::new(self.reading.alloc, Pat { kind }).map_err(out_of_memory)
    }

    fn parse_object_prop(&mut self) -> PResult<ObjectPatProp>
        ensures value { ParsesPart (stream_of I.machine) (ctx_in I.state self.old)
            (view_object_pat_prop inner) (early_errors (syntax_in I.state self.old)) result
            (script_part I.machine I.state (reads.item_part (stream_of I.machine)) self.old)
            (stood I.state self.new) (faults_in self.old) (faults_in self.new) }
        ensures fits { IfOk result (λ x. fits_object_pat_prop (λ p. p) x) }
        ensures keeps { Keeps I.state result self.old self.new }
        ensures stays { StayRead (stream_of I.machine) result
            (script_start I.machine I.state self.old) (stood I.state self.new) }
    {
        self.parse_part(&PatternProperty)
    }
}

/// Whether a rest stands last alone, and no comma behind it.
fn rests_last(props: &[ObjectPatProp], comma: bool) -> bool
    ensures { result ≡ reads.rests_last comma false (map (view_object_pat_prop inner) props.now) }
{
    let mut rest = false;
    'props: for prop in props {
        if rest {
            return false;
        }
        rest = matches!(prop, ObjectPatProp::Rest(_));
    }
    !(comma && rest)
}
