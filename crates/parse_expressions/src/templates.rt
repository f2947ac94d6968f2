//! Templates.
ghost use Rattle.std.specs.Prelude.{◌≡◌, ◌++◌, ◌∷◌, [], false, true, IfErr, IfOk};
ghost use Rattle.grammar_spec.specs.Tokens.Input.{content, first_span};
ghost use Rattle.base_token.specs.Kinds.{template_kind};
ghost use Rattle.tree_nodes.specs.Fits.{fits_tpl};
ghost use Rattle.tree_nodes.specs.Placed.{inner};
ghost use Rattle.tree_nodes.specs.View.{view_tpl, view_tpl_element};
ghost use Rattle.grammar_spec.specs.Reader.Source as spec;
ghost use Rattle.grammar_spec.specs.Reader.Expressions as reads;
ghost use Rattle.parse_state.specs.Answers.{going_on, IsMemory};
ghost use Rattle.tree_spec.specs.Tree.{pack, tpl};
ghost use Rattle.parse_state.specs.Codes.{code_of};
ghost use Rattle.parse_state.specs.Cursors.{stream_of};
ghost use Rattle.parse_state.specs.Reads.{at_hand, Passes, Shorter};
ghost use Rattle.parse_operands.specs.Lists.{spans_of, FitSpans};
ghost use Rattle.parse_operands.specs.Operands.{tree_of};
ghost use Rattle.parse_operands.specs.Rules.{ReadsBy};
ghost use Rattle.parse_expressions.specs.Pieces.{element_at, spans_by};
ghost use Rattle.parse_expressions.specs.Steps.{tagged_by};

use base_token::{BytePos, Span, Token};
use parse_operands::lists::Spans;
use parse_operands::{Nested, Operand, literals, made};
use parse_state::code::with_in;
use parse_state::operators::EXPRESSION;
use parse_state::{Around, Failure, Parser, Tokens, kinds};
use std::alloc::Global;
use tree_nodes::{Tpl, TplElement};

/// Adds characters and the expression behind them.
fn add(spans: &mut Spans, element: TplElement, read: Operand) -> Result<(), Failure>
    requires fits { FitSpans spans.old }
    ensures exprs { IfOk result (λ _. (spans_of spans.new).exprs ≡ (spans_of spans.old).exprs ++ tree_of read ∷ []) }
    ensures quasis { IfOk result (λ _. (spans_of spans.new).quasis ≡ (spans_of spans.old).quasis
        ++ view_tpl_element element ∷ []) }
    ensures fits { IfOk result (λ _. FitSpans spans.new) }
    ensures full { IfErr result IsMemory }
{
    spans.exprs.push(read.expr)?;
    spans.quasis.push(element)?;
    Ok(())
}

/// What ends the characters of a template: its end, or an expression. Whether more characters follow.
#[inline(always)]
#[tactic(auto, unfolding(grammar_spec::specs::Reader::Expressions::quasi_end))]
pub fn characters_end<'a, I: Tokens<'a> + Drop, N: Nested<'a, I>>(
    p: &mut Parser<'a, I>,
    nested: &N,
    code: Around,
    tagged: bool,
    element: TplElement,
    spans: &mut Spans,
) -> Result<bool, Failure>
    requires ready { N.ready nested.now }
    requires fits { FitSpans spans.old }
    requires tail { element.tail ≡ false }
    ensures value { ReadsBy I.machine I.state (N.reads nested.now) p.old p.new result
        (λ x. going_on x (spans_of spans.new))
        (λ m r. reads.quasi_end m r (code_of code) tagged (spans_of spans.old) (element_at element)) }
    ensures fits { IfOk result (λ _. FitSpans spans.new) }
    ensures shorter { Shorter I.machine I.state p.old p.new result }
{
    let mut element = element;
    let fits = tagged || element.cooked.is_some();
    if p.eat(kinds::BACK_QUOTE)? {
        if !fits {
            return Err(p.unexpected());
        }
        element.tail = true;
        spans.quasis.push(element)?;
        return Ok(false);
    }
    p.expect(kinds::DOLLAR_BRACE)?;
    let read = nested.expr(p, with_in(code), EXPRESSION)?;
    p.expect(kinds::RIGHT_BRACE)?;
    if !fits {
        return Err(p.unexpected());
    }
    add(spans, element, read)?;
    Ok(true)
}

/// The characters of a template that come. The token is let go here, so that a nested template has no such frame below it.
#[inline(never)]
#[tactic(auto, unfolding(grammar_spec::specs::Reader::Source::eat, parse_state::specs::Cursors::stream_of))]
fn quasi<'a, I: Tokens<'a> + Drop, N: Nested<'a, I>>(
    p: &mut Parser<'a, I>,
    _nested: &N,
) -> Result<TplElement, Failure>
    ensures value { Passes I.machine I.state p.old p.new result (λ m. spec.eat m template_kind) }
    ensures element { IfOk result (λ x. element_at x
        ≡ reads.quasi (stream_of I.machine) (N.reads _nested.now I.State I.machine)
        (content (at_hand I.machine I.state p.old))
        (first_span (at_hand I.machine I.state p.old))) }
    ensures tail { IfOk result (λ x. x.tail ≡ false) }
    ensures shorter { Shorter I.machine I.state p.old p.new result }
{
    let span = p.place();
    let fault = p.unexpected();
    if !p.at(kinds::TEMPLATE) {
        return Err(fault);
    }
    let Some(token) = p.take()? else {
        return Err(fault);
    };
    let Token::Template { raw, cooked } = token.into_token() else {
        return Err(fault);
    };
    literals::tpl_element(p.alloc, span, raw, cooked)
}

/// The next characters of a template, and what ends them. Whether more follow.
#[inline(always)]
#[tactic(auto, using(crate::proofs::Steps::step_by))]
pub fn characters<'a, I: Tokens<'a> + Drop, N: Nested<'a, I>>(
    p: &mut Parser<'a, I>,
    nested: &N,
    code: Around,
    tagged: bool,
    spans: &mut Spans,
) -> Result<bool, Failure>
    requires ready { N.ready nested.now }
    requires fits { FitSpans spans.old }
    ensures value { ReadsBy I.machine I.state (N.reads nested.now) p.old p.new result
        (λ x. going_on x (spans_of spans.new))
        (λ m r. reads.quasi_step m r (code_of code) tagged (spans_of spans.old)) }
    ensures fits { IfOk result (λ _. FitSpans spans.new) }
    ensures shorter { Shorter I.machine I.state p.old p.new result }
{
    let element = quasi(p, nested)?;
    characters_end(p, nested, code, tagged, element, spans)
}

/// What stands in a template, after its first back quote.
#[inline(always)]
#[tactic(auto, using(parse_state::proofs::Iterate::iterates), unfolding(crate::specs::Pieces::spans_by))]
pub fn spans<'a, I: Tokens<'a> + Drop, N: Nested<'a, I>>(
    p: &mut Parser<'a, I>,
    nested: &N,
    code: Around,
    tagged: bool,
) -> Result<Spans, Failure>
    requires ready { N.ready nested.now }
    ensures value { ReadsBy I.machine I.state (N.reads nested.now) p.old p.new result
        spans_of (λ m r. spans_by m r (code_of code) tagged) }
    ensures fits { IfOk result (λ x. FitSpans x) }
    ensures shorter { Shorter I.machine I.state p.old p.new result }
{
    let mut spans = Spans {
        exprs: Vec::new(p.alloc),
        quasis: Vec::new(p.alloc),
    };
    'turns: while characters(p, nested, code, tagged, &mut spans)? {}
    Ok(spans)
}

/// A template of what stands in it.
#[tactic(auto, using(parse_operands::proofs::Packs::packs))]
fn template_of(alloc: Global, span: Span, read: Spans) -> Result<Box<Tpl>, Failure>
    requires { FitSpans read }
    ensures value { IfOk result (λ x. view_tpl inner x.value
        ≡ tpl span (pack (spans_of read).exprs) (pack (spans_of read).quasis)) }
    ensures fits { IfOk result (λ x. fits_tpl (λ p. p) x.value) }
    ensures full { IfErr result IsMemory }
{
    let node = Tpl {
        span,
        exprs: read.exprs,
        quasis: read.quasis,
    };
    Ok(Box::new(alloc, node)?)
}

/// A template, from its first back quote on.
#[inline(never)]
#[tactic(auto, unfolding(grammar_spec::specs::Reader::Expressions::template_by, crate::specs::Pieces::spans_by))]
pub fn template<'a, I: Tokens<'a> + Drop, N: Nested<'a, I>>(
    p: &mut Parser<'a, I>,
    nested: &N,
    code: Around,
    tagged: bool,
) -> Result<Box<Tpl>, Failure>
    requires ready { N.ready nested.now }
    ensures value { ReadsBy I.machine I.state (N.reads nested.now) p.old p.new result
        (λ x. view_tpl inner x.value) (λ m r. reads.template_by m r (code_of code) tagged) }
    ensures fits { IfOk result (λ x. fits_tpl (λ p. p) x.value) }
    ensures shorter { Shorter I.machine I.state p.old p.new result }
{
    let start = p.lo();
    p.bump()?;
    let read = spans(p, nested, code, tagged)?;
    template_of(p.alloc, p.since(start), read)
}

/// A template behind its tag.
#[inline(never)]
pub fn tagged<'a, I: Tokens<'a> + Drop, N: Nested<'a, I>>(
    p: &mut Parser<'a, I>,
    nested: &N,
    code: Around,
    start: BytePos,
    tag: Operand,
) -> Result<Operand, Failure>
    requires ready { N.ready nested.now }
    ensures value { ReadsBy I.machine I.state (N.reads nested.now) p.old p.new result
        tree_of (λ m r. tagged_by m r (code_of code) start.0 (tree_of tag)) }
    ensures shorter { Shorter I.machine I.state p.old p.new result }
{
    let tpl = template(p, nested, code, true)?;
    made::tagged_tpl(p.alloc, p.since(start), tag, tpl)
}
