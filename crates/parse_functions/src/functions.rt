//! Parameters and functions.
ghost use Rattle.std.specs.Prelude.{◌≡◌, All, IfOk, map};
ghost use Rattle.base_token.specs.Kinds.{right_paren_kind};
ghost use Rattle.tree_nodes.specs.Fits.{fits_function, fits_param};
ghost use Rattle.tree_nodes.specs.Placed.{inner};
ghost use Rattle.tree_nodes.specs.View.{view_function, view_param};
ghost use Rattle.grammar_spec.specs.Reader.Source as spec;
ghost use Rattle.grammar_spec.specs.Reader.Expressions as reads;
ghost use Rattle.parse_state.specs.Answers.{going_on, IsSyntax};
ghost use Rattle.parse_state.specs.Codes.{code_of};
ghost use Rattle.parse_state.specs.Cursors.{stream_of};
ghost use Rattle.parse_state.specs.Reads.{Passes, Shorter};
ghost use Rattle.parse_operands.specs.Rules.{ReadsBy};

use crate::made;
use base_token::{BytePos, Error, Span, SyntaxError};
use parse_operands::Nested;
use parse_state::code::{in_body, with_in};
use parse_state::operators::ASSIGNMENT;
use parse_state::{Around, Failure, Parser, Tokens, kinds};
use tree_nodes::{Function, Param, PatKind};

/// A parameter: a pattern, with an initialiser or without, or a rest.
#[inline(never)]
#[tactic(auto, unfolding(grammar_spec::specs::Reader::Expressions::parameter_by))]
pub fn parameter<'a, I: Tokens<'a> + Drop, N: Nested<'a, I>>(
    p: &mut Parser<'a, I>,
    nested: &N,
    code: Around,
) -> Result<Param, Failure>
    requires ready { N.ready nested.now }
    ensures value { ReadsBy I.machine I.state (N.reads nested.now) p.old p.new result
        (view_param inner) (λ m r. reads.parameter_by m r (code_of code)) }
    ensures fits { IfOk result (λ x. fits_param (λ p. p) x) }
    ensures shorter { Shorter I.machine I.state p.old p.new result }
{
    let start = p.lo();
    if p.eat(kinds::DOT_DOT_DOT)? {
        let dots = made::dots(start);
        let arg = nested.pat(p, with_in(code))?;
        return made::rest_param(p.alloc, p.since(start), dots, arg);
    }
    let pat = nested.pat(p, with_in(code))?;
    if p.eat(kinds::ASSIGN)? {
        let value = nested.expr(p, with_in(code), ASSIGNMENT)?;
        return made::default_param(p.alloc, p.since(start), pat, value);
    }
    Ok(made::param(p.alloc, p.since(start), pat))
}

/// Whether a parameter is a rest.
pub fn is_rest<'a, I: Tokens<'a> + Drop, N: Nested<'a, I>>(
    _p: &Parser<'a, I>,
    _nested: &N,
    param: &Param,
) -> bool
    requires { fits_param (λ p. p) param.now }
    ensures { result ≡ reads.is_rest_param (stream_of I.machine)
        (N.reads _nested.now I.State I.machine) (view_param inner param.now) }
{
    matches!(&param.pat.get().kind, PatKind::Rest(_))
}

/// One more parameter, or the end of the parameters. Whether another may follow.
#[inline(always)]
#[tactic(auto, unfolding(grammar_spec::specs::Reader::Expressions::parameter_step))]
pub fn parameter_turn<'a, I: Tokens<'a> + Drop, N: Nested<'a, I>>(
    p: &mut Parser<'a, I>,
    nested: &N,
    code: Around,
    params: &mut Vec<Param>,
) -> Result<bool, Failure>
    requires ready { N.ready nested.now }
    requires fits { All (λ x. fits_param (λ p. p) x) params.old.items }
    ensures value { ReadsBy I.machine I.state (N.reads nested.now) p.old p.new result
        (λ x. going_on x (map (view_param inner) params.new.items))
        (λ m r. reads.parameter_step m r (code_of code) (map (view_param inner) params.old.items)) }
    ensures fits { IfOk result (λ _. All (λ x. fits_param (λ p. p) x) params.new.items) }
    ensures shorter { Shorter I.machine I.state p.old p.new result }
{
    if p.eat(kinds::RIGHT_PAREN)? {
        return Ok(false);
    }
    let param = parameter(p, nested, code)?;
    let rest = is_rest(p, nested, &param);
    params.push(param)?;
    if !rest && p.eat(kinds::COMMA)? {
        return Ok(true);
    }
    p.expect(kinds::RIGHT_PAREN)?;
    Ok(false)
}

/// The parameters of a function, in their parentheses.
#[inline(never)]
#[tactic(auto, using(parse_state::proofs::Iterate::iterates), unfolding(grammar_spec::specs::Reader::Expressions::parameters_by))]
pub fn parameters<'a, I: Tokens<'a> + Drop, N: Nested<'a, I>>(
    p: &mut Parser<'a, I>,
    nested: &N,
    code: Around,
) -> Result<Vec<Param>, Failure>
    requires ready { N.ready nested.now }
    ensures value { ReadsBy I.machine I.state (N.reads nested.now) p.old p.new result
        (λ x. map (view_param inner) x.items) (λ m r. reads.parameters_by m r (code_of code)) }
    ensures fits { IfOk result (λ x. All (λ x. fits_param (λ p. p) x) x.items) }
    ensures shorter { Shorter I.machine I.state p.old p.new result }
{
    p.expect(kinds::LEFT_PAREN)?;
    let mut params = Vec::new(p.alloc);
    'turns: while parameter_turn(p, nested, code, &mut params)? {}
    Ok(params)
}

/// Parameters and body, of a method or of what follows `function`. The span of the function starts at `whole`.
#[inline(never)]
#[tactic(auto, using(parse_operands::proofs::Packs::packs), unfolding(grammar_spec::specs::Reader::Expressions::function_by))]
pub fn function<'a, I: Tokens<'a> + Drop, N: Nested<'a, I>>(
    p: &mut Parser<'a, I>,
    nested: &N,
    code: Around,
    whole: BytePos,
    generator: bool,
    is_async: bool,
) -> Result<Box<Function>, Failure>
    requires ready { N.ready nested.now }
    ensures value { ReadsBy I.machine I.state (N.reads nested.now) p.old p.new result
        (λ x. view_function inner x.value)
        (λ m r. reads.function_by m r (code_of code) whole.0 generator is_async) }
    ensures fits { IfOk result (λ x. fits_function (λ p. p) x.value) }
    ensures shorter { Shorter I.machine I.state p.old p.new result }
{
    let inside = in_body(generator, is_async, code);
    let params = parameters(p, nested, inside)?;
    let body = nested.body(p, inside)?;
    made::function(p.alloc, p.since(whole), params, body, generator, is_async)
}

/// A fault of the text.
fn fault(span: Span, kind: SyntaxError) -> Failure
    ensures { IsSyntax result }
{
    Failure::Syntax(Error { span, kind })
}

/// The end of the parameters of a getter or a setter, which has no more.
///
/// # Errors
///
/// The fault of this kind, at the token that comes in its place. The end of the text and a token that is a fault are told as such.
#[tactic(auto, unfolding(grammar_spec::specs::Reader::Source::eat))]
pub fn close_parameters<'a, I: Tokens<'a> + Drop>(
    p: &mut Parser<'a, I>,
    kind: SyntaxError,
) -> Result<(), Failure>
    ensures value { Passes I.machine I.state p.old p.new result (λ m. spec.eat m right_paren_kind) }
    ensures shorter { Shorter I.machine I.state p.old p.new result }
{
    if p.eat(kinds::RIGHT_PAREN)? {
        return Ok(());
    }
    match p.unexpected() {
        Failure::Syntax(error) if error.kind == SyntaxError::Unexpected => {
            Err(fault(error.span, kind))
        }
        other => Err(other),
    }
}

/// The one parameter of a setter, in its parentheses: no rest, and no comma behind it.
///
/// # Errors
///
/// No parameter is `SetterParamRequired`, a rest `RestPatInSetter`, more than one parameter `SetterParam`.
#[inline(never)]
#[tactic(auto, unfolding(grammar_spec::specs::Reader::Expressions::setter_parameter))]
pub fn setter_parameter<'a, I: Tokens<'a> + Drop, N: Nested<'a, I>>(
    p: &mut Parser<'a, I>,
    nested: &N,
    code: Around,
) -> Result<Param, Failure>
    requires ready { N.ready nested.now }
    ensures value { ReadsBy I.machine I.state (N.reads nested.now) p.old p.new result
        (view_param inner) (λ m r. reads.setter_parameter m r (code_of code)) }
    ensures fits { IfOk result (λ x. fits_param (λ p. p) x) }
    ensures shorter { Shorter I.machine I.state p.old p.new result }
{
    p.expect(kinds::LEFT_PAREN)?;
    let place = p.place();
    let none = p.at(kinds::RIGHT_PAREN);
    let param = match parameter(p, nested, code) {
        Ok(param) => param,
        Err(Failure::Syntax(_)) if none => {
            return Err(fault(place, SyntaxError::SetterParamRequired));
        }
        Err(failure) => return Err(failure),
    };
    if is_rest(p, nested, &param) {
        return Err(fault(param.span, SyntaxError::RestPatInSetter));
    }
    close_parameters(p, SyntaxError::SetterParam)?;
    Ok(param)
}
