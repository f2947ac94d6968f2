//! Items of patterns, with an initialiser or without, and what follows them.
ghost use Rattle.std.specs.Prelude.{◌≡◌, ◌<◌, ◌&&◌, true, false, IfOk};
ghost use Rattle.tree_nodes.specs.Fits.{fits_rest_pat};
ghost use Rattle.tree_nodes.specs.Placed.{holds_pat, inner};
ghost use Rattle.tree_nodes.specs.View.{view_rest_pat};
ghost use Rattle.grammar_spec.specs.Reader.Statements as reads;
ghost use Rattle.parse_state.specs.Codes.{code_of};
ghost use Rattle.parse_state.specs.Reads.{ReadsAs, Shorter, NotLonger};
ghost use Rattle.parse_operands.specs.Rules.{ReadsBy};
ghost use Rattle.parse_operands.specs.Operands.{tree_in};
ghost use Rattle.parse_patterns.specs.Items.{after_by, item_by, rest_by};

use crate::made;
use base_token::BytePos;
use parse_functions::made::dots;
use parse_operands::Nested;
use parse_state::code::with_in;
use parse_state::operators::ASSIGNMENT;
use parse_state::{Around, Failure, Parser, Tokens, kinds};
use tree_nodes::{PatBox, RestPat};

/// A pattern with an initialiser, where one follows.
#[inline(never)]
#[tactic(auto, unfolding(grammar_spec::specs::Reader::Statements::initial_pat))]
pub fn initial<'a, I: Tokens<'a> + Drop, N: Nested<'a, I>>(
    p: &mut Parser<'a, I>,
    nested: &N,
    code: Around,
    start: BytePos,
    pat: PatBox,
) -> Result<PatBox, Failure>
    requires ready { N.ready nested.now }
    requires pat { holds_pat pat.part.value }
    ensures value { ReadsBy I.machine I.state (N.reads nested.now) p.old p.new result
        tree_in
        (λ m r. reads.initial_pat m r (code_of code) start.0 (inner pat.part.value)) }
    ensures fits { IfOk result (λ x. holds_pat x.part.value) }
    ensures not_longer { NotLonger I.machine I.state p.old p.new result }
{
    if p.eat(kinds::ASSIGN)? {
        let value = nested.expr(p, with_in(code), ASSIGNMENT)?;
        return made::assign_pat(p.alloc, p.since(start), pat, value);
    }
    Ok(pat)
}

/// An item of a pattern, with an initialiser or without.
#[inline(never)]
#[tactic(auto, unfolding(crate::specs::Items::item_by))]
pub fn item<'a, I: Tokens<'a> + Drop, N: Nested<'a, I>>(
    p: &mut Parser<'a, I>,
    nested: &N,
    code: Around,
) -> Result<PatBox, Failure>
    requires ready { N.ready nested.now }
    ensures value { ReadsBy I.machine I.state (N.reads nested.now) p.old p.new result
        tree_in (λ m r. item_by m r (code_of code)) }
    ensures fits { IfOk result (λ x. holds_pat x.part.value) }
    ensures shorter { Shorter I.machine I.state p.old p.new result }
{
    let start = p.lo();
    let pat = nested.pat(p, with_in(code))?;
    initial(p, nested, code, start, pat)
}

/// A rest, from its dots on.
#[inline(never)]
#[tactic(auto, unfolding(crate::specs::Items::rest_by))]
pub fn rest<'a, I: Tokens<'a> + Drop, N: Nested<'a, I>>(
    p: &mut Parser<'a, I>,
    nested: &N,
    code: Around,
) -> Result<RestPat, Failure>
    requires ready { N.ready nested.now }
    ensures value { ReadsBy I.machine I.state (N.reads nested.now) p.old p.new result
        (view_rest_pat inner) (λ m r. rest_by m r (code_of code)) }
    ensures fits { IfOk result (λ x. fits_rest_pat (λ p. p) x) }
    ensures shorter { Shorter I.machine I.state p.old p.new result }
{
    let start = p.lo();
    let dot3_token = dots(start);
    p.bump()?;
    let arg = nested.pat(p, with_in(code))?;
    let span = p.since(start);
    Ok(RestPat {
        span,
        dot3_token,
        arg,
    })
}

/// Whether a list goes on with a comma, which none does after a rest; else takes what closes it.
#[tactic(auto, unfolding(crate::specs::Items::after_by))]
pub fn goes_on<'a, I: Tokens<'a> + Drop>(
    p: &mut Parser<'a, I>,
    close: u8,
    last: bool,
) -> Result<bool, Failure>
    requires { 0 < close }
    ensures value { ReadsAs I.machine I.state p.old p.new result
        (λ b. b) (λ m. after_by m close last) }
    ensures shorter { Shorter I.machine I.state p.old p.new result }
{
    if !last && p.eat(kinds::COMMA)? {
        return Ok(true);
    }
    p.expect(close)?;
    Ok(false)
}
