//! Scripts and modules, with their hashbang.
ghost use Rattle.std.specs.Prelude.{◌≡◌, false, true, IfOk, option_map};
ghost use Rattle.grammar_spec.specs.Tokens.Input.{content};
ghost use Rattle.tree_nodes.specs.Fits.{fits_module, fits_script};
ghost use Rattle.tree_nodes.specs.Placed.{inner};
ghost use Rattle.tree_nodes.specs.View.{view_module, view_script};
ghost use Rattle.grammar_spec.specs.Reader.Modules as reads;
ghost use Rattle.parse_state.specs.Codes.{code_of};
ghost use Rattle.parse_state.specs.Cursors.{stream_of};
ghost use Rattle.parse_state.specs.Reads.{at_hand, NotLonger};
ghost use Rattle.parse_operands.specs.Rules.{ReadsBy};
ghost use Rattle.parse_modules.specs.Items.{items_by};
ghost use Rattle.parse_modules.specs.Lines.{led_by, line_by};

use crate::items::module_items;
use crate::scripts::script_items;
use base_token::{Atom, BytePos, Token};
use parse_operands::Nested;
use parse_state::{Around, Failure, Parser, Tokens, kinds};
use tree_nodes::{Module, Script};

/// A script, after its hashbang.
#[inline(never)]
#[tactic(auto, using(parse_operands::proofs::Packs::packs), unfolding(grammar_spec::specs::Reader::Modules::program_rest, crate::specs::Items::items_by))]
pub fn script_rest<'a, I: Tokens<'a> + Drop, N: Nested<'a, I>>(
    p: &mut Parser<'a, I>,
    nested: &N,
    code: Around,
    start: BytePos,
    shebang: Option<Atom>,
) -> Result<Script, Failure>
    requires ready { N.ready nested.now }
    ensures value { ReadsBy I.machine I.state (N.reads nested.now) p.old p.new result
        (view_script inner)
        (λ m r. reads.program_rest m r false (code_of code) start.0 shebang) }
    ensures fits { IfOk result (λ x. fits_script (λ p. p) x) }
    ensures not_longer { NotLonger I.machine I.state p.old p.new result }
{
    let read = script_items(p, nested, code)?;
    Ok(Script {
        span: p.since(start),
        body: read.items,
        shebang,
    })
}

/// A module, after its hashbang.
#[inline(never)]
#[tactic(auto, using(parse_operands::proofs::Packs::packs), unfolding(grammar_spec::specs::Reader::Modules::program_rest, crate::specs::Items::items_by))]
pub fn module_rest<'a, I: Tokens<'a> + Drop, N: Nested<'a, I>>(
    p: &mut Parser<'a, I>,
    nested: &N,
    code: Around,
    start: BytePos,
    shebang: Option<Atom>,
) -> Result<Module, Failure>
    requires ready { N.ready nested.now }
    ensures value { ReadsBy I.machine I.state (N.reads nested.now) p.old p.new result
        (view_module inner)
        (λ m r. reads.program_rest m r true (code_of code) start.0 shebang) }
    ensures fits { IfOk result (λ x. fits_module (λ p. p) x) }
    ensures not_longer { NotLonger I.machine I.state p.old p.new result }
{
    let read = module_items(p, nested, code)?;
    Ok(Module {
        span: p.since(start),
        body: read.items,
        shebang,
    })
}

/// The text of the hashbang that comes, where one does.
#[tactic(auto, using(parse_state::proofs::Firsts::firsts, parse_state::proofs::Firsts::lines), unfolding(parse_state::specs::Cursors::stream_of))]
fn hashbang<'p, 'a, I: Tokens<'a> + Drop, N: Nested<'a, I>>(
    p: &'p Parser<'a, I>,
    _nested: &N,
) -> Option<&'p str>
    ensures { option_map (λ t. t.now) result
        ≡ reads.line_of (stream_of I.machine) (N.reads _nested.now I.State I.machine)
        (content (at_hand I.machine I.state p.now)) }
{
    match p.ahead.token() {
        Some(token) => match token {
            Token::Shebang(text) => Some(text),
            _ => None,
        },
        None => None,
    }
}

/// Takes a hashbang, and keeps its text.
#[inline(never)]
#[tactic(auto, unfolding(crate::specs::Lines::line_by))]
pub fn line<'a, I: Tokens<'a> + Drop, N: Nested<'a, I>>(
    p: &mut Parser<'a, I>,
    nested: &N,
) -> Result<Atom, Failure>
    ensures value { ReadsBy I.machine I.state (N.reads nested.now) p.old p.new result
        (λ x. x) (λ m r. line_by m r) }
    ensures not_longer { NotLonger I.machine I.state p.old p.new result }
{
    let Some(text) = hashbang(p, nested) else {
        return Err(p.unexpected());
    };
    let text = Atom::new(p.alloc, text)?;
    p.bump()?;
    Ok(text)
}

/// A script that a hashbang leads.
#[inline(never)]
#[tactic(auto, unfolding(crate::specs::Lines::led_by))]
pub fn led_script<'a, I: Tokens<'a> + Drop, N: Nested<'a, I>>(
    p: &mut Parser<'a, I>,
    nested: &N,
    code: Around,
    start: BytePos,
) -> Result<Script, Failure>
    requires ready { N.ready nested.now }
    ensures value { ReadsBy I.machine I.state (N.reads nested.now) p.old p.new result
        (view_script inner) (λ m r. led_by m r false (code_of code) start.0) }
    ensures fits { IfOk result (λ x. fits_script (λ p. p) x) }
    ensures not_longer { NotLonger I.machine I.state p.old p.new result }
{
    let text = line(p, nested)?;
    script_rest(p, nested, code, start, Some(text))
}

/// A module that a hashbang leads.
#[inline(never)]
#[tactic(auto, unfolding(crate::specs::Lines::led_by))]
pub fn led_module<'a, I: Tokens<'a> + Drop, N: Nested<'a, I>>(
    p: &mut Parser<'a, I>,
    nested: &N,
    code: Around,
    start: BytePos,
) -> Result<Module, Failure>
    requires ready { N.ready nested.now }
    ensures value { ReadsBy I.machine I.state (N.reads nested.now) p.old p.new result
        (view_module inner) (λ m r. led_by m r true (code_of code) start.0) }
    ensures fits { IfOk result (λ x. fits_module (λ p. p) x) }
    ensures not_longer { NotLonger I.machine I.state p.old p.new result }
{
    let text = line(p, nested)?;
    module_rest(p, nested, code, start, Some(text))
}

/// A script.
#[inline(never)]
#[tactic(auto, using(crate::proofs::Lines::lines))]
pub fn script<'a, I: Tokens<'a> + Drop, N: Nested<'a, I>>(
    p: &mut Parser<'a, I>,
    nested: &N,
    code: Around,
) -> Result<Script, Failure>
    requires ready { N.ready nested.now }
    ensures value { ReadsBy I.machine I.state (N.reads nested.now) p.old p.new result
        (view_script inner) (λ m r. reads.program_by m r false (code_of code)) }
    ensures fits { IfOk result (λ x. fits_script (λ p. p) x) }
    ensures not_longer { NotLonger I.machine I.state p.old p.new result }
{
    let start = p.lo();
    if p.at(kinds::SHEBANG) {
        return led_script(p, nested, code, start);
    }
    script_rest(p, nested, code, start, None)
}

/// A module.
#[inline(never)]
#[tactic(auto, using(crate::proofs::Lines::lines))]
pub fn module<'a, I: Tokens<'a> + Drop, N: Nested<'a, I>>(
    p: &mut Parser<'a, I>,
    nested: &N,
    code: Around,
) -> Result<Module, Failure>
    requires ready { N.ready nested.now }
    ensures value { ReadsBy I.machine I.state (N.reads nested.now) p.old p.new result
        (view_module inner) (λ m r. reads.program_by m r true (code_of code)) }
    ensures fits { IfOk result (λ x. fits_module (λ p. p) x) }
    ensures not_longer { NotLonger I.machine I.state p.old p.new result }
{
    let start = p.lo();
    if p.at(kinds::SHEBANG) {
        return led_module(p, nested, code, start);
    }
    module_rest(p, nested, code, start, None)
}
