//! Finished programs: they nest no deeper than the limit, which is looked at first, and nothing of a cover is left.
ghost use Rattle.std.specs.Prelude.{◌<◌, false, true, IfOk};
ghost use Rattle.tree_nodes.specs.Fits.{fits_module, fits_script};
ghost use Rattle.tree_nodes.specs.Placed.{inner};
ghost use Rattle.tree_nodes.specs.View.{view_module, view_script};
ghost use Rattle.parse_state.specs.Answers.{Gives};
ghost use Rattle.parse_state.specs.Codes.{code_of};
ghost use Rattle.parse_state.specs.Cursors.{stream_of};
ghost use Rattle.parse_state.specs.States.{state_of};
ghost use Rattle.parse_state.specs.Reads.{to_come, NotLonger};
ghost use Rattle.parse_alone.specs.Within.{program_within};

use crate::settle::unfinished;
use crate::{module_is_clean, script_is_clean};
use parse_modules::programs::{module, script};
use parse_recursion::Depth;
use parse_state::{Around, Failure, Parser, Tokens};
use tree_nesting::Nesting;
use tree_nodes::{Module, Script};

/// A script within the limit of nesting.
///
/// # Errors
///
/// Want of memory, a text that nests deeper, or a fault of the text.
#[tactic(auto, unfolding(crate::specs::Within::program_within, crate::specs::Within::within, grammar_spec::specs::Reader::Reading::finish))]
pub fn script_within<'a, I: Tokens<'a> + Drop>(
    p: &mut Parser<'a, I>,
    limit: u32,
    code: Around,
) -> Result<Script, Failure>
    requires { limit < 4294967295 }
    ensures value { Gives (view_script inner) (to_come I.machine I.state p.new) result
        (program_within (stream_of I.machine) limit false (code_of code) (state_of I.state p.old)) }
    ensures fits { IfOk result (λ x. fits_script (λ p. p) x) }
    ensures not_longer { NotLonger I.machine I.state p.old p.new result }
{
    let script = script(p, &Depth { levels: limit }, code)?;
    if script.nesting() > limit {
        return Err(Failure::TooDeep);
    }
    if !script_is_clean(&script) {
        return Err(unfinished(&script.body, script.span));
    }
    Ok(script)
}

/// A module within the limit of nesting.
///
/// # Errors
///
/// Want of memory, a text that nests deeper, or a fault of the text.
#[tactic(auto, unfolding(crate::specs::Within::program_within, crate::specs::Within::within, grammar_spec::specs::Reader::Reading::finish))]
pub fn module_within<'a, I: Tokens<'a> + Drop>(
    p: &mut Parser<'a, I>,
    limit: u32,
    code: Around,
) -> Result<Module, Failure>
    requires { limit < 4294967295 }
    ensures value { Gives (view_module inner) (to_come I.machine I.state p.new) result
        (program_within (stream_of I.machine) limit true (code_of code) (state_of I.state p.old)) }
    ensures fits { IfOk result (λ x. fits_module (λ p. p) x) }
    ensures not_longer { NotLonger I.machine I.state p.old p.new result }
{
    let program = module(p, &Depth { levels: limit }, code)?;
    if program.nesting() > limit {
        return Err(Failure::TooDeep);
    }
    if !module_is_clean(&program) {
        return Err(unfinished(&program.body, program.span));
    }
    Ok(program)
}
