//! The statements of scripts.
ghost use Rattle.std.specs.Prelude.{◌≡◌, ◌<◌, false, true, IfOk, IsTrue};
ghost use Rattle.grammar_spec.specs.Reader.Source as spec;
ghost use Rattle.grammar_spec.specs.Reader.Modules as reads;
ghost use Rattle.parse_state.specs.Answers.{going_on};
ghost use Rattle.parse_state.specs.Codes.{code_of};
ghost use Rattle.parse_state.specs.Reads.{to_come, Shorter, NotLonger};
ghost use Rattle.parse_operands.specs.Rules.{ReadsBy};
ghost use Rattle.parse_blocks.specs.Lists.{body_of, FitBody};
ghost use Rattle.parse_modules.specs.Items.{items_by};

use crate::items::{ended, script_item};
use parse_blocks::BodySoFar;
use parse_blocks::body::{is_directive, is_use_strict};
use parse_blocks::codes::turned;
use parse_operands::Nested;
use parse_state::code::{in_list, turned_strict};
use parse_state::{Around, Failure, Parser, Tokens};

/// One more statement of a script. A directive may turn what follows strict.
#[inline(never)]
#[tactic(auto, unfolding(grammar_spec::specs::Reader::Modules::program_item))]
pub fn next_stmt<'a, I: Tokens<'a> + Drop, N: Nested<'a, I>>(
    p: &mut Parser<'a, I>,
    nested: &N,
    body: &mut BodySoFar,
) -> Result<(), Failure>
    requires ready { N.ready nested.now }
    requires fits { FitBody body.old }
    ensures value { ReadsBy I.machine I.state (N.reads nested.now) p.old p.new result
        (λ _. spec.go_on (body_of body.new))
        (λ m r. reads.program_item m r false (body_of body.old)) }
    ensures fits { IfOk result (λ _. FitBody body.new) }
    ensures shorter { Shorter I.machine I.state p.old p.new result }
{
    let read = script_item(p, nested, in_list(body.code))?;
    if body.starts && is_use_strict(read.get()) {
        body.code = turned_strict(body.code);
        turned(p, body.code.context);
    } else {
        body.starts = body.starts && is_directive(read.get());
    }
    body.items.push(read)?;
    Ok(())
}

/// One more statement of a script, or its end. Whether another may follow.
#[inline(never)]
#[tactic(auto, unfolding(grammar_spec::specs::Reader::Modules::program_step))]
pub fn stmt_turn<'a, I: Tokens<'a> + Drop, N: Nested<'a, I>>(
    p: &mut Parser<'a, I>,
    nested: &N,
    body: &mut BodySoFar,
) -> Result<bool, Failure>
    requires ready { N.ready nested.now }
    requires fits { FitBody body.old }
    ensures value { ReadsBy I.machine I.state (N.reads nested.now) p.old p.new result
        (λ x. going_on x (body_of body.new))
        (λ m r. reads.program_step m r false (body_of body.old)) }
    ensures fits { IfOk result (λ _. FitBody body.new) }
    ensures shorter { IfOk result (λ b. IsTrue b → to_come I.machine I.state p.new < to_come I.machine I.state p.old) }
    ensures not_longer { NotLonger I.machine I.state p.old p.new result }
{
    if ended(p) {
        return Ok(false);
    }
    p.operand()?;
    next_stmt(p, nested, body)?;
    Ok(true)
}

/// The statements of a script.
#[inline(never)]
#[tactic(auto, using(parse_state::proofs::Iterate::iterates), unfolding(crate::specs::Items::items_by))]
pub fn script_items<'a, I: Tokens<'a> + Drop, N: Nested<'a, I>>(
    p: &mut Parser<'a, I>,
    nested: &N,
    code: Around,
) -> Result<BodySoFar, Failure>
    requires ready { N.ready nested.now }
    ensures value { ReadsBy I.machine I.state (N.reads nested.now) p.old p.new result
        body_of (λ m r. items_by m r false (code_of code)) }
    ensures fits { IfOk result (λ x. FitBody x) }
    ensures not_longer { NotLonger I.machine I.state p.old p.new result }
{
    let mut read = BodySoFar {
        items: Vec::new(p.alloc),
        code,
        starts: true,
    };
    'turns: while stmt_turn(p, nested, &mut read)? {}
    Ok(read)
}
