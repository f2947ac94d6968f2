//! The recursion, tied. How a rule comes to a nested part, here an expression within a statement:
//!
//! ```text
//! statement(p, nested, ..)              a rule, over any `nested: Nested`           parse_any_statement
//!  └ nested.expr(p, ..)                 `Through`: what is inside, as `Nested`      parser.rt
//!     └ inside.expr(p, ..)              `Rules`: five functions, and what is left   rules.rt
//!        └ parse_expr(p, left, ..)      the tie: at 0 too deep, else `Rules`        here
//!           │                           with one level less
//!           └ p.read_expr(&rules, ..)   `Layer` of a parser: the rule, with         parser.rt
//!              │                        `Through` around what it is given
//!              └ expr(p, nested, ..)    the rule, which calls its parts alike       parse_primary
//! ```
//!
//! A part that stands alone begins with `Depth` (depth.rt) in the place of `Through`: it calls the tie itself, with as
//! many levels as it has. The tie and `Rules` know no rule and no parser, only what `Layer` and `Inside` promise of
//! anything that stands in front of tokens (`Stood`, layer.rt). So the five functions of the tie, which call each other
//! in a circle, are proved together without the rules, and each rule is proved without the others.
ghost use Rattle.std.specs.Prelude.{IfOk};
ghost use Rattle.tree_nodes.specs.Fits.{fits_block_stmt, fits_class};
ghost use Rattle.tree_nodes.specs.Placed.{holds_pat, holds_stmt};
ghost use Rattle.grammar_spec.specs.Reader.Reading.{readers};
ghost use Rattle.parse_state.specs.Codes.{code_of};
ghost use Rattle.parse_state.specs.Reads.{ShorterOver};
ghost use Rattle.parse_operands.specs.Rules.{ReadsExpr, ReadsPat, ReadsStmt, ReadsBody, ReadsClassTail};

use crate::layer::Layer;
use crate::rules::Rules;
use base_token::BytePos;
use parse_operands::Operand;
use parse_state::{Around, Failure};
use tree_nodes::{BlockStmt, Class, PatBox, StmtBox};

/// An expression of a level or a tighter one.
#[cycle(tie)]
#[tactic(auto, using(crate::proofs::Readers::readers_go), unfolding(grammar_spec::specs::Reader::Reading::readers))]
pub fn parse_expr<T: Layer>(
    p: &mut T,
    depth: u32,
    code: Around,
    level: u8,
) -> Result<Operand, Failure>
    ensures value { ReadsExpr T.machine T.stood p.old p.new result
        ((readers T.machine depth).expr (code_of code) level) }
    ensures shorter { ShorterOver T.machine T.stood p.old p.new result }
{
    if depth == 0 {
        return Err(Failure::TooDeep);
    }
    let rules = Rules {
        left: depth - 1,
        expr: parse_expr::<T>,
        pat: parse_pat::<T>,
        stmt: parse_stmt::<T>,
        body: parse_body::<T>,
        class_tail: parse_class_tail::<T>,
    };
    p.read_expr(&rules, code, level)
}

/// A binding: a name or a pattern.
#[cycle(tie)]
#[tactic(auto, using(crate::proofs::Readers::readers_go), unfolding(grammar_spec::specs::Reader::Reading::readers))]
pub fn parse_pat<T: Layer>(p: &mut T, depth: u32, code: Around) -> Result<PatBox, Failure>
    ensures value { ReadsPat T.machine T.stood p.old p.new result
        ((readers T.machine depth).pat (code_of code)) }
    ensures holds { IfOk result (λ x. holds_pat x.part.value) }
    ensures shorter { ShorterOver T.machine T.stood p.old p.new result }
{
    if depth == 0 {
        return Err(Failure::TooDeep);
    }
    let rules = Rules {
        left: depth - 1,
        expr: parse_expr::<T>,
        pat: parse_pat::<T>,
        stmt: parse_stmt::<T>,
        body: parse_body::<T>,
        class_tail: parse_class_tail::<T>,
    };
    p.read_pat(&rules, code)
}

/// A statement; where the code says so, a declaration.
#[cycle(tie)]
#[tactic(auto, using(crate::proofs::Readers::readers_go), unfolding(grammar_spec::specs::Reader::Reading::readers))]
pub fn parse_stmt<T: Layer>(p: &mut T, depth: u32, code: Around) -> Result<StmtBox, Failure>
    ensures value { ReadsStmt T.machine T.stood p.old p.new result
        ((readers T.machine depth).stmt (code_of code)) }
    ensures holds { IfOk result (λ x. holds_stmt x.part.value) }
    ensures shorter { ShorterOver T.machine T.stood p.old p.new result }
{
    if depth == 0 {
        return Err(Failure::TooDeep);
    }
    let rules = Rules {
        left: depth - 1,
        expr: parse_expr::<T>,
        pat: parse_pat::<T>,
        stmt: parse_stmt::<T>,
        body: parse_body::<T>,
        class_tail: parse_class_tail::<T>,
    };
    p.read_stmt(&rules, code)
}

/// A function's body in its braces.
#[cycle(tie)]
#[tactic(auto, using(crate::proofs::Readers::readers_go), unfolding(grammar_spec::specs::Reader::Reading::readers))]
pub fn parse_body<T: Layer>(p: &mut T, depth: u32, code: Around) -> Result<BlockStmt, Failure>
    ensures value { ReadsBody T.machine T.stood p.old p.new result
        ((readers T.machine depth).body (code_of code)) }
    ensures fits { IfOk result (λ x. fits_block_stmt (λ p. p) x) }
    ensures shorter { ShorterOver T.machine T.stood p.old p.new result }
{
    if depth == 0 {
        return Err(Failure::TooDeep);
    }
    let rules = Rules {
        left: depth - 1,
        expr: parse_expr::<T>,
        pat: parse_pat::<T>,
        stmt: parse_stmt::<T>,
        body: parse_body::<T>,
        class_tail: parse_class_tail::<T>,
    };
    p.read_body(&rules, code)
}

/// What follows a class's name. The span of the class starts at `whole`.
#[cycle(tie)]
#[tactic(auto, using(crate::proofs::Readers::readers_go), unfolding(grammar_spec::specs::Reader::Reading::readers))]
pub fn parse_class_tail<T: Layer>(
    p: &mut T,
    depth: u32,
    code: Around,
    whole: BytePos,
) -> Result<Box<Class>, Failure>
    ensures value { ReadsClassTail T.machine T.stood p.old p.new result
        ((readers T.machine depth).class_tail (code_of code) whole.0) }
    ensures fits { IfOk result (λ x. fits_class (λ p. p) x.value) }
    ensures shorter { ShorterOver T.machine T.stood p.old p.new result }
{
    if depth == 0 {
        return Err(Failure::TooDeep);
    }
    let rules = Rules {
        left: depth - 1,
        expr: parse_expr::<T>,
        pat: parse_pat::<T>,
        stmt: parse_stmt::<T>,
        body: parse_body::<T>,
        class_tail: parse_class_tail::<T>,
    };
    p.read_class_tail(&rules, code, whole)
}
