//! Writing a program.
ghost use Rattle.std.specs.Prelude.{◌≡◌, false};
ghost use Rattle.base_token.specs.Counts.{count_after};
ghost use Rattle.run_command.specs.Options.{are_refused};
ghost use Rattle.ecma_front.specs.Faults.{answers_fault, is_write_fault};
ghost use Rattle.ecma_front.specs.Steps.{fault_of, Writes};

use crate::fault::Fault;
use base_token::CountedWrite;
use run_command::Options;
use run_print::{EmitError, Positions, print};
use std::alloc::Global;
use tree_nodes::Program;

/// What a fault of the printer is told as.
pub(crate) fn told(fault: EmitError) -> Fault
    ensures { result ≡ fault_of fault }
{
    match fault {
        EmitError::Write(kind) => Fault::Write(kind),
        EmitError::Memory => Fault::Memory,
        EmitError::Node => Fault::Node,
        EmitError::Position => Fault::Position,
    }
}

/// Writes a program, and answers the positions where they are asked for.
///
/// # Errors
///
/// `Write`; `Node` where part of the program has no text; with positions `Memory` and `Position`.
pub(crate) fn write<W: CountedWrite>(
    alloc: Global,
    program: &Program,
    options: Options,
    writer: &mut W,
) -> Result<Option<Positions>, Fault>
    requires { are_refused options ≡ false }
    ensures value { Writes (λ v. v.items) options program.now (W.contents writer.old) (W.contents writer.new) result }
    ensures failures { W.failure_count writer.new ≡ count_after (answers_fault is_write_fault result) (W.failure_count writer.old) }
{
    match print(alloc, program, options, writer) {
        Ok(positions) => Ok(positions),
        Err(fault) => Err(told(fault)),
    }
}
