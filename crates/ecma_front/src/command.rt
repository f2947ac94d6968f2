//! What the program answers and prints.
ghost use Rattle.ecma_front.specs.Command.{Ends};

use crate::exit::{exit_of, print_line};
use crate::pipeline::{AtEnd, carry_out};
use base_token::{CountedRead, CountedWrite};
use run_command::Invocation;
use std::alloc::Global;

/// Runs what a command line asks for, prints a fault to `errors`, and answers the exit status: 0 where
/// the program was written, 1 where the text is refused, else 3: the settings are refused, the reader or
/// the writer failed, a line or a column is past 4,294,967,295 and positions are asked for, or memory ran out. A failure
/// of `errors` changes nothing. It is for a process that ends with it: the memory of a tree that was written is not given
/// back.
pub fn answer<R: CountedRead, W: CountedWrite, E: CountedWrite>(
    alloc: Global,
    invocation: &Invocation,
    input: &mut R,
    output: &mut W,
    errors: &mut E,
) -> u8
    ensures { Ends R.remaining R.failure_count W.contents W.failure_count E.contents E.failure_count
        invocation.now.options input.old input.new output.old output.new errors.old errors.new result }
{
    let mut kept = Vec::new(alloc);
    let options = invocation.options;
    match carry_out(alloc, input, output, options, &mut kept, AtEnd::Leave) {
        Ok(_) => 0,
        Err(fault) => {
            let exit = exit_of(fault, kept.as_slice());
            print_line(errors, exit);
            exit.status
        }
    }
}
