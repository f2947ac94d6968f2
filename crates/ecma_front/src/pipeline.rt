//! A whole run: from any reader to any writer.
ghost use Rattle.std.specs.Prelude.{◌≡◌, ◌↔◌, ◌⊎◌, true, false, [], IsErrOf, IfErr, IfSome};
ghost use Rattle.std.specs.Io.KnownBytes.{Consumes, IsAtEnd};
ghost use Rattle.base_token.specs.Counts.{count_after};
ghost use Rattle.run_command.specs.Options.{are_refused};
ghost use Rattle.ecma_front.specs.Faults.{answers_fault, is_answered_past, is_of_writing, is_read_fault, is_write_fault};
ghost use Rattle.ecma_front.specs.Run.{Answers, Ran, WritesBeginning};

use crate::fault::Fault;
use crate::input::read_to_end;
use crate::reading::program_in;
use crate::writing::write;
use base_token::{CountedRead, CountedWrite};
use run_command::Options;
use run_print::Positions;
use std::alloc::Global;
use tree_nodes::Program;

/// Reads a program from a reader, to its first read of 0 bytes, and writes it as the settings ask, in blocks of 4,096
/// bytes.
///
/// It answers the positions where the settings ask for them: each place of the source that is marked, with the line and
/// the column at which it is written. What it writes depends on the tree alone, not on where its parts stood: texts whose
/// trees agree are written alike.
///
/// # Errors
///
/// `Fault` says which. The settings are judged first, before anything is read or written. A text that is not read leaves
/// the writer as it was. A writer that fails has got a beginning of the output; so it has where positions are asked for
/// and a line or a column is past 4,294,967,295, or memory runs out.
pub fn run<R: CountedRead, W: CountedWrite>(
    alloc: Global,
    reader: &mut R,
    writer: &mut W,
    options: Options,
) -> Result<Option<Positions>, Fault>
    ensures ran { Ran R.remaining R.failure_count W.contents W.failure_count (λ v. v.items) options
        reader.old reader.new writer.old writer.new result }
{
    let mut kept = Vec::new(alloc);
    run_kept(alloc, reader, writer, options, &mut kept)
}

/// The same as `run`, and leaves in `kept`, which is empty, the bytes that were read.
///
/// # Errors
///
/// Those of `run`.
pub fn run_kept<R: CountedRead, W: CountedWrite>(
    alloc: Global,
    reader: &mut R,
    writer: &mut W,
    options: Options,
    kept: &mut Vec<u8>,
) -> Result<Option<Positions>, Fault>
    requires { kept.old.items ≡ [] }
    ensures ran { Ran R.remaining R.failure_count W.contents W.failure_count (λ v. v.items) options
        reader.old reader.new writer.old writer.new result }
    ensures kept { Consumes (R.remaining reader.old) (R.remaining reader.new) kept.new.items }
{
    carry_out(alloc, reader, writer, options, kept, AtEnd::GiveBack)
}

/// What becomes of a tree once it is written.
#[derive(Clone, Copy)]
pub(crate) enum AtEnd {
    /// It is dropped, and its memory given back.
    GiveBack,
    /// It is left as it is, for a process that ends: its memory goes with that.
    Leave,
}

impl AtEnd {
    /// Is done with a program that was written.
    fn settle(self, program: Program) {
        match self {
            AtEnd::GiveBack => drop(program),
            AtEnd::Leave => std::mem::forget(program),
        }
    }
}

/// A run, and what becomes of the tree.
pub(crate) fn carry_out<R: CountedRead, W: CountedWrite>(
    alloc: Global,
    reader: &mut R,
    writer: &mut W,
    options: Options,
    kept: &mut Vec<u8>,
    end: AtEnd,
) -> Result<Option<Positions>, Fault>
    requires { kept.old.items ≡ [] }
    ensures ran { Ran R.remaining R.failure_count W.contents W.failure_count (λ v. v.items) options
        reader.old reader.new writer.old writer.new result }
    ensures kept { Consumes (R.remaining reader.old) (R.remaining reader.new) kept.new.items }
{
    steps(alloc, reader, writer, options, kept, end)
}

/// The steps of a run.
fn steps<R: CountedRead, W: CountedWrite>(
    alloc: Global,
    reader: &mut R,
    writer: &mut W,
    options: Options,
    kept: &mut Vec<u8>,
    end: AtEnd,
) -> Result<Option<Positions>, Fault>
    requires { kept.old.items ≡ [] }
    ensures settings { IsErrOf result Fault.Options ↔ (are_refused options ≡ true) }
    ensures untouched { are_refused options ≡ true → reader.new ≡ reader.old }
    ensures whole { is_answered_past result ≡ true → IsAtEnd (R.remaining reader.new) }
    ensures unwritten { IfErr result (λ fault. is_of_writing options fault ≡ false → writer.new ≡ writer.old) }
    ensures begun { IfErr result (λ fault. (writer.new ≡ writer.old) ⊎ IfSome (R.remaining reader.old) (λ bytes. WritesBeginning options bytes (W.contents writer.old) (W.contents writer.new))) }
    ensures reader_failed { R.failure_count reader.new ≡ count_after (answers_fault is_read_fault result) (R.failure_count reader.old) }
    ensures writer_failed { W.failure_count writer.new ≡ count_after (answers_fault is_write_fault result) (W.failure_count writer.old) }
    ensures answer { Answers (λ v. v.items) options (R.remaining reader.old) (W.contents writer.old) (W.contents writer.new) result }
    ensures kept { Consumes (R.remaining reader.old) (R.remaining reader.new) kept.new.items }
{
    if options.are_refused() {
        return Err(Fault::Options);
    }
    read_to_end(reader, kept)?;
    let program = program_in(alloc, kept.as_slice(), options)?;
    let written = write(alloc, &program, options, writer);
    end.settle(program);
    written
}
