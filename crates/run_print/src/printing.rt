//! Printing a program.
ghost use Rattle.std.specs.Prelude.{◌≡◌, ◌≤◌, true, false, IfSome};
ghost use Rattle.base_token.specs.Counts.{count_after};
ghost use Rattle.print_layout_spec.specs.Layout.{laid};
ghost use Rattle.print_layout_spec.specs.declared.look.Stand.TheVariants.{Alone};
ghost use Rattle.ecma_codegen.specs.Emits.{Emits, Stays};
ghost use Rattle.ecma_codegen.specs.Settings as settings;
ghost use Rattle.print_writers.specs.States.{answers_write};
ghost use Rattle.print_writers.specs.Views.{js_failures, js_loans, js_state};
ghost use Rattle.run_command.specs.Options.{is_format, width_of};
ghost use Rattle.run_print.specs.Prints.{Prints, Texts};
ghost use Rattle.run_print.specs.Steps.{Counts, Ends, LaysOut};

use crate::looks::{config, indent, line_end};
use base_token::{BytePos, Counted, CountedWrite, LineCol};
use core::mem::{replace, replace_with};
use ecma_codegen::{Config, EmitError, Emitter, JsWriter, NoPlaces, WriteJs, omit_trailing_semi};
use print_blocks::Blocks;
use run_command::{Options, Style};
use std::alloc::Global;
use tree_nodes::Program;

/// Places of the source, each with the line and the column at which it is written, both from 0.
pub type Positions = Vec<(BytePos, LineCol)>;

/// Prints a program to a writer of words and lines, and hands the writer back.
fn emitted<W: WriteJs>(
    alloc: Global,
    program: &Program,
    cfg: Config,
    wr: W,
) -> (W, Result<(), EmitError>)
    ensures value { Emits W.tells W.state (laid (settings.look_of cfg) Alone program.now) wr result.0 result.1 }
    ensures keeps { Stays W.state W.failed_writes W.loans wr result.0 result.1 }
{
    let mut emitter = Emitter {
        alloc,
        cfg,
        cm: NoPlaces,
        comments: None,
        wr,
    };
    let ended = emitter.emit_program(program);
    let Emitter { wr, .. } = emitter;
    (wr, ended)
}

/// Prints a program for people.
#[tactic(auto, using(print_pages_spec::proofs::Resolving::calls_resolve), unfolding(crate::specs::Layouts::laid_of, crate::specs::Layouts::written_on))]
fn long<'a, W: CountedWrite>(
    alloc: Global,
    program: &Program,
    options: Options,
    wr: JsWriter<'a, W>,
) -> (JsWriter<'a, W>, Result<(), EmitError>)
    requires width { width_of options.indent ≤ 8 }
    requires style { is_format options.style ≡ true }
    ensures value { LaysOut W.contents options program.now wr.entry result.0 result.1 }
    ensures keeps { Stays (js_state W.contents) (js_failures W.failure_count) js_loans wr.entry result.0 result.1 }
{
    let mut wr = wr;
    wr.set_indent_str(indent(options.indent));
    emitted(alloc, program, config(options), wr)
}

/// Prints a program as short as it can be. The semicolon that still waits at the end goes.
#[tactic(auto, using(print_pages_spec::proofs::Resolving::calls_shorten), unfolding(crate::specs::Layouts::laid_of, crate::specs::Layouts::written_on))]
fn short<'a, W: CountedWrite>(
    alloc: Global,
    program: &Program,
    options: Options,
    wr: JsWriter<'a, W>,
) -> (JsWriter<'a, W>, Result<(), EmitError>)
    requires width { width_of options.indent ≤ 8 }
    requires style { is_format options.style ≡ false }
    ensures value { LaysOut W.contents options program.now wr.entry result.0 result.1 }
    ensures keeps { Stays (js_state W.contents) (js_failures W.failure_count) js_loans wr.entry result.0 result.1 }
{
    let mut wr = wr;
    wr.set_indent_str(indent(options.indent));
    let (wr, ended) = emitted(alloc, program, config(options), omit_trailing_semi(wr));
    (wr.into_inner(), ended)
}

/// Prints a program to a writer of texts and lines, in the style that is asked for.
fn laid_out<'a, W: CountedWrite>(
    alloc: Global,
    program: &Program,
    options: Options,
    wr: JsWriter<'a, W>,
) -> (JsWriter<'a, W>, Result<(), EmitError>)
    requires { width_of options.indent ≤ 8 }
    ensures value { LaysOut W.contents options program.now wr.entry result.0 result.1 }
    ensures keeps { Stays (js_state W.contents) (js_failures W.failure_count) js_loans wr.entry result.0 result.1 }
{
    match options.style {
        Style::Format => long(alloc, program, options, wr),
        Style::Minify => short(alloc, program, options, wr),
    }
}

/// The writer behind a block, once the printing has ended. Where that was refused, what waits in the block goes.
fn ended_with<W: CountedWrite>(
    block: Blocks<W>,
    ended: Result<(), EmitError>,
) -> (W, Result<(), EmitError>)
    ensures value { Ends W.contents block ended result.0 result.1 }
    ensures failures { Counts W.failure_count block ended result.0 result.1 }
{
    let mut block = block;
    let ended = match ended {
        Ok(()) => match block.finish() {
            Ok(()) => Ok(()),
            Err(error) => Err(EmitError::Write(error.kind())),
        },
        Err(fault) => Err(fault),
    };
    (block.into_inner(), ended)
}

/// Prints a program through a block, and keeps no positions.
fn unmarked<W: CountedWrite>(
    alloc: Global,
    program: &Program,
    options: Options,
    out: W,
) -> (W, Result<Option<Positions>, EmitError>)
    requires width { width_of options.indent ≤ 8 }
    requires positions { options.positions ≡ false }
    ensures value { Prints (λ v. v.items) options program.now (W.contents out) (W.contents result.0) result.1 }
    ensures failures { W.failure_count result.0 ≡ count_after (answers_write result.1) (W.failure_count out) }
{
    let wr = JsWriter::new(alloc, line_end(options.line_end), Blocks::new(out), None);
    let (wr, ended) = laid_out(alloc, program, options, wr);
    let (out, ended) = ended_with(wr.into_inner(), ended);
    match ended {
        Ok(()) => (out, Ok(None)),
        Err(fault) => (out, Err(fault)),
    }
}

/// The positions that a list holds, which is left empty.
fn taken_out(alloc: Global, list: Option<&mut Positions>) -> Positions
    ensures { IfSome list.entry (λ x. result ≡ x.now) }
{
    match list {
        Some(list) => replace(list, Vec::new(alloc)),
        None => Vec::new(alloc),
    }
}

/// Prints a program through a block, and keeps the positions.
fn marked<W: CountedWrite>(
    alloc: Global,
    program: &Program,
    options: Options,
    out: W,
) -> (W, Result<Option<Positions>, EmitError>)
    requires width { width_of options.indent ≤ 8 }
    requires positions { options.positions ≡ true }
    ensures value { Prints (λ v. v.items) options program.now (W.contents out) (W.contents result.0) result.1 }
    ensures failures { W.failure_count result.0 ≡ count_after (answers_write result.1) (W.failure_count out) }
{
    let mut list = Vec::new(alloc);
    let wr = JsWriter::new(
        alloc,
        line_end(options.line_end),
        Blocks::new(out),
        Some(&mut list),
    );
    let (wr, ended) = laid_out(alloc, program, options, wr);
    let (block, kept) = wr.into_parts();
    let positions = taken_out(alloc, kept);
    let (out, ended) = ended_with(block, ended);
    match ended {
        Ok(()) => (out, Ok(Some(positions))),
        Err(fault) => (out, Err(fault)),
    }
}

/// Prints a program to a writer, and hands it back.
fn printed<W: CountedWrite>(
    out: W,
    asked: (Global, &Program, Options),
) -> (W, Result<Option<Positions>, EmitError>)
    requires { width_of asked.2.indent ≤ 8 }
    ensures value { Prints (λ v. v.items) asked.entry.2 asked.entry.1.now (W.contents out) (W.contents result.0) result.1 }
    ensures failures { W.failure_count result.0 ≡ count_after (answers_write result.1) (W.failure_count out) }
{
    let (alloc, program, options) = asked;
    if options.positions {
        marked(alloc, program, options, out)
    } else {
        unmarked(alloc, program, options, out)
    }
}

/// Prints a program to a writer, through one block, and answers the positions where the settings ask for them.
///
/// It requires a step of indentation of at most 8 blanks or tabs, as in all settings that a run doesn't refuse.
///
/// # Errors
///
/// `Write` where the writer failed in this call; `Node` where part of the program has no text; with positions also
/// `Memory`, and `Position` for a line or a column past 4,294,967,295. Each leaves a beginning of the layout.
pub fn print<W: CountedWrite>(
    alloc: Global,
    program: &Program,
    options: Options,
    writer: &mut W,
) -> Result<Option<Positions>, EmitError>
    requires { width_of options.indent ≤ 8 }
    ensures value { Prints (λ v. v.items) options program.now (W.contents writer.old) (W.contents writer.new) result }
    ensures failures { W.failure_count writer.new ≡ count_after (answers_write result) (W.failure_count writer.old) }
{
    replace_with(writer, (alloc, program, options), printed)
}

/// The layout of a program, without positions.
///
/// It requires a step of indentation of at most 8 blanks or tabs, as in all settings that a run doesn't refuse, and settings
/// that don't ask for positions.
///
/// # Errors
///
/// `Memory`; `Node` where part of the program has no text.
pub fn text_of(alloc: Global, program: &Program, options: Options) -> Result<String, EmitError>
    requires width { width_of options.indent ≤ 8 }
    requires positions { options.positions ≡ false }
    ensures { Texts options program.now result }
{
    let out: Counted<Vec<u8>> = Counted::new(Vec::new(alloc));
    let wr = JsWriter::new(alloc, line_end(options.line_end), out, None);
    let (wr, ended) = laid_out(alloc, program, options, wr);
    let bytes = wr.into_inner().into_inner();
    match ended {
        Ok(()) => {}
        Err(EmitError::Write(_)) => return Err(EmitError::Memory),
        Err(fault) => return Err(fault),
    }
    match String::from_utf8(bytes) {
        Ok(text) => Ok(text),
        Err(_) => unreachable!(),
    }
}
