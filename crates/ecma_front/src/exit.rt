//! How a process ends by a fault.
ghost use Rattle.std.specs.Prelude.{◌≡◌, ◌++◌, ◌<◌, ◌-◌, ◌^◌, true, codes, decimal, is_some, IfErr, IfSome, IsUtf8, OnErr, OnOk};
ghost use Rattle.std.specs.Str.{chars};
ghost use Rattle.base_token.specs.Counts.{count_after};
ghost use Rattle.print_writers.specs.Pages.{Gets, GetsFront};
ghost use Rattle.print_writers.specs.States.{answers_write, is_write};
ghost use Rattle.print_pages_spec.specs.Lines.Lines as lines;
ghost use Rattle.ecma_front.specs.Faults.{is_refusal};
ghost use Rattle.ecma_front.specs.Command.{LiesAt};
ghost use Rattle.ecma_front.specs.Exits.{IsMessage, Prints, line_of, place_told, status_in};

use crate::fault::Fault;
use crate::line_col::place;
use base_token::{BytePos, CountedWrite, LineCol};
use print_writers::{EmitError, write_all};

/// How a process ends by a fault.
#[derive(Clone, Copy, Debug)]
pub struct Exit {
    /// The status: 1 where the fault refuses the text that was read, else 3.
    pub status: u8,
    /// Where the fault lies, where it refuses the text.
    pub place: Option<LineCol>,
    /// What is wrong, in one line.
    pub message: &'static str,
}

/// The place of the byte at an offset. In bytes that are not UTF-8 it is the start.
fn place_in(bytes: &[u8], offset: usize) -> LineCol
    ensures { IsUtf8 bytes.now → offset < 2 ^ 32 → result ≡ lines.place_of (chars bytes.now) offset }
{
    match std::str::from_utf8(bytes) {
        Ok(text) => place(text, u32::try_from(offset).unwrap_or(u32::MAX)),
        Err(_) => LineCol::default(),
    }
}

/// How far a place is from the start of the text, which is at 1. No place counts as the start.
fn offset_of(place: BytePos) -> usize
    ensures { result ≡ place.0 - 1 }
{
    place.0.saturating_sub(1) as usize
}

/// Where a fault of the text stands, if it is one of the text.
fn place_of(fault: Fault, text: &[u8]) -> Option<LineCol>
    ensures refused { is_some result ≡ is_refusal fault }
    ensures place { IfSome result (LiesAt text.now fault) }
{
    match fault {
        Fault::NotUtf8 { valid_up_to } => {
            let front = text.get(..valid_up_to).unwrap_or(text);
            Some(place_in(front, valid_up_to))
        }
        Fault::Syntax(error) => Some(place_in(text, offset_of(error.span.lo))),
        Fault::TooLong | Fault::TooDeep => Some(LineCol::default()),
        _ => None,
    }
}

/// How a process ends by a fault of a run that read this text.
pub fn exit_of(fault: Fault, text: &[u8]) -> Exit
    ensures status { result.status ≡ status_in fault }
    ensures refused { is_some result.place ≡ is_refusal fault }
    ensures place { IfSome result.place (LiesAt text.now fault) }
    ensures message { IsMessage fault result.message.now }
{
    let place = place_of(fault, text);
    Exit {
        status: if place.is_some() { 1 } else { 3 },
        place,
        message: fault.msg(),
    }
}

/// Writes a number in decimal digits, or a beginning of it.
#[tactic(auto, using(std::proofs::lemmas::Fmt::decimal_digit))]
fn write_number<E: CountedWrite>(errors: &mut E, n: u64) -> Result<(), EmitError>
    ensures written { OnOk result (Gets (E.contents errors.old) (E.contents errors.new) (decimal n)) }
    ensures beginning { OnErr result (GetsFront (E.contents errors.old) (E.contents errors.new) (decimal n)) }
    ensures failures { E.failure_count errors.new ≡ count_after (answers_write result) (E.failure_count errors.old) }
    ensures kinds { IfErr result (λ e. is_write e ≡ true) }
{
    if n < 10 {
        return write_all(errors, &[b'0' + n as u8]);
    }
    write_number(errors, n / 10)?;
    write_all(errors, &[b'0' + (n % 10) as u8])
}

/// Writes a place, or a beginning of it: the line and the column, both from 1.
fn write_place<E: CountedWrite>(errors: &mut E, place: LineCol) -> Result<(), EmitError>
    ensures written { OnOk result (Gets (E.contents errors.old) (E.contents errors.new) (place_told place)) }
    ensures beginning { OnErr result (GetsFront (E.contents errors.old) (E.contents errors.new) (place_told place)) }
    ensures failures { E.failure_count errors.new ≡ count_after (answers_write result) (E.failure_count errors.old) }
    ensures kinds { IfErr result (λ e. is_write e ≡ true) }
{
    write_number(errors, u64::from(place.line) + 1)?;
    write_all(errors, b":")?;
    write_number(errors, u64::from(place.col) + 1)?;
    write_all(errors, b": ")
}

/// Writes a message and the end of its line, or a beginning of that.
fn write_message<E: CountedWrite>(errors: &mut E, message: &str) -> Result<(), EmitError>
    ensures written { OnOk result (Gets (E.contents errors.old) (E.contents errors.new) (message.now ++ codes "\n")) }
    ensures beginning { OnErr result (GetsFront (E.contents errors.old) (E.contents errors.new) (message.now ++ codes "\n")) }
    ensures failures { E.failure_count errors.new ≡ count_after (answers_write result) (E.failure_count errors.old) }
    ensures kinds { IfErr result (λ e. is_write e ≡ true) }
{
    write_all(errors, message.as_bytes())?;
    write_all(errors, b"\n")
}

/// Writes the line of an exit, or a beginning of it.
fn write_line<E: CountedWrite>(errors: &mut E, exit: Exit) -> Result<(), EmitError>
    ensures written { OnOk result (Gets (E.contents errors.old) (E.contents errors.new) (line_of exit.place exit.message.now)) }
    ensures beginning { OnErr result (GetsFront (E.contents errors.old) (E.contents errors.new) (line_of exit.place exit.message.now)) }
    ensures failures { E.failure_count errors.new ≡ count_after (answers_write result) (E.failure_count errors.old) }
    ensures kinds { IfErr result (λ e. is_write e ≡ true) }
{
    match exit.place {
        None => write_message(errors, exit.message),
        Some(place) => {
            write_place(errors, place)?;
            write_message(errors, exit.message)
        }
    }
}

/// Prints the line of an exit. That it may not be printed changes nothing.
pub(crate) fn print_line<E: CountedWrite>(errors: &mut E, exit: Exit)
    ensures { Prints E.contents E.failure_count errors.old errors.new (line_of exit.place exit.message.now) }
{
    let _ = write_line(errors, exit);
}
