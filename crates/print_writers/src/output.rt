//! Writing bytes to a counted writer.
ghost use Rattle.std.specs.Prelude.{◌≡◌, true, OnOk, OnErr, IfErr};
ghost use Rattle.base_token.specs.Counts.{count_after};
ghost use Rattle.print_writers.specs.States.{answers_write, is_write};
ghost use Rattle.print_writers.specs.Pages.{times, Gets, GetsFront};

use crate::EmitError;
use base_token::CountedWrite;
use std::io::ErrorKind;

/// Writes all of the bytes, or a beginning of them.
///
/// # Errors
///
/// That of the writer.
#[inline]
pub fn write_all<W: CountedWrite>(writer: &mut W, bytes: &[u8]) -> Result<(), EmitError>
    ensures written { OnOk result (Gets (W.contents writer.old) (W.contents writer.new) bytes.now) }
    ensures beginning { OnErr result (GetsFront (W.contents writer.old) (W.contents writer.new) bytes.now) }
    ensures failures { W.failure_count writer.new ≡ count_after (answers_write result) (W.failure_count writer.old) }
    ensures kinds { IfErr result (λ e. is_write e ≡ true) }
{
    if writer.take_all(bytes) {
        return Ok(());
    }
    write_parts(writer, bytes)
}

/// Writes all of the bytes in as many calls as the writer needs, or a beginning of them.
#[inline(never)]
fn write_parts<W: CountedWrite>(writer: &mut W, bytes: &[u8]) -> Result<(), EmitError>
    ensures written { OnOk result (Gets (W.contents writer.old) (W.contents writer.new) bytes.now) }
    ensures beginning { OnErr result (GetsFront (W.contents writer.old) (W.contents writer.new) bytes.now) }
    ensures failures { W.failure_count writer.new ≡ count_after (answers_write result) (W.failure_count writer.old) }
    ensures kinds { IfErr result (λ e. is_write e ≡ true) }
{
    let mut written = 0;
    while written < bytes.len() {
        match writer.write_counted(&bytes[written..]) {
            Ok(0) => return Err(EmitError::Write(ErrorKind::WriteZero)),
            Ok(count) => written += count,
            Err(error) => return Err(EmitError::Write(error.kind())),
        }
    }
    Ok(())
}

/// Writes the bytes so many times, or a beginning of that.
pub(crate) fn write_times<W: CountedWrite>(
    writer: &mut W,
    count: u32,
    bytes: &[u8],
) -> Result<(), EmitError>
    ensures written { OnOk result (Gets (W.contents writer.old) (W.contents writer.new) (times count bytes.now)) }
    ensures beginning { OnErr result (GetsFront (W.contents writer.old) (W.contents writer.new) (times count bytes.now)) }
    ensures failures { W.failure_count writer.new ≡ count_after (answers_write result) (W.failure_count writer.old) }
    ensures kinds { IfErr result (λ e. is_write e ≡ true) }
{
    for i in 0..count {
        write_all(writer, bytes)?;
    }
    Ok(())
}
