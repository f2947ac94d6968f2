//! Reading a reader to its end.
ghost use Rattle.std.specs.Prelude.{◌≡◌, ◌≤◌, ◌<◌, ◌+◌, ◌^◌, [], OnOk, IfErr, IsErrOf, vec_len};
ghost use Rattle.std.specs.Io.KnownBytes.{Consumes, IsAtEnd};
ghost use Rattle.base_token.specs.Counts.{count_after};
ghost use Rattle.ecma_front.specs.Faults.{answers_fault, is_read_fault};
ghost use Rattle.ecma_front.specs.Input.{IsInputFault};

use crate::fault::Fault;
use base_token::CountedRead;

/// The longest text that is read, in bytes: the place after its end still fits `u32`.
pub(crate) const LONGEST_TEXT: usize = 4_294_967_294;

/// How many bytes one read asks for.
const CHUNK: usize = 16 * 1024;

/// Reads to the first count of 0, or until the text is too long. `kept` is what was read, also where
/// the read fails or memory runs out.
pub(crate) fn read_to_end<R: CountedRead>(reader: &mut R, kept: &mut Vec<u8>) -> Result<(), Fault>
    requires { kept.old.items ≡ [] }
    ensures kept { Consumes (R.remaining reader.old) (R.remaining reader.new) kept.new.items }
    ensures whole { OnOk result (IsAtEnd (R.remaining reader.new)) }
    ensures fits { OnOk result (vec_len kept.new ≤ LONGEST_TEXT) }
    ensures too_long { IsErrOf result Fault.TooLong → LONGEST_TEXT < vec_len kept.new }
    ensures failures { R.failure_count reader.new ≡ count_after (answers_fault is_read_fault result) (R.failure_count reader.old) }
    ensures kinds { IfErr result IsInputFault }
{
    let mut chunk = [0; CHUNK];
    while kept.len() <= LONGEST_TEXT {
        kept.reserve(CHUNK)?;
        match reader.read_counted(&mut chunk) {
            Ok(0) => return Ok(()),
            Ok(count) => kept.extend_from_slice(&chunk[..count]).unwrap(),
            Err(error) => return Err(Fault::Read(error.kind())),
        }
    }
    Err(Fault::TooLong)
}
