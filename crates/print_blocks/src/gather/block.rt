//! A block of bytes before a writer.
ghost use Rattle.std.specs.Prelude.{◌≡◌, ◌+◌, ◌-◌, ◌≤◌, ◌++◌, length, take, drop, OnOk, OnErr, is_err};
ghost use Rattle.std.specs.Io.KnownBytes.{Appends};
ghost use Rattle.arrayvec.specs.ArrayVec.{array_vec_len};
ghost use Rattle.base_token.specs.Counts.{count_after};

use arrayvec::ArrayVec;
use base_token::CountedWrite;
use std::io;
use std::io::{Error, ErrorKind};

/// How many bytes a block has.
pub const BLOCK: usize = 4096;

/// Writes the bytes of a block up to its end, or until more than the first `kept` are out. It answers
/// how many are out, and no write is tried after one that failed.
pub fn send<W: CountedWrite>(wr: &mut W, block: &[u8], kept: usize) -> (usize, io::Result<()>)
    ensures bound { result.0 ≤ length block.now }
    ensures bytes { Appends (W.contents wr.old) (W.contents wr.new) (take result.0 block.now) }
    ensures whole { OnOk result.1 (result.0 ≤ kept → result.0 ≡ length block.now) }
    ensures kept { OnErr result.1 (result.0 ≤ kept) }
    ensures failures { W.failure_count wr.new ≡ count_after (is_err result.1) (W.failure_count wr.old) }
{
    let mut sent = 0;
    'parts: while sent < block.len() && sent <= kept {
        match wr.write_counted(&block[sent..]) {
            Ok(0) => return (sent, Err(Error::from(ErrorKind::WriteZero))),
            Ok(count) => sent += count,
            Err(error) => return (sent, Err(error)),
        }
    }
    (sent, Ok(()))
}

/// Drops the front of a block.
pub fn drop_front(block: &mut ArrayVec<u8, BLOCK>, count: usize)
    requires { count ≤ array_vec_len block.old }
    ensures items { block.new.items ≡ drop count block.old.items }
    ensures len { array_vec_len block.new ≡ array_vec_len block.old - count }
{
    let len = block.len();
    block.as_mut_slice().copy_within(count..len, 0);
    block.truncate(len - count);
}

/// Puts bytes behind those of a block, which has room for them.
#[inline(always)]
pub fn extend(block: &mut ArrayVec<u8, BLOCK>, bytes: &[u8])
    requires { array_vec_len block.old + length bytes.now ≤ BLOCK }
    ensures items { block.new.items ≡ block.old.items ++ bytes.now }
    ensures len { array_vec_len block.new ≡ array_vec_len block.old + length bytes.now }
{
    let Ok(()) = block.try_extend_from_slice(bytes) else {
        unreachable!()
    };
}
