//! A writer that gathers short texts in one block, and hands out whole blocks.

ghost use Rattle.std.specs.Prelude.{◌≡◌, ◌⊎◌, ◌+◌, ◌-◌, ◌<◌, true, [], length, take, OnOk, OnErr, is_err};
ghost use Rattle.base_token.specs.Counts.{count_after};

pub mod block;

use crate::gather::block::{BLOCK, drop_front, extend, send};
use arrayvec::ArrayVec;
use base_token::{CountedWrite, Failing};
use std::io;
use std::io::Write;

/// A writer before which bytes wait in one block. The block goes out when it is full and more comes,
/// and at `finish`. It takes no memory, and its failures are those of the writer behind it.
#[derive(Drop)]
pub struct Gather<W> {
    wr: W,
    block: ArrayVec<u8, BLOCK>,
}

impl<W: CountedWrite> Gather<W> {
    ghost use Rattle.std.specs.Io.{WritesAtMost};
    ghost use Rattle.std.specs.Io.KnownBytes.{Keeps, WriteAppends};
    ghost use Rattle.base_token.specs.Counts.{is_failed_write};
    ghost use Rattle.print_blocks.specs.Gather.Gathered.{waiting, behind, taken};

    /// A block with nothing in it, before the writer `wr`.
    pub fn new(wr: W) -> Gather<W>
        ensures behind { behind result ≡ wr }
        ensures waiting { waiting result ≡ [] }
    {
        Gather {
            wr,
            block: ArrayVec::new(),
        }
    }

    /// Hands out what waits.
    ///
    /// # Errors
    ///
    /// The writer's own, and `WriteZero` where it took nothing. What it did not take still waits.
    pub fn finish(&mut self) -> io::Result<()>
        ensures taken { Keeps (taken W.contents self.old) (taken W.contents self.new) }
        ensures waiting { OnOk result (waiting self.new ≡ []) }
        ensures failures { W.failure_count (behind self.new) ≡ count_after (is_err result) (W.failure_count (behind self.old)) }
    {
        let (sent, result) = send(&mut self.wr, self.block.as_slice(), BLOCK);
        drop_front(&mut self.block, sent);
        result
    }

    /// The writer behind. What still waits is let go.
    pub fn into_inner(self) -> W
        ensures { result ≡ behind self }
    {
        let Gather { wr, block: _ } = self;
        wr
    }

    /// Takes the front of bytes that have no room in the block, and hands out the block that this fills.
    /// Once some of them are out, no write is tried that could fail.
    #[inline(never)]
    fn write_across(&mut self, bytes: &[u8]) -> io::Result<usize>
        requires { BLOCK < length (waiting self.old) + length bytes.now }
        ensures bound { WritesAtMost result bytes.now }
        ensures bytes { WriteAppends (taken W.contents self.old) (taken W.contents self.new) result bytes.now }
        ensures failures { W.failure_count (behind self.new) ≡ count_after (is_failed_write bytes.now result) (W.failure_count (behind self.old)) }
    {
        let kept = self.block.len();
        let (front, rest) = bytes.split_at(BLOCK - kept);
        extend(&mut self.block, front);
        let (sent, result) = send(&mut self.wr, self.block.as_slice(), kept);
        if let Err(error) = result {
            self.block.truncate(kept);
            drop_front(&mut self.block, sent);
            return Err(error);
        }
        drop_front(&mut self.block, sent);
        let more = rest.len().min(BLOCK - self.block.len());
        extend(&mut self.block, &rest[..more]);
        Ok(front.len() + more)
    }
}

impl<W: CountedWrite> Failing for Gather<W> {
    ghost use Rattle.print_blocks.specs.Gather.Gathered.{behind};

    ghost failure_count = { λ g. W.failure_count (behind g) };

    fn failures(&self) -> u64 {
        self.wr.failures()
    }
}

impl<W: CountedWrite> Write for Gather<W> {
    ghost use Rattle.std.specs.Io.{WritesAtMost};
    ghost use Rattle.std.specs.Io.KnownBytes.{Keeps, WriteAppends};
    ghost use Rattle.base_token.specs.Counts.{is_failed_write};
    ghost use Rattle.print_blocks.specs.Gather.Gathered.{waiting, behind, taken};

    ghost contents = { taken W.contents };

    fn write(&mut self, buf: &[u8]) -> io::Result<usize>
        ensures bound { WritesAtMost result buf.now }
        ensures bytes { WriteAppends (taken W.contents self.old) (taken W.contents self.new) result buf.now }
        ensures failures { W.failure_count (behind self.new) ≡ count_after (is_failed_write buf.now result) (W.failure_count (behind self.old)) }
    {
        self.write_counted(buf)
    }

    /// Hands out what waits, and flushes the writer behind. Where it fails, one more write has failed, or all
    /// that waited is out.
    fn flush(&mut self) -> io::Result<()>
        ensures bytes { Keeps (taken W.contents self.old) (taken W.contents self.new) }
        ensures waiting { OnOk result (waiting self.new ≡ []) }
        ensures tried { OnErr result ((waiting self.new ≡ []) ⊎ (W.failure_count (behind self.new) ≡ count_after true (W.failure_count (behind self.old)))) }
    {
        self.finish()?;
        self.wr.flush()
    }
}

impl<W: CountedWrite> CountedWrite for Gather<W> {
    /// Takes the bytes. Of those that fill the block twice it takes a front.
    ///
    /// # Errors
    ///
    /// Those of the writer behind. Then none of the bytes is taken, and what waited and isn't out still
    /// waits.
    fn write_counted(&mut self, bytes: &[u8]) -> io::Result<usize> {
        if self.block.try_extend_from_slice(bytes).is_ok() {
            return Ok(bytes.len());
        }
        self.write_across(bytes)
    }

    /// Takes the bytes where the block has room for them.
    #[inline(always)]
    fn take_all(&mut self, bytes: &[u8]) -> bool {
        self.block.try_extend_from_slice(bytes).is_ok()
    }
}
