//! Writers that hand out whole blocks: over all that is written, and over short texts (`gather`).
#![tactic(auto)]

ghost use Rattle.std.specs.Prelude.{◌≡◌, ◌+◌, ◌-◌, ◌<◌, ◌≤◌, [], length, take, OnOk, is_err};
ghost use Rattle.arrayvec.specs.ArrayVec.{array_vec_len};
ghost use Rattle.base_token.specs.Counts.{count_after};

pub mod gather;

use crate::gather::block::{BLOCK, drop_front, extend, send};
use arrayvec::ArrayVec;
use base_token::{CountedWrite, Failing};
use std::io;
use std::io::Write;

/// A writer before which the bytes of the block that is begun wait. The block goes out once it is full, and at
/// `finish`. It takes no memory, and its failures are those of the writer behind.
pub struct Blocks<W> {
    wr: W,
    block: ArrayVec<u8, BLOCK>,
    /// How many bytes of the block that is begun were taken, whether they wait or are out.
    at: usize,
    ghost waits: { array_vec_len block ≤ at },
    ghost begun: { at < 4096 },
}

impl<W: CountedWrite> Blocks<W> {
    ghost use Rattle.std.specs.Io.{WritesAtMost};
    ghost use Rattle.std.specs.Io.KnownBytes.{Keeps, WriteAppends};
    ghost use Rattle.base_token.specs.Counts.{is_failed_write};
    ghost use Rattle.print_blocks.specs.Blocks.{at_of, behind, waiting, taken, noted};

    /// The start of a block, before the writer `wr`.
    pub fn new(wr: W) -> Blocks<W>
        ensures behind { behind result ≡ wr }
        ensures waiting { waiting result ≡ [] }
        ensures at { at_of result ≡ 0 }
    {
        Blocks {
            wr,
            block: ArrayVec::new(),
            at: 0,
        }
    }

    /// Hands out what waits.
    ///
    /// # Errors
    ///
    /// The writer's own, and `WriteZero` where it took nothing. What it did not take still waits.
    pub fn finish(&mut self) -> io::Result<()>
        ensures taken { Keeps (taken W.contents self.old) (taken W.contents self.new) }
        ensures waiting { OnOk result (waiting self.new ≡ []) }
        ensures at { at_of self.new ≡ at_of self.old }
        ensures failures { W.failure_count (behind self.new) ≡ count_after (is_err result) (W.failure_count (behind self.old)) }
    {
        let (sent, result) = send(&mut self.wr, self.block.as_slice(), BLOCK);
        drop_front(&mut self.block, sent);
        result
    }

    /// The writer behind. What still waits is let go.
    pub fn into_inner(self) -> W
        ensures { result ≡ behind self }
    {
        let Blocks {
            wr,
            block: _,
            at: _,
        } = self;
        wr
    }

    /// Takes bytes that fill the block, and hands it out. Once some of them are out, no write is tried that could
    /// fail, and those that aren't out are not taken.
    #[inline(never)]
    fn fill(&mut self, bytes: &[u8]) -> io::Result<usize>
        requires { at_of self.old + length bytes.now ≡ BLOCK }
        ensures bound { WritesAtMost result bytes.now }
        ensures bytes { WriteAppends (noted W.contents self.old) (noted W.contents self.new) result bytes.now }
        ensures failures { W.failure_count (behind self.new) ≡ count_after (is_failed_write bytes.now result) (W.failure_count (behind self.old)) }
    {
        let kept = self.block.len();
        extend(&mut self.block, bytes);
        let (sent, result) = send(&mut self.wr, self.block.as_slice(), kept);
        if let Err(error) = result {
            self.block.truncate(kept);
            drop_front(&mut self.block, sent);
            return Err(error);
        }
        let taken = sent - kept;
        self.block.clear();
        self.at = (self.at + taken) % BLOCK;
        Ok(taken)
    }
}

impl<W: CountedWrite> Failing for Blocks<W> {
    ghost use Rattle.print_blocks.specs.Blocks.{behind};

    ghost failure_count = { λ b. W.failure_count (behind b) };

    fn failures(&self) -> u64 {
        self.wr.failures()
    }
}

impl<W: CountedWrite> Write for Blocks<W> {
    ghost use Rattle.std.specs.Io.{WritesAtMost};
    ghost use Rattle.std.specs.Io.KnownBytes.{Keeps, WriteAppends};
    ghost use Rattle.base_token.specs.Counts.{is_failed_write};
    ghost use Rattle.print_blocks.specs.Blocks.{behind, noted};

    ghost contents = { noted W.contents };

    fn write(&mut self, buf: &[u8]) -> io::Result<usize>
        ensures bound { WritesAtMost result buf.now }
        ensures bytes { WriteAppends (noted W.contents self.old) (noted W.contents self.new) result buf.now }
        ensures failures { W.failure_count (behind self.new) ≡ count_after (is_failed_write buf.now result) (W.failure_count (behind self.old)) }
    {
        self.write_counted(buf)
    }

    /// Hands out what waits, and flushes the writer behind.
    fn flush(&mut self) -> io::Result<()>
        ensures bytes { Keeps (noted W.contents self.old) (noted W.contents self.new) }
    {
        self.finish()?;
        self.wr.flush()
    }
}

impl<W: CountedWrite> CountedWrite for Blocks<W> {
    /// Takes the bytes, up to the end of the block.
    ///
    /// # Errors
    ///
    /// Those of the writer behind. Then none of the bytes is taken, and what waited and isn't out still waits.
    fn write_counted(&mut self, bytes: &[u8]) -> io::Result<usize> {
        let room = BLOCK - self.at;
        if bytes.len() < room {
            extend(&mut self.block, bytes);
            self.at += bytes.len();
            return Ok(bytes.len());
        }
        self.fill(&bytes[..room])
    }

    /// Takes the bytes where they don't fill the block.
    #[inline(always)]
    fn take_all(&mut self, bytes: &[u8]) -> bool {
        if bytes.len() < BLOCK - self.at {
            extend(&mut self.block, bytes);
            self.at += bytes.len();
            return true;
        }
        false
    }
}
