//! A writer to memory that takes nothing where it fails.
ghost use Rattle.run_memory.specs.Memory.{written, writer_failures};

use crate::MemWriter;
use base_token::{CountedWrite, Failing};
use std::io;
use std::io::Write;

/// A writer to memory that answers 0 where it fails, which is a failure for bytes that are not none.
#[derive(Drop)]
pub struct Zeros {
    writer: MemWriter,
}

impl Zeros {
    ghost use Rattle.std.specs.Prelude.{◌≡◌};

    /// What writes as this writer does, and takes nothing where it fails.
    pub fn new(writer: MemWriter) -> Zeros
        ensures { result.writer ≡ writer }
    {
        Zeros { writer }
    }

    /// The writer to memory.
    pub fn into_inner(self) -> MemWriter
        ensures { result ≡ self.writer }
    {
        self.writer
    }
}

impl Failing for Zeros {
    ghost failure_count = { λ w. writer_failures w.writer };

    fn failures(&self) -> u64 {
        self.writer.failures()
    }
}

impl Write for Zeros {
    ghost use Rattle.std.specs.Prelude.{◌≡◌, Some, IsOk};
    ghost use Rattle.std.specs.Io.{WritesAtMost};
    ghost use Rattle.std.specs.Io.KnownBytes.{Keeps, WriteAppends};
    ghost use Rattle.run_memory.specs.Memory.{IsOneTake};

    ghost contents = { λ w. Some (written w.writer) };

    fn write(&mut self, buf: &[u8]) -> io::Result<usize>
        ensures bound { WritesAtMost result buf.now }
        ensures bytes { WriteAppends (Some (written self.old.writer)) (Some (written self.new.writer)) result buf.now }
        ensures one { IsOneTake self.old.writer self.new.writer buf.now result }
    {
        self.write_counted(buf)
    }

    fn flush(&mut self) -> io::Result<()>
        ensures bytes { Keeps (Some (written self.old.writer)) (Some (written self.new.writer)) }
        ensures same { self.new ≡ self.old }
        ensures succeeds { IsOk result }
    {
        self.writer.flush()
    }
}

impl CountedWrite for Zeros {
    ghost use Rattle.std.specs.Prelude.{◌≡◌, Some};
    ghost use Rattle.std.specs.Io.{WritesAtMost};
    ghost use Rattle.std.specs.Io.KnownBytes.{WriteAppends};
    ghost use Rattle.base_token.specs.Counts.{count_after, is_failed_write};
    ghost use Rattle.run_memory.specs.Memory.{IsOneTake};

    fn write_counted(&mut self, bytes: &[u8]) -> io::Result<usize>
        ensures bound { WritesAtMost result bytes.now }
        ensures bytes { WriteAppends (Some (written self.old.writer)) (Some (written self.new.writer)) result bytes.now }
        ensures failures { writer_failures self.new.writer ≡ count_after (is_failed_write bytes.now result) (writer_failures self.old.writer) }
        ensures one { IsOneTake self.old.writer self.new.writer bytes.now result }
    {
        if bytes.is_empty() {
            return Ok(0);
        }
        match self.writer.write_counted(bytes) {
            Ok(count) => Ok(count),
            Err(_) => Ok(0),
        }
    }
}
