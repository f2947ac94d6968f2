//! A reader over memory that is interrupted.
ghost use Rattle.run_memory.specs.Memory.{unread, reader_failures};

use crate::MemReader;
use base_token::{CountedRead, Failing};
use std::io;
use std::io::{Error, ErrorKind, Read};

/// A reader over memory whose failures say that it was interrupted, which is a failure as any other.
#[derive(Drop)]
pub struct Interrupts {
    reader: MemReader,
}

impl Interrupts {
    ghost use Rattle.std.specs.Prelude.{◌≡◌};

    /// What reads as this reader does, and is interrupted where it fails.
    pub fn new(reader: MemReader) -> Interrupts
        ensures { result.reader ≡ reader }
    {
        Interrupts { reader }
    }

    /// The reader over memory.
    pub fn into_inner(self) -> MemReader
        ensures { result ≡ self.reader }
    {
        self.reader
    }
}

impl Failing for Interrupts {
    ghost failure_count = { λ r. reader_failures r.reader };

    fn failures(&self) -> u64 {
        self.reader.failures()
    }
}

impl Read for Interrupts {
    ghost use Rattle.std.specs.Prelude.{◌≡◌, Some, IfErr};
    ghost use Rattle.std.specs.Io.{ReadsAtMost};
    ghost use Rattle.std.specs.Io.KnownBytes.{ReadConsumes};
    ghost use Rattle.std.specs.IoError.{error_kind};
    ghost use Rattle.run_memory.specs.Memory.{IsOneRead};

    ghost remaining = { λ r. Some (unread r.reader) };

    fn read(&mut self, buf: &mut [u8]) -> io::Result<usize>
        ensures bound { ReadsAtMost result buf.new }
        ensures bytes { ReadConsumes (Some (unread self.old.reader)) (Some (unread self.new.reader)) result buf.new }
        ensures one { IsOneRead self.old.reader self.new.reader buf.old result }
        ensures interrupted { IfErr result (λ error. error_kind error ≡ ErrorKind.Interrupted) }
    {
        self.read_counted(buf)
    }
}

impl CountedRead for Interrupts {
    ghost use Rattle.std.specs.Prelude.{◌≡◌, Some, IfErr};
    ghost use Rattle.std.specs.Io.{ReadsAtMost};
    ghost use Rattle.std.specs.Io.KnownBytes.{ReadConsumes};
    ghost use Rattle.std.specs.IoError.{error_kind};
    ghost use Rattle.base_token.specs.Counts.{count_after, is_failed_read};
    ghost use Rattle.run_memory.specs.Memory.{IsOneRead};

    fn read_counted(&mut self, buf: &mut [u8]) -> io::Result<usize>
        ensures bound { ReadsAtMost result buf.new }
        ensures bytes { ReadConsumes (Some (unread self.old.reader)) (Some (unread self.new.reader)) result buf.new }
        ensures failures { reader_failures self.new.reader ≡ count_after (is_failed_read result) (reader_failures self.old.reader) }
        ensures one { IsOneRead self.old.reader self.new.reader buf.old result }
        ensures interrupted { IfErr result (λ error. error_kind error ≡ ErrorKind.Interrupted) }
    {
        match self.reader.read_counted(buf) {
            Ok(count) => Ok(count),
            Err(_) => Err(Error::from(ErrorKind::Interrupted)),
        }
    }
}
