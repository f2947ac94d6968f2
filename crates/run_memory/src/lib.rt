//! A reader and a writer over memory, which cut their bytes into pieces and fail where they are told to.
#![tactic(auto)]

ghost use Rattle.std.specs.Prelude.{◌≤◌, vec_len, vec_capacity};

mod calls;
mod interrupts;
mod zeros;

use base_token::{CountedRead, CountedWrite, Failing};
use calls::Calls;
pub use interrupts::Interrupts;
use std::alloc::{AllocError, Global};
use std::io;
use std::io::{Error, ErrorKind, Read, Write};
pub use zeros::Zeros;

/// A reader of bytes in memory.
#[derive(Drop)]
pub struct MemReader {
    bytes: Vec<u8>,
    at: usize,
    piece: usize,
    calls: Calls,
    ghost some: { 1 ≤ piece },
    ghost within: { at ≤ vec_len bytes },
}

impl MemReader {
    ghost use Rattle.std.specs.Prelude.{◌≡◌, ◌≤◌, IfOk};
    ghost use Rattle.run_memory.specs.Memory.{unread, reader_calls, reader_failures, reader_fails_at, reader_piece};

    /// A reader that hands out at most `piece` bytes a read, and whose `fail_at`-th call, counted from
    /// 1, fails, that call alone.
    ///
    /// # Errors
    ///
    /// `AllocError` where there is no memory for a copy of the bytes.
    pub fn new(
        alloc: Global,
        bytes: &[u8],
        piece: usize,
        fail_at: Option<u32>,
    ) -> Result<MemReader, AllocError>
        requires { 1 ≤ piece }
        ensures bytes { IfOk result (λ r. unread r ≡ bytes.now) }
        ensures calls { IfOk result (λ r. (reader_calls r ≡ 0) × (reader_failures r ≡ 0)) }
        ensures settings { IfOk result (λ r. (reader_piece r ≡ piece) × (reader_fails_at r ≡ fail_at)) }
    {
        Ok(MemReader {
            bytes: Vec::from_slice(alloc, bytes)?,
            at: 0,
            piece,
            calls: Calls::new(fail_at),
        })
    }

    /// How many reads were made. The count stays at its last value.
    pub fn calls(&self) -> u64
        ensures { result ≡ reader_calls self.now }
    {
        self.calls.made
    }
}

impl Failing for MemReader {
    ghost use Rattle.run_memory.specs.Memory.{reader_failures};

    ghost failure_count = { reader_failures };

    fn failures(&self) -> u64 {
        self.calls.failed
    }
}

impl Read for MemReader {
    ghost use Rattle.std.specs.Prelude.{Some};
    ghost use Rattle.std.specs.Io.{ReadsAtMost};
    ghost use Rattle.std.specs.Io.KnownBytes.{ReadConsumes};
    ghost use Rattle.run_memory.specs.Memory.{unread, IsOneRead};

    ghost remaining = { λ r. Some (unread r) };

    fn read(&mut self, buf: &mut [u8]) -> io::Result<usize>
        ensures bound { ReadsAtMost result buf.new }
        ensures bytes { ReadConsumes (Some (unread self.old)) (Some (unread self.new)) result buf.new }
        ensures one { IsOneRead self.old self.new buf.old result }
    {
        self.read_counted(buf)
    }
}

impl CountedRead for MemReader {
    ghost use Rattle.std.specs.Prelude.{◌≡◌, Some};
    ghost use Rattle.std.specs.Io.{ReadsAtMost};
    ghost use Rattle.std.specs.Io.KnownBytes.{ReadConsumes};
    ghost use Rattle.base_token.specs.Counts.{count_after, is_failed_read};
    ghost use Rattle.run_memory.specs.Memory.{unread, reader_failures, IsOneRead};

    fn read_counted(&mut self, buf: &mut [u8]) -> io::Result<usize>
        ensures bound { ReadsAtMost result buf.new }
        ensures bytes { ReadConsumes (Some (unread self.old)) (Some (unread self.new)) result buf.new }
        ensures failures { reader_failures self.new ≡ count_after (is_failed_read result) (reader_failures self.old) }
        ensures one { IsOneRead self.old self.new buf.old result }
    {
        if self.calls.begin() {
            self.calls.count_failure();
            return Err(Error::from(ErrorKind::Other));
        }
        let rest = &self.bytes[self.at..];
        let count = rest.len().min(buf.len().min(self.piece));
        buf[..count].copy_from_slice(&rest[..count]);
        self.at += count;
        Ok(count)
    }
}

/// A writer to memory.
#[derive(Drop)]
pub struct MemWriter {
    bytes: Vec<u8>,
    room: usize,
    piece: usize,
    calls: Calls,
    ghost some: { 1 ≤ piece },
    ghost within: { vec_len bytes ≤ room },
    ghost roomy: { room ≤ vec_capacity bytes },
}

impl MemWriter {
    ghost use Rattle.std.specs.Prelude.{◌≡◌, ◌≤◌, [], IfOk};
    ghost use Rattle.run_memory.specs.Memory.{written, writer_calls, writer_failures, writer_fails_at, writer_piece, writer_room};

    /// A writer with room for `room` bytes, so that no write takes memory. It takes at most `piece`
    /// bytes a write, and fails at its `fail_at`-th call, counted from 1, and once its room is used up.
    ///
    /// # Errors
    ///
    /// `AllocError` where there is no memory for the room.
    pub fn new(
        alloc: Global,
        room: usize,
        piece: usize,
        fail_at: Option<u32>,
    ) -> Result<MemWriter, AllocError>
        requires { 1 ≤ piece }
        ensures bytes { IfOk result (λ w. written w ≡ []) }
        ensures calls { IfOk result (λ w. (writer_calls w ≡ 0) × (writer_failures w ≡ 0)) }
        ensures settings { IfOk result (λ w. (writer_piece w ≡ piece) × (writer_room w ≡ room) × (writer_fails_at w ≡ fail_at)) }
    {
        Ok(MemWriter {
            bytes: Vec::with_capacity(alloc, room)?,
            room,
            piece,
            calls: Calls::new(fail_at),
        })
    }

    /// The bytes that were written.
    pub fn bytes(&self) -> &[u8]
        ensures { result.now ≡ written self.now }
    {
        self.bytes.as_slice()
    }

    /// How many writes were made. The count stays at its last value.
    pub fn calls(&self) -> u64
        ensures { result ≡ writer_calls self.now }
    {
        self.calls.made
    }
}

impl Failing for MemWriter {
    ghost use Rattle.run_memory.specs.Memory.{writer_failures};

    ghost failure_count = { writer_failures };

    fn failures(&self) -> u64 {
        self.calls.failed
    }
}

impl Write for MemWriter {
    ghost use Rattle.std.specs.Prelude.{◌≡◌, Some, IsOk};
    ghost use Rattle.std.specs.Io.{WritesAtMost};
    ghost use Rattle.std.specs.Io.KnownBytes.{Keeps, WriteAppends};
    ghost use Rattle.run_memory.specs.Memory.{written, IsOneWrite};

    ghost contents = { λ w. Some (written w) };

    fn write(&mut self, buf: &[u8]) -> io::Result<usize>
        ensures bound { WritesAtMost result buf.now }
        ensures bytes { WriteAppends (Some (written self.old)) (Some (written self.new)) result buf.now }
        ensures one { IsOneWrite self.old self.new buf.now result }
    {
        self.write_counted(buf)
    }

    fn flush(&mut self) -> io::Result<()>
        ensures bytes { Keeps (Some (written self.old)) (Some (written self.new)) }
        ensures same { self.new ≡ self.old }
        ensures succeeds { IsOk result }
    {
        Ok(())
    }
}

impl CountedWrite for MemWriter {
    ghost use Rattle.std.specs.Prelude.{◌≡◌, Some};
    ghost use Rattle.std.specs.Io.{WritesAtMost};
    ghost use Rattle.std.specs.Io.KnownBytes.{WriteAppends};
    ghost use Rattle.base_token.specs.Counts.{count_after, is_failed_write};
    ghost use Rattle.run_memory.specs.Memory.{written, writer_failures, IsOneWrite};

    fn write_counted(&mut self, bytes: &[u8]) -> io::Result<usize>
        ensures bound { WritesAtMost result bytes.now }
        ensures bytes { WriteAppends (Some (written self.old)) (Some (written self.new)) result bytes.now }
        ensures failures { writer_failures self.new ≡ count_after (is_failed_write bytes.now result) (writer_failures self.old) }
        ensures one { IsOneWrite self.old self.new bytes.now result }
    {
        let left = self.room - self.bytes.len();
        let count = bytes.len().min(self.piece.min(left));
        if self.calls.begin() || (left == 0 && !bytes.is_empty()) {
            self.calls.count_failure();
            return Err(Error::from(ErrorKind::StorageFull));
        }
        self.bytes.extend_from_slice(&bytes[..count]).unwrap();
        Ok(count)
    }
}
