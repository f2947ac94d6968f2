//! Readers and writers that count the calls of theirs that failed.
ghost use Rattle.std.specs.Prelude.{◌≡◌, ℕ, [], if◌then◌else◌};
ghost use Rattle.std.specs.Io.{ReadsAtMost, WritesAtMost};
ghost use Rattle.std.specs.Io.KnownBytes.{Appends, Keeps, ReadConsumes, WriteAppends};
ghost use Rattle.base_token.specs.Counts.{count_after, is_failed_read, is_failed_write};

use std::io;
use std::io::{Read, Write};

/// How many reads or writes have failed.
pub trait Failing {
    /// The count.
    ghost failure_count: { Self → ℕ };

    /// The reads or writes that failed so far: an interrupted one counts, and so does a write that
    /// took nothing of a text that isn't empty. The count stays at its last value.
    fn failures(&self) -> u64
        ensures { result ≡ failure_count self.now };
}

/// A reader whose failures are counted.
pub trait CountedRead: Read + Failing {
    /// One read. The count rises by one exactly where it failed.
    ///
    /// # Errors
    ///
    /// The reader's own; an interrupted read is one of them.
    fn read_counted(&mut self, buf: &mut [u8]) -> io::Result<usize>
        ensures bound { ReadsAtMost result buf.new }
        ensures bytes { ReadConsumes (Self.remaining self.old) (Self.remaining self.new) result buf.new }
        ensures failures { Self.failure_count self.new ≡ count_after (is_failed_read result) (Self.failure_count self.old) };
}

/// A writer whose failures are counted.
pub trait CountedWrite: Write + Failing {
    /// One write. The count rises by one exactly where it failed.
    ///
    /// # Errors
    ///
    /// The writer's own; an interrupted write is one of them.
    fn write_counted(&mut self, bytes: &[u8]) -> io::Result<usize>
        ensures bound { WritesAtMost result bytes.now }
        ensures bytes { WriteAppends (Self.contents self.old) (Self.contents self.new) result bytes.now }
        ensures failures { Self.failure_count self.new ≡ count_after (is_failed_write bytes.now result) (Self.failure_count self.old) };

    /// Takes all of the bytes where no call that could fail is needed for that, and tells whether it did. Else nothing
    /// changes: `write_counted` takes what `take_all` leaves.
    fn take_all(&mut self, bytes: &[u8]) -> bool
        ensures bytes { Appends (Self.contents self.old) (Self.contents self.new) (if result then bytes.now else []) }
        ensures failures { Self.failure_count self.new ≡ Self.failure_count self.old }
    {
        let _ = bytes;
        false
    }
}

/// Any reader or writer, with a count of its failures.
#[derive(Drop)]
pub struct Counted<T> {
    inner: T,
    failures: u64,
}

impl<T> Counted<T> {
    /// The reader or writer, with no failure so far.
    pub fn new(inner: T) -> Counted<T>
        ensures inner { result.inner ≡ inner }
        ensures failures { result.failures ≡ 0 }
    {
        Counted { inner, failures: 0 }
    }

    /// The reader or writer.
    pub fn inner(&self) -> &T
        ensures { result.now ≡ self.now.inner }
    {
        &self.inner
    }

    /// The reader or writer again.
    pub fn into_inner(self) -> T
        ensures { result ≡ self.inner }
    {
        let Counted { inner, failures: _ } = self;
        inner
    }

    fn count(&mut self, failed: bool)
        ensures inner { self.new.inner ≡ self.old.inner }
        ensures failures { self.new.failures ≡ count_after failed self.old.failures }
    {
        if failed && self.failures < u64::MAX {
            self.failures += 1;
        }
    }
}

impl<T> Failing for Counted<T> {
    ghost failure_count = { λ c. c.failures };

    fn failures(&self) -> u64 {
        self.failures
    }
}

impl<R: Read> Read for Counted<R> {
    ghost remaining = { λ c. R.remaining c.inner };

    fn read(&mut self, buf: &mut [u8]) -> io::Result<usize>
        ensures bound { ReadsAtMost result buf.new }
        ensures bytes { ReadConsumes (R.remaining self.old.inner) (R.remaining self.new.inner) result buf.new }
        ensures failures { self.new.failures ≡ count_after (is_failed_read result) self.old.failures }
    {
        self.read_counted(buf)
    }
}

impl<R: Read> CountedRead for Counted<R> {
    fn read_counted(&mut self, buf: &mut [u8]) -> io::Result<usize> {
        let result = self.inner.read(buf);
        self.count(result.is_err());
        result
    }
}

impl<W: Write> Write for Counted<W> {
    ghost contents = { λ c. W.contents c.inner };

    fn write(&mut self, buf: &[u8]) -> io::Result<usize>
        ensures bound { WritesAtMost result buf.now }
        ensures bytes { WriteAppends (W.contents self.old.inner) (W.contents self.new.inner) result buf.now }
        ensures failures { self.new.failures ≡ count_after (is_failed_write buf.now result) self.old.failures }
    {
        self.write_counted(buf)
    }

    fn flush(&mut self) -> io::Result<()>
        ensures bytes { Keeps (W.contents self.old.inner) (W.contents self.new.inner) }
        ensures failures { self.new.failures ≡ self.old.failures }
    {
        self.inner.flush()
    }
}

impl<W: Write> CountedWrite for Counted<W> {
    fn write_counted(&mut self, bytes: &[u8]) -> io::Result<usize> {
        let result = self.inner.write(bytes);
        let took_nothing = matches!(result, Ok(0)) && !bytes.is_empty();
        self.count(result.is_err() || took_nothing);
        result
    }
}

impl<T: Failing> Failing for &mut T {
    ghost failure_count = { λ t. T.failure_count t.now };

    fn failures(&self) -> u64 {
        Failing::failures(&**self)
    }
}

impl<R: CountedRead> CountedRead for &mut R {
    fn read_counted(&mut self, buf: &mut [u8]) -> io::Result<usize> {
        CountedRead::read_counted(&mut **self, buf)
    }
}

impl<W: CountedWrite> CountedWrite for &mut W {
    fn write_counted(&mut self, bytes: &[u8]) -> io::Result<usize> {
        CountedWrite::write_counted(&mut **self, bytes)
    }

    fn take_all(&mut self, bytes: &[u8]) -> bool {
        CountedWrite::take_all(&mut **self, bytes)
    }
}
