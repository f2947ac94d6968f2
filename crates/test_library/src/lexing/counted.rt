//! Ends that count their failures.
use crate::lexing::made::ok;
use base_token::{Counted, CountedRead, CountedWrite, Failing};
use std::io;
use std::io::{ErrorKind, Read, Write};
use std::test::Fail;

/// Answers one byte at its even calls, and is interrupted at its odd ones.
#[derive(Drop)]
struct Halting {
    calls: u64,
}

impl Read for Halting {
    fn read(&mut self, buf: &mut [u8]) -> io::Result<usize> {
        let calls = self.calls;
        self.calls = calls.wrapping_add(1);
        if calls % 2 == 1 {
            return Err(io::Error::from(ErrorKind::Interrupted));
        }
        if buf.is_empty() {
            return Ok(0);
        }
        buf[0] = b'a';
        Ok(1)
    }
}

/// Takes nothing at its odd calls, and all at its even ones.
#[derive(Drop)]
struct Full {
    calls: u64,
}

impl Write for Full {
    fn write(&mut self, buf: &[u8]) -> io::Result<usize> {
        let calls = self.calls;
        self.calls = calls.wrapping_add(1);
        if calls % 2 == 1 { Ok(0) } else { Ok(buf.len()) }
    }

    fn flush(&mut self) -> io::Result<()> {
        if self.calls > 5 {
            return Err(io::Error::from(ErrorKind::Interrupted));
        }
        Ok(())
    }
}

#[test]
fn a_failed_read_counts_once(rt: HostRuntime) -> Result<(), Fail> {
    let mut reader = Counted::new(Halting { calls: 0 });
    let mut buf = [0u8; 4];
    assert_eq!(rt; ok(&rt, reader.read_counted(&mut buf)), 1);
    assert_eq!(rt; reader.failures(), 0);
    assert!(rt; reader.read(&mut buf).is_err());
    assert_eq!(rt; reader.failures(), 1);
    let mut lent = &mut reader;
    assert_eq!(rt; ok(&rt, lent.read(&mut buf)), 1);
    assert!(rt; lent.read(&mut buf).is_err());
    assert_eq!(rt; ok(&rt, lent.read_counted(&mut buf)), 1);
    assert!(rt; lent.read_counted(&mut buf).is_err());
    assert_eq!(rt; lent.failures(), 3);
    assert_eq!(rt; reader.inner().calls, 6);
    assert_eq!(rt; reader.into_inner().calls, 6);
    Ok(())
}

#[test]
fn a_write_that_takes_nothing_counts_but_for_no_text(rt: HostRuntime) -> Result<(), Fail> {
    let mut writer = Counted::new(Full { calls: 0 });
    assert_eq!(rt; ok(&rt, writer.write_counted(b"ab")), 2);
    assert_eq!(rt; ok(&rt, writer.write_counted(b"")), 0);
    assert_eq!(rt; writer.failures(), 0);
    assert_eq!(rt; ok(&rt, writer.write(b"c")), 1);
    assert_eq!(rt; ok(&rt, writer.write(b"d")), 0);
    assert_eq!(rt; writer.failures(), 1);
    let mut lent = &mut writer;
    ok(&rt, lent.flush());
    assert_eq!(rt; ok(&rt, lent.write_counted(b"d")), 1);
    assert_eq!(rt; ok(&rt, lent.write_counted(b"e")), 0);
    assert_eq!(rt; lent.failures(), 2);
    assert!(rt; lent.flush().is_err());
    Ok(())
}
