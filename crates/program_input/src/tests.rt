// Reading from a fake reader: what a read gives is put behind what came before, and a failed read ends it.
use crate::read_full;
use std::io;
use std::io::{ErrorKind, Read};

// A reader that gives one byte a read, the number of the read; the third read fails.
#[derive(Drop)]
struct Halting {
    reads: u8,
}

impl Read for Halting {
    fn read(&mut self, buf: &mut [u8]) -> io::Result<usize> {
        if buf.len() == 0 {
            return Ok(0);
        }
        if 1 < self.reads {
            return Err(io::Error::from(ErrorKind::Other));
        }
        self.reads += 1;
        buf[0] = self.reads;
        Ok(1)
    }
}

// One byte a read fills the slice.
#[test]
fn short_reads_fill(rt: HostRuntime) {
    let mut reader = Halting { reads: 0 };
    let mut buf = [0u8; 2];
    match read_full(&mut reader, &mut buf) {
        Ok(n) => assert!(rt; n == 2, "two bytes have room"),
        Err(e) => assert!(rt; false, "two reads failed: {e}"),
    }
    assert!(rt; buf[0] == 1, "the first read's byte");
    assert!(rt; buf[1] == 2, "the second read's byte");
}

// The error of a read is no end of the input.
#[test]
fn failed_read_is_told(rt: HostRuntime) {
    let mut reader = Halting { reads: 0 };
    let mut buf = [0u8; 3];
    match read_full(&mut reader, &mut buf) {
        Ok(n) => assert!(rt; false, "a failed read gave {n} bytes"),
        Err(e) => assert!(rt; e.kind() == ErrorKind::Other, "the error of the read"),
    }
}
