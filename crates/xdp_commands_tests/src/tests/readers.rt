//! Readers and writers for tests.
use std::io::{Error, ErrorKind, Read, Write};

/// A reader whose reads fail.
#[derive(Drop)]
pub struct Unreadable;

impl Read for Unreadable {
    fn read(&mut self, _buffer: &mut [u8]) -> std::io::Result<usize> {
        Err(Error::from(ErrorKind::Other))
    }
}

/// A reader that gives one byte a call, and fails after some calls.
#[derive(Drop)]
pub struct Drip<'a> {
    pub left: &'a [u8],
    pub fails_at: usize,
}

impl Read for Drip<'_> {
    fn read(&mut self, buffer: &mut [u8]) -> std::io::Result<usize> {
        if self.fails_at == 0 {
            return Err(Error::from(ErrorKind::Interrupted));
        }
        self.fails_at -= 1;
        match (self.left.split_first(), buffer.first_mut()) {
            (Some((first, rest)), Some(place)) => {
                *place = *first;
                self.left = rest;
                Ok(1)
            }
            _ => Ok(0),
        }
    }
}

/// A reader that never ends, and counts its reads.
#[derive(Drop)]
pub struct Endless {
    pub reads: u64,
}

impl Read for Endless {
    fn read(&mut self, buffer: &mut [u8]) -> std::io::Result<usize> {
        self.reads = self.reads.saturating_add(1);
        match buffer.first_mut() {
            Some(place) => {
                *place = b'#';
                Ok(1)
            }
            None => Ok(0),
        }
    }
}

/// A writer that takes one byte a call, and fails after some.
#[derive(Drop)]
pub struct Narrow {
    pub held: Vec<u8>,
    pub fails_at: usize,
}

impl Write for Narrow {
    fn write(&mut self, bytes: &[u8]) -> std::io::Result<usize> {
        if self.fails_at == 0 {
            return Err(Error::from(ErrorKind::Interrupted));
        }
        self.fails_at -= 1;
        match bytes.first() {
            Some(byte) => {
                self.held.push(*byte)?;
                Ok(1)
            }
            None => Ok(0),
        }
    }

    fn flush(&mut self) -> std::io::Result<()> {
        Ok(())
    }
}

/// A writer that takes nothing.
#[derive(Drop)]
pub struct Full;

impl Write for Full {
    fn write(&mut self, _bytes: &[u8]) -> std::io::Result<usize> {
        Ok(0)
    }

    fn flush(&mut self) -> std::io::Result<()> {
        Ok(())
    }
}
