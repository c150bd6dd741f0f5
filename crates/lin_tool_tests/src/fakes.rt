//! Readers and writers that give and take a few bytes at a time, are interrupted, and fail.

use std::io::{Error, ErrorKind, Read, Result, Write};

/// Gives some bytes a read, is interrupted before each read, if that is wanted, and ends or fails
/// where no byte is left.
#[derive(Drop)]
pub struct Piecewise<'a> {
    pub rest: &'a [u8],
    pub most: usize,
    /// Whether the next read is interrupted, and each second one after it.
    pub interrupts: Option<bool>,
    pub fails: bool,
}

impl<'a> Piecewise<'a> {
    pub fn new(rest: &'a [u8], most: usize) -> Piecewise<'a> {
        Piecewise {
            rest,
            most,
            interrupts: None,
            fails: false,
        }
    }
}

impl Read for Piecewise<'_> {
    fn read(&mut self, buf: &mut [u8]) -> Result<usize> {
        if let Some(now) = self.interrupts {
            self.interrupts = Some(!now);
            if now {
                return Err(Error::from(ErrorKind::Interrupted));
            }
        }
        if self.rest.is_empty() && self.fails {
            return Err(Error::from(ErrorKind::Other));
        }
        let rest = self.rest;
        let count = rest.len().min(self.most).min(buf.len());
        buf[..count].copy_from_slice(&rest[..count]);
        self.rest = &rest[count..];
        Ok(count)
    }
}

/// Takes so many bytes in all, and then refuses.
#[derive(Drop)]
pub struct Narrow {
    pub taken: Vec<u8>,
    pub left: usize,
}

impl Write for Narrow {
    fn write(&mut self, buf: &[u8]) -> Result<usize> {
        let count = buf.len().min(self.left);
        if count == 0 {
            return Err(Error::from(ErrorKind::Other));
        }
        if self.taken.extend_from_slice(&buf[..count]).is_err() {
            return Err(Error::from(ErrorKind::OutOfMemory));
        }
        self.left -= count;
        Ok(count)
    }

    fn flush(&mut self) -> Result<()> {
        Ok(())
    }
}
