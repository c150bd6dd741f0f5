//! Readers and writers that give and take one byte at a time, fail, count, and note what they take.

ghost use Rattle.std.specs.Prelude.{◌≡◌, IfOk, Some};

use std::alloc::Global;
use std::io::{Error, ErrorKind, Read, Result, Write};

/// Gives one byte a read, and fails after some reads.
#[derive(Drop)]
pub struct Slow<'a> {
    pub rest: &'a [u8],
    pub good: usize,
}

impl Read for Slow<'_> {
    ghost remaining = { λ r. Some r.rest.now };

    fn read(&mut self, buf: &mut [u8]) -> Result<usize> {
        if self.good == 0 {
            return Err(Error::from(ErrorKind::Other));
        }
        self.good -= 1;
        if buf.is_empty() {
            return Ok(0);
        }
        let rest = self.rest;
        match rest {
            [] => Ok(0),
            [first, more @ ..] => {
                buf[0] = *first;
                self.rest = more;
                Ok(1)
            }
        }
    }
}

/// Takes one byte a write, and refuses after some writes.
#[derive(Drop)]
pub struct Refusing {
    pub taken: Vec<u8>,
    pub good: usize,
}

impl Write for Refusing {
    ghost contents = { λ w. Some w.taken.items };

    fn write(&mut self, buf: &[u8]) -> Result<usize> {
        if self.good == 0 || buf.is_empty() {
            return Err(Error::from(ErrorKind::Other));
        }
        if self.taken.push(buf[0]).is_err() {
            return Err(Error::from(ErrorKind::OutOfMemory));
        }
        self.good -= 1;
        Ok(1)
    }

    fn flush(&mut self) -> Result<()> {
        Ok(())
    }
}

/// Gives this many spaces, one a read, and counts the reads.
#[derive(Drop)]
pub struct Counted {
    pub spaces: usize,
    pub reads: usize,
}

impl Read for Counted {
    fn read(&mut self, buf: &mut [u8]) -> Result<usize> {
        self.reads = self.reads.saturating_add(1);
        if self.spaces == 0 || buf.is_empty() {
            return Ok(0);
        }
        self.spaces -= 1;
        buf[0] = b' ';
        Ok(1)
    }
}

/// Takes each write whole, and notes its length.
#[derive(Drop)]
pub struct Pieces {
    pub taken: Vec<u8>,
    pub lengths: Vec<usize>,
}

impl Pieces {
    pub fn new(alloc: Global) -> Pieces {
        Pieces {
            taken: Vec::new(alloc),
            lengths: Vec::new(alloc),
        }
    }
}

impl Write for Pieces {
    fn write(&mut self, buf: &[u8]) -> Result<usize> {
        if self.lengths.push(buf.len()).is_err() || self.taken.extend_from_slice(buf).is_err() {
            return Err(Error::from(ErrorKind::OutOfMemory));
        }
        Ok(buf.len())
    }

    fn flush(&mut self) -> Result<()> {
        Ok(())
    }
}

/// Fails at each call in one way, or takes nothing, and counts the calls.
#[derive(Drop)]
pub struct Broken {
    pub kind: Option<ErrorKind>,
    pub calls: usize,
}

impl Broken {
    fn answer(&mut self) -> Result<usize>
        ensures { IfOk result (λ n. n ≡ 0) }
    {
        self.calls = self.calls.saturating_add(1);
        match self.kind {
            Some(kind) => Err(Error::from(kind)),
            None => Ok(0),
        }
    }
}

impl Read for Broken {
    fn read(&mut self, _buf: &mut [u8]) -> Result<usize> {
        self.answer()
    }
}

impl Write for Broken {
    fn write(&mut self, _buf: &[u8]) -> Result<usize> {
        self.answer()
    }

    fn flush(&mut self) -> Result<()> {
        Ok(())
    }
}
