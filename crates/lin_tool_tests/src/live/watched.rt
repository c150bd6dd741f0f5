//! A writer that keeps what isn't flushed, and a reader that looks at it before each read.

use crate::fakes::Piecewise;
use std::alloc::Global;
use std::io::{Error, ErrorKind, Read, Result, Write};
use std::sync::Arc;
use std::sync::atomic::{AtomicU64, Ordering};

/// Counts the bytes that were written since the last flush, and fails after so many flushes.
#[derive(Drop)]
pub struct Keeping {
    pub taken: Vec<u8>,
    pub kept: Arc<AtomicU64, Global>,
    pub flushes: u64,
}

impl Write for Keeping {
    fn write(&mut self, buf: &[u8]) -> Result<usize> {
        if self.taken.extend_from_slice(buf).is_err() {
            return Err(Error::from(ErrorKind::OutOfMemory));
        }
        self.kept.fetch_add(buf.len() as u64, Ordering::SeqCst);
        Ok(buf.len())
    }

    fn flush(&mut self) -> Result<()> {
        if self.flushes == 0 {
            return Err(Error::from(ErrorKind::Other));
        }
        self.flushes -= 1;
        self.kept.store(0, Ordering::SeqCst);
        Ok(())
    }
}

/// Gives two bytes a read, and counts the reads, and those at which the writer kept something.
#[derive(Drop)]
pub struct Watching<'a> {
    pub pieces: Piecewise<'a>,
    pub kept: Arc<AtomicU64, Global>,
    pub reads: u64,
    pub early: u64,
}

impl Read for Watching<'_> {
    fn read(&mut self, buf: &mut [u8]) -> Result<usize> {
        self.reads = self.reads.saturating_add(1);
        if self.kept.load(Ordering::SeqCst) != 0 {
            self.early = self.early.saturating_add(1);
        }
        self.pieces.read(buf)
    }
}
