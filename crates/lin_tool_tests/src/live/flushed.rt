//! Each answer is flushed before the next line is read.

use super::lengths::Lengths;
use super::watched::{Keeping, Watching};
use crate::fakes::Piecewise;
use lin_live::{Fault, live};
use std::alloc::Global;
use std::sync::Arc;
use std::sync::atomic::{AtomicU64, Ordering};
use std::test::Fail;

/// How a loop ended, what it wrote, how often it read, how often it did so before all was flushed,
/// and how many bytes weren't flushed at the end.
#[derive(Drop)]
struct Outcome {
    result: Result<(), Fault>,
    written: Vec<u8>,
    reads: u64,
    early: u64,
    left: u64,
}

/// Answers lines that come two bytes at a time, to a writer that fails after so many flushes.
fn watched(alloc: Global, input: &[u8], flushes: u64) -> Result<Outcome, Fail> {
    let kept = Arc::new(alloc, AtomicU64::new(0))?;
    let mut lengths = Lengths { places: 1000 };
    let mut reader = Watching {
        pieces: Piecewise::new(input, 2),
        kept: Arc::try_clone(&kept)?,
        reads: 0,
        early: 0,
    };
    let mut writer = Keeping {
        taken: Vec::new(alloc),
        kept: Arc::try_clone(&kept)?,
        flushes,
    };
    let result = live(alloc, &mut lengths, &mut reader, &mut writer);
    Ok(Outcome {
        result,
        written: writer.taken,
        reads: reader.reads,
        early: reader.early,
        left: kept.load(Ordering::SeqCst),
    })
}

#[test]
fn an_answer_is_flushed_before_the_next_read(rt: HostRuntime) -> Result<(), Fail> {
    let cases: [(&[u8], &[u8], u64); 3] = [
        (b"a\nb\nc\n", b"a1\nb1\nc1\n", 4),
        (b"\n\n\n\n", b"0\n0\n0\n0\n", 3),
        (b"a\nlast", b"a1\nlast4\n", 4),
    ];
    for (input, want, reads) in cases {
        let end = watched(rt.alloc(), input, 1000)?;
        assert!(rt; end.result.is_ok());
        assert!(rt; end.written.as_slice() == want);
        assert_eq!(rt; end.reads, reads);
        assert_eq!(rt; end.early, 0);
        assert_eq!(rt; end.left, 0);
    }
    Ok(())
}

#[test]
fn a_failed_flush_ends_the_loop(rt: HostRuntime) -> Result<(), Fail> {
    let cases: [(u64, &[u8], u64); 3] = [
        (0, b"a1\n", 3),
        (1, b"a1\nb1\n", 3),
        (2, b"a1\nb1\nlast4\n", 6),
    ];
    for (flushes, want, left) in cases {
        let end = watched(rt.alloc(), b"a\nb\nlast", flushes)?;
        assert!(rt; matches!(end.result, Err(Fault::WriteFailed)));
        assert!(rt; end.written.as_slice() == want);
        assert_eq!(rt; end.left, left);
    }
    let end = watched(rt.alloc(), b"a\nb\nlast", 3)?;
    assert!(rt; end.result.is_ok());
    Ok(())
}
