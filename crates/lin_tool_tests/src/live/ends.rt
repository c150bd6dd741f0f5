//! Loops that end early, and what was answered by then.

use super::lengths::Lengths;
use crate::fakes::{Narrow, Piecewise};
use lin_live::{Fault, live};
use std::alloc::Global;
use std::test::Fail;

/// How a loop ended, and what it wrote.
#[derive(Drop)]
struct Outcome {
    result: Result<(), Fault>,
    written: Vec<u8>,
}

/// Answers the lines of an input to a writer that takes `room` bytes, where the reader may fail at
/// its end, and there are places for so many lines.
fn ended(alloc: Global, input: &[u8], fails: bool, room: usize, places: usize) -> Outcome {
    let mut lengths = Lengths { places };
    let mut reader = Piecewise::new(input, 4);
    reader.fails = fails;
    let mut writer = Narrow {
        taken: Vec::new(alloc),
        left: room,
    };
    let result = live(alloc, &mut lengths, &mut reader, &mut writer);
    Outcome {
        result,
        written: writer.taken,
    }
}

#[test]
fn a_failed_read_leaves_the_answers_to_whole_lines(rt: HostRuntime) -> Result<(), Fail> {
    let alloc = rt.alloc();
    let cases: [(&[u8], &[u8]); 4] = [
        (b"", b""),
        (b"abc", b""),
        (b"a\nb\n", b"a1\nb1\n"),
        (b"a\nb\nc", b"a1\nb1\n"),
    ];
    for (input, want) in cases {
        let end = ended(alloc, input, true, 1000, 1000);
        assert!(rt; matches!(end.result, Err(Fault::ReadFailed)));
        assert!(rt; end.written.as_slice() == want);
    }
    Ok(())
}

#[test]
fn a_failed_write_leaves_a_beginning(rt: HostRuntime) -> Result<(), Fail> {
    let alloc = rt.alloc();
    let want: &[u8] = b"a1\nbcd3\nlast4\n";
    for room in 0..want.len() {
        let end = ended(alloc, b"a\nbcd\nlast", false, room, 1000);
        assert!(rt; matches!(end.result, Err(Fault::WriteFailed)));
        assert!(rt; end.written.as_slice() == &want[..room]);
    }
    let end = ended(alloc, b"a\nbcd\nlast", false, want.len(), 1000);
    assert!(rt; end.result.is_ok());
    Ok(())
}

#[test]
fn a_line_without_a_place(rt: HostRuntime) -> Result<(), Fail> {
    let alloc = rt.alloc();
    let cases: [(usize, &[u8]); 3] = [(0, b""), (1, b"a1\n"), (2, b"a1\nb1\n")];
    for (places, want) in cases {
        let end = ended(alloc, b"a\nb\nlast", false, 1000, places);
        assert!(rt; matches!(end.result, Err(Fault::LogFull)));
        assert!(rt; end.written.as_slice() == want);
    }
    let end = ended(alloc, b"a\nb\nlast", false, 1000, 3);
    assert!(rt; end.result.is_ok());
    Ok(())
}
