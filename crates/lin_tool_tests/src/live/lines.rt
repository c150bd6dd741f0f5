//! Lines, and the answers to them.

use super::lengths::Lengths;
use crate::fakes::{Narrow, Piecewise};
use lin_live::live;
use std::alloc::Global;
use std::test::Fail;

/// What is answered to the lines of an input that comes in pieces of at most `most` bytes.
fn answers(
    alloc: Global,
    input: &[u8],
    most: usize,
    interrupts: Option<bool>,
) -> Result<Vec<u8>, Fail> {
    let mut lengths = Lengths { places: 1000 };
    let mut reader = Piecewise::new(input, most);
    reader.interrupts = interrupts;
    let mut writer = Narrow {
        taken: Vec::new(alloc),
        left: 1_000_000,
    };
    live(alloc, &mut lengths, &mut reader, &mut writer)?;
    Ok(writer.taken)
}

const INPUTS: [(&[u8], &[u8]); 10] = [
    (b"", b""),
    (b"\n", b"0\n"),
    (b"a", b"a1\n"),
    (b"a\n", b"a1\n"),
    (b"a\n\nbcd\nlast", b"a1\n0\nbcd3\nlast4\n"),
    (b"a\r\n\r\nb\r", b"a1\n0\nb1\n"),
    (b"\r", b"0\n"),
    (b"a\r\r\n", b"a\r2\n"),
    (b"\ra\n", b"\ra2\n"),
    (b"abcdefghij\nklmnopqrst\n\n", b"abcd10\nklmn10\n0\n"),
];

#[test]
fn lines_in_pieces_of_any_size(rt: HostRuntime) -> Result<(), Fail> {
    let alloc = rt.alloc();
    for (input, want) in INPUTS {
        for most in 1..30 {
            let written = answers(alloc, input, most, None)?;
            assert!(rt; written.as_slice() == want);
        }
    }
    Ok(())
}

#[test]
fn an_interrupted_reader_is_asked_again(rt: HostRuntime) -> Result<(), Fail> {
    let alloc = rt.alloc();
    for (input, want) in INPUTS {
        for first in [false, true] {
            let written = answers(alloc, input, 3, Some(first))?;
            assert!(rt; written.as_slice() == want);
        }
    }
    Ok(())
}

/// A line of so many bytes, its end, and one more line.
fn long_input(alloc: Global, length: usize, end: &[u8]) -> Result<Vec<u8>, Fail> {
    let mut input = vec![in alloc; b'x'; length]?;
    input.extend_from_slice(end)?;
    input.extend_from_slice(b"y\n")?;
    Ok(input)
}

#[test]
fn the_longest_line(rt: HostRuntime) -> Result<(), Fail> {
    let alloc = rt.alloc();
    let cases: [(usize, &[u8], &[u8]); 3] = [
        (16_777_216, b"\n", b"xxxx16777216\ny1\n"),
        (16_777_216, b"\r\n", b"xxxx16777216\ny1\n"),
        (16_777_217, b"\n", b"long\ny1\n"),
    ];
    for (length, end, want) in cases {
        let input = long_input(alloc, length, end)?;
        let written = answers(alloc, &input, 65_536, None)?;
        assert!(rt; written.as_slice() == want);
    }
    Ok(())
}

#[test]
fn a_long_line_without_its_end(rt: HostRuntime) -> Result<(), Fail> {
    let alloc = rt.alloc();
    let input = vec![in alloc; b'x'; 16_777_217]?;
    let written = answers(alloc, &input, 65_536, None)?;
    assert!(rt; written.as_slice() == b"long\n".as_slice());
    Ok(())
}
