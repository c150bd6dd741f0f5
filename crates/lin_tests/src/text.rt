//! Texts that are written in large pieces, and readers and writers that fail.

use crate::log::fakes::{Broken, Pieces};
use crate::samples::{DOOR_CLUSTER, cluster_of, joined};
use lin_log::replay;
use lin_text::{ReadFault, TextBuffer, TextWriter, read_whole};
use std::alloc::Global;
use std::io::ErrorKind;
use std::process::Abort;
use std::test::Fail;

/// More bytes than the buffer of a text writer takes.
const MORE_THAN_THE_BUFFER: usize = 70_000;

/// What waits is written, then the bytes that the buffer doesn't take by themselves, then the rest.
#[test]
fn puts_what_no_buffer_takes(rt: HostRuntime) -> Result<(), Fail> {
    let mut long = Vec::new(rt.alloc());
    long.resize(MORE_THAN_THE_BUFFER, b'x')?;
    let mut writer = Pieces::new(rt.alloc());
    let mut buffer = TextBuffer::empty();
    let mut text = TextWriter::new(&mut writer, &mut buffer);
    text.put_text("> a");
    text.put(long.as_slice());
    text.put_byte(b'\n');
    assert!(rt; text.finish().is_ok());
    assert!(rt; writer.lengths.as_slice() == [3, MORE_THAN_THE_BUFFER, 1].as_slice());
    let wanted = joined(rt.alloc(), &[b"> a", long.as_slice(), b"\n"])?;
    assert!(rt; writer.taken.as_slice() == wanted.as_slice());
    Ok(())
}

/// What waited of a text that wasn't finished is gone.
#[test]
fn begins_with_an_empty_buffer(rt: HostRuntime) {
    let mut buffer = TextBuffer::empty();
    let mut writer = Pieces::new(rt.alloc());
    {
        let mut left = TextWriter::new(&mut writer, &mut buffer);
        left.put_text("> a");
    }
    let mut text = TextWriter::new(&mut writer, &mut buffer);
    text.put_text("> b");
    assert!(rt; text.finish().is_ok());
    assert!(rt; writer.taken.as_slice() == b"> b".as_slice());
}

/// How long the writes are of the log of so many finishes that are refused.
fn lengths_of_writes(rt: &impl Abort, alloc: Global, finishes: usize) -> Result<Vec<usize>, Fail> {
    let mut script = Vec::new(alloc);
    let mut log = Vec::new(alloc);
    for _ in 0..finishes {
        script.extend_from_slice(b"bus finish\n")?;
        log.extend_from_slice(b"bus finish\n> refused 13\n")?;
    }
    let cluster = cluster_of(alloc, DOOR_CLUSTER)?;
    assert!(rt; cluster.tables() > 0);
    let mut reader = script.as_slice();
    let mut writer = Pieces::new(alloc);
    replay(alloc, cluster, 0, 16, &mut reader, &mut writer)?;
    assert!(rt; writer.taken.as_slice() == log.as_slice());
    Ok(writer.lengths)
}

#[test]
fn writes_large_pieces(rt: HostRuntime) -> Result<(), Fail> {
    assert!(rt; lengths_of_writes(&rt, rt.alloc(), 1)?.as_slice() == [24].as_slice());
    let lengths = lengths_of_writes(&rt, rt.alloc(), 10_000)?;
    assert!(rt; lengths.len() == 4);
    for length in &lengths.as_slice()[..3] {
        assert!(rt; *length >= 32_768);
    }
    Ok(())
}

/// A reader and a writer that fail aren't asked again, however they fail.
#[test]
fn asked_once_where_that_fails(rt: HostRuntime) {
    for kind in [ErrorKind::OutOfMemory, ErrorKind::Interrupted] {
        let mut reader = Broken {
            kind: Some(kind),
            calls: 0,
        };
        let text = read_whole(rt.alloc(), &mut reader, 1000);
        assert!(rt; matches!(text, Err(ReadFault::ReadFailed)));
        assert!(rt; reader.calls == 1);
    }
    for kind in [Some(ErrorKind::Interrupted), None] {
        let mut writer = Broken { kind, calls: 0 };
        let mut buffer = TextBuffer::empty();
        let mut text = TextWriter::new(&mut writer, &mut buffer);
        text.put_text("> a");
        assert!(rt; text.finish().is_err());
        assert!(rt; writer.calls == 1);
    }
}
