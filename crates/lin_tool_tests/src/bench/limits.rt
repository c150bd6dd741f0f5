//! Long names and long texts.

use crate::clusters::{cluster_of, lines_of, unmet_of};
use crate::samples::BUILT_IN;
use lin_bench::ScriptLine;
use lin_core::{PortId, Step};
use std::alloc::Global;
use std::test::Fail;

/// A text with a name in place of each `door`.
fn with_name(alloc: Global, text: &[u8], name: &[u8]) -> Result<Vec<u8>, Fail> {
    let mut out = Vec::new(alloc);
    for (index, part) in std::str::from_utf8(text)?.split("door").enumerate() {
        if index > 0 {
            out.extend_from_slice(name)?;
        }
        out.extend_from_slice(part.as_bytes())?;
    }
    Ok(out)
}

#[test]
fn a_name_of_1000_bytes(rt: HostRuntime) -> Result<(), Fail> {
    let alloc = rt.alloc();
    let name = vec![in alloc; b'n'; 1000]?;
    let ldf = with_name(alloc, BUILT_IN, &name)?;
    let script = with_name(
        alloc,
        b"send cem door 3E\nh:door open\nslots idle\nexpect message cem door 3F\nexpect waiting door 1",
        &name,
    )?;
    let want = with_name(
        alloc,
        b"script 4 expected message cem door 3F: 3E\nscript 5 expected waiting door 1: 0\n",
        &name,
    )?;
    let written = unmet_of(alloc, &ldf, &script)?;
    assert!(rt; written.as_slice() == want.as_slice());
    Ok(())
}

/// A text of 16 MiB whose last line is `open`, after bytes of one kind.
fn long_text(alloc: Global, byte: u8) -> Result<Vec<u8>, Fail> {
    let mut text = vec![in alloc; byte; 16_777_211]?;
    text.extend_from_slice(b"\nopen")?;
    Ok(text)
}

#[test]
fn texts_of_16_mebibytes(rt: HostRuntime) -> Result<(), Fail> {
    let alloc = rt.alloc();
    let cluster = cluster_of(alloc, BUILT_IN)?;
    for (byte, line) in [(b'#', 2u64), (b'\n', 16_777_213)] {
        let text = long_text(alloc, byte)?;
        assert!(rt; text.len() == 16_777_216);
        let lines = lines_of(alloc, &cluster, &text)?;
        assert!(rt; lines.len() == 1);
        assert!(rt;
            matches!(
                lines.as_slice().first(),
                Some((place, ScriptLine::Step(PortId::Bus, Step::Open))) if place.line == line
            )
        );
    }
    Ok(())
}
