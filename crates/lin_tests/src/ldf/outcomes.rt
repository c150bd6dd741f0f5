//! What comes of reading a text: it is accepted, or its fault.

use crate::samples::{expect_text, joined};
use lin_ldf::parse;
use std::alloc::Global;
use std::process::Abort;
use std::test::Fail;

/// "accepted", or the fault.
pub(super) fn outcome(alloc: Global, source: &[u8]) -> Result<String, Fail> {
    match parse(alloc, source).err() {
        None => Ok("accepted".to_string(alloc)?),
        Some(fault) => Ok(fault.to_string(alloc)?),
    }
}

/// Each line has a text and, after an arrow, its outcome. The front stands before each text.
pub(super) fn expect_outcomes(
    rt: &impl Abort,
    alloc: Global,
    front: &[u8],
    cases: &str,
) -> Result<(), Fail> {
    for line in cases.lines() {
        let (text, want) = line.split_once(" => ").ok_or("no arrow")?;
        let source = joined(alloc, &[front, text.as_bytes()])?;
        let found = outcome(alloc, &source)?;
        expect_text(rt, found.as_bytes(), want.as_bytes(), text);
    }
    Ok(())
}
