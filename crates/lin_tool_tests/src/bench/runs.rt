//! Bench scripts and the logs of what they say.

use crate::clusters::played;
use crate::samples;
use lin_bench::some_unmet;
use lin_log::write_log;
use std::alloc::Global;
use std::process::Abort;
use std::test::Fail;

/// Plays a text, and compares the log. No expectation is unmet.
fn expect_log(
    rt: &impl Abort,
    alloc: Global,
    ldf: &[u8],
    text: &[u8],
    log: &[u8],
) -> Result<(), Fail> {
    let played = played(alloc, ldf, text)?;
    assert!(rt; !some_unmet(played.judgements.as_slice()));
    let mut written = Vec::new(alloc);
    write_log(played.core.log(), &mut written)?;
    let found = std::str::from_utf8(&written).unwrap_or("no text");
    assert!(rt; written.as_slice() == log, "{found}");
    Ok(())
}

#[test]
fn runs(rt: HostRuntime) -> Result<(), Fail> {
    for (ldf, text, log) in [
        (samples::BUILT_IN, samples::WAKE, samples::WAKE_LOG),
        (samples::LIGHTS, samples::KEYS, samples::KEYS_LOG),
        (samples::DOOR_ZONE, samples::WINDOW, samples::WINDOW_LOG),
        (samples::DOOR_ZONE, samples::RULES, samples::RULES_LOG),
    ] {
        expect_log(&rt, rt.alloc(), ldf, text, log)?;
    }
    Ok(())
}
