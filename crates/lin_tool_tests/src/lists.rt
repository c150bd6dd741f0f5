//! Each sample in both lists.

use crate::clusters::{cluster_of, expect_bytes};
use crate::samples;
use lin_export::{write_frames, write_slots};
use std::alloc::Global;
use std::process::Abort;
use std::test::Fail;

fn expect_lists(
    rt: &impl Abort,
    alloc: Global,
    ldf: &[u8],
    frames: &[u8],
    slots: &[u8],
) -> Result<(), Fail> {
    let cluster = cluster_of(alloc, ldf)?;
    let mut found = Vec::new(alloc);
    write_frames(&cluster, &mut found)?;
    expect_bytes(rt, &found, frames, "a cluster", "frames");
    let mut found = Vec::new(alloc);
    write_slots(&cluster, &mut found)?;
    expect_bytes(rt, &found, slots, "a cluster", "slots");
    Ok(())
}

#[test]
fn lists_of_samples(rt: HostRuntime) -> Result<(), Fail> {
    for (ldf, frames, slots) in [
        (
            samples::BUILT_IN,
            samples::BUILT_IN_FRAMES,
            samples::BUILT_IN_SLOTS,
        ),
        (
            samples::LIGHTS,
            samples::LIGHTS_FRAMES,
            samples::LIGHTS_SLOTS,
        ),
        (
            samples::DOOR_ZONE,
            samples::DOOR_ZONE_FRAMES,
            samples::DOOR_ZONE_SLOTS,
        ),
    ] {
        expect_lists(&rt, rt.alloc(), ldf, frames, slots)?;
    }
    Ok(())
}
