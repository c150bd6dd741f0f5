//! Each sample in each format.

use crate::clusters::{expect_bytes, run};
use crate::samples;
use lin_export::{write_csv, write_first_slots, write_named, write_pcap, write_vcd};
use std::alloc::Global;
use std::process::Abort;
use std::test::Fail;

/// A name, a log, the LDF text of its cluster, and what it is written as.
#[derive(Drop)]
struct Sample<'a> {
    name: &'a str,
    ldf: &'a [u8],
    log: &'a [u8],
    named: &'a [u8],
    csv: &'a [u8],
    pcap: &'a [u8],
    vcd: &'a [u8],
}

fn expect_formats(rt: &impl Abort, alloc: Global, sample: &Sample<'_>) -> Result<(), Fail> {
    let core = run(alloc, sample.ldf, sample.log)?;
    let mut named = Vec::new(alloc);
    write_named(alloc, core.cluster(), None, core.log(), &mut named)?;
    expect_bytes(rt, &named, sample.named, sample.name, "named");
    let mut csv = Vec::new(alloc);
    write_csv(alloc, core.cluster(), None, core.log(), &mut csv)?;
    expect_bytes(rt, &csv, sample.csv, sample.name, "csv");
    let mut pcap = Vec::new(alloc);
    write_pcap(alloc, core.cluster(), core.log(), &mut pcap)?;
    expect_bytes(rt, &pcap, sample.pcap, sample.name, "pcap");
    let mut vcd = Vec::new(alloc);
    write_vcd(alloc, core.cluster(), None, core.log(), &mut vcd)?;
    expect_bytes(rt, &vcd, sample.vcd, sample.name, "vcd");
    Ok(())
}

fn first() -> Sample<'static> {
    Sample {
        name: "first",
        ldf: samples::BUILT_IN,
        log: samples::FIRST_LOG,
        named: samples::FIRST_NAMED,
        csv: samples::FIRST_CSV,
        pcap: samples::FIRST_PCAP,
        vcd: samples::FIRST_VCD,
    }
}

fn wake() -> Sample<'static> {
    Sample {
        name: "wake",
        ldf: samples::BUILT_IN,
        log: samples::WAKE_LOG,
        named: samples::WAKE_NAMED,
        csv: samples::WAKE_CSV,
        pcap: samples::WAKE_PCAP,
        vcd: samples::WAKE_VCD,
    }
}

fn keys() -> Sample<'static> {
    Sample {
        name: "keys",
        ldf: samples::LIGHTS,
        log: samples::KEYS_LOG,
        named: samples::KEYS_NAMED,
        csv: samples::KEYS_CSV,
        pcap: samples::KEYS_PCAP,
        vcd: samples::KEYS_VCD,
    }
}

fn window() -> Sample<'static> {
    Sample {
        name: "window",
        ldf: samples::DOOR_ZONE,
        log: samples::WINDOW_LOG,
        named: samples::WINDOW_NAMED,
        csv: samples::WINDOW_CSV,
        pcap: samples::WINDOW_PCAP,
        vcd: samples::WINDOW_VCD,
    }
}

fn task_c() -> Sample<'static> {
    Sample {
        name: "task_c",
        ldf: samples::DOOR_ZONE,
        log: samples::TASK_C_LOG,
        named: samples::TASK_C_NAMED,
        csv: samples::TASK_C_CSV,
        pcap: samples::TASK_C_PCAP,
        vcd: samples::TASK_C_VCD,
    }
}

#[test]
fn samples_in_each_format(rt: HostRuntime) -> Result<(), Fail> {
    for sample in [first(), wake(), keys(), window(), task_c()] {
        expect_formats(&rt, rt.alloc(), &sample)?;
    }
    Ok(())
}

#[test]
fn first_slots_are_rows(rt: HostRuntime) -> Result<(), Fail> {
    let alloc = rt.alloc();
    let core = run(alloc, samples::BUILT_IN, samples::FIRST_LOG)?;
    let mut rows = Vec::new(alloc);
    write_first_slots(alloc, core.cluster(), core.log(), &mut rows)?;
    expect_bytes(&rt, &rows, samples::FIRST_ROWS, "first", "first slots");
    Ok(())
}
