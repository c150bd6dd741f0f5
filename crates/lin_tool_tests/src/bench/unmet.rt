//! Expectations that aren't met, and the lines that say so.

use crate::clusters::unmet_of;
use crate::samples::{BUILT_IN, DOOR_ZONE, LIGHTS, WINDOW_SHORT};
use std::alloc::Global;
use std::process::Abort;
use std::test::Fail;

/// Bench scripts, and the lines of their unmet expectations.
type Rows<'a> = &'a [(&'a [u8], &'a [u8])];

const ON_BUILT_IN: Rows<'static> = &[
    (
        b"expect message cem door 3F\nsend cem door 3E\nsend 0 1 22 F1\nslots idle\nexpect message cem door 3F\nexpect message cem door 22F1\nexpect message 0 1 22F1\nexpect lost cem slept\nexpect sent cem\nexpect sent 0\nexpect sent 1\n",
        b"script 1 expected message cem door 3F: none\nscript 5 expected message cem door 3F: 3E\nscript 7 expected message cem door 22F1: none\nscript 8 expected lost cem slept: message 1 sent\nscript 10 expected sent cem: none\nscript 11 expected sent door: none\n",
    ),
    (
        b"send cem door 3E\nslot hurt -\nexpect sent cem\nexpect seen good\nsend cem door 3E\nslot\nslot hurt 00\nexpect lost cem timedout\nexpect lost cem damaged\n",
        b"script 3 expected sent cem: message 1 lost damaged\nscript 4 expected seen good: damaged\nscript 8 expected lost cem timedout: message 2 lost damaged\nscript 9 expected lost cem damaged: none\n",
    ),
    // No message takes none, and what is forgotten is taken.
    (
        b"expect no message cem door\nsend cem door 3E\nslots idle\nexpect no message cem door\nexpect no message door cem\nexpect message cem door 3E\nexpect no message cem door\n",
        b"script 4 expected no message cem door: 3E\n",
    ),
    (
        b"send cem door 3E\nslots idle\nforget\nexpect no message cem door\nexpect sent cem\nsend cem door 3F\nslots idle\nexpect message cem door 3F\nexpect sent cem\nforget\nforget\nexpect message cem door 3F\n",
        b"script 5 expected sent cem: none\nscript 12 expected message cem door 3F: none\n",
    ),
    // Messages that aren't taken are counted, and counting takes none.
    (
        b"expect messages cem door 0\nsend cem door 3E\nsend cem door 3F\nslots idle\nexpect messages cem door 0\nexpect messages cem door 2\nexpect messages cem door 3..9\nexpect messages door cem 1\nexpect message cem door 3E\nexpect messages cem door 0..1\nforget\nexpect messages cem door 1..1\n",
        b"script 5 expected messages cem door 0: 2\nscript 7 expected messages cem door 3..9: 2\nscript 8 expected messages door cem 1: 0\nscript 12 expected messages cem door 1: 0\n",
    ),
    // The oldest message of all is taken, right or wrong.
    (
        b"send cem door 3E\nwhen door 3F answer 7E\nsend cem door 3F\nslots idle\nexpect next message door cem 7E\nexpect next message cem door 3E\nexpect next message door cem 7E\nexpect next message door cem 7E\n",
        b"script 5 expected next message door cem 7E: cem door 3E\nscript 6 expected next message cem door 3E: 3F\nscript 8 expected next message door cem 7E: none\n",
    ),
    // What is waited for comes right or wrong, before the line or in time, or doesn't come.
    (
        b"send cem door 22F1\nslots 9 until message cem door 22F1\nslots 9 until sent cem\nexpect slot diag 0\nsend cem door 22F2\nslots 9 until message cem door 22F3\nexpect slot diag 0\nslots 3 until message cem door 22F2\nexpect slot diag 1\n",
        b"script 6 expected message cem door 22F3: 22F2\nscript 8 expected message cem door 22F2: none\n",
    ),
    (
        b"slots 5 until awake\nexpect seen good\nslots 25 ms until asleep\nexpect slot diag 0\nsleep\nslots 9 until asleep\nslots 9 until seen none\nexpect refused Asleep\n",
        b"script 2 expected seen good: no slot\nscript 3 expected asleep: awake\nscript 7 expected seen none: good\n",
    ),
    // The responder answers only once a request to it was good.
    (
        b"send door cem 3E\nslots idle 1\nsend cem door 3E\nsend cem door 3F\nslot\nslots idle 1\nsend door cem 3E\nslots idle 1\nsend cem door 3E\nslots idle 1\nslots idle",
        b"script 2 expected idle: 1 of door waiting\nscript 6 expected idle: 1 of cem waiting, 1 of door waiting\nscript 8 expected idle: 1 of cem waiting, 1 of door waiting\nscript 10 expected idle: 1 of cem waiting, 1 of door waiting\n",
    ),
];

const WITH_RULES: Rows<'static> = &[
    // What is noted waits too, until its time or what is sent at once.
    (
        b"when door 3E answer 7E after 15 ms then 7F after 15 ms\nsend cem door 3E\nslots idle 1\nslots idle 1\nslots idle 1\nslots idle\nexpect message door cem 7E\nexpect message door cem 7F\n",
        b"script 3 expected idle: 2 of door noted\nscript 4 expected idle: 2 of door noted\nscript 5 expected idle: 1 of door waiting, 1 of door noted\n",
    ),
];

const ON_LIGHTS: Rows<'static> = &[
    // What no step, no slot and no event was before.
    (
        b"expect done\nexpect refused 10\nexpect seen silent\nexpect slot Main 0\nexpect awake\nexpect waiting lsm 0\n",
        b"script 1 expected done: no step\nscript 2 expected refused Asleep: no step\nscript 3 expected seen silent: no slot\nscript 4 expected slot Main 0: no slot\n",
    ),
    (
        b"slot\nexpect seen none\nexpect slot Main 1\nexpect slot 0 0\nexpect asleep\nfinish\nexpect done\nexpect refused Asleep\nexpect refused NoSlot\nslot leave lsm rsm\nexpect seen none\nexpect slot Main 2\nsleep\nwake\nexpect refused Awake\n",
        b"script 2 expected seen none: silent\nscript 3 expected slot Main 1: Main 0\nscript 5 expected asleep: awake\nscript 7 expected done: refused NoSlot\nscript 8 expected refused Asleep: refused NoSlot\nscript 12 expected slot Main 2: Main 1\n",
    ),
    // What isn't to hold, before the first slot and after it.
    (
        b"expect not seen good\nexpect not frame Light\nexpect not slot Main 0\nexpect not waiting lsm 1\nexpect not waiting lsm 0\nexpect not messages cem lsm 0\nexpect not signal lsm level 3\nexpect not signal lsm level 0..2\nslot\nexpect not seen silent\nexpect not seen good\nexpect not slot Main 0\nexpect not slot Main 1\nexpect not frame Light\n",
        b"script 1 expected not seen good: no slot\nscript 2 expected not frame Light: no slot\nscript 3 expected not slot Main 0: no slot\nscript 5 expected not waiting lsm 0: 0\nscript 6 expected not messages cem lsm 0: 0\nscript 8 expected not signal lsm level 0..2: 2\nscript 10 expected not seen silent: silent\nscript 12 expected not slot Main 0: Main 0\n",
    ),
    // The table of the next slot, and of the open one.
    (
        b"expect table Main\nexpect table Diag\nswitch Diag\nexpect table Diag\nopen\nswitch Main\nexpect table Main\n",
        b"script 2 expected table Diag: Main\nscript 7 expected table Main: Diag\n",
    ),
];

const ON_DOOR_ZONE: Rows<'static> = &[
    (
        WINDOW_SHORT,
        b"script 30 expected asleep: awake\nscript 32 expected refused Asleep: done\n",
    ),
    // Values and counts.
    (
        b"expect waiting Panel 1\nexpect waiting 2 0\nexpect signal DCU WinPos 0x11\nexpect signal DCU PanelId x31323334\nexpect signal DCU PanelId x31000000\n",
        b"script 1 expected waiting Panel 1: 0\nscript 3 expected signal DCU WinPos 17: 0\nscript 5 expected signal DCU PanelId x31000000: x31323334\n",
    ),
    (
        b"expect signal DCU WinTemp 450..450\nexpect signal DCU WinTemp 0..449\nexpect signal DCU WinTemp 451..0xFFFF\n",
        b"script 2 expected signal DCU WinTemp 0..449: 450\nscript 3 expected signal DCU WinTemp 451..65535: 450\n",
    ),
];

fn expect_unmet(rt: &impl Abort, alloc: Global, ldf: &[u8], rows: Rows) -> Result<(), Fail> {
    for (text, want) in rows {
        let written = unmet_of(alloc, ldf, text)?;
        let found = std::str::from_utf8(&written).unwrap_or("no text");
        assert!(rt; written.as_slice() == *want, "{found}");
    }
    Ok(())
}

#[test]
fn unmet_expectations(rt: HostRuntime) -> Result<(), Fail> {
    expect_unmet(&rt, rt.alloc(), BUILT_IN, ON_BUILT_IN)?;
    expect_unmet(&rt, rt.alloc(), BUILT_IN, WITH_RULES)?;
    expect_unmet(&rt, rt.alloc(), LIGHTS, ON_LIGHTS)?;
    expect_unmet(&rt, rt.alloc(), DOOR_ZONE, ON_DOOR_ZONE)
}
