//! Lines that are bad, and what is said of them.

use crate::clusters::{cluster_of, read_text};
use crate::samples::DOOR_ZONE;
use lin_bench::{ReadFault, write_bad_line};
use std::alloc::Global;
use std::test::Fail;

/// The line that is written of a text's first bad line.
fn bad_line(alloc: Global, text: &[u8]) -> Result<Vec<u8>, Fail> {
    let cluster = cluster_of(alloc, DOOR_ZONE)?;
    match read_text(alloc, &cluster, text)? {
        Ok(_) => Err(Fail::from("no bad line")),
        Err(ReadFault::OutOfMemory) => Err(Fail::from("OutOfMemory")),
        Err(ReadFault::BadLine { place, reason }) => {
            let mut written = Vec::new(alloc);
            write_bad_line(&[], place, &reason, &mut written)?;
            Ok(written)
        }
    }
}

const SLOTS: &str =
    "script 1 bad line: usage: slots N, slots N ms, slots N leave NODE .., slots N until FORM, slots N while FORM or slots idle\n";

/// Texts, and what is written of them: names that aren't there, words, and numbers and bytes. What
/// stands before the first bad line is judged, and nothing after it.
const BAD_LINES: &[(&str, &str)] = &[
    (
        "open\n\nsend DCU dor 3E\nbus",
        "script 3 bad line: unknown node dor\n",
    ),
    (
        "send dcu WinMot",
        "script 1 bad line: usage: send NODE NODE BYTES\n",
    ),
    (
        "slots 1\n\ttest # \n",
        "script 2 bad line: usage: test NAME\n",
    ),
    ("h:door open", "script 1 bad line: unknown node door\n"),
    (
        "# x\r\n\nwrite winpos 1\n",
        "script 3 bad line: unknown signal winpos\n",
    ),
    ("switch run", "script 1 bad line: unknown table run\n"),
    (
        "expect refused asleep",
        "script 1 bad line: unknown refusal asleep\n",
    ),
    ("expect refused 0", "script 1 bad line: unknown refusal 0\n"),
    (
        "# x\n  h0\n",
        "script 2 bad line: missing step after the port\n",
    ),
    ("bus slot", "script 1 bad line: unknown step slot\n"),
    ("Open", "script 1 bad line: unknown step Open\n"),
    ("open now", "script 1 bad line: open takes 0 arguments\n"),
    ("close 0 1", "script 1 bad line: close takes 1 argument\n"),
    (
        "timeout DCU",
        "script 1 bad line: timeout takes 2 arguments\n",
    ),
    (
        "timeout 0 left",
        "script 1 bad line: usage: timeout NODE down or timeout NODE up\n",
    ),
    ("write 1", "script 1 bad line: usage: write SIGNAL VALUE\n"),
    (
        "slot now",
        "script 1 bad line: expected hurt or leave after slot, not now\n",
    ),
    (
        "slot leave",
        "script 1 bad line: usage: slot leave NODE ..\n",
    ),
    (
        "expect",
        "script 1 bad line: missing expectation after expect\n",
    ),
    (
        "expect sent # DCU",
        "script 1 bad line: unknown expectation sent\n",
    ),
    (
        "expect\tseen  bad",
        "script 1 bad line: unknown expectation seen bad\n",
    ),
    ("expect no", "script 1 bad line: unknown expectation no\n"),
    (
        "expect no sent DCU",
        "script 1 bad line: unknown expectation no sent DCU\n",
    ),
    (
        "expect no message DCU",
        "script 1 bad line: unknown expectation no message DCU\n",
    ),
    (
        "expect no message DCU dor",
        "script 1 bad line: unknown node dor\n",
    ),
    (
        "expect signal DCU WinPos 5..4",
        "script 1 bad line: expected a range LOW..HIGH, not 5..4\n",
    ),
    (
        "expect signal DCU WinPos 4..x05",
        "script 1 bad line: expected a range LOW..HIGH, not 4..x05\n",
    ),
    (
        "expect signal DCU WinPos 4..0x10000",
        "script 1 bad line: expected a number from 0 to 65535, not 0x10000\n",
    ),
    (
        "expect signal DCU WinPos ..5",
        "script 1 bad line: expected a range LOW..HIGH, not ..5\n",
    ),
    (
        "forget all",
        "script 1 bad line: forget takes 0 arguments\n",
    ),
    (
        "slots 0",
        "script 1 bad line: expected a number of at least 1, not 0\n",
    ),
    ("slots 2 s", SLOTS),
    ("slots", SLOTS),
    ("slots 2 ms 3", SLOTS),
    ("slots idle until asleep", SLOTS),
    (
        "slots 0 until asleep",
        "script 1 bad line: expected a number of at least 1, not 0\n",
    ),
    (
        "slots 2 until # asleep",
        "script 1 bad line: missing expectation after until\n",
    ),
    (
        "slots 2 ms until done",
        "script 1 bad line: until doesn't accept done\n",
    ),
    (
        "slots 2 until no message DCU WinMot",
        "script 1 bad line: until doesn't accept no message DCU WinMot\n",
    ),
    (
        "slots 2 until seen bad",
        "script 1 bad line: until doesn't accept seen bad\n",
    ),
    (
        "slots 2 until message dcu WinMot 3E",
        "script 1 bad line: unknown node dcu\n",
    ),
    (
        "slots 1000001 ms",
        "script 1 bad line: expected a number from 0 to 1000000, not 1000001\n",
    ),
    (
        "write WinPos 0x12345",
        "script 1 bad line: expected a number from 0 to 65535, not 0x12345\n",
    ),
    (
        "answer 256",
        "script 1 bad line: expected a number from 0 to 255, not 256\n",
    ),
    (
        "expect waiting DCU 1025",
        "script 1 bad line: expected a number from 0 to 1024, not 1025\n",
    ),
    (
        "expect slot Run 1024",
        "script 1 bad line: expected a number from 0 to 1023, not 1024\n",
    ),
    (
        "expect refused 19",
        "script 1 bad line: unknown refusal 19\n",
    ),
    ("hurt", "script 1 bad line: expected hexadecimal bytes\n"),
    (
        "send 0 1 22 F",
        "script 1 bad line: expected hexadecimal bytes, not 22 F\n",
    ),
    (
        "send 0 1 22 -",
        "script 1 bad line: expected hexadecimal bytes, not 22 -\n",
    ),
    (
        "write PanelId x112233445566778899",
        "script 1 bad line: x112233445566778899 has more than 8 bytes\n",
    ),
    (
        "slots 1\n\tslot \tx\nopen\nslots 0",
        "script 2 bad line: expected hurt or leave after slot, not x\n",
    ),
];

#[test]
fn bad_lines(rt: HostRuntime) -> Result<(), Fail> {
    for (text, want) in BAD_LINES {
        let written = bad_line(rt.alloc(), text.as_bytes())?;
        let found = std::str::from_utf8(&written).unwrap_or("no text");
        assert!(rt; found == *want, "{found}");
    }
    Ok(())
}
