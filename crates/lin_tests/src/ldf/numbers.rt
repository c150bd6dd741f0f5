//! Each number at its limit and above, and numbers of a form that can't stand there.

use super::outcomes::expect_outcomes;
use crate::samples::HEADER;
use std::test::Fail;

/// Numbers without fraction; hexadecimal ones too.
const INTS: &str = "Signals { a: 4294967295, 0xFFFFFFFF, m; } => accepted
Signals { a: 4294967296, 0, m; } => 6:14 fault 5 NumberTooLarge
Signals { a: 1, 0x100000000, m; } => 6:17 fault 5 NumberTooLarge
Signals { a: 1, { 4294967295, 0XFFFFffff, 4294967296 => 6:43 fault 5 NumberTooLarge
Signals { a: 1, {4294967296 => 6:18 fault 5 NumberTooLarge
Signals { a: 000000000000000000000000000000000001, 0x00000000000000000000000001, m; } => accepted
Signals { a: 99999999999999999999999999999999999999999999999999999999999999999, 1, m; } => 6:14 fault 5 NumberTooLarge
Signals { a: 0xFFFFFFFFFFFFFFFFFFFFFFFFFFFFFFFFFFFFFFFFFFFFFFFFFFFFFFFFFFFFFFFFF => 6:14 fault 5 NumberTooLarge
Signals { a: 5.0, 1, m; } => 6:14 fault 4 Unexpected
Signals { a: 1, 5.5, m; } => 6:17 fault 4 Unexpected
Signals { a: 1, { 1, 5.0 => 6:22 fault 4 Unexpected
Signals { a: 4294967296.0 => 6:14 fault 4 Unexpected
Signals { a: b => 6:14 fault 4 Unexpected
Frames { f: 4294967295, m, 4294967295 { a, 4294967295; } } => accepted
Frames { f: 4294967296, m, 1 { } } => 6:13 fault 5 NumberTooLarge
Frames { f: 1, m, 4294967296 { } } => 6:19 fault 5 NumberTooLarge
Frames { f: 1, m, 1 { a, 4294967296; } } => 6:26 fault 5 NumberTooLarge
Event_triggered_frames { e: T, 4294967295, f; } => accepted
Event_triggered_frames { e: T, 4294967296, f; } => 6:32 fault 5 NumberTooLarge
Event_triggered_frames { e: T, 1.0, f; } => 6:32 fault 4 Unexpected
Node_attributes { s { configured_NAD = 4294967295; } } => accepted
Node_attributes { s { configured_NAD = 4294967296; } } => 6:40 fault 5 NumberTooLarge
Node_attributes { s { configured_NAD = 1.0; } } => 6:40 fault 4 Unexpected
Signals { a: -1, 0, m; } => 6:14 fault 4 Unexpected
";

/// Delays with up to three decimals; and a protocol, which has no limit.
const DECIMALS: &str =
    "Node_attributes { s { LIN_protocol = 99999999999999.99999; } t { LIN_protocol = 0xFFFFFFFFFFFFFFFF; } } => accepted
Schedule_tables { T { f delay 4294967.295 ms; } } => accepted
Schedule_tables { T { f delay 4294967.29500000 ms; f delay 0 ms; f delay 0.001 ms; f delay 00.000000 ms; } } => accepted
Schedule_tables { T { f delay 4294967.296 ms; } } => 6:31 fault 5 NumberTooLarge
Schedule_tables { T { f delay 4294968 ms; } } => 6:31 fault 5 NumberTooLarge
Schedule_tables { T { f delay 99999999999999999999999999999999.5 ms; } } => 6:31 fault 5 NumberTooLarge
Schedule_tables { T { f delay 4294968.0001 ms; } } => 6:31 fault 4 Unexpected
Schedule_tables { T { f delay 0.0001 ms; } } => 6:31 fault 4 Unexpected
Schedule_tables { T { f delay 0.0010 ms; } } => accepted
Schedule_tables { T { f delay 0x1 ms; } } => 6:31 fault 4 Unexpected
Schedule_tables { T { f delay 0xFFFFFFFFFFFF ms; } } => 6:31 fault 4 Unexpected
Schedule_tables { T { f delay 1.5.5 ms; } } => 6:34 fault 4 Unexpected
Schedule_tables { T { f delay 10ms; } } => accepted
";

#[test]
fn numbers_at_their_limits(rt: HostRuntime) -> Result<(), Fail> {
    expect_outcomes(&rt, rt.alloc(), HEADER, INTS)?;
    expect_outcomes(&rt, rt.alloc(), HEADER, DECIMALS)
}
