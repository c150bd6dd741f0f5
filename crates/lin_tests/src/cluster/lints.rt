//! Warnings of texts in which nothing is wrong: what `lint` finds, with the lists of configurable
//! frames that are read from the text, and the encodings that no signal has.

use crate::samples::{
    BODY_CLUSTER, HEADER, KEYS_CLUSTER, add_number, add_place, expect_text, joined,
};
use lin_cluster::{Finding, check, lint};
use lin_ldf::{Name, parse};
use lin_sections::{read_codings, read_configurables};
use lin_text::Text;
use lin_values::unused_encodings;
use std::alloc::Global;
use std::process::Abort;
use std::test::Fail;

/// Each warning as ` line:column number`.
fn listed(alloc: Global, warnings: &[Finding]) -> Result<Vec<u8>, Fail> {
    let mut out = Vec::new(alloc);
    for warning in warnings {
        out.push(b' ')?;
        add_place(alloc, &mut out, warning.line, warning.column)?;
        out.push(b' ')?;
        add_number(alloc, &mut out, u64::from(warning.number))?;
    }
    Ok(out)
}

fn warned(alloc: Global, text: &[u8]) -> Result<Vec<u8>, Fail> {
    let configurables = read_configurables(alloc, text)?;
    let warnings = lint(alloc, &parse(alloc, text)?, &[], configurables.as_slice())?;
    listed(alloc, warnings.as_slice())
}

/// Nothing is wrong with the text, and this is warned of it.
fn expect_warnings(rt: &impl Abort, alloc: Global, text: &[u8], want: &str) -> Result<(), Fail> {
    let _cluster = check(alloc, parse(alloc, text)?)?;
    expect_text(rt, &warned(alloc, text)?, want.as_bytes(), want);
    Ok(())
}

/// Each warning from 51 to 59 once, from line 6 on.
const EACH: &[u8] = b"Signals {
spare: 8, 0, m, s;
order: 8, 0, m, s, t;
alone: 8, 0, m;
echo: 8, 0, s, s, m;
fault: 1, 0, s, m;
error: 1, 0, t, m;
}
Frames {
Order: 1, m, 2 { order, 0; alone, 8; }
Echo: 2, s, 2 { echo, 0; fault, 8; }
Error: 3, t, 1 { error, 0; }
}
Sporadic_frames {
Orders: Order;
}
Node_attributes {
s { configured_NAD = 1; response_error = order; configurable_frames { Order; Echo = 0x10; Orders; Error; } }
t { response_error = error; product_id = 1, 2; configurable_frames { Error; Order; } P { { } } }
}
Schedule_tables {
Main { Echo delay 10 ms; Order delay 11 ms; MasterReq delay 10 ms; }
}
";

#[test]
fn each_warning_once(rt: HostRuntime) -> Result<(), Fail> {
    let text = joined(rt.alloc(), &[HEADER, EACH])?;
    let want = " 5:45 57 7:1 51 9:1 54 10:16 55 17:1 52 20:1 53 23:42 58 23:99 59 27:38 56";
    expect_warnings(&rt, rt.alloc(), &text, want)
}

#[test]
fn a_signal_of_a_frame_outside_the_description(rt: HostRuntime) -> Result<(), Fail> {
    let alloc = rt.alloc();
    let text = joined(alloc, &[HEADER, EACH])?;
    let mut elsewhere = Vec::new(alloc);
    elsewhere.push(Name {
        text: Text::copied(alloc, b"spare".as_slice())?,
        line: 10,
        column: 30,
    })?;
    let warnings = lint(alloc, &parse(alloc, &text)?, elsewhere.as_slice(), &[])?;
    let want = " 5:45 57 9:1 54 10:16 55 17:1 52 20:1 53 23:42 58 27:38 56";
    expect_text(
        &rt,
        &listed(alloc, warnings.as_slice())?,
        want.as_bytes(),
        want,
    );
    Ok(())
}

#[test]
fn a_cluster_without_warnings(rt: HostRuntime) -> Result<(), Fail> {
    expect_warnings(&rt, rt.alloc(), BODY_CLUSTER, "")
}

/// A frame next to an event-triggered one, and one next to a sporadic one, that lists it; a member without
/// an entry in the collision resolving table, and a diagnostic frame there; from line 6 on. The last table
/// has the same entries without the frames that list them.
const MEMBERS: &[u8] = b"Signals {
order: 8, 0, m, s;
left: 8, 0, s, m;
right: 8, 0, t, m;
}
Frames {
Order: 1, m, 1 { order, 0; }
Left: 2, s, 2 { left, 8; }
Right: 3, t, 2 { right, 8; }
}
Sporadic_frames { Orders: Order; }
Event_triggered_frames { Keys: Resolve, 4, Left, Right; }
Node_attributes { s { configured_NAD = 1; } t { configured_NAD = 2; } }
Schedule_tables {
Main { Orders delay 10 ms; Keys delay 10 ms; Left delay 10 ms; Order delay 10 ms; }
Resolve { Right delay 10 ms; MasterReq delay 10 ms; }
Apart { Left delay 10 ms; Order delay 10 ms; MasterReq delay 10 ms; }
}
";

#[test]
fn members_and_resolving_tables(rt: HostRuntime) -> Result<(), Fail> {
    let text = joined(rt.alloc(), &[HEADER, MEMBERS])?;
    let want = " 17:44 63 20:46 61 20:64 62 21:30 64";
    expect_warnings(&rt, rt.alloc(), &text, want)
}

#[test]
fn a_frame_next_to_its_sporadic_frame(rt: HostRuntime) -> Result<(), Fail> {
    expect_warnings(&rt, rt.alloc(), KEYS_CLUSTER, " 26:46 62")
}

/// Behind `EACH`, from line 29 on: an encoding of no signal's name, one of two signals, two of one
/// name, and one of a signal that has another.
const ENCODINGS: &[u8] = b"Signal_encoding_types {
Nobody { bcd_value; }
Percent { physical_value, 0, 255, 0.5, 0; }
State { logical_value, 0; }
State { logical_value, 1; }
Late { ascii_value; }
}
Signal_representation {
Percent: order, alone;
State: fault, ghost;
Late: alone;
Nobody: ghost;
}
";

#[test]
fn encodings_that_no_signal_has(rt: HostRuntime) -> Result<(), Fail> {
    let alloc = rt.alloc();
    let text = joined(alloc, &[HEADER, EACH, ENCODINGS])?;
    let codings = read_codings(alloc, &text)?;
    let warnings = unused_encodings(alloc, &parse(alloc, &text)?, &codings)?;
    let want = " 30:1 60 33:1 60 34:1 60";
    expect_text(
        &rt,
        &listed(alloc, warnings.as_slice())?,
        want.as_bytes(),
        want,
    );
    Ok(())
}
