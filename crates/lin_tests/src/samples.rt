//! LDF texts for tests, the clusters that they describe, and logs on these.

use lin_cluster::{Cluster, check};
use lin_core::Core;
use lin_ldf::parse;
use lin_log::write_log;
use std::alloc::Global;
use std::process::Abort;
use std::test::Fail;

/// How many messages of a host wait at most, on the cores of most tests.
pub const CAPACITY: usize = 16;

/// The cluster that a text describes.
pub fn cluster_of(alloc: Global, text: &[u8]) -> Result<Cluster, Fail> {
    Ok(check(alloc, parse(alloc, text)?)?)
}

/// A core on the cluster of a text, whose schedule opens with this table.
pub fn core_of(alloc: Global, cluster: &[u8], table: u16) -> Result<Core, Fail> {
    let cluster = cluster_of(alloc, cluster)?;
    if table as usize >= cluster.tables() {
        return Err(Fail::from("no such table"));
    }
    Ok(Core::new(alloc, cluster, table, CAPACITY)?)
}

/// The text of a core's log.
pub fn log_of(alloc: Global, core: &Core) -> Result<Vec<u8>, Fail> {
    let mut text = Vec::new(alloc);
    write_log(core.log(), &mut text)?;
    Ok(text)
}

/// Adds several parts to a text.
pub fn add(text: &mut Vec<u8>, parts: &[&[u8]]) -> Result<(), Fail> {
    for part in parts {
        text.extend_from_slice(part)?;
    }
    Ok(())
}

/// Adds a number in decimal to a text.
pub fn add_number(alloc: Global, text: &mut Vec<u8>, number: u64) -> Result<(), Fail> {
    text.extend_from_slice(number.to_string(alloc)?.as_bytes())?;
    Ok(())
}

/// Adds a line and a column to a text.
pub fn add_place(alloc: Global, text: &mut Vec<u8>, line: u64, column: u64) -> Result<(), Fail> {
    add_number(alloc, text, line)?;
    text.push(b':')?;
    add_number(alloc, text, column)
}

/// A text of several parts.
pub fn joined(alloc: Global, parts: &[&[u8]]) -> Result<Vec<u8>, Fail> {
    let mut text = Vec::new(alloc);
    add(&mut text, parts)?;
    Ok(text)
}

/// A text is as it is wanted; the case says whose it is.
pub fn expect_text(rt: &impl Abort, found: &[u8], want: &[u8], case: &str) {
    let text = std::str::from_utf8(found).unwrap_or("no text");
    assert!(rt; found == want, "{case}: {text}");
}

/// The text of a core's log is as it is wanted; the case says whose it is.
pub fn expect_log(
    rt: &impl Abort,
    alloc: Global,
    core: &Core,
    want: &[u8],
    case: &str,
) -> Result<(), Fail> {
    expect_text(rt, &log_of(alloc, core)?, want, case);
    Ok(())
}

pub const BYTE_ORDER_MARK: &[u8] = b"\xEF\xBB\xBF";

/// The first lines of a text.
pub const FOUR_LINES: &[u8] = b"LIN_description_file;
LIN_protocol_version = \"2.2\";
LIN_language_version = \"2.2\";
LIN_speed = 19.2 kbps;
";

/// The same, and nodes: five lines.
pub const HEADER: &[u8] = b"LIN_description_file;
LIN_protocol_version = \"2.2\";
LIN_language_version = \"2.2\";
LIN_speed = 19.2 kbps;
Nodes { Master: m, 5 ms, 0.1 ms; Slaves: s, t; }
";

/// A commander and a door, with diagnostic frames alone.
pub const DOOR_CLUSTER: &[u8] = b"LIN_description_file;
LIN_protocol_version = \"2.2\";
LIN_language_version = \"2.2\";
LIN_speed = 19.2 kbps;
Nodes { Master: cem, 5 ms, 0.1 ms; Slaves: door; }
Node_attributes { door { LIN_protocol = \"2.2\"; configured_NAD = 0x01; } }
Schedule_tables { diag { MasterReq delay 10 ms; SlaveResp delay 10 ms; } }
";

/// A commander that sends a frame in each slot, and a door that hears it.
pub const LIGHT_CLUSTER: &[u8] = b"LIN_description_file;
LIN_protocol_version = \"2.2\";
LIN_language_version = \"2.2\";
LIN_speed = 19.2 kbps;
Nodes { Master: cem, 5 ms, 0.1 ms; Slaves: door; }
Signals { level: 8, 0, cem, door; }
Frames { Light: 1, cem, 1 { level, 0; } }
Schedule_tables { light { Light delay 10 ms; } }
";

/// Lights and a fan, and keys that share an event-triggered frame.
pub const KEYS_CLUSTER: &[u8] = b"LIN_description_file;
LIN_protocol_version = \"2.2\";
LIN_language_version = \"2.2\";
LIN_speed = 19.2 kbps;
Nodes { Master: cem, 5 ms, 0.1 ms; Slaves: lsm, rsm; }
Signals {
  level: 4, 2, cem, lsm, rsm;
  mode: 10, 0x155, cem, lsm;
  speed: 8, 5, cem, rsm;
  lkey: 8, 0, lsm, cem;
  rkey: 8, 0, rsm, cem;
}
Frames {
  Light: 0x00, cem, 2 { level, 0; mode, 4; }
  Fan: 0x01, cem, 1 { speed, 0; }
  LeftKey: 0x02, lsm, 2 { lkey, 8; }
  RightKey: 0x03, rsm, 2 { rkey, 8; }
}
Sporadic_frames { Spor: Light, Fan; }
Event_triggered_frames { Keys: Resolve, 0x04, LeftKey, RightKey; }
Node_attributes {
  lsm { LIN_protocol = \"2.2\"; configured_NAD = 0x01; }
  rsm { LIN_protocol = \"2.2\"; configured_NAD = 0x02; }
}
Schedule_tables {
  Main { Spor delay 10 ms; Keys delay 10 ms; Light delay 10 ms; }
  Resolve { LeftKey delay 10 ms; RightKey delay 10 ms; }
  Diag { MasterReq delay 10 ms; SlaveResp delay 10 ms; }
}
";

/// Sections and lines that are read and not used.
pub const BODY_CLUSTER: &[u8] = b"// body cluster
LIN_description_file;
LIN_protocol_version = \"2.2\";
LIN_language_version = \"2.2\";
LIN_speed = 19.2 kbps;
Channel_name = \"body\";
Nodes { Master: cem, 5 ms, 0.1 ms; Slaves: door; }
Schedule_tables { T { AssignNAD {door} delay 10 ms; Pos delay 10 ms; } }
Node_attributes { door { LIN_protocol = \"2.2\"; configured_NAD = 0x01; product_id = 0x1, 0x2, 3; configurable_frames { Pos; } } }
Frames { Pos: 5, door, 1 { pos, 0; } }
Signals { pos: 8, 0xFF, door, cem; /* percent */ }
Signal_encoding_types { Percent { physical_value, 0, 100, 1, -40, \"%\"; } }
";

/// A message of three bytes, to the door.
pub const THREE_BYTES: &[u8] = b"h0 send 0 1 22062E
> accepted 0 1
bus open
> slot 0 0 3C
> due 0
n0 answer 0
> put 0 010322062EFFFFFFA5
bus finish
> seen good 010322062EFFFFFFA5
> message 0 1 22062E
> sent 0 1
";

/// On the cluster with keys, of whose two responders one pauses its message while the other one
/// sends.
pub const TWO_RESPONDERS: &[u8] = b"h0 send 0 1 3E
> accepted 0 1
h1 send 1 0 1122334455667788
> accepted 1 1
bus open
> slot 2 0 3C
> due 0
n0 answer 0
> put 0 01013EFFFFFFFFFFBF
bus finish
> seen good 01013EFFFFFFFFFFBF
> message 0 1 3E
> sent 0 1
bus open
> slot 2 1 7D
> due 1
n1 answer 1
> put 1 0110081122334455E6
bus finish
> seen good 0110081122334455E6
h0 send 0 2 3E
> accepted 0 2
h2 send 2 0 7E
> accepted 2 1
bus open
> slot 2 0 3C
> due 0
n0 answer 0
> put 0 02013EFFFFFFFFFFBE
bus finish
> seen good 02013EFFFFFFFFFFBE
> message 0 2 3E
> sent 0 2
bus open
> slot 2 1 7D
> due 2
n2 answer 2
> put 2 02017EFFFFFFFFFF7E
bus finish
> seen good 02017EFFFFFFFFFF7E
> message 2 0 7E
> sent 2 1
h0 send 0 1 3E
> accepted 0 3
bus open
> slot 2 0 3C
> due 0
n0 answer 0
> put 0 01013EFFFFFFFFFFBF
bus finish
> seen good 01013EFFFFFFFFFFBF
> message 0 1 3E
> sent 0 3
bus open
> slot 2 1 7D
> due 1
n1 answer 1
> put 1 0121667788FFFFFF77
bus finish
> seen good 0121667788FFFFFF77
> message 1 0 1122334455667788
> sent 1 1
";

/// A message to all responders of that cluster, in a slot in which each of the two is told, and
/// nobody answers after it; a responder sends none.
pub const MESSAGE_TO_ALL: &[u8] = b"h0 send 0 126 3E80
> accepted 0 1
h1 send 1 126 01
> refused 6
bus open
> slot 2 0 3C
> due 0
n0 answer 0
> put 0 7E023E80FFFFFFFFC0
bus finish
> seen good 7E023E80FFFFFFFFC0
> message 0 1 3E80
> message 0 2 3E80
> sent 0 1
bus open
> slot 2 1 7D
bus finish
> seen none
";
