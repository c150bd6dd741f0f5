//! Node configuration: the requests of an LDF text, what is wrong with its commands, and what responders
//! respond.

use crate::clusters::{cluster_of, expect_bytes};
use lin_parts::{Entry, service_name};
use lin_sections::configure;
use std::process::Abort;
use std::test::Fail;

/// A responder with a product, one without, and one without an address.
const COMMANDS: &[u8] = b"LIN_description_file;
LIN_protocol_version = \"2.1\";
LIN_language_version = \"2.1\";
LIN_speed = 19.2 kbps;
Nodes { Master: m, 5 ms, 0.1 ms; Slaves: a, b, c; }
Signals { x: 8, 0, m, a, b; }
Frames { F: 0x02, m, 1 { x, 0; } }
Node_attributes {
  a { LIN_protocol = \"2.0\"; configured_NAD = 5; initial_NAD = 9; product_id = 1, 2, 3; configurable_frames { F = 4; } }
  b { LIN_protocol = \"2.1\"; configured_NAD = 6; }
}
Schedule_tables {
  Sent { AssignNAD { a } delay 10 ms; AssignFrameId { a, F } delay 10 ms; F delay 10 ms; SaveConfiguration { b } delay 10 ms; }
  Silent { AssignNAD { b } delay 10 ms; AssignNAD { c } delay 10 ms; Assign { a } delay 10 ms; SaveConfiguration { } delay 10 ms; }
}
";

/// The table and the entry of each request, its bytes, and its service.
const REQUESTS: [(u16, u16, [u8; 8], &[u8]); 3] = [
    (0, 0, [9, 6, 0xB0, 1, 0, 2, 0, 5], b"AssignNAD"),
    (0, 1, [5, 6, 0xB1, 1, 0, 4, 0, 0x42], b"AssignFrameId"),
    (
        0,
        3,
        [6, 1, 0xB6, 0xFF, 0xFF, 0xFF, 0xFF, 0xFF],
        b"SaveConfiguration",
    ),
];

/// The line, the column and the number of each warning.
const WARNINGS: [(u64, u64, u8); 4] = [(14, 24, 74), (14, 53, 73), (14, 70, 72), (14, 116, 71)];

/// A request, and what the first two responders respond.
const RESPONSES: [([u8; 8], Option<[u8; 8]>, Option<[u8; 8]>); 4] = [
    (
        [9, 6, 0xB0, 1, 0, 2, 0, 5],
        Some([9, 1, 0xF0, 0xFF, 0xFF, 0xFF, 0xFF, 0xFF]),
        None,
    ),
    (
        [5, 6, 0xB2, 0, 0xFF, 0x7F, 0xFF, 0xFF],
        Some([5, 6, 0xF2, 1, 0, 2, 0, 3]),
        None,
    ),
    (
        [6, 1, 0xB6, 0xFF, 0xFF, 0xFF, 0xFF, 0xFF],
        None,
        Some([6, 1, 0xF6, 0xFF, 0xFF, 0xFF, 0xFF, 0xFF]),
    ),
    ([5, 6, 0xB4, 1, 2, 3, 4, 5], None, None),
];

#[test]
fn requests_of_a_text(rt: HostRuntime) -> Result<(), Fail> {
    let alloc = rt.alloc();
    let (cluster, _warned) = configure(alloc, cluster_of(alloc, COMMANDS)?, COMMANDS)?;
    for (table, entry, bytes, name) in REQUESTS.iter() {
        let found = cluster.line_at(*table, *entry).entry;
        assert!(&rt; found == Entry::Fixed(*bytes), "another request");
        expect_bytes(&rt, cluster.entry_name(found), name, "a request", "name");
        expect_bytes(&rt, service_name(bytes), name, "a request", "service");
    }
    for entry in 0..4 {
        assert!(&rt;
            cluster.line_at(1, entry).entry == Entry::Quiet,
            "a request for nothing"
        );
    }
    Ok(())
}

#[test]
fn warnings_about_commands(rt: HostRuntime) -> Result<(), Fail> {
    let alloc = rt.alloc();
    let (_cluster, warned) = configure(alloc, cluster_of(alloc, COMMANDS)?, COMMANDS)?;
    assert_eq!(&rt; warned.len(), WARNINGS.len());
    for (finding, (line, column, number)) in warned.iter().zip(WARNINGS.iter()) {
        assert_eq!(&rt; finding.line, *line);
        assert_eq!(&rt; finding.column, *column);
        assert_eq!(&rt; finding.number, *number);
    }
    Ok(())
}

#[test]
fn responses_of_responders(rt: HostRuntime) -> Result<(), Fail> {
    let alloc = rt.alloc();
    let (cluster, _warned) = configure(alloc, cluster_of(alloc, COMMANDS)?, COMMANDS)?;
    let identities = cluster.identities();
    let (Some(first), Some(second)) = (identities.get(0), identities.get(1)) else {
        return Err(Fail::from("too few responders"));
    };
    assert_eq!(&rt; identities.len(), 2);
    assert_eq!(&rt; first.initial, 9);
    assert_eq!(&rt; second.initial, 6);
    if first.node as usize >= cluster.nodes() || second.node as usize >= cluster.nodes() {
        return Err(Fail::from("no such node"));
    }
    for (request, one, other) in RESPONSES.iter() {
        assert!(&rt;
            cluster.response_of(first, request) == *one,
            "the first responder"
        );
        assert!(&rt;
            cluster.response_of(second, request) == *other,
            "the second responder"
        );
    }
    Ok(())
}
