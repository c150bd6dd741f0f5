//! The clusters of whole LDF texts, as `check` makes them: every read of a cluster once.

use crate::samples::{BODY_CLUSTER, DOOR_CLUSTER, HEADER, KEYS_CLUSTER, cluster_of, joined};
use lin_cluster::{Cluster, Entry};
use lin_frame::{SumKind, Value};
use std::process::Abort;
use std::test::Fail;

fn expect_door(rt: &impl Abort, cluster: &Cluster) {
    assert!(rt; cluster.nodes() == 2);
    assert!(rt; cluster.node_name(1) == b"door".as_slice());
    assert!(rt; cluster.nad(1) == Some(1));
    assert!(rt; cluster.tables() == 1);
    assert!(rt; cluster.entries(0) == 2);
    assert!(rt; cluster.entry(0, 0) == Entry::MasterReq);
}

fn expect_nodes(rt: &impl Abort, cluster: &Cluster) {
    assert!(rt; cluster.nodes() == 3);
    assert!(rt; cluster.node_name(2) == b"rsm".as_slice());
    assert!(rt; cluster.nad(0).is_none());
    assert!(rt; cluster.nad(2) == Some(2));
}

fn expect_signals(rt: &impl Abort, cluster: &Cluster) {
    assert!(rt; cluster.signals() == 5);
    assert!(rt; cluster.signal_name(1) == b"mode".as_slice());
    assert!(rt; cluster.signal_name(4) == b"rkey".as_slice());
    assert!(rt; cluster.publisher(1) == 0);
    assert!(rt; cluster.publisher(3) == 1);
    assert!(rt; cluster.subscribers(0) == [1, 2].as_slice());
    assert!(rt; cluster.subscribers(4) == [0].as_slice());
    assert!(rt; cluster.signal_size(1) == 10);
    assert!(rt; matches!(cluster.initial(1), Value::Scalar(0x155)));
}

fn expect_frames(rt: &impl Abort, cluster: &Cluster) {
    assert!(rt; cluster.frames() == 4);
    assert!(rt; cluster.frame_pid(2) == 0x42);
    assert!(rt; cluster.frame_pid(3) == 0x03);
    assert!(rt; cluster.model(2) == SumKind::Enhanced);
    assert!(rt; cluster.frame_publisher(2) == 1);
    assert!(rt; cluster.frame_signals(0) == [0, 1].as_slice());
    assert!(rt; cluster.layout(0).pid.is_none());
    assert!(rt; cluster.layout(2).pid == Some(0x42));
    assert!(rt; cluster.layout(2).len == 2);
}

fn expect_sporadic_frame(rt: &impl Abort, cluster: &Cluster) {
    assert!(rt; cluster.sporadics() == 1);
    assert!(rt; cluster.sporadic(0) == [0, 1].as_slice());
}

fn expect_event_frame(rt: &impl Abort, cluster: &Cluster) {
    assert!(rt; cluster.events() == 1);
    assert!(rt; cluster.event_pid(0) == 0xC4);
    assert!(rt; cluster.event_model(0) == SumKind::Enhanced);
    assert!(rt; cluster.event_table(0) == 1);
    assert!(rt; cluster.event_frames(0) == [2, 3].as_slice());
}

fn expect_tables(rt: &impl Abort, cluster: &Cluster) {
    assert!(rt; cluster.tables() == 3);
    assert!(rt; cluster.table_name(1) == b"Resolve".as_slice());
    assert!(rt; cluster.table_named("Main") == Some(0));
    assert!(rt; cluster.table_named("Diag") == Some(2));
    assert!(rt; cluster.table_named("diag").is_none());
    assert!(rt; cluster.table_named("Dia").is_none());
    assert!(rt; cluster.table_named("").is_none());
}

fn expect_entries(rt: &impl Abort, cluster: &Cluster) {
    assert!(rt; cluster.tables() == 3);
    assert!(rt; cluster.entries(0) == 3);
    assert!(rt; cluster.entry(0, 0) == Entry::Sporadic(0));
    assert!(rt; cluster.entry(0, 1) == Entry::Event(0));
    assert!(rt; cluster.entry(0, 2) == Entry::Frame(0));
    assert!(rt; cluster.entries(1) == 2);
    assert!(rt; cluster.entry(1, 1) == Entry::Frame(3));
    assert!(rt; cluster.delay_us(1, 1) == 10_000);
}

fn expect_body(rt: &impl Abort, cluster: &Cluster) {
    assert!(rt; cluster.signals() == 1);
    assert!(rt; cluster.tables() == 1);
    assert!(rt; cluster.entries(0) == 2);
    assert!(rt; cluster.entry(0, 0) == Entry::Quiet);
    assert!(rt; cluster.entry(0, 1) == Entry::Frame(0));
}

/// An address that a text gives to the commander.
const COMMANDERS_ADDRESS: &[u8] =
    b"Node_attributes { m { configured_NAD = 5; } s { configured_NAD = 5; } }
Schedule_tables { T { MasterReq delay 10 ms; } }
";

fn expect_address_of_responder(rt: &impl Abort, cluster: &Cluster) {
    assert!(rt; cluster.nodes() == 3);
    assert!(rt; cluster.nad(0).is_none());
    assert!(rt; cluster.nad(1) == Some(5));
}

/// Frames that the responder s, of LIN 1.3, sends or reads, and others.
const FRAMES_OF_LIN_1: &[u8] = b"Signals { a: 8, 0, m, t, s; b: 8, 0, m, t; }
Frames { A: 1, m, 1 { a, 0; } B: 2, m, 1 { b, 0; } F: 3, s, 2 { } G: 4, t, 2 { } }
Event_triggered_frames { E: T, 5, F; K: T, 6, G; }
Node_attributes { s { LIN_protocol = \"1.3\"; } }
Schedule_tables { T { MasterReq delay 10 ms; } }
";

fn expect_models(rt: &impl Abort, cluster: &Cluster) {
    assert!(rt; cluster.frames() == 4);
    assert!(rt; cluster.events() == 2);
    assert!(rt; cluster.model(0) == SumKind::Classic);
    assert!(rt; cluster.model(1) == SumKind::Enhanced);
    assert!(rt; cluster.model(2) == SumKind::Classic);
    assert!(rt; cluster.model(3) == SumKind::Enhanced);
    assert!(rt; cluster.event_model(0) == SumKind::Classic);
    assert!(rt; cluster.event_model(1) == SumKind::Enhanced);
}

/// A signal without subscribers, and one with a node twice and with its publisher.
const SUBSCRIBERS: &[u8] = b"Signals { a: 8, 0, m; b: 8, 0, s, t, m, s, t; }
Schedule_tables { T { MasterReq delay 10 ms; } }
";

fn expect_subscribers(rt: &impl Abort, cluster: &Cluster) {
    assert!(rt; cluster.signals() == 2);
    assert!(rt; cluster.subscribers(0).is_empty());
    assert!(rt; cluster.subscribers(1) == [2, 0, 1, 2].as_slice());
}

#[test]
fn clusters_of_texts(rt: HostRuntime) -> Result<(), Fail> {
    let alloc = rt.alloc();
    expect_door(&rt, &cluster_of(alloc, DOOR_CLUSTER)?);
    expect_body(&rt, &cluster_of(alloc, BODY_CLUSTER)?);
    let address = joined(alloc, &[HEADER, COMMANDERS_ADDRESS])?;
    expect_address_of_responder(&rt, &cluster_of(alloc, &address)?);
    let models = joined(alloc, &[HEADER, FRAMES_OF_LIN_1])?;
    expect_models(&rt, &cluster_of(alloc, &models)?);
    let subscribers = joined(alloc, &[HEADER, SUBSCRIBERS])?;
    expect_subscribers(&rt, &cluster_of(alloc, &subscribers)?);
    let keys = cluster_of(alloc, KEYS_CLUSTER)?;
    expect_nodes(&rt, &keys);
    expect_signals(&rt, &keys);
    expect_frames(&rt, &keys);
    expect_sporadic_frame(&rt, &keys);
    expect_event_frame(&rt, &keys);
    expect_tables(&rt, &keys);
    expect_entries(&rt, &keys);
    Ok(())
}
