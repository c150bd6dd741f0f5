//! Descriptions of whole texts.

use super::outcomes::expect_outcomes;
use crate::samples::{
    BODY_CLUSTER, BYTE_ORDER_MARK, DOOR_CLUSTER, HEADER, KEYS_CLUSTER, LIGHT_CLUSTER, add,
    add_number, add_place, expect_text, joined,
};
use lin_ldf::{
    Attributes, Description, EventFrame, Frame, Init, Name, Number, Signal, Sporadic, Table, parse,
};
use std::alloc::Global;
use std::process::Abort;
use std::test::Fail;

/// The text is read, after a byte-order mark too.
fn expect_read(rt: &impl Abort, alloc: Global, text: &[u8]) -> Result<(), Fail> {
    expect_outcomes(rt, alloc, text, " => accepted")?;
    let marked = joined(alloc, &[BYTE_ORDER_MARK, text])?;
    expect_outcomes(rt, alloc, &marked, " => accepted")
}

#[test]
fn sample_clusters(rt: HostRuntime) -> Result<(), Fail> {
    for text in [
        DOOR_CLUSTER,
        KEYS_CLUSTER,
        LIGHT_CLUSTER,
        BODY_CLUSTER,
        DOOR_MODULE,
    ] {
        expect_read(&rt, rt.alloc(), text)?;
    }
    Ok(())
}

/// Ends a line by the place of what it names.
fn list_place(alloc: Global, out: &mut Vec<u8>, line: u64, column: u64) -> Result<(), Fail> {
    out.push(b'@')?;
    add_place(alloc, out, line, column)?;
    out.push(b'\n')?;
    Ok(())
}

fn list_name(alloc: Global, out: &mut Vec<u8>, label: &str, name: &Name) -> Result<(), Fail> {
    add(out, &[label.as_bytes(), b" ", name.text.as_slice()])?;
    list_place(alloc, out, name.line, name.column)
}

fn list_number(alloc: Global, out: &mut Vec<u8>, label: &str, number: &Number) -> Result<(), Fail> {
    add(out, &[label.as_bytes(), b" "])?;
    add_number(alloc, out, u64::from(number.value))?;
    list_place(alloc, out, number.line, number.column)
}

fn list_signal(alloc: Global, out: &mut Vec<u8>, signal: &Signal) -> Result<(), Fail> {
    list_name(alloc, out, "signal", &signal.name)?;
    list_number(alloc, out, "size", &signal.size)?;
    match &signal.init {
        Init::Scalar(number) => list_number(alloc, out, "init", number)?,
        Init::Array(place, items) => {
            out.extend_from_slice(b"array")?;
            list_place(alloc, out, place.line, place.column)?;
            for item in items.as_slice() {
                list_number(alloc, out, "item", item)?;
            }
        }
    }
    list_name(alloc, out, "publisher", &signal.publisher)?;
    for subscriber in signal.subscribers.as_slice() {
        list_name(alloc, out, "subscriber", subscriber)?;
    }
    Ok(())
}

fn list_frame(alloc: Global, out: &mut Vec<u8>, frame: &Frame) -> Result<(), Fail> {
    list_name(alloc, out, "frame", &frame.name)?;
    list_number(alloc, out, "id", &frame.id)?;
    list_name(alloc, out, "publisher", &frame.publisher)?;
    list_number(alloc, out, "size", &frame.size)?;
    for placed in frame.placed.as_slice() {
        list_name(alloc, out, "placed", &placed.signal)?;
        list_number(alloc, out, "offset", &placed.offset)?;
    }
    Ok(())
}

fn list_event(alloc: Global, out: &mut Vec<u8>, event: &EventFrame) -> Result<(), Fail> {
    list_name(alloc, out, "event", &event.name)?;
    list_name(alloc, out, "table", &event.table)?;
    list_number(alloc, out, "id", &event.id)?;
    for member in event.members.as_slice() {
        list_name(alloc, out, "member", member)?;
    }
    Ok(())
}

fn list_attributes(alloc: Global, out: &mut Vec<u8>, block: &Attributes) -> Result<(), Fail> {
    list_name(alloc, out, "block", &block.node)?;
    if let Some(protocol) = &block.protocol {
        add(out, &[b"protocol ", protocol.as_slice(), b"\n"])?;
    }
    if let Some(nad) = &block.configured_nad {
        list_number(alloc, out, "NAD", nad)?;
    }
    Ok(())
}

fn list_table(alloc: Global, out: &mut Vec<u8>, table: &Table) -> Result<(), Fail> {
    list_name(alloc, out, "table", &table.name)?;
    for entry in table.entries.as_slice() {
        let label = if entry.has_group { "group" } else { "entry" };
        list_name(alloc, out, label, &entry.name)?;
        list_number(alloc, out, "delay", &entry.delay)?;
    }
    Ok(())
}

fn list_nodes(alloc: Global, out: &mut Vec<u8>, d: &Description) -> Result<(), Fail> {
    list_number(alloc, out, "speed", &d.speed())?;
    list_name(alloc, out, "master", d.master())?;
    list_number(alloc, out, "time base", &d.time_base())?;
    list_number(alloc, out, "jitter", &d.jitter())?;
    for slave in d.slaves() {
        list_name(alloc, out, "slave", slave)?;
    }
    Ok(())
}

fn list_sporadic(alloc: Global, out: &mut Vec<u8>, frame: &Sporadic) -> Result<(), Fail> {
    list_name(alloc, out, "sporadic", &frame.name)?;
    for member in frame.members.as_slice() {
        list_name(alloc, out, "member", member)?;
    }
    Ok(())
}

/// Each declaration in file order, with the places of its names and numbers.
fn listing(alloc: Global, d: &Description) -> Result<Vec<u8>, Fail> {
    let mut out = Vec::new(alloc);
    list_nodes(alloc, &mut out, d)?;
    for signal in d.signals() {
        list_signal(alloc, &mut out, signal)?;
    }
    for frame in d.frames() {
        list_frame(alloc, &mut out, frame)?;
    }
    for frame in d.sporadic() {
        list_sporadic(alloc, &mut out, frame)?;
    }
    for event in d.events() {
        list_event(alloc, &mut out, event)?;
    }
    for block in d.attributes() {
        list_attributes(alloc, &mut out, block)?;
    }
    for table in d.tables() {
        list_table(alloc, &mut out, table)?;
    }
    Ok(out)
}

#[test]
fn declarations(rt: HostRuntime) -> Result<(), Fail> {
    let source = joined(rt.alloc(), &[HEADER, DECLARATIONS])?;
    let d = parse(rt.alloc(), &source)?;
    expect_text(&rt, &listing(rt.alloc(), &d)?, LISTING, "listing");
    Ok(())
}

/// A section of each kind, from line 6 on.
const DECLARATIONS: &[u8] = b"Signals { a: 8, 1, m, s, t; b: 16, {2, 0x3}, s; }
Frames { f: 0x10, s, 2 { a, 0; b, 8; } g: 2, m, 1 { } }
Sporadic_frames { p: g, f; }
Event_triggered_frames { e: T, 4, f, h; }
Node_attributes { t { LIN_protocol = 2.10; } s { configured_NAD = 0x7; LIN_protocol = \"a b\"; } m { } }
Schedule_tables { T { x { 1 } delay 10 ms; f delay 0.5 ms; } U { } }
";

const LISTING: &[u8] = b"speed 19200@4:13
master m@5:17
time base 5000@5:20
jitter 100@5:26
slave s@5:42
slave t@5:45
signal a@6:11
size 8@6:14
init 1@6:17
publisher m@6:20
subscriber s@6:23
subscriber t@6:26
signal b@6:29
size 16@6:32
array@6:36
item 2@6:37
item 3@6:40
publisher s@6:46
frame f@7:10
id 16@7:13
publisher s@7:19
size 2@7:22
placed a@7:26
offset 0@7:29
placed b@7:32
offset 8@7:35
frame g@7:40
id 2@7:43
publisher m@7:46
size 1@7:49
sporadic p@8:19
member g@8:22
member f@8:25
event e@9:26
table T@9:29
id 4@9:32
member f@9:35
member h@9:38
block t@10:19
protocol 2.10
block s@10:46
protocol a b
NAD 7@10:67
block m@10:96
table T@11:19
group x@11:23
delay 10000@11:37
entry f@11:44
delay 500@11:52
table U@11:62
";

/// A cluster as tools write it, with all that is read and not used.
const DOOR_MODULE: &[u8] = b"/*****************************************************
 * Door module of a car; exported by hand: \"2.1\" { } ;
 *****************************************************/
LIN_description_file ;
LIN_protocol_version = \"2.1\" ;
LIN_language_version = \"2.1\" ;
LIN_speed = 19.200 kbps ;
Channel_name = \"DB1\" ;
LDF_file_revision = \"16.10.12\" ;

Nodes {
  Master : CEM, 5 ms, 0.1 ms ;
  Slaves : LSM, CPM ;
}

Signals {
  InternalLightsRequest : 2, 0, CEM, LSM, CPM ;
  InternalLightsSwitch : 2, 0, LSM, CEM ;
  RightIntLightsSwitch : 8, 0xff, LSM, CEM ; // percent
  LSMerror : 1, 0, LSM, CEM ;
  CPMerror : 1, 0, CPM, CEM ;
  Serial : 32, {0x00, 1, 2, 255}, CPM, CEM ;
}

Diagnostic_signals {
  MasterReqB0 : 8, 0 ;
  SlaveRespB0 : 8, 0 ;
}

Frames {
  CEM_Frm1 : 0x01, CEM, 1 {
    InternalLightsRequest, 0 ;
  }
  LSM_Frm1 : 2, LSM, 2 {
    InternalLightsSwitch, 8 ;
  }
  LSM_Frm2 : 3, LSM, 2 {
    LSMerror, 0 ;
    RightIntLightsSwitch, 8 ;
  }
  CPM_Frm1 : 4, CPM, 6 { CPMerror, 8 ; Serial, 16 ; }
}

Sporadic_frames { Spor : CEM_Frm1 ; }

Event_triggered_frames {
  Node_Status_Event : Collision_resolver, 0x06, LSM_Frm1, CPM_Frm1 ;
}

Diagnostic_frames {
  MasterReq : 0x3c { MasterReqB0, 0 ; }
  SlaveResp : 0x3d { SlaveRespB0, 0 ; }
}

Node_attributes {
  LSM {
    LIN_protocol = \"2.1\" ;
    configured_NAD = 0x20 ;
    initial_NAD = 0x01 ;
    product_id = 0x4A4F, 0x4841, 1 ;
    response_error = LSMerror ;
    fault_state_signals = LSMerror, CPMerror ;
    P2_min = 150 ms ;
    ST_min = 50 ms ;
    N_As_timeout = 1000 ms ;
    N_Cr_timeout = 1000 ms ;
    configurable_frames {
      Node_Status_Event ;
      CEM_Frm1 = 0x4000 ;
      LSM_Frm1 ;
    }
  }
  CPM {
    LIN_protocol = 2.0 ;
    configured_NAD = 2 ;
    product_id = 0x4A4F, 0x4841 ;
    configurable_frames { CPM_Frm1 = 0x14 ; }
  }
}

Node_composition_definitions { composite A { B { LSM, CPM ; } } }

Schedule_tables {
  Configuration_Schedule {
    AssignNAD { LSM } delay 15 ms ;
    AssignFrameIdRange { LSM, 0 } delay 15 ms ;
    AssignFrameIdRange { CPM, 0, 0x04, 255, 255, 255 } delay 15.000 ms ;
    AssignFrameId { CPM, CPM_Frm1 } delay 15 ms ;
    ConditionalChangeNAD { 1, 2, 3, 4, 5, 6 } delay 15 ms ;
    DataDump { LSM, 0x10, 0x80, 0x00, 0xFF, 0xFF } delay 15 ms ;
    SaveConfiguration { CPM } delay 15 ms ;
    FreeFormat { 0x3C, 0xB2, 0x00, 0x00, 0xFF, 0xFF, 0xFF, 0xFF } delay 15 ms ;
  }
  Normal_Schedule {
    Spor delay 10 ms ;
    Node_Status_Event delay 10ms ;
    LSM_Frm2 delay 15.5 ms ;
    MasterReq delay 10 ms ;
    SlaveResp delay 10 ms ;
  }
  Collision_resolver { LSM_Frm1 delay 10 ms ; CPM_Frm1 delay 10 ms ; }
}

Signal_encoding_types {
  Dig2Bit { logical_value, 0, \"off\" ; logical_value, 1, \"on; }\" ; }
  Temp { physical_value, 0, 250, 0.5, -40, \"degree\" ; physical_value, 251, 253, 1, 0 ; }
  Text { bcd_value ; } Ascii { ascii_value ; }
}

Signal_representation {
  Dig2Bit : InternalLightsRequest, InternalLightsSwitch ;
  Temp : RightIntLightsSwitch ;
}
";
