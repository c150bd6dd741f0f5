//! A run in the formats of other tools: its log with names, as a table, as objects of JSON, as a
//! capture of packets and as a dump of changes.
//!
//! ```
//! let mut capture = Vec::new(alloc);
//! write_pcap(alloc, core.cluster(), core.log(), &mut capture)?;
//! ```
//!
//! And what an LDF describes, as lines: its nodes, signals and schedule tables, its frames with the
//! places of their signals, how much time its slots leave, what its schedule tables promise, and what
//! the values of signals mean.
//!
//! ```
//! // a line for each node, signal and table, for each frame and each place, and for each slot and
//! // each table's load
//! write_list(&cluster, &mut writer)?;
//! write_frames(&cluster, &mut writer)?;
//! write_slots(&cluster, &mut writer)?;
//! // lines for each table, for messages with 6 data bytes
//! write_timing(alloc, &cluster, 6, &mut writer)?;
//! ```
#![tactic(auto)]

mod changes;
mod check_object;
mod cluster_lists;
mod csv;
mod fault;
mod first_slots;
mod format;
mod frame_places;
mod hearing;
mod json;
mod jsonl;
mod kept_cells;
mod last_slot;
mod law;
mod line_meanings;
mod meaning_cells;
mod named;
mod named_values;
mod pcap;
mod short_text;
mod slot_meanings;
mod slot_names;
mod slot_object;
mod slot_purpose;
mod track;
mod tracked_slot;
mod variables;
mod vcd;

pub use check_object::node_objects::nad_member;
pub use check_object::problems::{Problem, put_problem_line};
pub use check_object::{Found, write_object};
pub use cluster_lists::{
    FrameTiming, Latency, TableTiming, address_word, table_loads, table_timings, write_frames,
    write_list, write_maps, write_signals, write_slots, write_timing,
};
pub use csv::write_csv;
pub use fault::ExportFault;
pub use first_slots::write_first_slots;
pub use json::{
    Member, put_first, put_key, put_member, put_members, put_printable, put_separator, put_type,
};
pub use jsonl::{Counts, LogRange, ObjectTrack, Opening, Unmet, objects_text, put_run, write_run};
pub use last_slot::{LastSlot, put_last_slot, put_last_slot_value};
pub use law::{captures_what_was_seen, dumps_last_values, maps_tell_places};
pub use line_meanings::put_line_meaning;
pub use named::{named_text, put_slot_names, write_named};
pub use pcap::write_pcap;
pub use slot_meanings::put_meant;
pub use slot_object::put_value_member;
pub use track::Track;
pub use vcd::write_vcd;
