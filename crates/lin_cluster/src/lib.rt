//! The check of a description: all that is wrong with it, or the LIN cluster that it says (LIN
//! 2.2A, section 9).
//!
//! ```
//! // a cluster, or all findings
//! let cluster = check(alloc, parse(alloc, text.as_bytes())?)?;
//! ```
#![tactic(auto)]

mod checks;
mod described;
mod finding;
mod findings;
mod lints;
mod names;
mod slot_sizes;

pub use checks::{check, cluster_of};
pub use finding::{CheckFault, Finding, FindingKind};
pub use findings::{
    Examined, Repeats, at_name, at_number, examine, is_frame_size, is_speed, needed_us, push_when,
};
pub use lin_parts::{
    Cluster, Entry, EventFrame, Line, Node, Parts, Signal, SignalFrame, SporadicFrame, Table,
};
pub use lints::{Configurable, lint};
pub use names::{Named, Numbers, find_by, number_by, numbers_of};
pub use slot_sizes::SlotSizes;
