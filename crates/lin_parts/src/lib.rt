//! What is spoken of: what an LDF text describes, as its declarations in file order (LIN 2.2A,
//! section 9); and LIN clusters, their nodes, signals, frames and schedule tables, with what every
//! cluster has (ISO 17987-3; LIN 2.2A, section 9).
//!
//! ```
//! // what a text declares
//! for frame in description.frames() { .. }
//! // the diagnostic address of node 1, and what the first entry of table 0 asks for
//! let address = cluster.nad(1);
//! let entry = cluster.entry(0, 0);
//! ```
#![tactic(auto)]

mod carriers;
mod cluster;
mod configured;
pub mod description;
mod parts;
mod place;
mod service;

pub use cluster::Cluster;
pub use parts::{
    Entry, ErrorSignal, EventFrame, Identity, Line, Node, Parts, Product, Signal, SignalFrame,
    SporadicFrame, Table,
};
pub use place::Location;
pub use service::service_name;
