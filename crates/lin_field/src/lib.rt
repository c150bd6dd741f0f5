//! LDF texts of the field: those of LIN 1.3, 2.0, 2.1, 2.2, J2602 and ISO 17987 tools and of old
//! editors, read by a wider grammar and settled to a plain description, with warnings.
//!
//! ```
//! let settled = settle(alloc, read_field(alloc, bytes)?)?;
//! let checked = check_field(alloc, &settled)?;
//! ```
#![tactic(auto)]

mod attributes;
mod field_check;
mod field_text;
mod file;
mod frames;
mod header;
mod items;
mod law;
mod loose;
mod marks;
mod node_names;
mod nodes;
mod normalizing;
mod order;
mod plain;
mod rounded_decimals;
mod signals;
mod tables;
mod times;
mod wide;

pub use field_check::{Checked, FieldFault, Remark, check_field};
pub use field_text::{FieldText, read_field};
pub use law::{plain_texts_stay, silence_is_free};
pub use loose::{
    Header, Loose, LooseAttributes, LooseEntry, LooseEvent, LooseFrame, LooseInit, LooseNodes,
    LooseSignal, LooseTable, NodeAddress, RoundedDecimal, WideNumber,
};
pub use marks::read_over_bytes;
pub use node_names::copied;
pub use normalizing::{Normalized, settle};
pub use plain::write_plain;
pub use wide::wide_int;
