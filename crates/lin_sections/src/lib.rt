//! What an LDF says besides its cluster: signal encodings (LIN 2.2A, section 9.2.6), attributes of nodes
//! (9.2.2.2) and node configuration commands (9.2.5), and what differs between two LDFs.
//!
//! ```
//! let codings = read_codings(alloc, text)?;
//! let (olds, news) = compared_things(alloc, old, new)?;
//! let found = differences(alloc, olds.as_slice(), news.as_slice())?;
//! write_differences("old.ldf", "new.ldf", found.as_slice(), classes, &mut out)?;
//! ```
#![tactic(auto)]

mod attribute_blocks;
mod attribute_lints;
mod attribute_values;
mod coding_sections;
mod commands;
mod configurable_lists;
mod configuring;
mod diff;
mod frame_times;
mod grammar;
mod identities;
mod law;
mod mentioned;
mod reals;
mod requests;
mod shown_texts;
mod skipping;
mod statements;
mod stops;
mod transfer_limits;
mod unknown;

pub use attribute_blocks::{Attribute, NodeAttributes, read_attributes};
pub use attribute_lints::lint_attributes;
pub use attribute_values::header_version;
pub use coding_sections::{read_codings, read_field_codings};
pub use configurable_lists::read_configurables;
pub use configuring::configure;
pub use diff::{
    Bits, Class, Classes, ComparedLdf, Difference, EntryFact, Fact, FactText, Thing, ThingKind,
    compared_things, differences, is_any_listed, write_differences,
};
pub use law::{shown_is_read, silence_is_sameness, silence_keeps_bytes, silence_keeps_times};
pub use transfer_limits::{TransferLimits, limits_named, read_transfer_limits};
pub use unknown::unknown_words;
