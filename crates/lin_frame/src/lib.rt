//! LIN frames: protected identifiers, checksums, and signals in data bytes (ISO 17987-3).
//!
//! ```
//! // the master request of the bytes 22 06 2E to the address 01: its checksum is A5
//! let pid = protected(id);
//! let response = answer(SumKind::Classic, pid, &[0x01, 0x03, 0x22, 0x06, 0x2E, 0xFF, 0xFF, 0xFF]);
//! ```
#![tactic(auto)]

mod bits;
mod identifier;
mod inverse;
mod layout;
mod packing;
mod responding;
mod response;
mod short;
mod sums;
mod value;

pub use identifier::{FrameId, protected, unprotect};
pub use inverse::packing_is_inverse;
pub use layout::{Layout, Place};
pub use packing::{pack, unpack};
pub use responding::answer;
pub use response::Answer;
pub use sums::{SumKind, checksum, passes};
pub use value::{Value, ValueBytes};
