//! Segmented messages: what a sender transmits and what a receiver reads (ISO 17987-2, transport
//! layer; LIN 2.2A, 3.2).
//!
//! ```
//! let mut sender = Sender::begin(0x01, message.len());
//! let mut receiver = Receiver::new(alloc, 0x01);
//! while !sender.is_done() {
//!     let received = receiver.hear(&sender.next(message))?;
//!     sender.sent();
//! }
//! ```
#![tactic(auto)]

mod law;
mod pci;
mod receiver;
mod sender;

pub use law::{reads_first_frames, reads_what_is_sent};
pub use pci::FUNCTIONAL;
pub use receiver::Receiver;
pub use sender::Sender;
