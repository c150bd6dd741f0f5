//! The walk through a cluster's schedule tables: which entry is due in each slot, and how long nodes
//! wait for signals and messages (ISO 17987-3, schedule tables).
//!
//! ```
//! let mut walker = Walker::new(0);
//! let due = walker.due(&cluster, pending);
//! walker.advance(&cluster, was_collided);
//! // the longest time in table 0 until a signal of frame 3 has been sent after a write
//! let awaited = Awaited::frames(alloc, &cluster, &[3])?;
//! let worst = worst_wait(alloc, &cluster, 0, &awaited, 1)?;
//! ```
#![tactic(auto)]

mod after;
mod awaited;
mod cycles;
mod due;
mod excursion;
mod law;
mod occurs;
mod once;
mod spacing;
mod table_load;
mod waits;
mod walker;

pub use awaited::{Awaited, rank};
pub use cycles::{cycle, longest_cycle};
pub use due::Due;
pub use law::{entries_in_turn, excursions_run_once};
pub use occurs::{own_entries, shared_entries};
pub use once::once_wait;
pub use spacing::{Extremes, gaps};
pub use table_load::TableLoad;
pub use waits::worst_wait;
pub use walker::Walker;
