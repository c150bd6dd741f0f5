//! What runs are written as.

mod faults;
mod formats;
mod last_slots;
