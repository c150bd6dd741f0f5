//! Ports and their pump, and copies of events, without threads.

mod bench;
mod copied;
mod rows;
mod settled;
