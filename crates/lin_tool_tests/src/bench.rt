//! Bench scripts: what is read of their texts, and what they come to.

mod bad_lines;
mod limits;
mod parameters;
mod runs;
mod scripts;
mod unmet;
