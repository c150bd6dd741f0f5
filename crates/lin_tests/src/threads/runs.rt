//! Whole runs, with threads.

mod bench;
mod meeting;
mod rows;
mod split;
mod tasks;
