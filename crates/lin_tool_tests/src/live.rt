//! Lines that are answered as they come, over a state that says how long they are.

mod ends;
mod flushed;
mod lengths;
mod lines;
mod watched;
