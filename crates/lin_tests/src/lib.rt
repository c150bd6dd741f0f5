//! Tests of the public calls of the crates up to `lin_log` and `lin_threads`, apart from them, so that
//! a crate isn't proved a second time with its tests.
#![tactic(auto)]

#[cfg(test)]
mod cluster;
#[cfg(test)]
mod frames;
#[cfg(test)]
mod held_steps;
#[cfg(test)]
mod ldf;
#[cfg(test)]
mod log;
#[cfg(test)]
mod runs;
#[cfg(test)]
mod samples;
#[cfg(test)]
mod schedule;
#[cfg(test)]
mod text;
#[cfg(test)]
mod threads;
#[cfg(test)]
mod transport;
