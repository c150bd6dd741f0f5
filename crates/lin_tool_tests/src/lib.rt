//! Tests of what stands on logs: formats, lists, bench scripts, faults, campaigns, lines in hand, and the
//! program's calls; of texts of the field; and of what values mean. They are apart from the crates of
//! these, so that those aren't proved a second time with them.
#![tactic(auto)]

#[cfg(test)]
mod bench;
#[cfg(test)]
mod campaign;
#[cfg(test)]
mod clusters;
#[cfg(test)]
mod differences;
#[cfg(test)]
mod export;
#[cfg(test)]
mod fakes;
#[cfg(test)]
mod faults_in_slots;
#[cfg(test)]
mod field;
#[cfg(test)]
mod lists;
#[cfg(test)]
mod live;
#[cfg(test)]
mod program;
#[cfg(test)]
mod samples;
#[cfg(test)]
mod services;
#[cfg(test)]
mod values;
