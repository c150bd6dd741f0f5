//! LDF texts: their tokens, and the descriptions that they spell.

mod beginnings;
mod faults;
mod gaps;
mod listing;
mod numbers;
mod outcomes;
mod tokens;
