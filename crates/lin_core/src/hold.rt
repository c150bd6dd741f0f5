//! Steps that are handed back.

use crate::step::Step;

/// A step that was neither done nor refused. It is handed back as it was given; nothing is logged
/// or changed.
#[derive(Debug, PartialEq, Drop)]
pub enum Hold {
    /// The log has 4,294,967,295 entries.
    LogFull(Step),
    /// There was no memory for the step. The same step may be given again.
    OutOfMemory(Step),
}
