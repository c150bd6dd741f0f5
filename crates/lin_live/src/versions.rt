//! The versions that a client can ask for.

/// The version of the program.
pub(crate) const PROGRAM_VERSION: &str = "0.2.0";

/// The version of the objects of runs and answers.
pub(crate) const OBJECTS_VERSION: u8 = 2;
