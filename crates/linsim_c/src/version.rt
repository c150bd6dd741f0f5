//! The version of the library, which is that of the program.

/// 1,000,000 for each major version, 1,000 for each minor one, and 1 for each patch.
pub(crate) const NUMBER: u32 = 2_000;

/// The same as text. An unproved library adds ` (unproved)`: tools/c_library changes this line.
pub(crate) const TEXT: &[u8] = b"0.2.0";
