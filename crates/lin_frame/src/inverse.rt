//! A law of packing.

ghost use Rattle.lin_frame.specs.Inverse.{PackingUndoesUnpacking, UnpackingUndoesPacking};

/// Packing and unpacking undo each other; this is proved, and the call does nothing.
pub fn packing_is_inverse()
    ensures unpacked_again { UnpackingUndoesPacking }
    ensures packed_again { PackingUndoesUnpacking }
{}
