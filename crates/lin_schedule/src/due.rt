//! What is due in a slot.

/// What is due in a slot, for a schedule entry of each kind (ISO 17987-3, schedule tables). Frames
/// are given by their numbers.
#[derive(Clone, Copy, Debug, PartialEq, Eq)]
pub enum Due {
    /// An unconditional frame.
    Frame(u16),
    /// Of a sporadic frame the first pending frame in its list, or none where none is pending.
    Sporadic(Option<u16>),
    /// An event-triggered frame.
    Event(u16),
    /// The master request frame.
    MasterReq,
    /// The slave response frame.
    SlaveResp,
    /// A configuration entry: a master request frame with its data bytes.
    Fixed,
    /// A configuration entry that stays silent.
    Quiet,
}
