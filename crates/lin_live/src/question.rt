//! What is asked.

/// A question to a bench.
#[derive(Clone, Copy, Debug)]
pub enum Question {
    /// Which value of a signal a node sees (ISO 17987-3, signals).
    Signal { node: u8, signal: u16 },
    /// How many messages of a host wait.
    Waiting { host: u8 },
    /// Of which hosts messages wait, if of any.
    Idle,
    /// The time of the schedule.
    Time,
    /// Whether the cluster is asleep.
    Asleep,
    /// Which slot an open would begin.
    Next,
    /// The versions of the program and of its objects.
    Version,
    /// The nodes with their diagnostic addresses.
    Nodes,
    /// Which slot ended last.
    LastSlot,
    /// Which rules are in force.
    Rules,
}
