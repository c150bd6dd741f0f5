//! Who gives a step.

/// Who gives a step: the bus itself, the host of a node, or a node. Any number may stand here; a
/// step by a number that is no node is refused.
#[derive(Clone, Copy, Debug, PartialEq, Eq)]
pub enum PortId {
    Bus,
    Host(u8),
    Node(u8),
}
