//! What a schedule table asks of the bus.

/// The load of a schedule table.
#[derive(Clone, Copy, Debug)]
pub struct TableLoad {
    /// The time of one round in microseconds.
    pub cycle_us: u64,
    /// The bus load in thousandths.
    pub load: u64,
    /// The delay of the slot with the least slack, in microseconds.
    pub delay_us: u64,
    /// The time that this slot needs, in microseconds.
    pub needed_us: u64,
}
