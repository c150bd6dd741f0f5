//! What a line says.

use crate::expected::Expected;
use crate::rules::Rule;
use lin_core::{Payload, PortId, Step};
use lin_text::{Many, Text};

/// How one slot is disturbed.
#[derive(Drop)]
pub enum Disturbance {
    Undisturbed,
    /// The nodes see these bytes in place of the response.
    Hurt(Payload),
    /// These nodes leave their responses out where they are due.
    Leave(Many<u8>),
}

/// How many slots are made.
#[derive(Clone, Copy, Debug)]
pub enum Extent {
    /// So many, 1 to 1,000,000.
    Count(u32),
    /// As many as begin within so many milliseconds, 1 to 1,000,000, of the schedule's time.
    Milliseconds(u32),
    /// As many as begin while a message waits, at most so many, 1 to 1,000,000.
    Idle(u32),
}

/// Slots, in which each node that is due answers, except those that leave their responses out.
#[derive(Drop)]
pub struct Slots {
    pub extent: Extent,
    pub leave: Many<u8>,
}

/// What a line of a bench script says.
#[derive(Drop)]
pub enum ScriptLine {
    /// A step by a port.
    Step(PortId, Step),
    /// A slot, in which each node that is due answers.
    Slot(Disturbance),
    Slots(Slots),
    /// Slots until what is expected comes, and it is judged.
    Until(Slots, Expected),
    /// Slots as long as what is expected holds after each of them, and it is judged.
    While(Slots, Expected),
    Expect(Expected),
    /// Of all messages that arrived, and of all that were sent or lost, expectations speak no more.
    Forget,
    /// A test of this name begins. Of what came before it, expectations speak no more.
    Test(Text),
    /// A rule is in force for the lines after it, or no longer.
    Rule(Rule),
}
