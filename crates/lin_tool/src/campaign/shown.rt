//! A row of a campaign, with everything else that its formats show.

use crate::campaign::row::Row;
use crate::campaign::singles::Single;
use lin_bench::{Judgement, SlotFault};
use lin_core::Core;

/// A row, its number and its faults, and the play that it is of.
#[derive(Clone, Copy)]
pub(crate) struct ShownRow<'a> {
    pub(crate) number: u64,
    pub(crate) faults: &'a [SlotFault],
    /// The fault of a row that has exactly one.
    pub(crate) single: Option<Single>,
    pub(crate) row: &'a Row,
    pub(crate) core: &'a Core,
    pub(crate) judgements: &'a [Judgement],
}
