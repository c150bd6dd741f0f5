//! How the items of each list are spelled.

use crate::declared_names::Names;
use crate::node_attributes::NodeBlocks;
use lin_parts::description::{
    Attributes, EventFrame, Frame, Name, Number, PlacedSignal, Signal, Sporadic, Table, TableEntry,
};

/// How the items of a list are spelled; what was declared before an item is the state `S`.
pub trait ItemForm<S> {
    ghost use Rattle.lin_ldf.specs.Loops.{Items};

    ghost items: { Items S Self };
}

impl ItemForm<()> for Name {
    ghost use Rattle.lin_ldf.specs.Items.{word_items};

    ghost items = { word_items };
}

impl<'a> ItemForm<Names<'a>> for Name {
    ghost use Rattle.lin_ldf.specs.Items.{declared_items};

    ghost items = { declared_items };
}

impl ItemForm<()> for Number {
    ghost use Rattle.lin_ldf.specs.Items.{int_items};

    ghost items = { int_items };
}

impl<'a> ItemForm<Names<'a>> for Signal {
    ghost use Rattle.lin_ldf.specs.Items.{signal_items};

    ghost items = { signal_items };
}

impl ItemForm<()> for PlacedSignal {
    ghost use Rattle.lin_ldf.specs.Items.{placed_items};

    ghost items = { placed_items };
}

impl<'a> ItemForm<Names<'a>> for Frame {
    ghost use Rattle.lin_ldf.specs.Items.{frame_items};

    ghost items = { frame_items };
}

impl<'a> ItemForm<Names<'a>> for Sporadic {
    ghost use Rattle.lin_ldf.specs.Items.{sporadic_items};

    ghost items = { sporadic_items };
}

impl<'a> ItemForm<Names<'a>> for EventFrame {
    ghost use Rattle.lin_ldf.specs.Items.{event_items};

    ghost items = { event_items };
}

impl<'a> ItemForm<NodeBlocks<'a>> for Attributes {
    ghost use Rattle.lin_ldf.specs.Items.{attribute_items};

    ghost items = { attribute_items };
}

impl ItemForm<()> for TableEntry {
    ghost use Rattle.lin_ldf.specs.Items.{entry_items};

    ghost items = { entry_items };
}

impl<'a> ItemForm<Names<'a>> for Table {
    ghost use Rattle.lin_ldf.specs.Items.{table_items};

    ghost items = { table_items };
}
