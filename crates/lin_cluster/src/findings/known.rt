//! What the names of a description name.

ghost use Rattle.std.specs.Prelude.{◌≡◌, ◌||◌, IfOk, is_some};
ghost use Rattle.std.specs.Option.{option_copied};
ghost use Rattle.lin_cluster.specs.Described.{signal_number, frame_number, sporadic_number};
ghost use Rattle.lin_cluster.specs.Described.{event_number, table_number};
ghost use Rattle.lin_cluster.specs.FindingsNames.{is_node, is_responder, frame_named};
ghost use Rattle.lin_cluster.specs.FindingsNames.{sporadic_named, event_named, is_diagnostic};
ghost use Rattle.lin_cluster.specs.FindingsNames.{carries_frame, is_event_entry};
ghost use Rattle.lin_cluster.specs.FindingsNodes.{number_of_node, is_responder_number};
ghost use Rattle.lin_cluster.specs.Known.{AreNodeNumbers, AreFrameNumbers};
ghost use Rattle.lin_cluster.specs.Models.{tells_version_1, has_version_1, is_lin_1};

use crate::names::{Numbers, find_by, number_by, numbers_of};
use lin_parts::description::{
    Attributes, Description, EventFrame, Frame, Name, Sporadic, TableEntry,
};
use std::alloc::{AllocError, Global};
use std::marker::Model;

pub(crate) fn is_diagnostic(name: &Name) -> bool
    ensures { result ≡ is_diagnostic name.now }
{
    name.text.as_slice() == b"MasterReq".as_slice()
        || name.text.as_slice() == b"SlaveResp".as_slice()
}

/// Whether the entry is for a frame, and neither a diagnostic nor a configuration entry.
pub(crate) fn carries_frame(entry: &TableEntry) -> bool
    ensures { result ≡ carries_frame entry.now }
{
    !entry.has_group && !is_diagnostic(&entry.name)
}

/// Whether there is a node, and it isn't the commander.
pub(super) fn is_responder_number(node: Option<usize>) -> bool
    ensures { result ≡ is_responder_number node }
{
    match node {
        Some(number) => 0 < number,
        None => false,
    }
}

// Whether a node's attributes tell a version of LIN 1.x.
fn tells_version_1(block: &Attributes) -> bool
    ensures { result ≡ tells_version_1 block.now }
{
    match &block.protocol {
        Some(version) => version.as_slice().starts_with(b"1.".as_slice()),
        None => false,
    }
}

fn has_version_1(description: &Description) -> bool
    ensures { result ≡ has_version_1 description.now }
{
    description
        .attributes()
        .iter()
        .any(|block| tells_version_1(block))
}

/// The numbers of the frames of the three kinds.
#[derive(Drop)]
struct FrameNumbers<'a> {
    frames: Numbers<'a>,
    sporadic: Numbers<'a>,
    events: Numbers<'a>,
}

fn frame_numbers<'a>(
    alloc: Global,
    description: &'a Description,
) -> Result<FrameNumbers<'a>, AllocError>
    ensures { IfOk result (λ n. AreFrameNumbers description.now n.frames.map n.sporadic.map n.events.map) }
{
    let frames = numbers_of(alloc, description.frames())?;
    let sporadic = numbers_of(alloc, description.sporadic())?;
    let events = numbers_of(alloc, description.events())?;
    Ok(FrameNumbers {
        frames,
        sporadic,
        events,
    })
}

/// The numbers of the responders, and of the blocks of attributes, by the names of nodes.
#[derive(Drop)]
struct NodeNumbers<'a> {
    slaves: Numbers<'a>,
    blocks: Numbers<'a>,
}

fn node_numbers<'a>(
    alloc: Global,
    description: &'a Description,
) -> Result<NodeNumbers<'a>, AllocError>
    ensures { IfOk result (λ n. AreNodeNumbers description.now n.slaves.map n.blocks.map) }
{
    let slaves = numbers_of(alloc, description.slaves())?;
    let blocks = numbers_of(alloc, description.attributes())?;
    Ok(NodeNumbers { slaves, blocks })
}

/// A description and what its names name. Contracts see the description.
pub(super) struct Known<'a> {
    pub(super) description: &'a Description,
    nodes: NodeNumbers<'a>,
    signals: Numbers<'a>,
    kinds: FrameNumbers<'a>,
    tables: Numbers<'a>,
    has_version_1: bool,
}

impl<'a> Model for Known<'a> {
    ghost use Rattle.lin_cluster.specs.Known.{IsKnown};
    ghost use Rattle.lin_parts.specs.declared.description.Description.{Description};

    ghost Value = { Description };

    ghost view = { λ k. k.description.now };

    ghost invariant = { λ k. IsKnown k.description.now k.nodes.slaves.map k.nodes.blocks.map k.signals.map
        k.kinds.frames.map k.kinds.sporadic.map k.kinds.events.map k.tables.map k.has_version_1 };
}

// Written out, so that what owns one lets it go in one step.
impl<'a> Drop for Known<'a> {
    fn drop(self) {
        let Known {
            description: _,
            nodes: _nodes,
            signals: _signals,
            kinds: _kinds,
            tables: _tables,
            has_version_1: _,
        } = self;
    }
}

impl<'a> Known<'a> {
    /// What its names name is looked up once; an error means out of memory.
    pub(super) fn new(alloc: Global, description: &'a Description) -> Result<Known<'a>, AllocError>
        ensures { IfOk result (λ k. k ≡ description.now) }
    {
        let nodes = node_numbers(alloc, description)?;
        let kinds = frame_numbers(alloc, description)?;
        let signals = numbers_of(alloc, description.signals())?;
        let tables = numbers_of(alloc, description.tables())?;
        let has_version_1 = has_version_1(description);
        Ok(Known {
            description,
            nodes,
            signals,
            kinds,
            tables,
            has_version_1,
        })
    }

    /// The number of the node with this name: the commander's is 0.
    pub(super) fn node(&self, name: &Name) -> Option<usize>
        ensures { result ≡ number_of_node self.now name.now }
    {
        if self.description.master.text.as_slice() == name.text.as_slice() {
            return Some(0);
        }
        let slaves = self.description.slaves();
        let number = number_by(&self.nodes.slaves, slaves, name);
        if number < slaves.len() {
            Some(1 + number)
        } else {
            None
        }
    }

    pub(super) fn is_node(&self, name: &Name) -> bool
        ensures { result ≡ is_node self.now name.now }
    {
        self.node(name).is_some()
    }

    pub(super) fn is_responder(&self, name: &Name) -> bool
        ensures { result ≡ is_responder self.now name.now }
    {
        is_responder_number(self.node(name))
    }

    /// Whether any block of attributes tells a version of LIN 1.x.
    pub(super) fn has_version_1(&self) -> bool
        ensures { result ≡ has_version_1 self.now }
    {
        self.has_version_1
    }

    /// Whether there is a node with this name, and it is of LIN 1.x.
    pub(super) fn is_lin_1(&self, name: &Name) -> bool
        ensures { result ≡ is_lin_1 self.now name.now }
    {
        match find_by(&self.nodes.blocks, self.description.attributes(), name) {
            Some(block) => tells_version_1(block) && self.is_node(name),
            None => false,
        }
    }

    pub(super) fn frame(&self, name: &Name) -> Option<&'a Frame>
        ensures { option_copied result ≡ frame_named self.now name.now }
    {
        find_by(&self.kinds.frames, self.description.frames(), name)
    }

    fn sporadic(&self, name: &Name) -> Option<&'a Sporadic>
        ensures { option_copied result ≡ sporadic_named self.now name.now }
    {
        find_by(&self.kinds.sporadic, self.description.sporadic(), name)
    }

    fn event(&self, name: &Name) -> Option<&'a EventFrame>
        ensures { option_copied result ≡ event_named self.now name.now }
    {
        find_by(&self.kinds.events, self.description.events(), name)
    }

    pub(super) fn signal_number(&self, name: &Name) -> usize
        ensures { result ≡ signal_number self.now name.now }
    {
        number_by(&self.signals, self.description.signals(), name)
    }

    pub(super) fn frame_number(&self, name: &Name) -> usize
        ensures { result ≡ frame_number self.now name.now }
    {
        number_by(&self.kinds.frames, self.description.frames(), name)
    }

    pub(super) fn sporadic_number(&self, name: &Name) -> usize
        ensures { result ≡ sporadic_number self.now name.now }
    {
        number_by(&self.kinds.sporadic, self.description.sporadic(), name)
    }

    pub(super) fn event_number(&self, name: &Name) -> usize
        ensures { result ≡ event_number self.now name.now }
    {
        number_by(&self.kinds.events, self.description.events(), name)
    }

    pub(super) fn table_number(&self, name: &Name) -> usize
        ensures { result ≡ table_number self.now name.now }
    {
        number_by(&self.tables, self.description.tables(), name)
    }

    /// Whether the name is that of a sporadic or of an event-triggered frame.
    pub(super) fn is_other_frame(&self, name: &Name) -> bool
        ensures { result
            ≡ (is_some (sporadic_named self.now name.now)
            || is_some (event_named self.now name.now)) }
    {
        self.sporadic(name).is_some() || self.event(name).is_some()
    }

    /// Whether the entry is for an event-triggered frame.
    pub(super) fn is_event_entry(&self, entry: &TableEntry) -> bool
        ensures { result ≡ is_event_entry self.now entry.now }
    {
        carries_frame(entry)
            && self.frame(&entry.name).is_none()
            && self.sporadic(&entry.name).is_none()
            && self.event(&entry.name).is_some()
    }
}
