//! The frames whose identifiers can be configured in a node: bad configurable frame (59).

ghost use Rattle.std.specs.Prelude.{◌≡◌, ◌++◌, List, ℕ, OnOk, IfOk};
ghost use Rattle.std.specs.List.{list_any};
ghost use Rattle.lin_cluster.specs.FindingsNames.{is_node, same_name};
ghost use Rattle.lin_cluster.specs.Lint.{bad_configurables};
ghost use Rattle.lin_cluster.specs.LintNames.{has_text, is_subscribed, concerns_by, is_frame_of};
ghost use Rattle.lin_cluster.specs.LintNames.{has_any, lists_by};

use super::sets::{Adds, NameSet, add_each, no_names};
use crate::described::subscribes;
use crate::finding::{Finding, FindingKind};
use crate::findings::{Finds, at_name, each, push_when};
use crate::names::is_name;
use lin_parts::description::{
    Description, EventFrame, Frame, Name, PlacedSignal, Signal, Sporadic,
};
use lin_text::Many;
use std::alloc::{AllocError, Global};

/// The frames of a list `configurable_frames` in the attributes of a node (LIN 2.2A, section 9.2.2.2).
#[derive(Debug, Drop)]
pub struct Configurable {
    pub node: Name,
    pub frames: Many<Name>,
}

/// A node, whose name stands among the subscribers of signals.
#[derive(Clone, Copy)]
struct Subscriber<'n> {
    node: &'n Name,
}

// A signal that the node subscribes.
impl<'n> Adds<Signal> for Subscriber<'n> {
    ghost use Rattle.std.specs.Prelude.{◌&&◌};
    ghost use Rattle.std.specs.Str.{bytes_eq};
    ghost use Rattle.lin_cluster.specs.Described.{subscribes};

    ghost adds = { λ n s q. subscribes n.node.now s && bytes_eq s.name.text q };

    fn add_of<'a>(&self, names: &mut NameSet<'a>, signal: &'a Signal) -> Result<(), AllocError> {
        if subscribes(self.node, signal) {
            names.add(&signal.name)?;
        }
        Ok(())
    }
}

fn has_any_signal(signals: &NameSet<'_>, all_placed: &[PlacedSignal]) -> bool
    ensures { result ≡ list_any (λ p. has_text signals.now.names p.signal.text) all_placed.now }
{
    all_placed.iter().any(|placed| signals.has(&placed.signal))
}

/// A node and the names of the signals that it subscribes.
#[derive(Clone, Copy)]
struct Reader<'n, 's, 'a> {
    node: &'n Name,
    signals: &'s NameSet<'a>,
}

impl<'n, 's, 'a> Reader<'n, 's, 'a> {
    fn is_concerned(&self, frame: &Frame) -> bool
        ensures { result
            ≡ concerns_by (has_text self.now.signals.now.names) self.now.node.now frame.now }
    {
        is_name(&frame.publisher, self.node)
            || has_any_signal(self.signals, frame.placed.as_slice())
    }
}

// A frame that the node publishes, or of which it subscribes a signal.
impl<'n, 's, 'b> Adds<Frame> for Reader<'n, 's, 'b> {
    ghost use Rattle.std.specs.Prelude.{◌&&◌};
    ghost use Rattle.std.specs.Str.{bytes_eq};
    ghost use Rattle.lin_cluster.specs.LintNames.{has_text, concerns_by};

    ghost adds = { λ r f q. concerns_by (has_text r.signals.now.names) r.node.now f
        && bytes_eq f.name.text q };

    fn add_of<'a>(&self, names: &mut NameSet<'a>, frame: &'a Frame) -> Result<(), AllocError> {
        if self.is_concerned(frame) {
            names.add(&frame.name)?;
        }
        Ok(())
    }
}

/// Names of frames, of which a sporadic or event-triggered frame may list one.
#[derive(Clone, Copy)]
struct Members<'s, 'a> {
    frames: &'s NameSet<'a>,
}

impl<'s, 'a> Members<'s, 'a> {
    fn has_any(&self, members: &[Name]) -> bool
        ensures { result ≡ has_any (has_text self.now.frames.now.names) members.now }
    {
        members.iter().any(|member| self.frames.has(member))
    }
}

impl<'s, 'b> Adds<Sporadic> for Members<'s, 'b> {
    ghost use Rattle.std.specs.Prelude.{◌&&◌};
    ghost use Rattle.std.specs.Str.{bytes_eq};
    ghost use Rattle.lin_cluster.specs.LintNames.{has_text, has_any};

    ghost adds = { λ m f q. has_any (has_text m.frames.now.names) f.members
        && bytes_eq f.name.text q };

    fn add_of<'a>(&self, names: &mut NameSet<'a>, frame: &'a Sporadic) -> Result<(), AllocError> {
        if self.has_any(frame.members.as_slice()) {
            names.add(&frame.name)?;
        }
        Ok(())
    }
}

impl<'s, 'b> Adds<EventFrame> for Members<'s, 'b> {
    ghost use Rattle.std.specs.Prelude.{◌&&◌};
    ghost use Rattle.std.specs.Str.{bytes_eq};
    ghost use Rattle.lin_cluster.specs.LintNames.{has_text, has_any};

    ghost adds = { λ m e q. has_any (has_text m.frames.now.names) e.members
        && bytes_eq e.name.text q };

    fn add_of<'a>(&self, names: &mut NameSet<'a>, event: &'a EventFrame) -> Result<(), AllocError> {
        if self.has_any(event.members.as_slice()) {
            names.add(&event.name)?;
        }
        Ok(())
    }
}

fn subscribed<'a>(
    alloc: Global,
    description: &'a Description,
    node: &Name,
) -> Result<NameSet<'a>, AllocError>
    ensures { IfOk result
        (λ s. (q : List ℕ) → has_text s.names q ≡ is_subscribed description.now node.now q) }
{
    let mut names = no_names(alloc, 0)?;
    add_each(&mut names, &Subscriber { node }, description.signals())?;
    Ok(names)
}

// The frames of a node.
fn frames_of<'a>(
    alloc: Global,
    description: &'a Description,
    node: &Name,
) -> Result<NameSet<'a>, AllocError>
    ensures { IfOk result
        (λ s. (q : List ℕ) → has_text s.names q ≡ is_frame_of description.now node.now q) }
{
    let signals = subscribed(alloc, description, node)?;
    let reader = Reader {
        node,
        signals: &signals,
    };
    let mut names = no_names(alloc, 0)?;
    add_each(&mut names, &reader, description.frames())?;
    Ok(names)
}

// The sporadic and event-triggered frames that list one of these.
fn lists_of<'a>(
    alloc: Global,
    description: &'a Description,
    frames: &NameSet<'_>,
) -> Result<NameSet<'a>, AllocError>
    ensures { IfOk result
        (λ s. (q : List ℕ)
        → has_text s.names q ≡ lists_by (has_text frames.now.names) description.now q) }
{
    let members = Members { frames };
    let mut names = no_names(alloc, 0)?;
    add_each(&mut names, &members, description.sporadic())?;
    add_each(&mut names, &members, description.events())?;
    Ok(names)
}

/// The names of the frames of all kinds that a node processes.
#[derive(Drop)]
struct Processed<'a> {
    frames: NameSet<'a>,
    lists: NameSet<'a>,
}

impl<'a> Finds<Name> for Processed<'a> {
    ghost use Rattle.std.specs.Prelude.{◌||◌, not};
    ghost use Rattle.lin_cluster.specs.FindingsNames.{at_name, when};
    ghost use Rattle.lin_cluster.specs.LintNames.{has_text};
    ghost use Rattle.lin_cluster.specs.declared.finding.FindingKind.TheVariants.{BadConfigurable};

    ghost finds = { λ p n. when
        (not (has_text p.frames.names n.text || has_text p.lists.names n.text))
        (at_name BadConfigurable n) };

    fn find(&self, found: &mut Vec<Finding>, name: &Name) -> Result<(), AllocError> {
        let is_known = self.frames.has(name) || self.lists.has(name);
        push_when(
            found,
            !is_known,
            at_name(FindingKind::BadConfigurable, name),
        )
    }
}

fn is_among(names: &[Name], name: &Name) -> bool
    ensures { result ≡ list_any (λ m. same_name m name.now) names.now }
{
    names.iter().any(|one| is_name(one, name))
}

fn is_node(description: &Description, name: &Name) -> bool
    ensures { result ≡ is_node description.now name.now }
{
    is_name(&description.master, name) || is_among(description.slaves(), name)
}

/// Names in the list of a node that are of no frame of the node.
pub(super) fn bad_configurables(
    alloc: Global,
    found: &mut Vec<Finding>,
    description: &Description,
    configurable: &Configurable,
) -> Result<(), AllocError>
    ensures { OnOk result
        (found.new.items
        ≡ found.old.items ++ bad_configurables description.now configurable.now) }
{
    let node = &configurable.node;
    let names = configurable.frames.as_slice();
    if names.is_empty() || !is_node(description, node) {
        return Ok(());
    }
    let frames = frames_of(alloc, description, node)?;
    let lists = lists_of(alloc, description, &frames)?;
    let processed = Processed { frames, lists };
    each(found, &processed, names)
}
