//! Members of event-triggered and of sporadic frames: unknown name (1), bad event-triggered frame
//! (13), bad sporadic frame (14) and mixed checksum (18).

ghost use Rattle.std.specs.Prelude.{◌≡◌, ◌++◌, ◌||◌, ℕ, OnOk, true, not, nat_eq, nat_lt, slice_get};
ghost use Rattle.std.specs.Prelude.{option_and_then, false};
ghost use Rattle.std.specs.List.{flat_map, enumerate_from};
ghost use Rattle.std.specs.Option.{option_map, option_map_or};
ghost use Rattle.indexmap.specs.IndexSet.{contains};
ghost use Rattle.lin_cluster.specs.Findings.{in_event_member};
ghost use Rattle.lin_cluster.specs.FindingsMembers.{is_bad_after, is_wrong_after, is_mixed_after};
ghost use Rattle.lin_cluster.specs.FindingsMembers.{in_member_after, in_member_by, AddsPublisher};
ghost use Rattle.lin_cluster.specs.FindingsNames.{frame_named};
ghost use Rattle.lin_cluster.specs.FindingsNodes.{is_node_number, is_responder_number};
ghost use Rattle.lin_cluster.specs.Known.{facts_named, frame_facts};

use super::facts::FrameFacts;
use super::judged::DeclarationFacts;
use super::known::is_responder_number;
use super::walk::{Finds, at_name, push_when};
use crate::finding::{Finding, FindingKind};
use indexmap::IndexSet;
use lin_frame::SumKind;
use lin_parts::description::Name;
use std::alloc::AllocError;

/// The numbers of the nodes that publish the members before one.
struct Publishers {
    numbers: IndexSet<usize>,
}

// Written out, so that what owns one lets it go in one step.
impl Drop for Publishers {
    fn drop(self) {
        let Publishers { numbers: _numbers } = self;
    }
}

fn add_publisher(
    publishers: &mut IndexSet<usize>,
    frame: Option<FrameFacts>,
) -> Result<(), AllocError>
    ensures { OnOk result
        (AddsPublisher (contains nat_eq publishers.old) frame (contains nat_eq publishers.new)) }
{
    if let Some(frame) = frame {
        if let Some(node) = frame.publisher {
            publishers.insert(node)?;
        }
    }
    Ok(())
}

fn first_frame(judged: &DeclarationFacts, members: &[Name]) -> Option<FrameFacts>
    ensures { result
        ≡ option_map (frame_facts judged.now)
        (option_and_then (frame_named judged.now) (slice_get members.now 0)) }
{
    match members.first() {
        Some(member) => judged.frame(member),
        None => None,
    }
}

// The commander publishes it, or a node that publishes an earlier one.
fn has_bad_publisher(publishers: &IndexSet<usize>, publisher: Option<usize>) -> bool
    ensures { result
        ≡ (is_node_number 0 publisher || option_map_or (contains nat_eq publishers.now) publisher false) }
{
    match publisher {
        Some(node) => node == 0 || publishers.contains(&node),
        None => false,
    }
}

fn is_bad_frame(first: Option<FrameFacts>, publishers: &IndexSet<usize>, frame: FrameFacts) -> bool
    ensures { result ≡ is_bad_after first (contains nat_eq publishers.now) frame }
{
    let has_other_size = match first {
        Some(first) => !(first.size == frame.size),
        None => false,
    };
    has_bad_publisher(publishers, frame.publisher) || has_other_size || frame.has_front
}

fn is_wrong_member(
    first: Option<FrameFacts>,
    publishers: &IndexSet<usize>,
    is_known: bool,
    frame: Option<FrameFacts>,
) -> bool
    ensures { result ≡ is_wrong_after first (contains nat_eq publishers.now) is_known frame }
{
    match frame {
        Some(frame) => is_known && is_bad_frame(first, publishers, frame),
        None => is_known,
    }
}

fn is_mixed(first: Option<FrameFacts>, frame: Option<FrameFacts>) -> bool
    ensures { result ≡ is_mixed_after first frame }
{
    match (frame, first) {
        (Some(frame), Some(first)) => match (frame.model, first.model) {
            (SumKind::Classic, SumKind::Enhanced) => true,
            (SumKind::Enhanced, SumKind::Classic) => true,
            _ => false,
        },
        _ => false,
    }
}

fn find_member(
    found: &mut Vec<Finding>,
    first: Option<FrameFacts>,
    publishers: &IndexSet<usize>,
    is_known: bool,
    frame: Option<FrameFacts>,
    member: &Name,
) -> Result<(), AllocError>
    ensures { OnOk result
        (found.new.items
        ≡ found.old.items
        ++ in_member_after first (contains nat_eq publishers.now) is_known frame member.now) }
{
    let is_wrong = is_wrong_member(first, publishers, is_known, frame);
    push_when(found, !is_known, at_name(FindingKind::UnknownName, member))?;
    push_when(found, is_wrong, at_name(FindingKind::BadEventFrame, member))?;
    push_when(
        found,
        is_mixed(first, frame),
        at_name(FindingKind::MixedChecksum, member),
    )
}

// What is wrong with a member behind the first one and those of these publishers, to which its own
// is added.
fn add_member(
    found: &mut Vec<Finding>,
    publishers: &mut IndexSet<usize>,
    judged: &DeclarationFacts,
    first: Option<FrameFacts>,
    member: &Name,
) -> Result<(), AllocError>
    ensures found { OnOk result
        (found.new.items
        ≡ found.old.items
        ++ in_member_by judged.now first (contains nat_eq publishers.old) member.now) }
    ensures publishers { OnOk result (AddsPublisher (contains nat_eq publishers.old)
        (facts_named judged.now member.now) (contains nat_eq publishers.new)) }
{
    let frame = judged.frame(member);
    let is_known = judged.is_any_frame(frame, member);
    find_member(found, first, publishers, is_known, frame, member)?;
    add_publisher(publishers, frame)
}

/// What is wrong with the members of an event-triggered frame; each name is looked up once.
pub(super) fn members_in_order(
    found: &mut Vec<Finding>,
    judged: &DeclarationFacts,
    members: &[Name],
) -> Result<(), AllocError>
    ensures { OnOk result
        (found.new.items
        ≡ found.old.items
        ++ flat_map (in_event_member judged.now members.now) (enumerate_from 0 members.now)) }
{
    let first = first_frame(judged, members);
    let mut publishers = Publishers {
        numbers: IndexSet::new(judged.signals.alloc),
    };
    for member in members {
        add_member(found, &mut publishers.numbers, judged, first, member)?;
    }
    Ok(())
}

// A member of a sporadic frame.
impl<'a> Finds<Name> for DeclarationFacts<'a> {
    ghost use Rattle.lin_cluster.specs.Findings.{in_sporadic_member};

    ghost finds = { in_sporadic_member };

    fn find(&self, found: &mut Vec<Finding>, member: &Name) -> Result<(), AllocError> {
        let frame = self.frame(member);
        let is_known = self.is_any_frame(frame, member);
        let is_no_commanders = match frame {
            Some(frame) => is_responder_number(frame.publisher),
            None => true,
        };
        push_when(found, !is_known, at_name(FindingKind::UnknownName, member))?;
        push_when(
            found,
            is_known && is_no_commanders,
            at_name(FindingKind::BadSporadic, member),
        )
    }
}
