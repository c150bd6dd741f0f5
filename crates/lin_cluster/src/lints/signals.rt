//! Warnings of each signal.

ghost use Rattle.std.specs.Prelude.{◌≡◌, ◌++◌, List, ℕ, IfOk, OnOk};
ghost use Rattle.lin_cluster.specs.Lint.{of_signals};
ghost use Rattle.lin_cluster.specs.LintNames.{has_text, is_placed};

use super::sets::{NameSet, add_each, no_names};
use super::uses::Standing;
use crate::finding::{Finding, FindingKind};
use crate::findings::{Finds, at_name, each, push_when};
use crate::names::is_name;
use lin_parts::description::{Description, Name, Signal};
use std::alloc::{AllocError, Global};

/// The publisher of a signal, which needs not subscribe it.
#[derive(Clone, Copy)]
struct Publisher<'a> {
    name: &'a Name,
}

// Own subscriber (55).
impl<'a> Finds<Name> for Publisher<'a> {
    ghost use Rattle.lin_cluster.specs.Lint.{own_subscriber};

    ghost finds = { λ p n. own_subscriber p.name.now n };

    fn find(&self, found: &mut Vec<Finding>, name: &Name) -> Result<(), AllocError> {
        push_when(
            found,
            is_name(name, self.name),
            at_name(FindingKind::OwnSubscriber, name),
        )
    }
}

/// The signals that some frame has.
#[derive(Drop)]
struct Placed<'a> {
    signals: NameSet<'a>,
}

// Unplaced signal (51), no subscriber (54) and own subscriber (55).
impl<'a> Finds<Signal> for Placed<'a> {
    ghost use Rattle.lin_cluster.specs.Lint.{of_signal};
    ghost use Rattle.lin_cluster.specs.LintNames.{has_text};

    ghost finds = { λ p s. of_signal (has_text p.signals.names) s };

    fn find(&self, found: &mut Vec<Finding>, signal: &Signal) -> Result<(), AllocError> {
        let subscribers = signal.subscribers.as_slice();
        let publisher = Publisher {
            name: &signal.publisher,
        };
        push_when(
            found,
            !self.signals.has(&signal.name),
            at_name(FindingKind::UnplacedSignal, &signal.name),
        )?;
        push_when(
            found,
            subscribers.is_empty(),
            at_name(FindingKind::NoSubscriber, &signal.name),
        )?;
        each(found, &publisher, subscribers)
    }
}

fn placed_signals<'a>(
    alloc: Global,
    description: &'a Description,
    placed_elsewhere: &'a [Name],
) -> Result<NameSet<'a>, AllocError>
    ensures { IfOk result
        (λ s. (q : List ℕ)
        → has_text s.names q ≡ is_placed description.now placed_elsewhere.now q) }
{
    let mut names = no_names(alloc, description.signals().len())?;
    add_each(&mut names, &Standing, description.frames())?;
    add_each(&mut names, &Standing, placed_elsewhere)?;
    Ok(names)
}

/// Finds the warnings of each signal. Frames that aren't in the description place the signals
/// `placed_elsewhere`.
pub(super) fn of_signals(
    found: &mut Vec<Finding>,
    alloc: Global,
    description: &Description,
    placed_elsewhere: &[Name],
) -> Result<(), AllocError>
    ensures { OnOk result
        (found.new.items
        ≡ found.old.items ++ of_signals description.now placed_elsewhere.now) }
{
    let signals = placed_signals(alloc, description, placed_elsewhere)?;
    each(found, &Placed { signals }, description.signals())
}
