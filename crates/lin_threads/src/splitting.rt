//! A script's steps, host by host.

ghost use Rattle.std.specs.Prelude.{◌≡◌, ◌≢◌, ℕ, ◌<◌, ◌++◌, ◌∷◌, [], length, OnOk, IfOk, IfSome};
ghost use Rattle.std.specs.Prelude.{IfNone};
ghost use Rattle.lin_core.specs.declared.port.PortId.TheVariants.{Host};
ghost use Rattle.lin_threads.specs.Steps.{host_step};
ghost use Rattle.lin_threads.specs.Splitting.{IsOfHost, Splits, list_at};

use crate::ports::HostStep;
use lin_core::{PortId, Step};
use std::alloc::{AllocError, Global};

/// Why a script isn't split.
#[derive(Debug, Drop)]
pub enum SplitFault {
    /// The first step that is no host's, counted from 0.
    NotHost { index: usize },
    OutOfMemory,
}

/// The host and what it puts, where the step is a send, a write or a close of the host whose port
/// gives it, and that is one of the first hosts.
fn of_host(hosts: usize, port: PortId, step: Step) -> Option<(usize, HostStep)>
    ensures below { IfSome result (λ own. own.0 < hosts) }
    ensures port { IfSome result (λ own. port ≡ Host own.0) }
    ensures same { IfSome result (λ own. step ≡ host_step own.0 own.1) }
    ensures none { IfNone result (IsOfHost hosts (port, step) → ⊥) }
{
    let PortId::Host(host) = port else {
        return None;
    };
    let (number, own) = match step {
        Step::Send { from, to, message } => (from, HostStep::Send { to, message }),
        Step::Write { by, signal, value } => (by, HostStep::Write { signal, value }),
        Step::Close { host } => (host, HostStep::Close),
        _ => return None,
    };
    if number == host && usize::from(host) < hosts {
        Some((usize::from(host), own))
    } else {
        None
    }
}

/// An empty list for each host.
fn empty_lists(alloc: Global, hosts: usize) -> Result<Vec<Vec<HostStep>>, AllocError>
    ensures count { IfOk result (λ lists. length lists.items ≡ hosts) }
    ensures empty { IfOk result (λ lists. (host : ℕ) → list_at host lists.items ≡ []) }
{
    let mut lists = Vec::with_capacity(alloc, hosts)?;
    for _ in 0..hosts {
        lists.push_reserved(Vec::new(alloc));
    }
    Ok(lists)
}

/// Adds a step to a host's list.
fn add(lists: &mut Vec<Vec<HostStep>>, host: usize, step: HostStep) -> Result<(), AllocError>
    requires { host < length lists.old.items }
    ensures count { length lists.new.items ≡ length lists.old.items }
    ensures own { OnOk result
        (list_at host lists.new.items ≡ list_at host lists.old.items ++ step ∷ []) }
    ensures others { (other : ℕ) → other ≢ host
        → list_at other lists.new.items ≡ list_at other lists.old.items }
{
    Ok(lists[host].push(step)?)
}

/// The steps of a script, as a list for each of the first `nodes` hosts: what it puts, in order.
///
/// # Errors `NotHost` for the first step that is no send, write or close of one of these hosts by
/// its own port; `OutOfMemory`. The steps are dropped after each of them.
pub fn split(
    alloc: Global,
    steps: Vec<(PortId, Step)>,
    nodes: usize,
) -> Result<Vec<Vec<HostStep>>, SplitFault>
    ensures { Splits nodes steps.items result }
{
    let Ok(mut lists) = empty_lists(alloc, nodes) else {
        return Err(SplitFault::OutOfMemory);
    };
    let mut index = 0;
    for (port, step) in steps {
        let Some((host, own)) = of_host(nodes, port, step) else {
            return Err(SplitFault::NotHost { index });
        };
        let Ok(()) = add(&mut lists, host, own) else {
            return Err(SplitFault::OutOfMemory);
        };
        index += 1;
    }
    Ok(lists)
}
