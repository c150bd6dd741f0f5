//! Slots that lines make.

ghost use Rattle.std.specs.Prelude.{◌≡◌, ◌==◌, ◌&&◌, ◌∷◌, [], length, map, option_map, Some, IfOk, OnOk};
ghost use Rattle.std.specs.List.{filter_map};
ghost use Rattle.lin_core.specs.History.{is_in};
ghost use Rattle.lin_core.specs.declared.step.Step.TheVariants.{Open};
ghost use Rattle.lin_core.specs.Core.{past_of};
ghost use Rattle.lin_core.specs.declared.port.PortId.TheVariants.{Bus};
ghost use Rattle.lin_bench.specs.Making.{MakesSlots, MakesSteps, course_on, line_ends};
ghost use Rattle.lin_bench.specs.Searches.{IsSearchState, taken_by};
ghost use Rattle.lin_bench.specs.Slots.{decision, due_in, due_now, goes_on, hosts_waiting, leaves, way};
ghost use Rattle.lin_bench.specs.Slots.{due_node, hurt_steps, is_opened, leave_nodes, most, goes_on_until};
ghost use Rattle.lin_bench.specs.Slots.{slot_rest, slot_steps, some_wait};
ghost use Rattle.lin_bench.specs.Watches.{IsWatch};

use crate::expected::Expected;
use crate::fault::MakeFault;
use crate::line::{Disturbance, Extent};
use crate::powers::is_off;
use crate::ruled::RuledCore;
use crate::taken::TakenEvents;
use crate::verdicts::comes;
use crate::watches::Watch;
use lin_core::{Core, Event, Payload, PortId, Reply, Step};
use std::alloc::{AllocError, Global};

/// How many slots lines of slots may make in a run.
pub(crate) const SLOT_LIMIT: u32 = 1_000_000;

/// The node that an event tells as due, if it tells one.
pub(crate) fn due_node(event: &Event) -> Option<u8>
    ensures { result ≡ due_node event.now }
{
    match event {
        Event::Due { node } => Some(*node),
        _ => None,
    }
}

fn due_nodes(alloc: Global, events: &[Event]) -> Result<Vec<u8>, AllocError>
    ensures { IfOk result (λ v. v.items ≡ filter_map due_node events.now) }
{
    events
        .iter()
        .filter_map(|event| due_node(event))
        .collect(alloc)
}

/// The nodes that are due in the slot that an open was done for; none where it was refused.
pub(crate) fn due_in(alloc: Global, reply: &Reply) -> Result<Option<Vec<u8>>, AllocError>
    ensures { IfOk result (λ due. option_map (λ v. v.items) due ≡ due_in reply.now) }
{
    match reply {
        Reply::Done(events) => Ok(Some(due_nodes(alloc, events.as_slice())?)),
        Reply::Refused(_) => Ok(None),
    }
}

/// Whether a line says that a node leaves its response out.
fn is_left_out(how: &Disturbance, node: u8) -> bool
    ensures { result ≡ is_in (leave_nodes how.now) node }
{
    match how {
        Disturbance::Leave(nodes) => nodes.as_slice().iter().any(|other| *other == node),
        Disturbance::Undisturbed | Disturbance::Hurt(_) => false,
    }
}

/// Whether a node leaves its response out: a line says so, or the node is off.
fn leaves(how: &Disturbance, offs: &[u8], node: u8) -> bool
    ensures { result ≡ leaves (way how.now offs.now) node }
{
    is_left_out(how, node) || is_off(offs, node)
}

/// What a node does that is due.
fn decision(how: &Disturbance, offs: &[u8], node: u8) -> Step
    ensures { (Bus, result) ≡ decision (way how.now offs.now) node }
{
    if leaves(how, offs, node) {
        Step::Leave { node }
    } else {
        Step::Answer { node }
    }
}

/// The nodes that are due answer, or leave their responses out.
fn decide(
    alloc: Global,
    ruled: &mut RuledCore,
    how: &Disturbance,
    offs: &[u8],
    due: &[u8],
) -> Result<(), MakeFault>
    ensures { MakesSteps ruled.old (map (decision (way how.now offs.now)) due.now) result ruled.new }
{
    for node in due {
        ruled.make(alloc, PortId::Bus, decision(how, offs, *node))?;
    }
    Ok(())
}

/// Disturbs the response of the open slot, where it is to be.
fn hurt(alloc: Global, ruled: &mut RuledCore, how: &Disturbance) -> Result<(), MakeFault>
    ensures { MakesSteps ruled.old (hurt_steps how.now) result ruled.new }
{
    match how {
        Disturbance::Hurt(bytes) => {
            let bytes = Payload::copied(alloc, bytes.as_slice())?;
            ruled.make(alloc, PortId::Bus, Step::Hurt { bytes })
        }
        Disturbance::Undisturbed | Disturbance::Leave(_) => Ok(()),
    }
}

/// Whether a slot could be opened that is more than are left.
fn is_at_limit(core: &Core, left: u32) -> bool
    ensures { result ≡ (left == 0 && is_opened
        (due_now core.now.cluster core.now.opening core.now.capacity (past_of core.now))) }
{
    left == 0 && core.refusal_of(PortId::Bus, &Step::Open).is_none()
}

/// Opens a slot, and answers which nodes are due in it; none where it couldn't be opened.
fn open(alloc: Global, ruled: &mut RuledCore) -> Result<Option<Vec<u8>>, MakeFault>
    ensures made { MakesSteps ruled.old ((Bus, Open) ∷ []) result ruled.new }
    ensures due { IfOk result (λ due. option_map (λ v. v.items) due
        ≡ due_now ruled.old.core.cluster ruled.old.core.opening ruled.old.core.capacity
        (past_of ruled.old.core)) }
{
    ruled.make(alloc, PortId::Bus, Step::Open)?;
    Ok(due_in(alloc, &ruled.core().newest().reply)?)
}

/// Makes the steps of a slot in which these nodes are due, after its open.
fn rest_of_slot(
    alloc: Global,
    ruled: &mut RuledCore,
    how: &Disturbance,
    offs: &[u8],
    due: &[u8],
) -> Result<(), MakeFault>
    ensures { MakesSteps ruled.old (slot_rest (way how.now offs.now) (Some due.now)) result ruled.new }
{
    decide(alloc, ruled, how, offs, due)?;
    hurt(alloc, ruled, how)?;
    ruled.make(alloc, PortId::Bus, Step::Finish)
}

/// Makes a slot, and answers whether it could be opened.
#[tactic(auto, unfolding(crate::specs::Slots::slot_steps))]
fn slot(alloc: Global, ruled: &mut RuledCore, how: &Disturbance) -> Result<bool, MakeFault>
    ensures steps { MakesSteps ruled.old
        (slot_steps ruled.old.core.cluster ruled.old.core.opening ruled.old.core.capacity
        (way how.now ruled.old.rules.offs) (past_of ruled.old.core)) result ruled.new }
    ensures opened { IfOk result (λ is. is ≡ is_opened
        (due_now ruled.old.core.cluster ruled.old.core.opening ruled.old.core.capacity
        (past_of ruled.old.core))) }
{
    let offs = Vec::from_slice(alloc, ruled.rules().offs.as_slice())?;
    let Some(due) = open(alloc, ruled)? else {
        return Ok(false);
    };
    rest_of_slot(alloc, ruled, how, offs.as_slice(), due.as_slice())?;
    Ok(true)
}

/// Whether a message of some host waits.
pub(crate) fn some_wait(core: &Core) -> bool
    ensures { result ≡ some_wait core.now.cluster (past_of core.now) }
{
    for host in 0..core.cluster().nodes() as u8 {
        if core.waiting(host) > 0 {
            return true;
        }
    }
    false
}

/// The hosts of which messages wait, and how many. An error means out of memory.
pub(crate) fn hosts_waiting(alloc: Global, core: &Core) -> Result<Vec<(u8, usize)>, AllocError>
    ensures { IfOk result (λ v. v.items ≡ hosts_waiting core.now.cluster (past_of core.now)) }
{
    let mut hosts = Vec::new(alloc);
    for host in 0..core.cluster().nodes() as u8 {
        let count = core.waiting(host);
        if count > 0 {
            hosts.push((host, count))?;
        }
    }
    Ok(hosts)
}

/// Whether one more slot is to be made, by the time in microseconds at the line's beginning.
fn goes_on(ruled: &RuledCore, extent: Extent, began: u64) -> bool
    ensures { result ≡ goes_on ruled.now.core.cluster extent began (course_on ruled.now) }
{
    match extent {
        Extent::Count(_) => true,
        Extent::Milliseconds(ms) => {
            ruled.core().time().saturating_sub(began) < 1000 * u64::from(ms)
        }
        Extent::Idle(_) => some_wait(ruled.core()) || !ruled.noted().is_empty(),
    }
}

/// How many slots at most: for a time one more than a run may make.
fn most(extent: Extent) -> u32
    ensures { result ≡ most extent }
{
    match extent {
        Extent::Count(count) | Extent::Idle(count) => count,
        Extent::Milliseconds(_) => SLOT_LIMIT + 1,
    }
}

/// What ends slots early: it comes; or, where it is to hold, it doesn't after one of them.
#[derive(Clone, Copy)]
pub(crate) struct Ending<'a> {
    pub(crate) is_while: bool,
    pub(crate) expected: &'a Expected,
}

/// When the slots of a line end.
#[derive(Clone, Copy)]
pub(crate) struct SlotsEnd<'a> {
    pub(crate) extent: Extent,
    /// What ends them before their extent does, if something may.
    pub(crate) ending: Option<Ending<'a>>,
}

/// The log at the beginning of a line.
#[derive(Clone, Copy)]
struct LineStart {
    /// The time in microseconds.
    time: u64,
    /// How many entries there were.
    entries: usize,
}

/// Whether slots end early, of a line that began with so many entries. That takes nothing.
fn is_ended(
    alloc: Global,
    ruled: &RuledCore,
    entries: usize,
    ending: Option<Ending<'_>>,
    taken: &mut TakenEvents,
    watch: &mut Watch,
) -> Result<bool, AllocError>
    requires known { IsSearchState ruled.now.core.log taken.old }
    requires watch { IsWatch ruled.now.core.cluster ruled.now.core.log watch.old }
    ensures ended { IfOk result (λ is. is ≡ line_ends ruled.now taken.old entries ending.entry
        (course_on ruled.now)) }
    ensures taken { OnOk result
        (taken_by ruled.now.core.log taken.new ≡ taken_by ruled.now.core.log taken.old) }
    ensures known { IsSearchState ruled.now.core.log taken.new }
    ensures watch { IsWatch ruled.now.core.cluster ruled.now.core.log watch.new }
{
    let Some(ending) = ending else {
        return Ok(false);
    };
    let comes = comes(alloc, ruled, taken, watch, ending.expected)?;
    if ending.is_while {
        Ok(ruled.core().log().len() > entries && !comes)
    } else {
        Ok(comes)
    }
}

/// Whether one more slot is to be made: the line's extent goes on, and nothing ends it early. That
/// takes nothing.
fn is_going(
    alloc: Global,
    ruled: &RuledCore,
    ends: SlotsEnd<'_>,
    start: LineStart,
    taken: &mut TakenEvents,
    watch: &mut Watch,
) -> Result<bool, AllocError>
    requires known { IsSearchState ruled.now.core.log taken.old }
    requires watch { IsWatch ruled.now.core.cluster ruled.now.core.log watch.old }
    ensures going { IfOk result (λ is. is ≡ goes_on_until ruled.now.core.cluster ends.entry.extent
        (line_ends ruled.now taken.old start.entries ends.entry.ending) start.time
        (course_on ruled.now)) }
    ensures taken { OnOk result
        (taken_by ruled.now.core.log taken.new ≡ taken_by ruled.now.core.log taken.old) }
    ensures known { IsSearchState ruled.now.core.log taken.new }
    ensures watch { IsWatch ruled.now.core.cluster ruled.now.core.log watch.new }
{
    if !goes_on(ruled, ends.extent, start.time) {
        return Ok(false);
    }
    Ok(!is_ended(alloc, ruled, start.entries, ends.ending, taken, watch)?)
}

/// Makes the slots of a line, and answers how many are left of those that may still be made; none
/// where the line makes more than these, which are made then. What ends them isn't taken.
#[inline(never)]
#[tactic(auto, unfolding(crate::specs::Slots::extent_steps))]
pub(crate) fn slots(
    alloc: Global,
    ruled: &mut RuledCore,
    how: &Disturbance,
    ends: SlotsEnd<'_>,
    taken: &mut TakenEvents,
    left: u32,
) -> Result<Option<u32>, MakeFault>
    requires { IsSearchState ruled.old.core.log taken.old }
    ensures made { MakesSlots ruled.old how.now ends.entry.extent
        (line_ends ruled.old taken.old (length (past_of ruled.old.core)) ends.entry.ending) left result
        ruled.new }
    ensures taken { OnOk result
        (taken_by ruled.new.core.log taken.new ≡ taken_by ruled.old.core.log taken.old) }
    ensures known { IsSearchState ruled.new.core.log taken.new }
{
    let time = ruled.core().time();
    let entries = ruled.core().log().len();
    let start = LineStart { time, entries };
    let mut watch = Watch::new();
    let mut left = left;
    for _ in 0..most(ends.extent) {
        let goes = is_going(alloc, ruled, ends, start, taken, &mut watch)?;
        if !goes {
            return Ok(Some(left));
        }
        if is_at_limit(ruled.core(), left) {
            return Ok(None);
        }
        if !slot(alloc, ruled, how)? {
            return Ok(Some(left));
        }
        left -= 1;
    }
    Ok(Some(left))
}
