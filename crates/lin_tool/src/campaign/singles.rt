//! The single faults of a campaign.

ghost use Rattle.std.specs.Prelude.{◌≡◌, ◌≤◌, ◌∷◌, ◌++◌, [], IfOk, OnOk, if◌then◌else◌, length};
ghost use Rattle.lin_core.specs.History.{Slot};
ghost use Rattle.lin_tool.specs.campaign.Singles.{AddsSinglesOf, absent_from, fault_of_single, faults_at, only_single};
ghost use Rattle.lin_tool.specs.campaign.Singles.{singles, singles_of};
ghost use Rattle.lin_tool.specs.campaign.Slots.{kept_of_slot};

use crate::campaign::finished_slots::{KeptSlot, SlotReader};
use crate::fault_text::LAST_SLOT;
use lin_bench::{FaultKind, SlotFault};
use lin_core::{Log, NODES};
use lin_parts::Cluster;
use std::alloc::{AllocError, Global};

/// Which kinds of single faults a campaign has: `--faults`.
#[derive(Clone, Copy, Debug)]
pub struct Kinds {
    /// Each response that is the only one of its slot is corrupted.
    pub damage: bool,
    /// Each node that responds in a slot omits this response.
    pub absent: bool,
    /// Each node that responds in a slot omits its responses from this slot on.
    pub gone: bool,
}

/// A single fault, and the entry and the frame of its first slot in the undisturbed play. It takes 16
/// bytes.
#[derive(Clone, Copy)]
pub(crate) struct Single {
    pub(crate) slot: u32,
    pub(crate) table: u16,
    pub(crate) entry: u16,
    pub(crate) frame: Option<u16>,
    pub(crate) kind: FaultKind,
    /// Whether the fault doesn't end.
    pub(crate) goes_on: bool,
}

impl Single {
    /// The fault itself.
    pub(crate) fn fault(&self) -> SlotFault
        ensures { result ≡ fault_of_single self.now }
    {
        SlotFault {
            first: self.slot,
            last: if self.goes_on { None } else { Some(self.slot) },
            kind: self.kind,
        }
    }
}

/// Adds a single fault if its kind is requested.
fn add_if(singles: &mut Vec<Single>, one: Single, is_wanted: bool) -> Result<(), AllocError>
    ensures { OnOk result (singles.new.items
        ≡ singles.old.items ++ (if is_wanted then one ∷ [] else [])) }
{
    if !is_wanted {
        return Ok(());
    }
    singles.push(one)?;
    Ok(())
}

/// Adds the single faults of one kind of a slot, if this kind is requested: for each node that responded, by
/// rising number.
fn add_absent(
    singles: &mut Vec<Single>,
    first: Single,
    answered: &[bool; NODES],
    goes_on: bool,
    is_wanted: bool,
) -> Result<(), AllocError>
    ensures { OnOk result (singles.new.items ≡ singles.old.items
        ++ (if is_wanted then absent_from first goes_on answered.now else [])) }
{
    if !is_wanted {
        return Ok(());
    }
    for node in 0..NODES {
        let absent = Single {
            kind: FaultKind::Absent(node as u8),
            goes_on,
            ..first
        };
        add_if(singles, absent, answered[node])?;
    }
    Ok(())
}

/// Adds the single faults of a slot with this number.
fn add_of_slot(
    singles: &mut Vec<Single>,
    cluster: &Cluster,
    kinds: Kinds,
    number: u32,
    slot: &KeptSlot,
) -> Result<(), AllocError>
    ensures { OnOk result ((s : Slot) → slot.now ≡ kept_of_slot s
        → singles.new.items ≡ singles.old.items ++ singles_of cluster.now kinds (number, s)) }
{
    let damage = Single {
        slot: number,
        table: slot.table,
        entry: slot.entry,
        frame: slot.frame(cluster),
        kind: FaultKind::Damage,
        goes_on: false,
    };
    let is_intact = slot.is_intact();
    add_if(singles, damage, kinds.damage && is_intact)?;
    add_absent(singles, damage, &slot.answered, false, kinds.absent)?;
    add_absent(singles, damage, &slot.answered, true, kinds.gone)?;
    Ok(())
}

/// Adds the single faults of the slot that was finished next, if one was and a fault can name it. Returns
/// the number of the slot after it.
fn add_next(
    singles: &mut Vec<Single>,
    cluster: &Cluster,
    kinds: Kinds,
    number: u32,
    slot: Option<KeptSlot>,
) -> Result<u32, AllocError>
    ensures { AddsSinglesOf cluster.now kinds slot singles.old.items singles.new.items number result }
{
    match slot {
        Some(slot) if number <= LAST_SLOT => {
            add_of_slot(singles, cluster, kinds, number, &slot)?;
            Ok(number + 1)
        }
        _ => Ok(number),
    }
}

/// Returns the single faults of these kinds, of the slots that a log finished and that a fault can name.
/// An error means out of memory.
pub(crate) fn singles(
    alloc: Global,
    cluster: &Cluster,
    log: &Log,
    kinds: Kinds,
) -> Result<Vec<Single>, AllocError>
    ensures all { IfOk result (λ v. v.items ≡ singles cluster.now kinds log.now.entries) }
    ensures few { IfOk result (λ v. length v.items ≤ 33000000) }
{
    let mut all = Vec::new(alloc);
    let mut reader = SlotReader::new();
    let mut number = 0;
    for index in 0..log.len() {
        let slot = reader.next(log.entry(index));
        number = add_next(&mut all, cluster, kinds, number, slot)?;
    }
    Ok(all)
}

/// Adds the fault of the single one at this place, if there is one.
fn add_fault(
    faults: &mut Vec<SlotFault>,
    singles: &[Single],
    place: usize,
) -> Result<(), AllocError>
    ensures { OnOk result
        (faults.new.items ≡ faults.old.items ++ faults_at singles.now (place ∷ [])) }
{
    if place >= singles.len() {
        return Ok(());
    }
    faults.push(singles[place].fault())?;
    Ok(())
}

/// Returns the faults of a row, which are the single ones at these places. An error means out of memory.
pub(crate) fn faults_at(
    alloc: Global,
    singles: &[Single],
    places: &[usize],
) -> Result<Vec<SlotFault>, AllocError>
    ensures { IfOk result (λ v. v.items ≡ faults_at singles.now places.now) }
{
    let mut faults = Vec::new(alloc);
    for place in places {
        add_fault(&mut faults, singles, *place)?;
    }
    Ok(faults)
}

/// Returns the single fault of a row that has exactly one, which is at one of these places.
pub(crate) fn only(singles: &[Single], places: &[usize]) -> Option<Single>
    ensures { result ≡ only_single singles.now places.now }
{
    match places {
        [place] if *place < singles.len() => Some(singles[*place]),
        _ => None,
    }
}
