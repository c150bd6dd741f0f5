//! Faults under which a script is played, as text: `17:damage`, `17..19:damage`, `17..:absent:Panel`, with
//! `+` between two of them.

ghost use Rattle.std.specs.Prelude.{◌≡◌, ◌≤◌, ◌∷◌, ◌==◌, length, option_map};
ghost use Rattle.std.specs.List.{slice_split};
ghost use Rattle.lin_text.specs.Written.{Grows, WritesText};
ghost use Rattle.lin_bench.specs.Read.{Gives};
ghost use Rattle.lin_tool.specs.FaultText.{ReadsFault, ReadsFaults, ReadsNamed, absence, after, split_around};
ghost use Rattle.lin_tool.specs.FaultText.{around_dots, bad_fault_text, damage_fault, faults_left, lacks_slot, length_left};
ghost use Rattle.lin_tool.specs.FaultText.{of_line_fault, slots_between, read_slots, reason_line, slot_number};

use lin_bench::{FaultKind, LineFault, Reason, SlotFault, present_node, put_reason};
use lin_log::number_field;
use lin_parts::Cluster;
use lin_text::{Text, TextBuffer, TextWriter, WriteFailed};
use std::alloc::Global;
use std::io::Write;

/// The highest number of a slot that a fault can name.
pub(crate) const LAST_SLOT: u32 = 999_999;

/// Why a fault isn't valid.
#[derive(Debug, Drop)]
pub(crate) enum FaultReason {
    /// It has no slot, or what follows its first `:` is neither `damage` nor `absent:NODE`.
    Form,
    /// Its slots, or its node.
    Field(Reason),
}

/// The first fault of a text that isn't valid, and why it isn't.
#[derive(Debug, Drop)]
pub(crate) struct BadFault<'a> {
    pub(crate) fault: &'a [u8],
    pub(crate) reason: FaultReason,
}

/// Why faults aren't read.
#[derive(Debug, Drop)]
pub(crate) enum FaultsFault<'a> {
    Bad(BadFault<'a>),
    OutOfMemory,
}

/// Why one fault isn't read.
#[derive(Debug, Drop)]
enum OneFault {
    Bad(FaultReason),
    OutOfMemory,
}

impl From<LineFault> for OneFault {
    ghost from_gives = { λ fault e. e ≡ of_line_fault fault };

    fn from(fault: LineFault) -> OneFault {
        match fault {
            LineFault::Bad(reason) => OneFault::Bad(FaultReason::Field(reason)),
            LineFault::OutOfMemory => OneFault::OutOfMemory,
        }
    }
}

/// Returns the texts before and after the first byte that is this one.
fn around(text: &[u8], mark: u8) -> Option<(&[u8], &[u8])>
    ensures { option_map (λ parts. (parts.0.now, parts.1.now)) result ≡ split_around mark text.now }
{
    for i in 0..text.len() {
        if text[i] == mark {
            return Some((&text[..i], &text[i + 1..]));
        }
    }
    None
}

/// Returns what follows these first bytes, if a text begins with them.
fn after<'a>(text: &'a [u8], mark: &[u8]) -> Option<&'a [u8]>
    ensures { option_map (λ rest. rest.now) result ≡ after mark.now text.now }
{
    let count = mark.len().min(text.len());
    if &text[..count] == mark {
        Some(&text[count..])
    } else {
        None
    }
}

/// Returns the texts before and after two dots, if these are the first dots.
fn around_dots(text: &[u8]) -> Option<(&[u8], &[u8])>
    ensures { option_map (λ parts. (parts.0.now, parts.1.now)) result ≡ around_dots text.now }
{
    let (first, rest) = around(text, b'.')?;
    let last = after(rest, b".")?;
    Some((first, last))
}

/// Reads the number of a slot.
fn slot_number(alloc: Global, field: &[u8]) -> Result<u32, LineFault>
    ensures { Gives (λ n. n) result (slot_number field.now) }
{
    Ok(number_field(alloc, field, LAST_SLOT)?)
}

/// Reads the slots from one on, or from one to another one, of a text.
fn range(
    alloc: Global,
    text: &[u8],
    first: &[u8],
    last: &[u8],
) -> Result<(u32, Option<u32>), LineFault>
    ensures { Gives (λ slots. slots) result (slots_between text.now first.now last.now) }
{
    let from = slot_number(alloc, first)?;
    if last.is_empty() {
        return Ok((from, None));
    }
    let to = slot_number(alloc, last)?;
    if to < from {
        return Err(LineFault::Bad(Reason::NoRange(Text::copied(alloc, text)?)));
    }
    Ok((from, Some(to)))
}

/// Reads the slots of a fault: `SLOT`, `SLOT..` or `FIRST..LAST`.
fn slots(alloc: Global, text: &[u8]) -> Result<(u32, Option<u32>), LineFault>
    ensures { Gives (λ slots. slots) result (read_slots text.now) }
{
    match around_dots(text) {
        Some((first, last)) => range(alloc, text, first, last),
        None => {
            let slot = slot_number(alloc, text)?;
            Ok((slot, Some(slot)))
        }
    }
}

/// Reads the damage of responses.
fn damage(alloc: Global, range: &[u8]) -> Result<SlotFault, LineFault>
    ensures { Gives (λ fault. fault) result (damage_fault range.now) }
{
    let (first, last) = slots(alloc, range)?;
    Ok(SlotFault {
        first,
        last,
        kind: FaultKind::Damage,
    })
}

/// Reads the absence of a node.
fn absence(
    alloc: Global,
    cluster: &Cluster,
    range: &[u8],
    name: &[u8],
) -> Result<SlotFault, LineFault>
    ensures { Gives (λ fault. fault) result (absence cluster.now range.now name.now) }
{
    let (first, last) = slots(alloc, range)?;
    let node = present_node(alloc, cluster, name)?;
    Ok(SlotFault {
        first,
        last,
        kind: FaultKind::Absent(node),
    })
}

/// Returns whether the slots of a fault have no first one.
fn lacks_slot(range: &[u8]) -> bool
    ensures { result ≡ lacks_slot range.now }
{
    range.is_empty() || after(range, b".").is_some()
}

/// Reads a fault: first the word that names its kind, then its slots, then its node.
fn fault(alloc: Global, cluster: &Cluster, text: &[u8]) -> Result<SlotFault, OneFault>
    ensures { ReadsFault cluster.now text.now result }
{
    let Some((range, kind)) = around(text, b':') else {
        return Err(OneFault::Bad(FaultReason::Form));
    };
    if lacks_slot(range) {
        return Err(OneFault::Bad(FaultReason::Form));
    }
    if kind == b"damage".as_slice() {
        return Ok(damage(alloc, range)?);
    }
    let Some(name) = after(kind, b"absent:") else {
        return Err(OneFault::Bad(FaultReason::Form));
    };
    if name.is_empty() {
        return Err(OneFault::Bad(FaultReason::Form));
    }
    Ok(absence(alloc, cluster, range, name)?)
}

/// Reads a fault, which is named if it isn't valid.
fn named_fault<'a>(
    alloc: Global,
    cluster: &Cluster,
    text: &'a [u8],
) -> Result<SlotFault, FaultsFault<'a>>
    ensures { ReadsNamed cluster.now text.now result }
{
    match fault(alloc, cluster, text) {
        Ok(fault) => Ok(fault),
        Err(OneFault::Bad(reason)) => Err(FaultsFault::Bad(BadFault {
            fault: text,
            reason,
        })),
        Err(OneFault::OutOfMemory) => Err(FaultsFault::OutOfMemory),
    }
}

/// Returns the text of the first fault, and the text after its `+`, if there is one.
fn first_fault(text: &[u8]) -> (&[u8], Option<&[u8]>)
    ensures faults { slice_split (λ b. b == 43) text.now
        ≡ result.0.now ∷ faults_left result.1 }
    ensures shorter { length_left result.1 ≤ length text.now }
{
    match around(text, b'+') {
        Some((first, rest)) => (first, Some(rest)),
        None => (text, None),
    }
}

/// Reads faults, with `+` between them. Nodes are those of the cluster, by their names or numbers.
///
/// # Errors
/// `Bad` with the first fault that isn't valid; `OutOfMemory`.
pub(crate) fn read_faults<'a>(
    alloc: Global,
    cluster: &Cluster,
    text: &'a [u8],
) -> Result<Vec<SlotFault>, FaultsFault<'a>>
    ensures { ReadsFaults (λ v. v.items) cluster.now text.now result }
{
    let mut faults = Vec::new(alloc);
    let mut left = Some(text);
    while let Some(text) = left {
        let (first, rest) = first_fault(text);
        let fault = match named_fault(alloc, cluster, first) {
            Ok(fault) => fault,
            Err(fault) => return Err(fault),
        };
        if faults.push(fault).is_err() {
            return Err(FaultsFault::OutOfMemory);
        }
        left = rest;
    }
    Ok(faults)
}

/// Why a fault isn't valid.
fn put_fault_reason<W: Write>(out: &mut TextWriter<'_, W>, reason: &FaultReason)
    ensures { Grows W.contents out.old out.new (reason_line reason.now) }
{
    match reason {
        FaultReason::Form => out.put_text("a fault is SLOT:damage or SLOT:absent:NODE"),
        FaultReason::Field(reason) => put_reason(out, reason),
    }
}

/// Writes why a fault isn't valid: `fault FAULT: REASON`.
///
/// # Errors
/// `WriteFailed`, where what was written is the beginning of the line.
pub(crate) fn write_bad_fault<W: Write>(
    bad: &BadFault<'_>,
    writer: &mut W,
) -> Result<(), WriteFailed>
    ensures { WritesText (W.contents writer.old) (W.contents writer.new) result
        (bad_fault_text bad.now) }
{
    let mut buffer = TextBuffer::empty();
    let mut out = TextWriter::new(writer, &mut buffer);
    out.put_text("fault ");
    out.put(bad.fault);
    out.put_text(": ");
    put_fault_reason(&mut out, &bad.reason);
    out.put_byte(b'\n');
    out.finish()
}
