//! The forms of `mark` and `back`.

ghost use Rattle.std.specs.Prelude.{◌≡◌, option_map, true};
ghost use Rattle.lin_log.specs.Said.{fields};
ghost use Rattle.lin_live.specs.Asked.{Gives};
ghost use Rattle.lin_live.specs.Marking.{back_name, field_name, is_mark_name, is_name_byte, lone_field, mark_name};

use crate::reason::{LineFault, Reason};
use lin_log::{first_field, is_number, is_over};
use lin_parts::Cluster;
use lin_text::Text;
use std::alloc::Global;

/// The name of the mark of the beginning.
pub(crate) const START: &[u8] = b"start";

fn is_name_byte(byte: u8) -> bool
    ensures { result ≡ is_name_byte byte }
{
    byte.is_ascii_alphanumeric() || byte == b'_'
}

/// Whether a field consists of letters, digits and `_`, and doesn't begin with a digit.
fn is_mark_name(field: &[u8]) -> bool
    ensures { result ≡ is_mark_name field.now }
{
    !is_number(field) && field.iter().all(|byte| is_name_byte(*byte))
}

/// Returns the only field; `None` if there are no or several fields.
fn lone_field<'l>(cluster: &Cluster, line: &'l [u8]) -> Option<&'l [u8]>
    ensures { option_map (λ field. field.now) result ≡ lone_field (fields true line.now) }
{
    let (field, rest) = first_field(cluster, line)?;
    if is_over(cluster, rest) {
        Some(field)
    } else {
        None
    }
}

/// Returns a field as a name, if it is one.
fn field_name(alloc: Global, field: &[u8]) -> Result<Text, LineFault>
    ensures { Gives result (field_name field.now) }
{
    let name = Text::copied(alloc, field)?;
    if is_mark_name(field) {
        Ok(name)
    } else {
        Err(LineFault::Bad(Reason::NoName(name)))
    }
}

/// Returns the name of a new mark, by the fields after `mark`.
pub(crate) fn mark_name(alloc: Global, cluster: &Cluster, line: &[u8]) -> Result<Text, LineFault>
    ensures { Gives result (mark_name (fields true line.now)) }
{
    let Some(field) = lone_field(cluster, line) else {
        return Err(LineFault::Bad(Reason::MarkForm));
    };
    let name = field_name(alloc, field)?;
    if name.as_slice() == START {
        return Err(LineFault::Bad(Reason::StartMark));
    }
    Ok(name)
}

/// Returns the name of the mark to go back to, by the fields after `back`.
pub(crate) fn back_name(alloc: Global, cluster: &Cluster, line: &[u8]) -> Result<Text, LineFault>
    ensures { Gives result (back_name (fields true line.now)) }
{
    let Some(field) = lone_field(cluster, line) else {
        return Err(LineFault::Bad(Reason::BackForm));
    };
    field_name(alloc, field)
}
