//! Readers that stop at the first token that isn't valid there.

ghost use Rattle.std.specs.Prelude.{◌≡◌, ◌++◌, ◌≤◌, IfOk, IfSome, Ok, OnOk};
ghost use Rattle.lin_ldf.specs.Forms.{Gives};
ghost use Rattle.lin_sections.specs.Stops.{int_between, mark_next, name_next, next_to, number_next};
ghost use Rattle.lin_sections.specs.Stops.{or_stop, findings_at_stop, stopped_at, value_read, Stops};

use lin_cluster::{Finding, FindingKind, push_when};
use lin_ldf::{LdfFault, Parser, TokenKind};
use lin_parts::description::{Name, Number};
use std::alloc::AllocError;

/// Returns what was read ahead. If it was valid, the parser is after it; otherwise the parser doesn't move.
fn or_stop<'a, T: Drop>(
    parser: &mut Parser<'a>,
    ahead: Parser<'a>,
    read: Result<T, LdfFault>,
) -> Result<T, LdfFault>
    ensures stops { (form : _) → Gives read ahead.entry form
        → Stops result parser.new (or_stop form parser.old) }
    ensures same { result ≡ read }
{
    match read {
        Ok(value) => {
            *parser = ahead;
            Ok(value)
        }
        Err(fault) => Err(fault),
    }
}

/// Passes a mark.
pub(crate) fn mark_next(parser: &mut Parser<'_>, kind: TokenKind) -> Result<(), LdfFault>
    ensures { Stops result parser.new (mark_next kind parser.old) }
{
    let mut ahead = parser.ahead();
    let read = ahead.mark(kind);
    or_stop(parser, ahead, read)
}

/// Reads a WORD.
pub(crate) fn name_next(parser: &mut Parser<'_>) -> Result<Name, LdfFault>
    ensures { Stops result parser.new (name_next parser.old) }
{
    let mut ahead = parser.ahead();
    let read = ahead.word();
    or_stop(parser, ahead, read)
}

// INT from a number to another one
fn int_between(parser: &mut Parser<'_>, least: u32, most: u32) -> Result<Number, LdfFault>
    ensures read { Gives result parser.new (int_between least most parser.old) }
    ensures limits { IfOk result (λ n. (least ≤ n.value) × (n.value ≤ most)) }
{
    let place = parser.place();
    let number = parser.int()?;
    if least <= number.value && number.value <= most {
        Ok(number)
    } else {
        Err(LdfFault::Unexpected(place))
    }
}

/// Reads an INT from a number to another one.
pub(crate) fn number_next(
    parser: &mut Parser<'_>,
    least: u32,
    most: u32,
) -> Result<Number, LdfFault>
    ensures read { Stops result parser.new (number_next least most parser.old) }
    ensures limits { IfOk result (λ n. (least ≤ n.value) × (n.value ≤ most)) }
{
    let mut ahead = parser.ahead();
    let read = int_between(&mut ahead, least, most);
    or_stop(parser, ahead, read)
}

/// Reads a comma and an INT up to a number.
pub(crate) fn next_to(parser: &mut Parser<'_>, most: u32) -> Result<Number, LdfFault>
    ensures read { Stops result parser.new (next_to most parser.old) }
    ensures limit { IfOk result (λ n. n.value ≤ most) }
{
    mark_next(parser, TokenKind::Comma)?;
    number_next(parser, 0, most)
}

/// Returns what was read, or `None` if reading stopped. An error means out of memory.
pub(crate) fn value_read<T: Drop>(read: Result<T, LdfFault>) -> Result<Option<T>, AllocError>
    ensures { (left : _) (reading : _) → Stops read left reading
        → IfOk result (λ value. value ≡ value_read reading) }
{
    match read {
        Ok(value) => Ok(Some(value)),
        Err(fault) => match fault {
            LdfFault::OutOfMemory => Err(AllocError),
            _ => Ok(None),
        },
    }
}

/// Adds a finding at the next token, at which a reader stopped.
pub(crate) fn add_stopped(
    found: &mut Vec<Finding>,
    kind: FindingKind,
    parser: &Parser<'_>,
) -> Result<(), AllocError>
    ensures { OnOk result (found.new.items ≡ found.old.items ++ stopped_at kind parser.now) }
{
    push_when(
        found,
        parser.front_kind().is_some(),
        Finding::new(kind, parser.place()),
    )
}

/// Returns what was read, or adds a finding at the token at which reading stopped. An error means out of
/// memory.
pub(crate) fn or_found<T: Drop>(
    read: Result<T, LdfFault>,
    parser: &Parser<'_>,
    kind: FindingKind,
    found: &mut Vec<Finding>,
) -> Result<Option<T>, AllocError>
    ensures value { (reading : _) → Stops read parser.now reading
        → IfOk result (λ value. value ≡ value_read reading) }
    ensures found { (reading : _) → Stops read parser.now reading
        → OnOk result (found.new.items ≡ found.old.items ++ findings_at_stop kind reading) }
    ensures same { IfOk result (λ value. IfSome value (λ x. read ≡ Ok x)) }
{
    match read {
        Ok(value) => Ok(Some(value)),
        Err(fault) => match fault {
            LdfFault::OutOfMemory => Err(AllocError),
            _ => {
                add_stopped(found, kind, parser)?;
                Ok(None)
            }
        },
    }
}
