//! The raw values that a signal can have, and those that a form may name.

ghost use Rattle.std.specs.Prelude.{◌≡◌, ◌<◌, IfOk, length};
ghost use Rattle.lin_parts.specs.Cluster.{signal_of};
ghost use Rattle.lin_bench.specs.RawValues.{can_have, ends_before, has_all, is_whole_range};
ghost use Rattle.lin_bench.specs.RawValues.{raw_range, raw_value, some_value, unless_all};
ghost use Rattle.lin_bench.specs.Read.{Gives};
ghost use Rattle.lin_bench.specs.declared.fault.LineFault.{LineFault};
ghost use Rattle.lin_bench.specs.declared.reason.Hint.{Hint};
ghost use Rattle.lin_bench.specs.declared.reason.Reason.{Reason};

use crate::fault::LineFault;
use crate::fields::{range_field, signal_field, value_field};
use crate::meant::MeantValues;
use crate::reason::{Hint, Reason};
use lin_frame::{Place, Value};
use lin_parts::Cluster;
use lin_text::Text;
use std::alloc::{AllocError, Global};

/// Whether a signal can have a value: a scalar of its bits, or an array of its length (LIN 2.2A, section
/// 9.2.3).
fn can_have(cluster: &Cluster, signal: u16, value: &Value) -> bool
    requires { signal < length cluster.now.signals }
    ensures { result ≡ can_have cluster.now signal value.now }
{
    let place = Place {
        offset: 0,
        size: cluster.signal_size(signal),
        array: matches!(cluster.initial(signal), Value::Bytes(_)),
    };
    place.fits(value)
}

/// Whether a signal has no scalar from a number on: none has more than 16 bits.
fn ends_before(cluster: &Cluster, signal: u16, number: u64) -> bool
    requires { signal < length cluster.now.signals }
    ensures { result ≡ ends_before cluster.now signal number }
{
    number > 65_535 || !can_have(cluster, signal, &Value::Scalar(number as u16))
}

/// Whether a range has each scalar of a signal.
fn is_whole_range(cluster: &Cluster, signal: u16, low: u16, high: u16) -> bool
    requires { signal < length cluster.now.signals }
    ensures { result ≡ is_whole_range cluster.now signal low high }
{
    low == 0 && ends_before(cluster, signal, u64::from(high) + 1)
}

/// Whether these are as many values as the scalars that a signal of the cluster can have.
fn has_all(cluster: &Cluster, signal: u16, values: &MeantValues) -> bool
    ensures { result ≡ has_all cluster.now signal values.now }
{
    (signal as usize) < cluster.signals()
        && can_have(cluster, signal, &Value::Scalar(0))
        && ends_before(cluster, signal, values.count())
}

/// That a signal, which the first field names, can't have the value or a value of the range in the second.
fn no_value(alloc: Global, field: &[u8], value: &[u8]) -> Result<LineFault, AllocError>
    ensures { IfOk result
        (λ fault. fault ≡ LineFault.Bad (Reason.NoValue value.now field.now Hint.Nothing)) }
{
    Ok(LineFault::Bad(Reason::NoValue {
        text: Text::copied(alloc, value)?,
        signal: Text::copied(alloc, field)?,
        hint: Hint::Nothing,
    }))
}

/// That the range in the second field has every value of a signal, which the first one names.
fn every_value(alloc: Global, field: &[u8], text: &[u8]) -> Result<LineFault, AllocError>
    ensures { IfOk result (λ fault. fault ≡ LineFault.Bad (Reason.EveryValue text.now field.now)) }
{
    Ok(LineFault::Bad(Reason::EveryValue {
        text: Text::copied(alloc, text)?,
        signal: Text::copied(alloc, field)?,
    }))
}

/// The value in a field, if a signal can have it; `name` is the signal's field.
pub(crate) fn raw_value(
    alloc: Global,
    cluster: &Cluster,
    name: &[u8],
    signal: u16,
    field: &[u8],
) -> Result<Value, LineFault>
    requires { signal < length cluster.now.signals }
    ensures { Gives (λ v. v) result (raw_value cluster.now name.now signal field.now) }
{
    let value = value_field(alloc, cluster, field)?;
    if can_have(cluster, signal, &value) {
        return Ok(value);
    }
    Err(no_value(alloc, name, field)?)
}

/// Returns the range from a field if the signal can have its lowest value, and if it isn't the range of all
/// values. `name` is the field of the signal, and `field` that of the range.
pub(crate) fn raw_range(
    alloc: Global,
    cluster: &Cluster,
    name: &[u8],
    signal: u16,
    field: &[u8],
    low: &[u8],
    high: &[u8],
) -> Result<(u16, u16), LineFault>
    requires { signal < length cluster.now.signals }
    ensures { Gives (λ r. r) result
        (raw_range cluster.now name.now signal field.now (low.now, high.now)) }
{
    let (low, high) = range_field(alloc, cluster, field, low, high)?;
    if !can_have(cluster, signal, &Value::Scalar(low)) {
        return Err(no_value(alloc, name, field)?);
    }
    if is_whole_range(cluster, signal, low, high) {
        return Err(every_value(alloc, name, field)?);
    }
    Ok((low, high))
}

/// The values of a signal that a text says, if they aren't all; `field` is the signal's.
pub(crate) fn unless_all(
    alloc: Global,
    cluster: &Cluster,
    signal: u16,
    field: &[u8],
    text: &[u8],
    values: MeantValues,
) -> Result<MeantValues, LineFault>
    ensures { Gives (λ m. m) result (unless_all cluster.now signal field.now text.now values) }
{
    if has_all(cluster, signal, &values) {
        return Err(every_value(alloc, field, text)?);
    }
    Ok(values)
}

/// The initial value of a signal; 0 if the cluster has no signal with this number.
fn initial_value(cluster: &Cluster, signal: u16) -> Value
    ensures { result ≡ (signal_of cluster.now signal).initial }
{
    if (signal as usize) < cluster.signals() {
        *cluster.initial(signal)
    } else {
        Value::Scalar(0)
    }
}

/// Returns the initial value of the signal with a name or number; 0 if there is no such signal. An error means
/// out of memory.
pub(crate) fn some_value(
    alloc: Global,
    cluster: &Cluster,
    field: &[u8],
) -> Result<Value, AllocError>
    ensures { IfOk result (λ v. v ≡ some_value cluster.now field.now) }
{
    match signal_field(alloc, cluster, field) {
        Ok(signal) => Ok(initial_value(cluster, signal)),
        Err(LineFault::Bad(_)) => Ok(Value::Scalar(0)),
        Err(LineFault::OutOfMemory) => Err(AllocError),
    }
}
