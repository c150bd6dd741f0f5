//! Times in milliseconds with decimal places.

ghost use Rattle.std.specs.Prelude.{◌≡◌, ◌==◌, ◌<◌, IfOk, IfSome, length, position};
ghost use Rattle.lin_text.specs.Written.{Grows};
ghost use Rattle.lin_bench.specs.Read.{Gives};
ghost use Rattle.lin_bench.specs.Times.{hundredths_text, microseconds, point_text, said_time, thousandths};
ghost use Rattle.lin_bench.specs.Times.{thousandth_text, time_field, time_text, time_with, up_to_limit, whole_time};

use crate::expected::SaidTime;
use crate::fault::LineFault;
use crate::reason::Reason;
use lin_log::number;
use lin_text::{Text, TextBuffer, TextWriter};
use std::alloc::{AllocError, Global};
use std::io::Write;

/// The microseconds that one to three digits after the point of milliseconds spell.
fn thousandths(digits: &[u8]) -> Option<u64>
    ensures { result ≡ thousandths digits.now }
{
    let count = u64::from(number(digits, 999)?);
    match digits.len() {
        1 => Some(100 * count),
        2 => Some(10 * count),
        3 => Some(count),
        _ => None,
    }
}

/// A number of microseconds, if it is at most 1,000,000 milliseconds.
fn up_to_limit(us: u64) -> Option<u32>
    ensures { result ≡ up_to_limit us }
{
    if us <= 1_000_000_000 {
        Some(us as u32)
    } else {
        None
    }
}

/// Where the point of a field is.
fn point_at(field: &[u8]) -> Option<usize>
    ensures at { result ≡ position (λ b. b == 46) field.now }
    ensures within { IfSome result (λ at. at < length field.now) }
{
    field.iter().position(|byte| *byte == b'.')
}

/// The microseconds of whole milliseconds.
fn whole_time(field: &[u8]) -> Option<u32>
    ensures { result ≡ whole_time field.now }
{
    up_to_limit(1000 * u64::from(number(field, 1_000_000)?))
}

/// The microseconds of milliseconds and of the digits after their point.
fn time_with(field: &[u8], digits: &[u8]) -> Option<u32>
    ensures { result ≡ time_with field.now digits.now }
{
    let whole = u64::from(number(field, 1_000_000)?);
    up_to_limit(1000 * whole + thousandths(digits)?)
}

/// The microseconds of a field in milliseconds.
fn microseconds(field: &[u8]) -> Option<u32>
    ensures { result ≡ microseconds field.now }
{
    match point_at(field) {
        None => whole_time(field),
        Some(at) => time_with(&field[..at], &field[at + 1..]),
    }
}

/// Puts a digit of thousandths after hundredths, if it isn't 0.
fn put_thousandth<W: Write>(out: &mut TextWriter<'_, W>, digit: u32)
    ensures { Grows W.contents out.old out.new (thousandth_text digit) }
{
    if digit == 0 {
        return;
    }
    out.put_number(digit);
}

/// Puts hundredths after tenths, without zeros at the end.
fn put_hundredths<W: Write>(out: &mut TextWriter<'_, W>, count: u32)
    ensures { Grows W.contents out.old out.new (hundredths_text count) }
{
    if count == 0 {
        return;
    }
    out.put_number(count / 10);
    put_thousandth(out, count % 10);
}

/// Puts a point and thousandths, without zeros at the end.
fn put_point<W: Write>(out: &mut TextWriter<'_, W>, count: u32)
    ensures { Grows W.contents out.old out.new (point_text count) }
{
    if count == 0 {
        return;
    }
    out.put_byte(b'.');
    out.put_number(count / 100);
    put_hundredths(out, count % 100);
}

fn put_time<W: Write>(out: &mut TextWriter<'_, W>, us: u32)
    ensures { Grows W.contents out.old out.new (time_text us) }
{
    out.put_number(us / 1000);
    put_point(out, us % 1000);
}

/// A time with its text in milliseconds.
fn said_time(alloc: Global, us: u32) -> Result<SaidTime, AllocError>
    ensures { IfOk result (λ t. t ≡ said_time us) }
{
    let mut text = Vec::new(alloc);
    let mut buffer = TextBuffer::empty();
    let mut out = TextWriter::new(&mut text, &mut buffer);
    put_time(&mut out, us);
    match out.finish() {
        Ok(()) => Ok(SaidTime {
            us,
            text: Text::copied(alloc, text.as_slice())?,
        }),
        Err(_) => Err(AllocError),
    }
}

/// A time in milliseconds, with at most three decimal places.
pub(crate) fn time_field(alloc: Global, field: &[u8]) -> Result<SaidTime, LineFault>
    ensures { Gives (λ t. t) result (time_field field.now) }
{
    match microseconds(field) {
        Some(us) => Ok(said_time(alloc, us)?),
        None => Err(LineFault::Bad(Reason::NoTime(Text::copied(alloc, field)?))),
    }
}
