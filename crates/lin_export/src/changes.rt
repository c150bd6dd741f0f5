//! Changes of values, as lines (IEEE 1364-2005, section 18).

ghost use Rattle.std.specs.Prelude.{◌≡◌, ◌≤◌, ◌<◌, ◌*◌, length, flat_map, option_map};
ghost use Rattle.lin_parts.specs.Cluster.{signal_of};
ghost use Rattle.lin_text.specs.Written.{Grows};
ghost use Rattle.lin_export.specs.Vcd.{before_code, binary, change, code, digits, heard_change};
ghost use Rattle.lin_export.specs.Vcd.{heard_number, number_change, unknown_change, waiting_change};
ghost use Rattle.lin_export.specs.Vcd.{waiting_number, written_change, written_number};
ghost use Rattle.lin_export.specs.Vcd.{physical_change, physical_number, real_change, real_value};
ghost use Rattle.lin_export.specs.Vcd.{real_word};
ghost use Rattle.lin_values.specs.Meaning.{meant};

use arrayvec::ArrayVec;
use lin_frame::Value;
use lin_parts::Cluster;
use lin_text::TextWriter;
use lin_values::{Coded, Meaning, put_decimal};
use std::io::Write;

/// The number of the variable of the first signal.
const FIRST: u16 = 6;

/// The low bits of a number as digits, the highest first.
fn binary(width: u8, number: u64) -> ArrayVec<u8, 64>
    requires { width ≤ 64 }
    ensures bits { result.items ≡ binary width number }
    ensures count { length result.items ≡ width }
{
    let mut bits = ArrayVec::new();
    let mut left = width;
    while left > 0 {
        left -= 1;
        bits.push(b'0' + ((number >> left) % 2) as u8);
    }
    bits
}

/// The digits of an array, the first byte first.
fn bytes_digits(bytes: &[u8]) -> ArrayVec<u8, 64>
    requires { length bytes.now ≤ 8 }
    ensures { result.items ≡ flat_map (binary 8) bytes.now }
{
    let mut all = ArrayVec::new();
    for byte in bytes {
        all.try_extend_from_slice(binary(8, u64::from(*byte)).as_slice())
            .unwrap();
    }
    all
}

/// The digits of a value.
fn value_digits(size: u8, value: &Value) -> ArrayVec<u8, 64>
    requires { size ≤ 64 }
    ensures { result.items ≡ digits size value.now }
{
    match value {
        Value::Scalar(number) => binary(size, u64::from(*number)),
        Value::Bytes(bytes) => bytes_digits(bytes.as_slice()),
    }
}

/// The code of a variable.
pub(crate) fn put_code<W: Write>(out: &mut TextWriter<'_, W>, variable: u16)
    requires { variable < 4096 }
    ensures { Grows W.contents out.old out.new (code variable) }
{
    if variable < 94 {
        out.put_byte(33 + variable as u8);
    } else {
        out.put(&[33 + (variable % 94) as u8, 32 + (variable / 94) as u8]);
    }
}

/// A value with these digits, before the code of its variable.
fn put_value<W: Write>(out: &mut TextWriter<'_, W>, width: u8, value: &[u8])
    ensures { Grows W.contents out.old out.new (before_code width value.now) }
{
    if width == 1 {
        out.put(value);
    } else {
        out.put_byte(b'b');
        out.put(value);
        out.put_byte(b' ');
    }
}

/// A variable takes a value with these digits.
fn put_change<W: Write>(out: &mut TextWriter<'_, W>, width: u8, variable: u16, value: &[u8])
    requires { variable < 4096 }
    ensures { Grows W.contents out.old out.new (change width variable value.now) }
{
    put_value(out, width, value);
    put_code(out, variable);
    out.put_byte(b'\n');
}

/// A variable takes a value that isn't known.
pub(crate) fn put_unknown<W: Write>(out: &mut TextWriter<'_, W>, variable: u16)
    requires { variable < 4096 }
    ensures { Grows W.contents out.old out.new (unknown_change variable) }
{
    out.put(b"bx ");
    put_code(out, variable);
    out.put_byte(b'\n');
}

/// A variable takes a number.
pub(crate) fn put_number<W: Write>(
    out: &mut TextWriter<'_, W>,
    width: u8,
    variable: u16,
    number: u64,
)
    requires width { width ≤ 64 }
    requires variable { variable < 4096 }
    ensures { Grows W.contents out.old out.new (number_change width variable number) }
{
    put_change(out, width, variable, binary(width, number).as_slice());
}

/// The number of the variable of a signal as it is heard.
pub(crate) fn heard_number(signal: u16) -> u16
    requires { signal < 1024 }
    ensures number { result ≡ heard_number signal }
    ensures few { result < 4096 }
{
    FIRST + signal
}

/// The number of the variable of a signal as it is written.
pub(crate) fn written_number(cluster: &Cluster, signal: u16) -> u16
    requires { signal < 1024 }
    ensures number { result ≡ written_number cluster.now signal }
    ensures few { result < 4096 }
{
    FIRST + cluster.signals() as u16 + signal
}

/// The number of the variable of a host.
pub(crate) fn waiting_number(cluster: &Cluster, host: u8) -> u16
    ensures number { result ≡ waiting_number cluster.now host }
    ensures few { result < 4096 }
{
    FIRST + 2 * cluster.signals() as u16 + u16::from(host)
}

/// How many bits a signal has.
pub(crate) fn signal_size(cluster: &Cluster, signal: u16) -> u8
    requires { signal < length cluster.now.signals }
    ensures size { result ≡ (signal_of cluster.now signal).size }
    ensures few { result ≤ 64 }
{
    cluster.sound();
    cluster.signal_size(signal)
}

/// The nodes hear a value of a signal.
pub(crate) fn put_heard<W: Write>(
    out: &mut TextWriter<'_, W>,
    cluster: &Cluster,
    signal: u16,
    value: &Value,
)
    requires { signal < length cluster.now.signals }
    ensures { Grows W.contents out.old out.new (heard_change cluster.now signal value.now) }
{
    cluster.signals();
    let size = signal_size(cluster, signal);
    put_change(
        out,
        size,
        heard_number(signal),
        value_digits(size, value).as_slice(),
    );
}

/// The number of the variable of what a signal means.
pub(crate) fn physical_number(cluster: &Cluster, signal: u16) -> u16
    requires { signal < length cluster.now.signals }
    ensures number { result ≡ physical_number cluster.now signal }
    ensures few { result < 4096 }
{
    FIRST + 2 * cluster.signals() as u16 + cluster.nodes() as u16 + signal
}

/// A decimal, or `nan`.
fn put_meaning<W: Write>(out: &mut TextWriter<'_, W>, meaning: &Meaning<'_>)
    ensures { Grows W.contents out.old out.new (real_word (meant meaning.now)) }
{
    match meaning {
        Meaning::Physical(value, _) => put_decimal(out, value.decimal()),
        Meaning::Named(_) | Meaning::Number(_) | Meaning::Digits(_) | Meaning::Letters(_) => {
            out.put(b"nan")
        }
    }
}

fn put_real_value<W: Write>(out: &mut TextWriter<'_, W>, meaning: Option<Meaning<'_>>)
    ensures { Grows W.contents out.old out.new (real_value (option_map meant meaning.entry)) }
{
    match meaning {
        Some(meaning) => put_meaning(out, &meaning),
        None => out.put(b"nan"),
    }
}

/// A variable takes a decimal, or `nan`.
fn put_real<W: Write>(out: &mut TextWriter<'_, W>, variable: u16, meaning: Option<Meaning<'_>>)
    requires { variable < 4096 }
    ensures { Grows W.contents out.old out.new
        (real_change variable (option_map meant meaning.entry)) }
{
    out.put_byte(b'r');
    put_real_value(out, meaning);
    out.put_byte(b' ');
    put_code(out, variable);
    out.put_byte(b'\n');
}

/// What a value of a signal means, where it has a range.
pub(crate) fn put_physical<W: Write>(
    out: &mut TextWriter<'_, W>,
    cluster: &Cluster,
    coded: &Coded,
    signal: u16,
    value: &Value,
)
    requires { signal < length cluster.now.signals }
    ensures { Grows W.contents out.old out.new
        (physical_change cluster.now coded.now signal value.now) }
{
    if coded.has_range(signal) {
        put_real(
            out,
            physical_number(cluster, signal),
            coded.meaning(signal, value),
        );
    }
}

/// A signal is given a value.
pub(crate) fn put_written<W: Write>(
    out: &mut TextWriter<'_, W>,
    cluster: &Cluster,
    signal: u16,
    value: &Value,
)
    requires { signal < length cluster.now.signals }
    ensures { Grows W.contents out.old out.new (written_change cluster.now signal value.now) }
{
    cluster.signals();
    let size = signal_size(cluster, signal);
    put_change(
        out,
        size,
        written_number(cluster, signal),
        value_digits(size, value).as_slice(),
    );
}

/// So many messages of a host wait.
pub(crate) fn put_waiting<W: Write>(
    out: &mut TextWriter<'_, W>,
    cluster: &Cluster,
    host: u8,
    count: u16,
)
    ensures { Grows W.contents out.old out.new (waiting_change cluster.now host count) }
{
    put_number(out, 11, waiting_number(cluster, host), u64::from(count));
}
