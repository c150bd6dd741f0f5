//! The settings of a bench, which begin with their own size.

ghost use Rattle.std.specs.Prelude.{◌≡◌, ◌≤◌, ◌<◌, ◌^◌, IfErr, IfOk, drop};
ghost use Rattle.linsim_c.specs.BenchSettings.{ReadsSettings, byte_at, capacity_of, format_of, half_at};
ghost use Rattle.linsim_c.specs.BenchSettings.{has_more, is_configured, is_field, is_physical};
ghost use Rattle.linsim_c.specs.BenchSettings.{number_at, read_size, word_at};
ghost use Rattle.linsim_c.specs.declared.fault.Fault.TheVariants.{BadCapacity, UnknownFlags as Unknown};
ghost use Rattle.linsim_c.specs.declared.fault.Fault.TheVariants.{UnknownFormat as NoFormat};

use crate::fault::Fault;
use lin_live::AnswerFormat;

/// The bytes of the size, which all settings have.
const LEAST: usize = 8;

/// The most bytes of settings that are read.
const MOST: usize = 4096;

/// The bytes of settings that have a meaning.
const KNOWN: usize = 24;

/// What a bench is opened with.
#[derive(Drop)]
pub(crate) struct BenchSettings {
    /// How many messages of a host may wait, 1 to 1,024.
    pub capacity: usize,
    /// Whether the LDF is read by the wider grammar.
    pub is_field: bool,
    /// Whether values are told as what they mean, too.
    pub is_physical: bool,
    /// Whether slots send the requests of node configuration commands.
    pub is_configured: bool,
    pub format: AnswerFormat,
    /// The number of the schedule table that is begun with, from 0.
    pub table: u16,
}

/// The byte at a place.
fn byte_at(bytes: &[u8], at: usize) -> u8
    ensures { result ≡ byte_at bytes.now at }
{
    match bytes.get(at) {
        Some(byte) => *byte,
        None => 0,
    }
}

/// The number of 16 bits at a place.
fn half_at(bytes: &[u8], at: usize) -> u16
    requires { at < 2 ^ 16 }
    ensures { result ≡ half_at bytes.now at }
{
    u16::from(byte_at(bytes, at)) + 0x100 * u16::from(byte_at(bytes, at + 1))
}

/// The number of 32 bits at a place.
fn word_at(bytes: &[u8], at: usize) -> u32
    requires { at < 2 ^ 15 }
    ensures { result ≡ word_at bytes.now at }
{
    u32::from(half_at(bytes, at)) + 0x1_0000 * u32::from(half_at(bytes, at + 2))
}

/// The number of 64 bits at a place.
fn number_at(bytes: &[u8], at: usize) -> usize
    requires { at < 2 ^ 14 }
    ensures { result ≡ number_at bytes.now at }
{
    word_at(bytes, at) as usize + 0x1_0000_0000 * word_at(bytes, at + 4) as usize
}

/// How many bytes are read of settings whose first 8 bytes these are.
pub(crate) fn read_size(first: &[u8]) -> usize
    ensures { result ≡ read_size first.now }
{
    let size = number_at(first, 0);
    if LEAST <= size && size <= MOST {
        size
    } else {
        LEAST
    }
}

/// The bytes from a place on; none if there are no more than that.
#[tactic(auto, using(crate::proofs::Further::none_further))]
pub(crate) fn after(bytes: &[u8], from: usize) -> &[u8]
    ensures { result.now ≡ drop from bytes.now }
{
    if bytes.len() <= from {
        b""
    } else {
        &bytes[from..]
    }
}

/// Whether a byte that has no meaning isn't 0.
fn has_more(bytes: &[u8]) -> bool
    ensures { result ≡ has_more bytes.now }
{
    after(bytes, KNOWN).iter().any(|byte| *byte != 0)
}

/// The flags of settings, bit by bit.
#[derive(Drop)]
struct Flags {
    is_field: bool,
    is_physical: bool,
    is_configured: bool,
}

/// What flags say: bit 0 `is_field`, bit 1 `is_physical`, bit 2 `is_configured`.
///
/// # Errors
/// `UnknownFlags`.
fn flags_of(flags: u32) -> Result<Flags, Fault>
    ensures known { IfOk result (λ said. flags ≤ 7) }
    ensures field { IfOk result (λ said. said.is_field ≡ is_field flags) }
    ensures physical { IfOk result (λ said. said.is_physical ≡ is_physical flags) }
    ensures configured { IfOk result (λ said. said.is_configured ≡ is_configured flags) }
    ensures unknown { IfErr result (λ why. (why ≡ Unknown) × (7 < flags)) }
{
    if flags > 7 {
        return Err(Fault::UnknownFlags);
    }
    Ok(Flags {
        is_field: flags % 2 == 1,
        is_physical: flags / 2 % 2 == 1,
        is_configured: flags / 4 % 2 == 1,
    })
}

/// How many messages of a host may wait.
///
/// # Errors
/// `BadCapacity`.
fn capacity_of(number: usize) -> Result<usize, Fault>
    ensures value { IfOk result (λ said. (number ≤ 1024) × (said ≡ capacity_of number)) }
    ensures range { IfOk result (λ said. (1 ≤ said) × (said ≤ 1024)) }
    ensures bad { IfErr result (λ why. (why ≡ BadCapacity) × (1024 < number)) }
{
    match number {
        0 => Ok(16),
        1..=1024 => Ok(number),
        _ => Err(Fault::BadCapacity),
    }
}

/// How answers tell entries.
///
/// # Errors
/// `UnknownFormat`.
fn format_of(number: u16) -> Result<AnswerFormat, Fault>
    ensures value { IfOk result (λ said. (number ≤ 2) × (said ≡ format_of number)) }
    ensures unknown { IfErr result (λ why. (why ≡ NoFormat) × (2 < number)) }
{
    match number {
        0 => Ok(AnswerFormat::Log),
        1 => Ok(AnswerFormat::Named),
        2 => Ok(AnswerFormat::Jsonl),
        _ => Err(Fault::UnknownFormat),
    }
}

/// What settings say.
///
/// # Errors
/// `BadSize`, then `UnknownFlags`, `BadCapacity` and `UnknownFormat`.
pub(crate) fn read_settings(bytes: &[u8]) -> Result<BenchSettings, Fault>
    ensures settings { ReadsSettings result bytes.now }
    ensures range { IfOk result (λ s. (1 ≤ s.capacity) × (s.capacity ≤ 1024)) }
{
    if number_at(bytes, 0) != bytes.len() || has_more(bytes) {
        return Err(Fault::BadSize);
    }
    let Flags {
        is_field,
        is_physical,
        is_configured,
    } = flags_of(word_at(bytes, 16))?;
    let capacity = capacity_of(number_at(bytes, 8))?;
    let format = format_of(half_at(bytes, 20))?;
    Ok(BenchSettings {
        capacity,
        is_field,
        is_physical,
        is_configured,
        format,
        table: half_at(bytes, 22),
    })
}
