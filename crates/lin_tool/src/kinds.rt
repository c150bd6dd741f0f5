//! The warnings that the values of `--allow` and `--deny` name.

use crate::coding::{Encodings, Extras};
use crate::describing::Reading;
use crate::levels::{Levels, NumberRange};
use lin_cluster::Finding;
use lin_text::Many;
use std::alloc::{AllocFailed, Global};

/// Why a value of `--allow` or `--deny` isn't valid.
#[derive(Debug, Drop)]
pub enum KindsFault<'a> {
    /// The value is empty, or has nothing before, between or after its commas.
    Empty,
    /// No option reports a warning with this number or name, or with a number in this range.
    Unknown(&'a str),
    /// The options on the command line don't report it. This says which ones do.
    NotReported(&'a str, &'static str),
    OutOfMemory,
}

/// A value that isn't valid, and its option.
#[derive(Debug, Drop)]
pub struct BadKinds<'a> {
    pub option: &'static str,
    pub fault: KindsFault<'a>,
}

impl<'a, T: Drop> From<AllocFailed<T>> for KindsFault<'a> {
    fn from(_error: AllocFailed<T>) -> KindsFault<'a> {
        KindsFault::OutOfMemory
    }
}

/// Whether `--field` warns with this number: the others up to 26 are findings only.
fn is_deviation(number: u8) -> bool {
    matches!(number, 1 | 3 | 8..=12 | 16 | 19..=24 | 26)
}

/// Whether a command line with these options reports warnings with this number.
fn is_reported(number: u8, reading: Reading, extras: Extras) -> bool {
    match number {
        27 => reading == Reading::Field || extras.is_linted,
        31..=41 => extras.encodings == Encodings::Told,
        51..=65 | 68..=70 => extras.is_linted,
        71..=78 => extras.is_configured,
        _ => reading == Reading::Field && is_deviation(number),
    }
}

/// Which options report warnings with this number, if some do.
fn needed(number: u8) -> Option<&'static str> {
    match number {
        27 => Some("27 needs --field or --lint"),
        31..=41 => Some("31 to 41 need --physical"),
        51..=65 | 68..=70 => Some("51 to 70 need --lint"),
        71..=78 => Some("71 to 78 need --configuration"),
        _ if is_deviation(number) => Some("1 to 26 need --field"),
        _ => None,
    }
}

/// Returns the value of decimal digits, at most 255, which is the number of no warning; `None` for any
/// other text.
fn number_in(digits: &str) -> Option<u8> {
    if digits.is_empty() {
        return None;
    }
    let mut number: u8 = 0;
    for c in digits.as_bytes() {
        if !c.is_ascii_digit() {
            return None;
        }
        number = number
            .saturating_mul(10)
            .saturating_add(c.saturating_sub(b'0'));
    }
    Some(number)
}

/// Returns the number of the warnings with this name.
fn number_named(name: &str) -> Option<u8> {
    for number in 1..u8::MAX {
        let finding = Finding {
            line: 0,
            column: 0,
            number,
            needed_us: 0,
        };
        if finding.name() == name {
            return Some(number);
        }
    }
    None
}

/// Returns the numbers that a part of a value names, which isn't empty: `all`, `FROM-TO`, a number or a
/// name.
fn range_of(part: &str) -> Option<NumberRange> {
    if part == "all" {
        return Some(NumberRange {
            first: 0,
            last: u8::MAX,
        });
    }
    let (first, last) = match part.split_once('-') {
        Some((from, to)) => (number_in(from)?, number_in(to)?),
        None => {
            let number = number_in(part).or(number_named(part))?;
            (number, number)
        }
    };
    Some(NumberRange { first, last })
}

/// Returns a range of which the options report a warning, or why there is none.
fn reported<'a>(
    part: &'a str,
    reading: Reading,
    extras: Extras,
) -> Result<NumberRange, KindsFault<'a>> {
    let Some(range) = range_of(part) else {
        return Err(KindsFault::Unknown(part));
    };
    let mut option = None;
    for number in range.first..range.last.saturating_add(1) {
        if is_reported(number, reading, extras) {
            return Ok(range);
        }
        option = option.or(needed(number));
    }
    match option {
        _ if part == "all" => Ok(range),
        Some(option) => Err(KindsFault::NotReported(part, option)),
        None => Err(KindsFault::Unknown(part)),
    }
}

/// Reads a value: one or more of `all`, a number, `FROM-TO` and the name of a warning, with commas
/// between them.
///
/// # Errors
/// Why the first part that isn't valid isn't; `OutOfMemory`.
fn read_kinds<'a>(
    alloc: Global,
    kinds: &'a str,
    reading: Reading,
    extras: Extras,
) -> Result<Many<NumberRange>, KindsFault<'a>> {
    let mut ranges = Vec::new(alloc);
    for part in kinds.split(",") {
        if part.is_empty() {
            return Err(KindsFault::Empty);
        }
        ranges.push(reported(part, reading, extras)?)?;
    }
    Ok(Many::new(ranges))
}

/// Reads the value of an option, if the command line has it.
fn kinds_of<'a>(
    alloc: Global,
    option: &'static str,
    kinds: Option<&'a str>,
    reading: Reading,
    extras: Extras,
) -> Result<Many<NumberRange>, BadKinds<'a>> {
    let Some(kinds) = kinds else {
        return Ok(Many::new(Vec::new(alloc)));
    };
    match read_kinds(alloc, kinds, reading, extras) {
        Ok(ranges) => Ok(ranges),
        Err(fault) => Err(BadKinds { option, fault }),
    }
}

/// Reads the values of `--deny` and `--allow`, on a command line that reports the warnings of this
/// reading and these extras.
///
/// # Errors
/// The first value that isn't valid, that of `--deny` first; also if memory runs out.
pub fn read_levels<'a>(
    alloc: Global,
    denied: Option<&'a str>,
    allowed: Option<&'a str>,
    reading: Reading,
    extras: Extras,
) -> Result<Levels, BadKinds<'a>> {
    let denied = kinds_of(alloc, "deny", denied, reading, extras)?;
    let allowed = kinds_of(alloc, "allow", allowed, reading, extras)?;
    Ok(Levels { allowed, denied })
}
