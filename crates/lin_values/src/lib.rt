//! Physical values of signals, exactly: the encodings of an LDF as data (LIN 2.2A, section 9.2.6), what a
//! raw value means, its text, and the ways back.
//!
//! ```
//! let (coded, warnings) = coded_by(alloc, &cluster, codings)?;
//! if let Some(meaning) = coded.meaning(signal, &value) {
//!     put_meaning(&mut out, &meaning);
//! }
//! let raws = coded.raws_of(alloc, signal, b"5 degC")?;
//! ```
#![tactic(auto)]

mod coded;
mod codings;
mod decimal_limits;
mod decimals;
mod encoding;
mod layers;
mod meaning;
mod nearest_raws;
mod raws;
mod script_decimals;
mod sought;
mod spelled;
mod unit;
mod unused;
mod ways_back;

pub use coded::{Coded, NamedSignals, coded_by, put_first};
pub use codings::{CodedLine, CodingType, Codings, Item, PlacedItem};
pub use decimal_limits::{Coefficient, PhysicalValue};
pub use decimals::{Decimal, fits, is_small, physical, put_decimal, shortest, ten_to, units};
pub use encoding::{Coding, Encoding, Range, Traits};
pub use meaning::{Meaning, put_meaning, put_plain, shown};
pub use raws::Raws;
pub use script_decimals::{number_and_unit, read_decimal};
pub use unused::{named_signals, unused_encodings};
