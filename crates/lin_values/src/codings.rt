//! What the two sections of encodings say (LIN 2.2A, section 9.2.6).

use crate::decimal_limits::Coefficient;
use lin_parts::Location;
use lin_parts::description::Name;
use lin_text::{Many, OneOrMore, Text};

/// What raw values mean. A text or a unit that is absent is empty.
#[derive(Debug, Drop)]
pub enum Item {
    /// A value has a text.
    Logical {
        value: u64,
        text: Text,
    },
    /// The values from one to another are `raw * scale + offset` of a unit.
    Physical {
        min: u64,
        max: u64,
        scale: Coefficient,
        offset: Coefficient,
        unit: Text,
    },
    /// Each four bits are a digit.
    Bcd,
    /// Each byte is a character.
    Ascii,
}

/// An item, and where it begins.
#[derive(Debug, Drop)]
pub struct PlacedItem {
    pub item: Item,
    pub place: Location,
}

/// A type of encoding.
#[derive(Debug, Drop)]
pub struct CodingType {
    pub name: Name,
    pub items: Many<PlacedItem>,
}

/// A line of signals that have an encoding.
#[derive(Debug, Drop)]
pub struct CodedLine {
    pub encoding: Name,
    pub signals: OneOrMore<Name>,
}

/// What the two sections say, in the order of the text, and where items and lines stand that are in
/// no form. `wide` are the names of the wide signals: arrays whose values are numbers.
#[derive(Debug, Drop)]
pub struct Codings {
    pub types: Many<CodingType>,
    pub lines: Many<CodedLine>,
    pub bad: Many<Location>,
    pub wide: Many<Name>,
}
