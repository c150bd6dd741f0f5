//! `--explain` of findings and faults with two parties: who the other one is, and where.

use crate::explaining::put_shown;
use crate::misspelled::{Scan, first_word};
use crate::wanted::before;
use lin_ldf::{Description, Frame, Location, Name, Number, PlacedSignal, TokenKind};
use std::alloc::{AllocError, Global};

/// The number of the finding of an identifier that an earlier frame has.
const ID_TWICE: u8 = 4;

/// That of a signal beyond the end of its frame.
const SIGNAL_OUTSIDE: u8 = 6;

/// That of a signal on a bit of an earlier one.
const SIGNALS_OVERLAP: u8 = 7;

/// That of an address that an earlier responder has.
const NAD_TWICE: u8 = 12;

/// That of a member that an event-triggered frame can't have.
const BAD_EVENT_FRAME: u8 = 13;

/// Something that is declared with a number.
#[derive(Clone, Copy)]
struct Party<'a> {
    name: &'a Name,
    number: &'a Number,
}

fn is_number_at(number: &Number, place: Location) -> bool {
    number.line == place.line && number.column == place.column
}

fn is_name_at(name: &Name, place: Location) -> bool {
    name.line == place.line && name.column == place.column
}

/// The first of some parties that has the same number as the one whose number is at a place.
fn first_alike<'a>(parties: &[Party<'a>], place: Location) -> Option<Party<'a>> {
    let own = parties
        .iter()
        .find(|party| is_number_at(party.number, place))?;
    let first = parties
        .iter()
        .find(|party| party.number.value == own.number.value)?;
    if is_number_at(first.number, place) {
        None
    } else {
        Some(*first)
    }
}

fn identifiers<'a>(
    alloc: Global,
    description: &'a Description,
) -> Result<Vec<Party<'a>>, AllocError> {
    let mut parties = Vec::new(alloc);
    for frame in description.frames() {
        parties.push(Party {
            name: &frame.name,
            number: &frame.id,
        })?;
    }
    for frame in description.events() {
        parties.push(Party {
            name: &frame.name,
            number: &frame.id,
        })?;
    }
    Ok(parties)
}

fn addresses<'a>(
    alloc: Global,
    description: &'a Description,
) -> Result<Vec<Party<'a>>, AllocError> {
    let mut parties = Vec::new(alloc);
    for block in description.attributes() {
        if let Some(number) = &block.configured_nad {
            parties.push(Party {
                name: &block.node,
                number,
            })?;
        }
    }
    Ok(parties)
}

/// How many bits a signal has; 0 for one that isn't declared.
fn bits_of(description: &Description, name: &Name) -> u64 {
    let signals = description.signals();
    let found = signals.iter().find(|signal| signal.name.text.as_slice() == name.text.as_slice());
    found.map_or(0, |signal| u64::from(signal.size.value))
}

/// Whether two signals of a frame have a bit in common, or are the same one.
fn do_overlap(description: &Description, a: &PlacedSignal, b: &PlacedSignal) -> bool {
    let (a_first, b_first) = (u64::from(a.offset.value), u64::from(b.offset.value));
    let a_end = a_first.saturating_add(bits_of(description, &a.signal));
    let b_end = b_first.saturating_add(bits_of(description, &b.signal));
    a.signal.text.as_slice() == b.signal.text.as_slice() || (a_first < b_end && b_first < a_end)
}

/// The first signal of a frame that overlaps the one that is placed in it at a place.
fn first_overlapped<'a>(
    description: &Description,
    frame: &'a Frame,
    place: Location,
) -> Option<&'a Name> {
    let placed = frame.placed.as_slice();
    let own = placed.iter().find(|own| {
        is_name_at(&own.signal, place) || is_number_at(&own.offset, place)
    })?;
    let first = placed
        .iter()
        .find(|other| do_overlap(description, *other, own))?;
    if is_name_at(&first.signal, place) || is_number_at(&first.offset, place) {
        None
    } else {
        Some(&first.signal)
    }
}

fn put_name(out: &mut String, what: &str, name: &Name) -> Result<(), AllocError> {
    write!(out, "  {what} ")?;
    put_shown(out, name.text.as_slice())?;
    let Name {
        text: _,
        line,
        column,
    } = name;
    writeln!(out, " at {line}:{column}")
}

/// Puts the other party of a finding at a place, where it has one.
pub(crate) fn put_party(
    alloc: Global,
    out: &mut String,
    description: &Description,
    number: u8,
    place: Location,
) -> Result<(), AllocError> {
    match number {
        ID_TWICE => {
            let parties = identifiers(alloc, description)?;
            match first_alike(parties.as_slice(), place) {
                Some(party) => put_name(out, "the frame with this identifier:", party.name),
                None => Ok(()),
            }
        }
        NAD_TWICE => {
            let parties = addresses(alloc, description)?;
            match first_alike(parties.as_slice(), place) {
                Some(party) => put_name(out, "the node with this NAD:", party.name),
                None => Ok(()),
            }
        }
        SIGNALS_OVERLAP => {
            for frame in description.frames() {
                if let Some(name) = first_overlapped(description, frame, place) {
                    return put_name(out, "the signal that it overlaps:", name);
                }
            }
            Ok(())
        }
        SIGNAL_OUTSIDE => put_given_size(out, description, place),
        BAD_EVENT_FRAME => put_bad_member(out, description, place),
        _ => Ok(()),
    }
}

/// Whether a frame has a signal that is placed in it at a place.
fn has_placed_at(frame: &Frame, place: Location) -> bool {
    let mut placed = frame.placed.as_slice().iter();
    placed.any(|own| is_name_at(&own.signal, place) || is_number_at(&own.offset, place))
}

/// Puts that the size of the frame in which a signal is placed at a place is that of its identifier, where
/// the text has none (its place is that of the identifier then).
fn put_given_size(
    out: &mut String,
    description: &Description,
    place: Location,
) -> Result<(), AllocError> {
    for frame in description.frames() {
        let (id, size) = (&frame.id, &frame.size);
        let is_given = id.line == size.line && id.column == size.column;
        if is_given && has_placed_at(frame, place) {
            let bytes = size.value;
            return writeln!(
                out,
                "  the frame has the size of its identifier: {bytes} bytes"
            );
        }
    }
    Ok(())
}

/// The frame of this name.
fn frame_named<'a>(description: &'a Description, name: &Name) -> Option<&'a Frame> {
    let frames = description.frames();
    frames
        .iter()
        .find(|frame| frame.name.text.as_slice() == name.text.as_slice())
}

/// The first of some members before a place whose frame this node sends, too.
fn first_by<'a>(
    description: &Description,
    members: &'a [Name],
    place: Location,
    publisher: &Name,
) -> Option<&'a Name> {
    for member in members {
        if is_name_at(member, place) {
            return None;
        }
        if let Some(frame) = frame_named(description, member)
            && frame.publisher.text.as_slice() == publisher.text.as_slice()
        {
            return Some(member);
        }
    }
    None
}

/// Puts which conditions of a member of an event-triggered frame one of its frames doesn't keep.
fn put_conditions(
    out: &mut String,
    description: &Description,
    members: &[Name],
    member: &Name,
) -> Result<(), AllocError> {
    let Some(frame) = frame_named(description, member) else {
        return out.push_str("  it isn't an unconditional frame\n");
    };
    let place = Location {
        line: member.line,
        column: member.column,
    };
    if frame.publisher.text.as_slice() == description.master().text.as_slice() {
        out.push_str("  the commander publishes it\n")?;
    }
    if let Some(other) = first_by(description, members, place, &frame.publisher) {
        put_name(out, "it has the publisher of the member", other)?;
    }
    if let Some(first) = members.first()
        && let Some(first) = frame_named(description, first)
        && first.size.value != frame.size.value
    {
        let (own, other) = (frame.size.value, first.size.value);
        writeln!(
            out,
            "  its size is {own}, that of the first member is {other}"
        )?;
    }
    let mut placed = frame.placed.as_slice().iter();
    match placed.find(|placed| placed.offset.value < 8) {
        Some(placed) => put_name(out, "a signal is in its first byte:", &placed.signal),
        None => Ok(()),
    }
}

/// Puts why an event-triggered frame can't have the member at a place.
fn put_bad_member(
    out: &mut String,
    description: &Description,
    place: Location,
) -> Result<(), AllocError> {
    for event in description.events() {
        let members = event.members.as_slice();
        for member in members {
            if is_name_at(member, place) {
                return put_conditions(out, description, members, member);
            }
        }
    }
    Ok(())
}

/// Whether a name that is declared in one section is one of those in another.
fn are_together(section: &[u8], other: &[u8]) -> bool {
    section == other || (section.ends_with(b"rames") && other.ends_with(b"rames"))
}

/// A declaration: where it is, its section, and what follows it.
#[derive(Clone, Copy)]
struct Declaration<'a> {
    place: Location,
    section: &'a [u8],
    depth: u64,
    next: Option<TokenKind>,
}

/// Puts where a name is declared that is declared again at a place.
pub(crate) fn put_declared(
    alloc: Global,
    out: &mut String,
    text: &[u8],
    place: Location,
) -> Result<(), AllocError> {
    let name = first_word(text.get(before(text, place).len()..).unwrap_or(&[]));
    let mut scan = Scan::new(alloc, text);
    let mut found: Option<Declaration<'_>> = None;
    for _ in 0..scan.parser.left() {
        let Some(kind) = scan.parser.front_kind() else {
            break;
        };
        let (word, at) = (scan.parser.text(), scan.parser.place());
        let (section, depth) = (scan.section, scan.depth);
        scan.parser.skip();
        scan.pass(kind, word);
        if kind != TokenKind::Word || word != name {
            continue;
        }
        let this = Declaration {
            place: at,
            section,
            depth,
            next: scan.parser.front_kind(),
        };
        if (at.line, at.column) >= (place.line, place.column) {
            return put_first(out, found, this);
        }
        found = Some(this);
    }
    Ok(())
}

/// Puts where the earlier of two declarations is, where both are of one kind.
fn put_first(
    out: &mut String,
    earlier: Option<Declaration<'_>>,
    later: Declaration<'_>,
) -> Result<(), AllocError> {
    match earlier {
        Some(first)
            if first.depth == later.depth
                && are_together(first.section, later.section)
                && (first.next == later.next || first.section == b"Nodes".as_slice()) => {
            let Location { line, column } = first.place;
            writeln!(out, "  first declared at {line}:{column}")
        }
        _ => Ok(()),
    }
}
