//! Parameters of bench scripts: `$NAME` in a field is the text of the parameter with this name.

ghost use Rattle.std.specs.Prelude.{◌≡◌, ◌==◌, ◌<◌, ◌≤◌, ◌∷◌, ◌++◌, IfOk, IfSome, OnOk, false, find, length, option_map, position, slice_index, take, true};
ghost use Rattle.std.specs.List.{All, list_any, slice_split};
ghost use Rattle.std.specs.Option.{option_map_or};
ghost use Rattle.std.specs.Str.{bytes_eq};
ghost use Rattle.lin_log.specs.Judged.{left_length};
ghost use Rattle.lin_log.specs.Said.{is_comment};
ghost use Rattle.lin_bench.specs.Fields.{all_fields, line_fields};
ghost use Rattle.lin_bench.specs.Parts.{fields_of};
ghost use Rattle.lin_bench.specs.Read.{Gives};
ghost use Rattle.lin_bench.specs.Resolved.{first_name, has_name, has_parameters, is_first_name};
ghost use Rattle.lin_bench.specs.Resolved.{names_parameter, parameter_said};
ghost use Rattle.lin_bench.specs.Resolved.{replaced_field, replaced_line, replaced_piece, replaced_text};
ghost use Rattle.lin_bench.specs.Resolved.{text_among, text_given, text_of, with_parameter};
ghost use Rattle.lin_bench.specs.Replacing.{AddsText, pieces_left};
ghost use Rattle.lin_bench.specs.RuleLines.{is_name_sign};

use crate::fault::LineFault;
use crate::fields::{Fields, untabbed};
use crate::reason::Reason;
use crate::rule_lines::{is_name, is_name_sign};
use crate::said_values::joined;
use lin_log::{NumberNaming, first_field, is_number};
use lin_parts::Cluster;
use lin_text::{Many, Text};
use std::alloc::{AllocError, Global};

/// How many bytes a line may have in which parameters were replaced.
const LONGEST_LINE: usize = 65_536;

/// A parameter that a line sets: its name, and the text that replaces the name.
#[derive(Drop)]
pub struct Parameter {
    pub name: Text,
    pub text: Text,
}

/// A parameter that is given with a script: its name, and its text, which no line changes.
#[derive(Clone, Copy)]
pub struct GivenParameter<'a> {
    pub name: &'a [u8],
    pub text: &'a [u8],
}

/// How many letters, digits and `_` a text begins with.
fn name_length(text: &[u8]) -> usize
    ensures within { result ≤ length text.now }
    ensures clean { All (λ x. is_name_sign x ≡ true) (take result text.now) }
    ensures ends { result < length text.now → is_name_sign (slice_index text.now result) ≡ false }
{
    let mut n = 0;
    while n < text.len() && is_name_sign(text[n]) {
        n += 1;
    }
    n
}

/// The name with which a text begins; empty if it begins with none.
fn first_name(text: &[u8]) -> &[u8]
    ensures { result.now ≡ first_name text.now }
{
    if is_number(text) {
        return b"";
    }
    &text[..name_length(text)]
}

/// How many bytes there are before the first `$`.
fn piece_length(text: &[u8]) -> usize
    ensures within { result ≤ length text.now }
    ensures clean { All (λ x. (x == 36) ≡ false) (take result text.now) }
    ensures ends { result < length text.now → slice_index text.now result ≡ 36 }
{
    let mut n = 0;
    while n < text.len() && text[n] != b'$' {
        n += 1;
    }
    n
}

/// The text before the first `$`, and the text after it, if there is one.
fn first_piece(text: &[u8]) -> (&[u8], Option<&[u8]>)
    ensures pieces { slice_split (λ b. b == 36) text.now ≡ result.0.now ∷ pieces_left result.1 }
    ensures shorter { left_length result.1 ≤ length text.now }
{
    let end = piece_length(text);
    if end == text.len() {
        return (text, None);
    }
    (&text[..end], Some(&text[end + 1..]))
}

/// Whether a field contains a parameter.
fn names_parameter(field: &[u8]) -> bool
    ensures { result ≡ names_parameter field.now }
{
    let (_, rest) = first_piece(field);
    let mut left = rest;
    while let Some(text) = left {
        let (piece, rest) = first_piece(text);
        if !first_name(piece).is_empty() {
            return true;
        }
        left = rest;
    }
    false
}

/// Whether a field contains the parameter with a name.
pub(crate) fn has_name(field: &[u8], name: &[u8]) -> bool
    ensures { result ≡ has_name name.now field.now }
{
    let (_, rest) = first_piece(field);
    let mut left = rest;
    while let Some(text) = left {
        let (piece, rest) = first_piece(text);
        if is_first_name(piece, name) {
            return true;
        }
        left = rest;
    }
    false
}

/// Whether a text begins with a name, which is this one.
fn is_first_name(text: &[u8], name: &[u8]) -> bool
    ensures { result ≡ is_first_name name.now text.now }
{
    let first = first_name(text);
    !first.is_empty() && first == name
}

/// The text of the parameter with a name among some.
fn text_among<'a>(parameters: &'a [Parameter], name: &[u8]) -> Option<&'a [u8]>
    ensures { option_map (λ text. text.now) result ≡ text_among parameters.now name.now }
{
    for one in parameters {
        if one.name.as_slice() == name {
            return Some(one.text.as_slice());
        }
    }
    None
}

/// The text of the first one with a name among the parameters that are given.
fn text_given<'a>(given: &[GivenParameter<'a>], name: &[u8]) -> Option<&'a [u8]>
    ensures { option_map (λ text. text.now) result ≡ text_given given.now name.now }
{
    for one in given {
        if one.name == name {
            return Some(one.text);
        }
    }
    None
}

/// The parameters of a script: those that are given, and those that its lines set.
#[derive(Clone, Copy)]
pub(crate) struct Parameters<'a> {
    pub(crate) given: &'a [GivenParameter<'a>],
    pub(crate) sets: &'a [Parameter],
}

impl Parameters<'_> {
    /// The text of the parameter with a name. Those that are given go first.
    fn text_of(&self, name: &[u8]) -> Option<&[u8]>
        ensures { option_map (λ text. text.now) result ≡ text_of self.now.given.now self.now.sets.now name.now }
    {
        match text_given(self.given, name) {
            Some(text) => Some(text),
            None => text_among(self.sets, name),
        }
    }

    /// Adds a piece of a field after `$` to a line, with the text of its parameter.
    ///
    /// # Errors
    /// `Bad` if there is no such parameter; `OutOfMemory`.
    fn add_piece(&self, alloc: Global, line: &mut Vec<u8>, piece: &[u8]) -> Result<(), LineFault>
        requires { length line.old.items ≤ 65537 }
        ensures { AddsText result (replaced_piece self.now.given.now self.now.sets.now piece.now)
            line.old.items line.new.items }
    {
        let name = first_name(piece);
        if name.is_empty() {
            add_text(line, b"$")?;
            add_text(line, piece)?;
            return Ok(());
        }
        let Some(text) = self.text_of(name) else {
            return Err(LineFault::Bad(Reason::NoParameter(Text::copied(alloc, name)?)));
        };
        add_text(line, text)?;
        add_text(line, &piece[name.len()..])?;
        Ok(())
    }

    /// Adds a field to a line, with texts in place of its parameters.
    ///
    /// # Errors
    /// As of `add_piece`.
    fn add_field(&self, alloc: Global, line: &mut Vec<u8>, field: &[u8]) -> Result<(), LineFault>
        requires { length line.old.items ≤ 65537 }
        ensures { AddsText result (replaced_field self.now.given.now self.now.sets.now field.now)
            line.old.items line.new.items }
    {
        let (first, rest) = first_piece(field);
        add_text(line, first)?;
        let mut left = rest;
        while let Some(text) = left {
            let (piece, rest) = first_piece(text);
            self.add_piece(alloc, line, piece)?;
            left = rest;
        }
        Ok(())
    }

    /// The text of a line with these fields, with texts in place of their parameters, and one space between
    /// two fields.
    ///
    /// # Errors
    /// `Bad` with `NoParameter`, `LongLine`, or `HashField` if a text has a field that would begin a
    /// comment; `OutOfMemory`.
    pub(crate) fn replaced(&self, alloc: Global, fields: Fields<'_>) -> Result<Vec<u8>, LineFault>
        ensures { Gives (λ v. v.items) result
            (replaced_text self.now.given.now self.now.sets.now (fields_of fields.entry)) }
    {
        let mut line = Vec::new(alloc);
        let mut gap: &[u8] = b"";
        let mut left = fields;
        while let Some((field, rest)) = left.first() {
            add_text(&mut line, gap)?;
            self.add_field(alloc, &mut line, field)?;
            gap = b" ";
            left = rest;
        }
        if line.len() > LONGEST_LINE {
            return Err(LineFault::Bad(Reason::LongLine));
        }
        match hash_field(alloc, line.as_slice())? {
            None => Ok(line),
            Some(field) => Err(LineFault::Bad(Reason::HashField(field))),
        }
    }
}

/// Adds a text to a line, as far as it isn't longer then than one byte more than it may have. An error
/// means out of memory.
fn add_text(line: &mut Vec<u8>, text: &[u8]) -> Result<(), AllocError>
    requires { length line.old.items ≤ 65537 }
    ensures { OnOk result (line.new.items ≡ take 65537 (line.old.items ++ text.now)) }
{
    let room = LONGEST_LINE + 1 - line.len();
    line.extend_from_slice(&text[..text.len().min(room)])
}

/// The first field of a line that begins with `#`. An error means out of memory.
fn hash_field(alloc: Global, line: &[u8]) -> Result<Option<Text>, AllocError>
    ensures { IfOk result (λ field. field ≡ find (is_comment true) (all_fields line.now)) }
{
    let text = untabbed(alloc, line)?;
    let mut left = text.as_slice();
    while let Some((field, rest)) = first_field(&NumberNaming, left) {
        if let [b'#', ..] = field {
            return Ok(Some(Text::copied(alloc, field)?));
        }
        left = rest;
    }
    Ok(None)
}

/// The index of the parameter with a name, if there is one.
fn parameter_place(parameters: &[Parameter], name: &[u8]) -> Option<usize>
    ensures place { result ≡ position (λ (p : Parameter). bytes_eq p.name name.now) parameters.now }
    ensures there { IfSome result (λ place. place < length parameters.now) }
{
    parameters
        .iter()
        .position(|one| one.name.as_slice() == name)
}

/// Adds a parameter that a line sets to those that lines set: it replaces the one with its name. An error
/// means out of memory.
pub fn set_parameter(sets: &mut Many<Parameter>, parameter: Parameter) -> Result<(), AllocError>
    ensures { OnOk result (sets.new ≡ with_parameter sets.old parameter.name parameter.text) }
{
    match parameter_place(sets.as_slice(), parameter.name.as_slice()) {
        Some(place) => {
            sets.set(place, parameter);
            Ok(())
        }
        None => sets.push(parameter),
    }
}

/// The parameter that a line sets, by the fields after `set`.
pub(crate) fn parameter_said(alloc: Global, fields: Fields<'_>) -> Result<Parameter, LineFault>
    ensures { Gives (λ p. p) result (parameter_said (fields_of fields.entry)) }
{
    let Some((name, text)) = fields.first() else {
        return Err(LineFault::Bad(Reason::SetForm));
    };
    if text.is_empty() {
        return Err(LineFault::Bad(Reason::SetForm));
    }
    if !is_name(name) {
        return Err(LineFault::Bad(Reason::NoName(Text::copied(alloc, name)?)));
    }
    let text = joined(alloc, text)?;
    Ok(Parameter {
        name: Text::copied(alloc, name)?,
        text: Text::copied(alloc, text.as_slice())?,
    })
}

/// Returns the parameter that a line of an interactive session sets. `line` is what follows `set`.
///
/// # Errors
/// - `Bad` with `SetForm` or `NoName`;
/// - `OutOfMemory`.
pub fn parameter_of_line(
    alloc: Global,
    cluster: &Cluster,
    line: &[u8],
) -> Result<Parameter, LineFault>
    ensures { Gives (λ p. p) result (parameter_said (line_fields line.now)) }
{
    parameter_said(alloc, Fields::of(cluster, line))
}

/// Whether a parameter is in one of these fields.
pub(crate) fn name_a_parameter(fields: Fields<'_>) -> bool
    ensures { result ≡ list_any names_parameter (fields_of fields.entry) }
{
    let mut left = fields;
    while let Some((field, rest)) = left.first() {
        if names_parameter(field) {
            return true;
        }
        left = rest;
    }
    false
}

/// Whether a line has a `$`.
fn has_dollar(line: &[u8]) -> bool
    ensures { result ≡ list_any (λ b. b == 36) line.now }
{
    line.iter().any(|b| *b == b'$')
}

/// Whether parameters are replaced in a line of an interactive session.
fn has_parameters(cluster: &Cluster, line: &[u8]) -> bool
    ensures { result ≡ has_parameters line.now }
{
    if !has_dollar(line) {
        return false;
    }
    !matches!(line, [b'>', ..]) && name_a_parameter(Fields::of(cluster, line))
}

/// Returns a line of an interactive session with texts in place of its parameters; `None` if it has none.
/// `sets` are the parameters that earlier lines set.
///
/// # Errors
/// - `Bad` with `NoParameter`, `LongLine` or `HashField`;
/// - `OutOfMemory`.
pub fn replaced_line(
    alloc: Global,
    cluster: &Cluster,
    sets: &[Parameter],
    line: &[u8],
) -> Result<Option<Vec<u8>>, LineFault>
    ensures { Gives (λ text. option_map_or (λ v. v.items) text line.now) result (replaced_line sets.now line.now) }
{
    if !has_parameters(cluster, line) {
        return Ok(None);
    }
    let parameters = Parameters { given: &[], sets };
    Ok(Some(parameters.replaced(alloc, Fields::of(cluster, line))?))
}
