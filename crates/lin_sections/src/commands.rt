//! The commands of node configuration in schedule tables (LIN 2.2A, section 9.2.5), and their
//! arguments in braces.

ghost use Rattle.std.specs.Prelude.{◌≡◌, IfOk, OnOk};
ghost use Rattle.lin_sections.specs.Commands.{arguments, byte_arguments, command_of, frame_arguments};
ghost use Rattle.lin_sections.specs.Commands.{is_end_of_bytes, more_bytes, node_arguments, AreBytes, HasBytes};
ghost use Rattle.lin_sections.specs.Commands.{ReadsMoreBytes};
ghost use Rattle.lin_sections.specs.Stops.{Stops};

use crate::stops::{mark_next, name_next, next_to, number_next};
use lin_ldf::{LdfFault, Parser, TokenKind};
use lin_parts::description::{Name, Number};
use lin_text::Many;

/// A command.
#[derive(Clone, Copy, PartialEq, Eq)]
pub(crate) enum Command {
    AssignNad,
    AssignFrameId,
    AssignFrameIdRange,
    ConditionalChangeNad,
    DataDump,
    SaveConfiguration,
    FreeFormat,
}

/// The arguments of a command: a node and bytes, a node and a frame, or bytes alone.
#[derive(Drop)]
pub(crate) enum Arguments {
    Node { node: Name, bytes: Many<Number> },
    Frame { node: Name, frame: Name },
    Bytes(Many<Number>),
}

/// Returns the command of a word.
pub(crate) fn command_of(word: &[u8]) -> Option<Command>
    ensures { result ≡ command_of word.now }
{
    if word == b"AssignNAD".as_slice() {
        Some(Command::AssignNad)
    } else if word == b"AssignFrameId".as_slice() {
        Some(Command::AssignFrameId)
    } else if word == b"AssignFrameIdRange".as_slice() {
        Some(Command::AssignFrameIdRange)
    } else if word == b"ConditionalChangeNAD".as_slice() {
        Some(Command::ConditionalChangeNad)
    } else if word == b"DataDump".as_slice() {
        Some(Command::DataDump)
    } else if word == b"SaveConfiguration".as_slice() {
        Some(Command::SaveConfiguration)
    } else if word == b"FreeFormat".as_slice() {
        Some(Command::FreeFormat)
    } else {
        None
    }
}

/// Whether bytes may end here, where so many more are needed.
fn is_end_of_bytes(parser: &Parser<'_>, needed: usize) -> bool
    ensures { result ≡ is_end_of_bytes needed parser.now }
{
    needed == 0 && parser.is_at(TokenKind::CloseBrace)
}

/// Reads up to the closing brace: at least so many bytes more, and at most so many, each after a comma.
fn more_bytes(
    parser: &mut Parser<'_>,
    bytes: &mut Vec<Number>,
    least: usize,
    most: usize,
) -> Result<(), LdfFault>
    requires { AreBytes bytes.old.items }
    ensures read { ReadsMoreBytes result bytes.new.items parser.new
        (more_bytes bytes.old.items least most parser.old) }
    ensures bytes { OnOk result (AreBytes bytes.new.items) }
{
    for count in 0..most {
        if is_end_of_bytes(parser, least.saturating_sub(count)) {
            parser.skip();
            return Ok(());
        }
        let byte = next_to(parser, 255)?;
        bytes.push(byte)?;
    }
    mark_next(parser, TokenKind::CloseBrace)
}

/// Reads a node, a comma and a frame, up to the closing brace.
fn frame_arguments(parser: &mut Parser<'_>) -> Result<Arguments, LdfFault>
    ensures read { Stops result parser.new (frame_arguments parser.old) }
    ensures bytes { IfOk result HasBytes }
{
    let node = name_next(parser)?;
    mark_next(parser, TokenKind::Comma)?;
    let frame = name_next(parser)?;
    mark_next(parser, TokenKind::CloseBrace)?;
    Ok(Arguments::Frame { node, frame })
}

/// Reads a node, and then bytes, up to the closing brace.
fn node_arguments(parser: &mut Parser<'_>, least: usize, most: usize) -> Result<Arguments, LdfFault>
    ensures read { Stops result parser.new (node_arguments least most parser.old) }
    ensures bytes { IfOk result HasBytes }
{
    let node = name_next(parser)?;
    let mut bytes = Vec::new(parser.alloc());
    more_bytes(parser, &mut bytes, least, most)?;
    let bytes = Many::new(bytes);
    Ok(Arguments::Node { node, bytes })
}

/// Reads a byte, and then so many more, up to the closing brace.
fn byte_arguments(parser: &mut Parser<'_>, more: usize) -> Result<Arguments, LdfFault>
    ensures read { Stops result parser.new (byte_arguments more parser.old) }
    ensures bytes { IfOk result HasBytes }
{
    let first = number_next(parser, 0, 255)?;
    let mut bytes = Vec::new(parser.alloc());
    bytes.push(first)?;
    more_bytes(parser, &mut bytes, more, more)?;
    Ok(Arguments::Bytes(Many::new(bytes)))
}

/// Reads the arguments of a command, from after the opening brace up to the closing one. If it fails, the
/// parser is at the first token that isn't valid there.
pub(crate) fn read_arguments(
    parser: &mut Parser<'_>,
    command: Command,
) -> Result<Arguments, LdfFault>
    ensures read { Stops result parser.new (arguments command parser.old) }
    ensures bytes { IfOk result HasBytes }
{
    match command {
        Command::AssignNad | Command::SaveConfiguration => node_arguments(parser, 0, 0),
        Command::AssignFrameId => frame_arguments(parser),
        Command::AssignFrameIdRange => node_arguments(parser, 1, 5),
        Command::DataDump => node_arguments(parser, 5, 5),
        Command::ConditionalChangeNad => byte_arguments(parser, 5),
        Command::FreeFormat => byte_arguments(parser, 7),
    }
}
