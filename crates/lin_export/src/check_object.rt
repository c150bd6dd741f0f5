//! What `check` finds in an LDF, as one object of JSON (RFC 8259).

ghost use Rattle.std.specs.Prelude.{flat_map, option_map};
ghost use Rattle.lin_text.specs.Written.{Grows, WritesText};
ghost use Rattle.lin_export.specs.CheckObject.{cluster_members, empty_members, found_members, header_value};
ghost use Rattle.lin_export.specs.Csv.{after_comma};
ghost use Rattle.lin_export.specs.Found.{found_data, object_found};

use crate::check_object::declaration_lists::{Declarations, put_declarations};
use crate::check_object::encodings::put_encodings;
use crate::check_object::problems::{Problem, put_problems};
use crate::json::{Member, put_key, put_members, put_text_value};
use lin_parts::Cluster;
use lin_parts::description::Description;
use lin_text::{TextBuffer, TextWriter, WriteFailed};
use lin_values::{Coded, CodingType};
use std::io::Write;

mod declaration_lists;
mod encodings;
mod frame_objects;
pub mod node_objects;
mod positions;
pub mod problems;
mod signal_objects;
mod table_objects;

/// What an LDF describes.
#[derive(Drop)]
pub struct Found<'a> {
    pub cluster: &'a Cluster,
    /// The declarations, with their places.
    pub description: &'a Description,
    /// What values of signals mean, if encodings are read.
    pub coded: Option<&'a Coded>,
    /// The version of the protocol in the header, as it is shown; empty for none.
    pub protocol: &'a [u8],
    /// The version of the language in the header, as it is shown; empty for none.
    pub language: &'a [u8],
}

/// The header of an LDF.
fn put_header<W: Write>(out: &mut TextWriter<'_, W>, found: &Found<'_>)
    ensures { Grows W.contents out.old out.new (header_value (found_data found.now)) }
{
    out.put(b"{\"protocol\":");
    put_text_value(out, found.protocol);
    put_members(
        out,
        &[
            Member::Shown("language", found.language),
            Member::Number("speed", u64::from(found.cluster.speed())),
            Member::Number("time_base_us", u64::from(found.cluster.base_us())),
            Member::Number("jitter_us", u64::from(found.cluster.jitter_us())),
        ],
    );
    out.put_byte(b'}');
}

/// What an LDF describes.
fn put_found<W: Write>(out: &mut TextWriter<'_, W>, found: &Found<'_>)
    ensures { Grows W.contents out.old out.new
        (flat_map after_comma (cluster_members (found_data found.now))) }
{
    put_key(out, "header");
    put_header(out, found);
    put_declarations(out, found, Declarations::Nodes);
    put_declarations(out, found, Declarations::Signals);
    put_declarations(out, found, Declarations::Frames);
    put_declarations(out, found, Declarations::Sporadics);
    put_declarations(out, found, Declarations::Events);
    put_declarations(out, found, Declarations::Tables);
}

/// The members of an LDF that describes no cluster.
fn put_nothing<W: Write>(out: &mut TextWriter<'_, W>)
    ensures { Grows W.contents out.old out.new (flat_map after_comma empty_members) }
{
    out.put(
        b",\"header\":null,\"nodes\":[],\"signals\":[],\"frames\":[],\"sporadic\":[],\"event\":[],\"tables\":[]",
    );
}

/// What an LDF describes, if it describes a cluster.
fn put_if_found<W: Write>(out: &mut TextWriter<'_, W>, found: Option<&Found<'_>>)
    ensures { Grows W.contents out.old out.new (flat_map after_comma
        (found_members (option_map (λ f. found_data f.now) found.entry))) }
{
    match found {
        Some(found) => put_found(out, found),
        None => put_nothing(out),
    }
}

fn put_object<W: Write>(
    out: &mut TextWriter<'_, W>,
    file: &str,
    status: u8,
    found: Option<&Found<'_>>,
    encodings: Option<&[CodingType]>,
    problems: &[Problem],
)
    ensures { Grows W.contents out.old out.new
        (object_found file.now status found.entry encodings.entry problems.now) }
{
    out.put(b"{\"version\":");
    out.put_number(1_u64);
    put_members(
        out,
        &[
            Member::Escaped("file", file.as_bytes()),
            Member::Number("status", u64::from(status)),
        ],
    );
    put_if_found(out, found);
    put_encodings(out, encodings);
    put_problems(out, problems);
    out.put_byte(b'}');
    out.put_byte(b'\n');
}

/// Writes what `check` finds in an LDF, as one object of JSON and LF: the name of its file as it was
/// given, the exit status, the cluster that it describes, the encodings if they are read, and the
/// problems that are reported, in the order of their lines.
///
/// It goes through a buffer of fixed size, and takes no memory. The writer isn't flushed.
///
/// # Errors
/// `WriteFailed` at the first error of the writer, an interrupted write too, and at the first write
/// of 0 bytes. What was written then is the beginning of the object.
pub fn write_object<W: Write>(
    file: &str,
    status: u8,
    found: Option<&Found<'_>>,
    encodings: Option<&[CodingType]>,
    problems: &[Problem],
    writer: &mut W,
) -> Result<(), WriteFailed>
    ensures { WritesText (W.contents writer.old) (W.contents writer.new) result
        (object_found file.now status found.entry encodings.entry problems.now) }
{
    let mut buffer = TextBuffer::empty();
    let mut out = TextWriter::new(writer, &mut buffer);
    put_object(&mut out, file, status, found, encodings, problems);
    out.finish()
}
