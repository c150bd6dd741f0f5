//! The declarations of an LDF in an object, kind by kind.

ghost use Rattle.std.specs.Prelude.{◌≡◌, ◌<◌, ◌≤◌};
ghost use Rattle.lin_text.specs.Written.{Grows};
ghost use Rattle.lin_export.specs.CheckObject.{declaration_count, declaration_object, declarations_key};
ghost use Rattle.lin_export.specs.CheckObject.{declarations_member};
ghost use Rattle.lin_export.specs.Csv.{after_comma};
ghost use Rattle.lin_export.specs.Found.{found_data};

use super::Found;
use super::frame_objects::{put_event, put_frame, put_sporadic};
use super::node_objects::put_node;
use super::signal_objects::put_signal;
use super::table_objects::put_table;
use crate::json::{put_list, put_separator};
use lin_parts::Cluster;
use lin_text::TextWriter;
use std::io::Write;

/// A kind of declarations.
#[derive(Clone, Copy)]
pub(crate) enum Declarations {
    Nodes,
    Signals,
    Frames,
    Sporadics,
    Events,
    Tables,
}

impl Declarations {
    /// The key of their list.
    fn key(self) -> &'static str
        ensures { result.now ≡ declarations_key self }
    {
        match self {
            Declarations::Nodes => "nodes",
            Declarations::Signals => "signals",
            Declarations::Frames => "frames",
            Declarations::Sporadics => "sporadic",
            Declarations::Events => "event",
            Declarations::Tables => "tables",
        }
    }

    /// How many of them a cluster has.
    fn count(self, cluster: &Cluster) -> usize
        ensures number { result ≡ declaration_count cluster.now self }
        ensures few { result ≤ 1024 }
    {
        cluster.sound();
        match self {
            Declarations::Nodes => cluster.nodes(),
            Declarations::Signals => cluster.signals(),
            Declarations::Frames => cluster.frames(),
            Declarations::Sporadics => cluster.sporadics(),
            Declarations::Events => cluster.events(),
            Declarations::Tables => cluster.tables(),
        }
    }
}

/// A declaration by its number among those of its kind.
fn put_declaration<W: Write>(
    out: &mut TextWriter<'_, W>,
    found: &Found<'_>,
    kind: Declarations,
    number: u16,
)
    requires { number < declaration_count (found_data found.now).cluster kind }
    ensures { Grows W.contents out.old out.new
        (declaration_object (found_data found.now) kind number) }
{
    let cluster = found.cluster;
    let description = found.description;
    match kind {
        Declarations::Nodes => {
            cluster.nodes();
            put_node(out, cluster, description, number as u8);
        }
        Declarations::Signals => put_signal(out, cluster, description, found.coded, number),
        Declarations::Frames => put_frame(out, cluster, description, number),
        Declarations::Sporadics => put_sporadic(out, cluster, description, number),
        Declarations::Events => put_event(out, cluster, description, number),
        Declarations::Tables => put_table(out, cluster, description, number),
    }
}

/// All declarations of a kind.
pub(super) fn put_declarations<W: Write>(
    out: &mut TextWriter<'_, W>,
    found: &Found<'_>,
    kind: Declarations,
)
    ensures { Grows W.contents out.old out.new
        (after_comma (declarations_member (found_data found.now) kind)) }
{
    put_list(out, kind.key());
    for number in 0..kind.count(found.cluster) {
        put_separator(out, number);
        put_declaration(out, found, kind, number as u16);
    }
    out.put_byte(b']');
}
