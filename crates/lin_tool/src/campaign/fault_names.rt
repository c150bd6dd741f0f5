//! Faults as text, with the names of nodes: `17:damage`, `17..19:damage`, `17..:absent:Panel`, with `+`
//! between two of them.

ghost use Rattle.std.specs.Prelude.{[], ◌++◌, codes, flat_map, if◌then◌else◌, map, nat_lt};
ghost use Rattle.std.specs.Fmt.{decimal};
ghost use Rattle.lin_text.specs.Written.{Grows};
ghost use Rattle.lin_parts.specs.Cluster.{node_of};
ghost use Rattle.lin_export.specs.Json.{json_array, quoted_text, with_commas};
ghost use Rattle.lin_tool.specs.campaign.FaultNames.{fault_text, faults_text, slots_text};

use lin_bench::{FaultKind, SlotFault};
use lin_parts::Cluster;
use lin_text::TextWriter;
use std::io::Write;

/// The last one of several slots, after the first one.
fn put_last<W: Write>(out: &mut TextWriter<'_, W>, first: u32, last: u32)
    ensures { Grows W.contents out.old out.new
        (if nat_lt first last then codes ".." ++ decimal last else []) }
{
    if first < last {
        out.put_text("..");
        out.put_number(last);
    }
}

/// The slots of a fault.
fn put_slots<W: Write>(out: &mut TextWriter<'_, W>, fault: &SlotFault)
    ensures { Grows W.contents out.old out.new (slots_text fault.now.first fault.now.last) }
{
    out.put_number(fault.first);
    match fault.last {
        None => out.put_text(".."),
        Some(last) => put_last(out, fault.first, last),
    }
}

/// A fault, with the name of its node.
fn put_fault<W: Write>(out: &mut TextWriter<'_, W>, cluster: &Cluster, fault: &SlotFault)
    ensures { Grows W.contents out.old out.new (fault_text cluster.now fault.now) }
{
    put_slots(out, fault);
    match fault.kind {
        FaultKind::Damage => out.put_text(":damage"),
        FaultKind::Absent(node) => {
            out.put_text(":absent:");
            put_node_name(out, cluster, node);
        }
    }
}

/// The name of a node; nothing if the cluster doesn't have it.
pub(crate) fn put_node_name<W: Write>(out: &mut TextWriter<'_, W>, cluster: &Cluster, node: u8)
    ensures { Grows W.contents out.old out.new (node_of cluster.now node).name }
{
    if usize::from(node) < cluster.nodes() {
        out.put(cluster.node_name(node));
    }
}

/// Faults after the first one.
fn put_more_faults<W: Write>(out: &mut TextWriter<'_, W>, cluster: &Cluster, faults: &[SlotFault])
    ensures { Grows W.contents out.old out.new
        (flat_map (λ f. codes "+" ++ fault_text cluster.now f) faults.now) }
{
    for fault in faults {
        out.put_byte(b'+');
        put_fault(out, cluster, fault);
    }
}

/// Faults, with `+` between them; `-` for none.
pub(crate) fn put_faults<W: Write>(
    out: &mut TextWriter<'_, W>,
    cluster: &Cluster,
    faults: &[SlotFault],
)
    ensures { Grows W.contents out.old out.new (faults_text cluster.now faults.now) }
{
    match faults {
        [] => out.put_byte(b'-'),
        [first, rest @ ..] => {
            put_fault(out, cluster, first);
            put_more_faults(out, cluster, rest);
        }
    }
}

/// A fault as a text of JSON (RFC 8259).
fn put_quoted_fault<W: Write>(out: &mut TextWriter<'_, W>, cluster: &Cluster, fault: &SlotFault)
    ensures { Grows W.contents out.old out.new (quoted_text (fault_text cluster.now fault.now)) }
{
    out.put_byte(b'"');
    put_fault(out, cluster, fault);
    out.put_byte(b'"');
}

/// Faults as texts of JSON with commas between them.
fn put_quoted_faults<W: Write>(out: &mut TextWriter<'_, W>, cluster: &Cluster, faults: &[SlotFault])
    ensures { Grows W.contents out.old out.new
        (with_commas (map (λ f. quoted_text (fault_text cluster.now f)) faults.now)) }
{
    let mut mark: &[u8] = b"";
    for fault in faults {
        out.put(mark);
        put_quoted_fault(out, cluster, fault);
        mark = b",";
    }
}

/// Faults as an array of texts (JSON, RFC 8259).
pub(crate) fn put_fault_array<W: Write>(
    out: &mut TextWriter<'_, W>,
    cluster: &Cluster,
    faults: &[SlotFault],
)
    ensures { Grows W.contents out.old out.new
        (json_array (map (λ f. quoted_text (fault_text cluster.now f)) faults.now)) }
{
    out.put_byte(b'[');
    put_quoted_faults(out, cluster, faults);
    out.put_byte(b']');
}
