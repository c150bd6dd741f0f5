//! The variables of a dump of changes: their declarations, and their first values (IEEE 1364-2005,
//! section 18).

ghost use Rattle.std.specs.Prelude.{◌<◌, length, flat_map};
ghost use Rattle.lin_frame.specs.Words.{numbers};
ghost use Rattle.lin_parts.specs.Cluster.{nodes};
ghost use Rattle.lin_text.specs.Written.{Grows};
ghost use Rattle.lin_export.specs.Vcd.{bus_variables, declarations, declaration, first_heard};
ghost use Rattle.lin_export.specs.Vcd.{first_values, first_waiting, first_written, vcd_head};
ghost use Rattle.lin_export.specs.Vcd.{heard_variable, wire_opening, unknown_change, waiting_variable};
ghost use Rattle.lin_export.specs.Vcd.{first_decimals, physical_scope, physical_variable};
ghost use Rattle.lin_export.specs.Vcd.{written_variable};
ghost use Rattle.lin_export.specs.WhereTold.{given_coding, where_told};

use crate::changes::{
    heard_number, physical_number, put_code, put_heard, put_number, put_physical, put_unknown,
    put_waiting, put_written, signal_size, waiting_number, written_number,
};
use crate::slot_names::node_name;
use lin_parts::Cluster;
use lin_text::TextWriter;
use lin_values::Coded;
use std::io::Write;

/// Begins the declaration of a variable, up to its name.
fn put_opening<W: Write>(out: &mut TextWriter<'_, W>, width: u8, variable: u16)
    requires { variable < 4096 }
    ensures { Grows W.contents out.old out.new (wire_opening width variable) }
{
    out.put(b"$var wire ");
    out.put_number(width);
    out.put_byte(b' ');
    put_code(out, variable);
    out.put_byte(b' ');
}

/// Declares a variable.
fn put_declared<W: Write>(out: &mut TextWriter<'_, W>, width: u8, variable: u16, name: &[u8])
    requires { variable < 4096 }
    ensures { Grows W.contents out.old out.new (declaration width variable name.now) }
{
    put_opening(out, width, variable);
    out.put(name);
    out.put(b" $end\n");
}

fn put_bus_variables<W: Write>(out: &mut TextWriter<'_, W>)
    ensures { Grows W.contents out.old out.new bus_variables }
{
    put_declared(out, 32, 0, b"slot");
    put_declared(out, 16, 1, b"table");
    put_declared(out, 16, 2, b"entry");
    put_declared(out, 8, 3, b"header");
    put_declared(out, 4, 4, b"seen");
    put_declared(out, 1, 5, b"asleep");
}

fn put_heard_variable<W: Write>(out: &mut TextWriter<'_, W>, cluster: &Cluster, signal: u16)
    requires { signal < length cluster.now.signals }
    ensures { Grows W.contents out.old out.new (heard_variable cluster.now signal) }
{
    cluster.signals();
    let size = signal_size(cluster, signal);
    put_declared(out, size, heard_number(signal), cluster.signal_name(signal));
}

fn put_heard_variables<W: Write>(out: &mut TextWriter<'_, W>, cluster: &Cluster)
    ensures { Grows W.contents out.old out.new
        (flat_map (heard_variable cluster.now) (numbers (length cluster.now.signals))) }
{
    for signal in 0..cluster.signals() as u16 {
        put_heard_variable(out, cluster, signal);
    }
}

/// Declares a signal as it is written, with its publisher after its name.
fn put_written_variable<W: Write>(out: &mut TextWriter<'_, W>, cluster: &Cluster, signal: u16)
    requires { signal < length cluster.now.signals }
    ensures { Grows W.contents out.old out.new (written_variable cluster.now signal) }
{
    cluster.signals();
    let size = signal_size(cluster, signal);
    put_opening(out, size, written_number(cluster, signal));
    out.put(cluster.signal_name(signal));
    out.put_byte(b'@');
    out.put(node_name(cluster, cluster.publisher(signal)));
    out.put(b" $end\n");
}

fn put_written_variables<W: Write>(out: &mut TextWriter<'_, W>, cluster: &Cluster)
    ensures { Grows W.contents out.old out.new
        (flat_map (written_variable cluster.now) (numbers (length cluster.now.signals))) }
{
    for signal in 0..cluster.signals() as u16 {
        put_written_variable(out, cluster, signal);
    }
}

fn put_waiting_variable<W: Write>(out: &mut TextWriter<'_, W>, cluster: &Cluster, host: u8)
    ensures { Grows W.contents out.old out.new (waiting_variable cluster.now host) }
{
    put_opening(out, 11, waiting_number(cluster, host));
    out.put(b"waiting@");
    out.put(node_name(cluster, host));
    out.put(b" $end\n");
}

fn put_waiting_variables<W: Write>(out: &mut TextWriter<'_, W>, cluster: &Cluster)
    ensures { Grows W.contents out.old out.new
        (flat_map (waiting_variable cluster.now) (numbers (nodes cluster.now))) }
{
    for host in 0..cluster.nodes() as u8 {
        put_waiting_variable(out, cluster, host);
    }
}

/// Declares what a signal means, where it has a range.
fn put_physical_variable<W: Write>(
    out: &mut TextWriter<'_, W>,
    cluster: &Cluster,
    coded: &Coded,
    signal: u16,
)
    requires { signal < length cluster.now.signals }
    ensures { Grows W.contents out.old out.new
        (physical_variable cluster.now coded.now signal) }
{
    if coded.has_range(signal) {
        out.put(b"$var real 64 ");
        put_code(out, physical_number(cluster, signal));
        out.put_byte(b' ');
        out.put(cluster.signal_name(signal));
        out.put(b" $end\n");
    }
}

fn put_physical_variables<W: Write>(out: &mut TextWriter<'_, W>, cluster: &Cluster, coded: &Coded)
    ensures { Grows W.contents out.old out.new
        (flat_map (physical_variable cluster.now coded.now)
        (numbers (length cluster.now.signals))) }
{
    for signal in 0..cluster.signals() as u16 {
        put_physical_variable(out, cluster, coded, signal);
    }
}

/// The scope of what signals mean, where that is told.
fn put_physical_scope<W: Write>(
    out: &mut TextWriter<'_, W>,
    cluster: &Cluster,
    coded: Option<&Coded>,
)
    ensures { Grows W.contents out.old out.new
        (where_told (given_coding coded.entry) (physical_scope cluster.now)) }
{
    if let Some(coded) = coded {
        out.put(b"$scope module physical $end\n");
        put_physical_variables(out, cluster, coded);
        out.put(b"$upscope $end\n");
    }
}

fn put_declarations<W: Write>(out: &mut TextWriter<'_, W>, cluster: &Cluster, coded: Option<&Coded>)
    ensures { Grows W.contents out.old out.new
        (declarations cluster.now (given_coding coded.entry)) }
{
    out.put(b"$timescale 1 us $end\n");
    out.put(b"$scope module bus $end\n");
    put_bus_variables(out);
    out.put(b"$upscope $end\n");
    out.put(b"$scope module heard $end\n");
    put_heard_variables(out, cluster);
    out.put(b"$upscope $end\n");
    out.put(b"$scope module written $end\n");
    put_written_variables(out, cluster);
    out.put(b"$upscope $end\n");
    out.put(b"$scope module waiting $end\n");
    put_waiting_variables(out, cluster);
    out.put(b"$upscope $end\n");
    put_physical_scope(out, cluster, coded);
    out.put(b"$enddefinitions $end\n");
}

fn put_unknowns<W: Write>(out: &mut TextWriter<'_, W>)
    ensures { Grows W.contents out.old out.new (flat_map unknown_change (numbers 5)) }
{
    for variable in 0..5 {
        put_unknown(out, variable);
    }
}

fn put_heard_values<W: Write>(out: &mut TextWriter<'_, W>, cluster: &Cluster)
    ensures { Grows W.contents out.old out.new
        (flat_map (first_heard cluster.now) (numbers (length cluster.now.signals))) }
{
    for signal in 0..cluster.signals() as u16 {
        put_heard(out, cluster, signal, cluster.initial(signal));
    }
}

fn put_written_values<W: Write>(out: &mut TextWriter<'_, W>, cluster: &Cluster)
    ensures { Grows W.contents out.old out.new
        (flat_map (first_written cluster.now) (numbers (length cluster.now.signals))) }
{
    for signal in 0..cluster.signals() as u16 {
        put_written(out, cluster, signal, cluster.initial(signal));
    }
}

fn put_waiting_values<W: Write>(out: &mut TextWriter<'_, W>, cluster: &Cluster)
    ensures { Grows W.contents out.old out.new
        (flat_map (first_waiting cluster.now) (numbers (nodes cluster.now))) }
{
    for host in 0..cluster.nodes() as u8 {
        put_waiting(out, cluster, host, 0);
    }
}

fn put_physical_values<W: Write>(out: &mut TextWriter<'_, W>, cluster: &Cluster, coded: &Coded)
    ensures { Grows W.contents out.old out.new (first_decimals cluster.now coded.now) }
{
    for signal in 0..cluster.signals() as u16 {
        put_physical(out, cluster, coded, signal, cluster.initial(signal));
    }
}

/// What the first values mean, where that is told.
fn put_first_decimals<W: Write>(
    out: &mut TextWriter<'_, W>,
    cluster: &Cluster,
    coded: Option<&Coded>,
)
    ensures { Grows W.contents out.old out.new
        (where_told (given_coding coded.entry) (first_decimals cluster.now)) }
{
    if let Some(coded) = coded {
        put_physical_values(out, cluster, coded);
    }
}

fn put_first_values<W: Write>(out: &mut TextWriter<'_, W>, cluster: &Cluster, coded: Option<&Coded>)
    ensures { Grows W.contents out.old out.new
        (first_values cluster.now (given_coding coded.entry)) }
{
    out.put(b"#0\n");
    out.put(b"$dumpvars\n");
    put_unknowns(out);
    put_number(out, 1, 5, 0);
    put_heard_values(out, cluster);
    put_written_values(out, cluster);
    put_waiting_values(out, cluster);
    put_first_decimals(out, cluster, coded);
    out.put(b"$end\n");
}

/// Puts what stands before all changes.
pub(crate) fn put_head<W: Write>(
    out: &mut TextWriter<'_, W>,
    cluster: &Cluster,
    coded: Option<&Coded>,
)
    ensures { Grows W.contents out.old out.new
        (vcd_head cluster.now (given_coding coded.entry)) }
{
    put_declarations(out, cluster, coded);
    put_first_values(out, cluster, coded);
}
