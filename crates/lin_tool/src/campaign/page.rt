//! The data of the page of a campaign.

ghost use Rattle.std.specs.Prelude.{◌≡◌, ◌∷◌, [], if◌then◌else◌, List, flat_map};
ghost use Rattle.lin_core.specs.History.{Slot};
ghost use Rattle.lin_core.specs.declared.log.LogEntry.{LogEntry};
ghost use Rattle.lin_text.specs.Written.{Grows};
ghost use Rattle.lin_tool.specs.campaign.Page.{data_head, next_page_slot, object_byte, object_text, page_line};
ghost use Rattle.lin_tool.specs.campaign.Page.{page_lines, page_slot, without_empty_last};
ghost use Rattle.lin_tool.specs.campaign.Slots.{HasRead, finished_slots, kept_of_slot};

use crate::campaign::finished_slots::{KeptSlot, SlotReader, slot_name, table_name};
use crate::page::field::{put_field, put_guarded};
use lin_bench::without_mark;
use lin_core::{Core, Listed, Log, LogEntry};
use lin_log::{first_line, without_return};
use lin_parts::Cluster;
use lin_text::TextWriter;
use std::io::Write;

/// A line of the script.
fn put_script_line<W: Write>(out: &mut TextWriter<'_, W>, line: &[u8])
    ensures { Grows W.contents out.old out.new (page_line line.now) }
{
    out.put_text("line ");
    put_field(out, without_return(line));
    out.put_byte(b'\n');
}

/// The last line of the script, unless it is empty.
fn put_last_line<W: Write>(out: &mut TextWriter<'_, W>, line: &[u8])
    ensures { Grows W.contents out.old out.new
        (flat_map page_line (without_empty_last (line.now ∷ []))) }
{
    if !line.is_empty() {
        put_script_line(out, line);
    }
}

/// A line of the script, which may be the last one.
fn put_next_line<W: Write>(out: &mut TextWriter<'_, W>, line: &[u8], is_last: bool)
    ensures { Grows W.contents out.old out.new
        (if is_last then flat_map page_line (without_empty_last (line.now ∷ []))
        else page_line line.now) }
{
    if is_last {
        put_last_line(out, line);
    } else {
        put_script_line(out, line);
    }
}

/// A line for each line of the script.
fn put_script<W: Write>(out: &mut TextWriter<'_, W>, script: &[u8])
    ensures { Grows W.contents out.old out.new (page_lines script.now) }
{
    let mut left = Some(without_mark(script));
    while let Some(text) = left {
        let (line, rest) = first_line(text);
        put_next_line(out, line, rest.is_none());
        left = rest;
    }
}

/// The line of a slot.
fn put_slot<W: Write>(out: &mut TextWriter<'_, W>, cluster: &Cluster, slot: &KeptSlot)
    ensures { (s : Slot) → slot.now ≡ kept_of_slot s
        → Grows W.contents out.old out.new (page_slot cluster.now s) }
{
    out.put_text("slot ");
    put_guarded(out, table_name(cluster, slot.table));
    out.put_numbered(b' ', u64::from(slot.entry));
    out.put_byte(b' ');
    put_guarded(
        out,
        slot_name(cluster, slot.table, slot.entry, slot.frame(cluster)),
    );
    out.put_byte(b' ');
    out.put_text(slot.look().word());
    out.put_byte(b'\n');
}

/// The line of the slot that an entry of the log finished, if it did.
fn put_next_slot<W: Write>(
    out: &mut TextWriter<'_, W>,
    cluster: &Cluster,
    reader: &mut SlotReader,
    entry: &LogEntry,
)
    ensures follows { (past : List LogEntry) → HasRead reader.old past
        → HasRead reader.new (entry.now ∷ past) }
    ensures text { (past : List LogEntry) → HasRead reader.old past
        → Grows W.contents out.old out.new (next_page_slot cluster.now entry.now past) }
{
    if let Some(slot) = reader.next(entry) {
        put_slot(out, cluster, &slot);
    }
}

/// A line for each slot of the undisturbed play.
fn put_slots<W: Write>(out: &mut TextWriter<'_, W>, cluster: &Cluster, log: &Log)
    ensures { Grows W.contents out.old out.new
        (flat_map (page_slot cluster.now) (finished_slots log.now.entries)) }
{
    let mut reader = SlotReader::new();
    for index in 0..log.len() {
        put_next_slot(out, cluster, &mut reader, log.entry(index));
    }
}

/// What the data have before the objects: the name of the LDF's file, the script, and the slots of the
/// undisturbed play.
pub(crate) fn put_head<W: Write>(
    out: &mut TextWriter<'_, W>,
    file: &str,
    script: &[u8],
    core: &Core,
)
    ensures { Grows W.contents out.old out.new
        (data_head file.now script.now core.now.cluster core.now.log) }
{
    out.put_text("campaign 1\nfile ");
    put_field(out, file.as_bytes());
    out.put_byte(b'\n');
    put_script(out, script);
    put_slots(out, core.cluster(), core.log());
}

fn put_object_byte<W: Write>(out: &mut TextWriter<'_, W>, byte: u8)
    ensures { Grows W.contents out.old out.new (object_byte byte) }
{
    if byte == b'<' {
        out.put_text("\\u003c");
    } else {
        out.put_byte(byte);
    }
}

/// An object, whose texts have an escape for `<`: so no element begins in it.
pub(crate) fn put_object_text<W: Write>(out: &mut TextWriter<'_, W>, text: &[u8])
    ensures { Grows W.contents out.old out.new (object_text text.now) }
{
    for byte in text {
        put_object_byte(out, *byte);
    }
}
