//! What all formats have in common: something before the entries of a log, something for each, and
//! something after them.

ghost use Rattle.std.specs.Prelude.{◌≡◌, ◌∷◌, ◌<◌, ◌^◌, [], List, OnOk, reverse, take};
ghost use Rattle.lin_core.specs.declared.log.LogEntry.{LogEntry};
ghost use Rattle.lin_parts.specs.declared.parts.Parts.{Parts};
ghost use Rattle.lin_text.specs.Written.{Grows, WritesText};
ghost use Rattle.lin_export.specs.Putting.{PutsAll};
ghost use Rattle.lin_export.specs.Telling.{LogFormat, entries_as, entries_from, log_as};
ghost use Rattle.lin_export.specs.Track.{IfTrackOf, track_of};
ghost use Rattle.lin_export.specs.TrackedEntries.{IfKept, says_next};

use crate::fault::ExportFault;
use crate::track::{Track, TrackedEntry};
use lin_core::{Log, LogEntry};
use lin_parts::Cluster;
use lin_text::{TextBuffer, TextWriter};
use std::alloc::{AllocError, Global};
use std::io::Write;

/// A format: what it keeps of the entries that were read, and what it puts.
pub(crate) trait EntryFormat {
    ghost text: { Self → Parts → LogFormat };

    ghost fits: { Self → Parts → Type 0 };

    ghost keeps: { Self → Parts → List LogEntry → Type 0 };

    /// Puts what stands before the entries.
    fn put_head<W: Write>(&self, out: &mut TextWriter<'_, W>, cluster: &Cluster)
        ensures { Grows W.contents out.old out.new (text self.now cluster.now).begins };

    /// Puts what an entry says on those before it.
    fn put_entry<W: Write>(&mut self, out: &mut TextWriter<'_, W>, next: &TrackedEntry<'_>)
        requires time { next.now.track.now.time < 2 ^ 63 }
        requires fits { fits self.old next.now.cluster.now }
        ensures fits { fits self.new next.now.cluster.now }
        ensures same { text self.new ≡ text self.old }
        ensures keeps { IfKept (keeps self.old) next.now (λ past.
            keeps self.new next.now.cluster.now (next.now.entry.now ∷ past)) }
        ensures text { IfKept (keeps self.old) next.now (λ past.
            Grows W.contents out.old out.new (says_next (text self.old) next.now past)) };

    /// Puts what stands after the entries.
    fn put_end<W: Write>(&self, out: &mut TextWriter<'_, W>, cluster: &Cluster, track: &Track)
        ensures { IfTrackOf cluster.now track.now (λ past. keeps self.now cluster.now past
            → Grows W.contents out.old out.new ((text self.now cluster.now).ends past)) };
}

/// Puts the entries of a log from one on, with the track of those before it, which then is that of
/// all. The error is that it is out of memory.
pub(crate) fn put_entries<F: EntryFormat, W: Write>(
    format: &mut F,
    out: &mut TextWriter<'_, W>,
    track: &mut Track,
    cluster: &Cluster,
    log: &Log,
    from: usize,
) -> Result<(), AllocError>
    requires track { track.old ≡ track_of cluster.now (reverse (take from log.now.entries)) }
    requires fits { F.fits format.old cluster.now }
    requires keeps { F.keeps format.old cluster.now (reverse (take from log.now.entries)) }
    ensures text { PutsAll W.contents out.old out.new result
        (entries_from (F.text format.old cluster.now) log.now.entries from) }
    ensures track { OnOk result (track.new ≡ track_of cluster.now (reverse log.now.entries)) }
    ensures keeps { OnOk result (F.keeps format.new cluster.now (reverse log.now.entries)) }
    ensures same { F.text format.new ≡ F.text format.old }
{
    cluster.sound();
    for index in from..log.len() {
        let entry = log.entry(index);
        let next = TrackedEntry {
            cluster,
            track,
            entry,
        };
        format.put_entry(out, &next);
        track.follow(cluster, entry)?;
    }
    Ok(())
}

/// Puts the entries of a log, and what stands after them. The error is that it is out of memory.
fn put_all<F: EntryFormat, W: Write>(
    format: &mut F,
    out: &mut TextWriter<'_, W>,
    alloc: Global,
    cluster: &Cluster,
    log: &Log,
) -> Result<(), AllocError>
    requires fits { F.fits format.old cluster.now }
    requires keeps { F.keeps format.old cluster.now [] }
    ensures { PutsAll W.contents out.old out.new result
        (entries_as (F.text format.old cluster.now) log.now.entries) }
{
    let mut track = Track::new(alloc);
    put_entries(format, out, &mut track, cluster, log, 0)?;
    format.put_end(out, cluster, &track);
    Ok(())
}

/// Writes a log in a format.
///
/// It goes through a buffer of fixed size, and takes memory for what is kept of one slot. The
/// writer isn't flushed.
///
/// # Errors
/// What was written then is the beginning of the text.
/// - `OutOfMemory`;
/// - `WriteFailed` at the first error of the writer, an interrupted write too, and at the first
///   write of 0 bytes.
pub(crate) fn write_as<F: EntryFormat, W: Write>(
    format: &mut F,
    alloc: Global,
    cluster: &Cluster,
    log: &Log,
    writer: &mut W,
) -> Result<(), ExportFault>
    requires fits { F.fits format.old cluster.now }
    requires keeps { F.keeps format.old cluster.now [] }
    ensures { WritesText (W.contents writer.old) (W.contents writer.new) result
        (log_as (F.text format.old cluster.now) log.now.entries) }
{
    let mut buffer = TextBuffer::empty();
    let mut out = TextWriter::new(writer, &mut buffer);
    format.put_head(&mut out, cluster);
    let followed = put_all(format, &mut out, alloc, cluster, log);
    out.finish()?;
    followed?;
    Ok(())
}
