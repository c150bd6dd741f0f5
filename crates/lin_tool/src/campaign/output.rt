//! What is written of a campaign in each format: what is before the rows, a row, and what is after them.

ghost use Rattle.std.specs.Prelude.{◌≡◌, ◌≤◌};
ghost use Rattle.std.specs.Io.KnownBytes.{Keeps};
ghost use Rattle.lin_export.specs.Putting.{PutsAll};
ghost use Rattle.lin_text.specs.Written.{Grows, WritesText};
ghost use Rattle.lin_tool.specs.campaign.Page.{in_page};
ghost use Rattle.lin_tool.specs.campaign.Shown.{row_data};
ghost use Rattle.lin_tool.specs.campaign.Steps.{IsTable, head_of, object_if, object_with, row_without};
ghost use Rattle.lin_tool.specs.campaign.Written.{text_after_rows};

use crate::campaign::jsonl_rows::CampaignSize;
use crate::campaign::plan::RowFormat;
use crate::campaign::row::Row;
use crate::campaign::row_source::RowSource;
use crate::campaign::rows::Rows;
use crate::campaign::shown::ShownRow;
use crate::campaign::{Campaign, csv_rows, jsonl_rows, junit, page, pieces, text};
use crate::placing::FileNames;
use lin_export::ExportFault;
use lin_text::{TextBuffer, TextWriter, WriteFailed};
use std::alloc::AllocError;
use std::io::Write;

/// Flushes a writer.
fn flush<W: Write>(writer: &mut W) -> Result<(), WriteFailed>
    ensures { Keeps (W.contents writer.old) (W.contents writer.new) }
{
    match writer.flush() {
        Ok(()) => Ok(()),
        Err(_) => Err(WriteFailed),
    }
}

impl Campaign<'_, '_> {
    /// The object of the campaign. An error means out of memory.
    fn put_object<W: Write>(
        &self,
        out: &mut TextWriter<'_, W>,
        rows: &Rows,
        shown: &ShownRow<'_>,
        is_page: bool,
    ) -> Result<(), AllocError>
        requires few { rows.now.singles ≤ 33000000 }
        ensures { PutsAll W.contents out.old out.new result
            (in_page is_page (object_with self.now rows.now shown.now)) }
    {
        let size = CampaignSize {
            script: self.script,
            singles: rows.singles,
            rows: rows.count(),
        };
        jsonl_rows::put_head(out, self.alloc, size, shown, is_page)
    }

    /// The object of the campaign, which the first part alone has. An error means out of memory.
    fn put_first<W: Write>(
        &self,
        out: &mut TextWriter<'_, W>,
        rows: &Rows,
        shown: &ShownRow<'_>,
        is_first: bool,
    ) -> Result<(), AllocError>
        requires few { rows.now.singles ≤ 33000000 }
        ensures { PutsAll W.contents out.old out.new result
            (object_if is_first self.now rows.now shown.now) }
    {
        if !is_first {
            return Ok(());
        }
        self.put_object(out, rows, shown, false)
    }

    /// What a format has before the rows. Of the parts of a table, and of objects, the first alone has it.
    /// An error means out of memory.
    fn put_head<W: Write>(
        &self,
        out: &mut TextWriter<'_, W>,
        table: &RowSource<'_>,
        shown: &ShownRow<'_>,
    ) -> Result<(), AllocError>
        requires table { IsTable table.now }
        ensures { PutsAll W.contents out.old out.new result
            (head_of self.now table.now shown.now.core.now.cluster (row_data shown.now)) }
    {
        let is_first = table.part.number == 1;
        match self.format {
            RowFormat::Text => Ok(()),
            RowFormat::Csv => {
                csv_rows::put_head(out, is_first);
                Ok(())
            }
            RowFormat::Jsonl => self.put_first(out, table.rows, shown, is_first),
            RowFormat::Junit => {
                junit::put_head(out, self.script, table.cases());
                Ok(())
            }
            RowFormat::Html => {
                out.put_text(pieces::HEAD);
                page::put_head(out, self.file, self.source.text, shown.core);
                self.put_object(out, table.rows, shown, true)
            }
        }
    }

    /// Writes what a format has before the rows.
    ///
    /// # Errors
    /// `OutOfMemory` and `WriteFailed`, where what was written is a beginning.
    pub(crate) fn write_head<W: Write>(
        &self,
        table: &RowSource<'_>,
        shown: &ShownRow<'_>,
        writer: &mut W,
    ) -> Result<(), ExportFault>
        requires table { IsTable table.now }
        ensures { WritesText (W.contents writer.old) (W.contents writer.new) result
            (head_of self.now table.now shown.now.core.now.cluster (row_data shown.now)) }
    {
        let mut buffer = TextBuffer::empty();
        let mut out = TextWriter::new(writer, &mut buffer);
        let put = self.put_head(&mut out, table, shown);
        put?;
        out.finish()?;
        Ok(())
    }

    /// The names of the script's files.
    fn names(&self) -> FileNames<'_>
        ensures { (result.script.now ≡ self.now.script.now) × (result.files.now ≡ self.now.source.files.now) }
    {
        FileNames {
            script: self.script,
            files: self.source.files,
        }
    }

    /// A row. What the undisturbed play lost and refused isn't repeated. An error means out of memory.
    fn put_row<W: Write>(
        &self,
        out: &mut TextWriter<'_, W>,
        shown: &ShownRow<'_>,
        calm: Option<&Row>,
    ) -> Result<(), AllocError>
        ensures { PutsAll W.contents out.old out.new result
            (row_without self.now shown.now calm.entry) }
    {
        let cluster = shown.core.cluster();
        match self.format {
            RowFormat::Text => {
                text::put_line(out, cluster, shown, calm);
                Ok(())
            }
            RowFormat::Csv => {
                csv_rows::put_line(out, cluster, shown);
                Ok(())
            }
            RowFormat::Jsonl => jsonl_rows::put_line(out, self.alloc, shown, false),
            RowFormat::Html => jsonl_rows::put_line(out, self.alloc, shown, true),
            RowFormat::Junit => junit::put_row(out, self.alloc, self.names(), shown),
        }
    }

    /// Writes a complete row, and flushes it. What the undisturbed play lost and refused isn't repeated.
    ///
    /// # Errors
    /// `OutOfMemory` and `WriteFailed`, where what was written is a beginning.
    pub(crate) fn write_row<W: Write>(
        &self,
        shown: &ShownRow<'_>,
        calm: Option<&Row>,
        writer: &mut W,
    ) -> Result<(), ExportFault>
        ensures { WritesText (W.contents writer.old) (W.contents writer.new) result
            (row_without self.now shown.now calm.entry) }
    {
        let mut buffer = TextBuffer::empty();
        let mut out = TextWriter::new(writer, &mut buffer);
        let put = self.put_row(&mut out, shown, calm);
        // (a row for which memory runs out isn't finished: it would be a part of one)
        put?;
        out.finish()?;
        flush(writer)?;
        Ok(())
    }

    /// What a format has after the rows.
    fn put_tail<W: Write>(&self, out: &mut TextWriter<'_, W>)
        ensures { Grows W.contents out.old out.new (text_after_rows self.now.format) }
    {
        match self.format {
            RowFormat::Junit => out.put_text(junit::TAIL),
            RowFormat::Html => out.put_text(pieces::TAIL),
            RowFormat::Text | RowFormat::Csv | RowFormat::Jsonl => {}
        }
    }

    /// Writes what a format has after the rows.
    ///
    /// # Errors
    /// `WriteFailed`, where what was written is a beginning.
    pub(crate) fn write_tail<W: Write>(&self, writer: &mut W) -> Result<(), WriteFailed>
        ensures { WritesText (W.contents writer.old) (W.contents writer.new) result
            (text_after_rows self.now.format) }
    {
        let mut buffer = TextBuffer::empty();
        let mut out = TextWriter::new(writer, &mut buffer);
        self.put_tail(&mut out);
        out.finish()?;
        flush(writer)
    }
}
