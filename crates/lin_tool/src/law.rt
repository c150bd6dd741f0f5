//! What holds of logs with names, of transcripts, of pages, and of plain LDF texts.

ghost use Rattle.lin_tool.specs.Page.{DataAreInert};
ghost use Rattle.lin_tool.specs.campaign.Page.{CampaignDataAreInert};
ghost use Rattle.lin_tool.specs.laws.NamedScripts.{NamedLogs, NamedLogsOfTexts};
ghost use Rattle.lin_tool.specs.laws.Texts.{PlainTextsAreRead, PlainTextsSayTheSame};
ghost use Rattle.lin_tool.specs.laws.Transcripts.{LastLinesAreRemarks, LinesHaveNoLf};
ghost use Rattle.lin_tool.specs.laws.Transcripts.{TranscriptsAreBenchScripts, TranscriptsAreLogs};
ghost use Rattle.lin_tool.specs.laws.Transcripts.{TranscriptsAreInputs, TranscriptsAreScripts};

/// A log with names is a bench script of the log's own steps: it has no bad line, makes no slots
/// of its own, and expects nothing. It holds wherever names are words and no two nodes, signals or
/// schedule tables have the same one, and so of each cluster that an LDF text describes, whether the
/// log tells what values mean or not.
pub fn named_logs_say_the_same()
    ensures of_words { NamedLogs }
    ensures of_texts { NamedLogsOfTexts }
{}

/// Without the lines that begin with `#`, the transcript of lines in an interactive session is the text of
/// its log, byte for byte: the log's own, or the log with names, whichever the session writes. Each answer
/// ends with one line that begins with `#`.
///
/// A transcript by numbers is a script of its run. If names are words, and no two nodes, signals or schedule
/// tables have the same name, each transcript is a bench script of its run. It is also an input whose lines
/// lead to the same log; if encodings are known, no signal is called `=` or `~` then. In these three cases the
/// numbers and bytes of the log's entries are within their types, as each `LogEntry` has them.
///
/// All this holds of bad lines too, if no line goes back to a mark. The lines of each input have no LF.
pub fn transcripts_are_logs()
    ensures logs { TranscriptsAreLogs }
    ensures scripts { TranscriptsAreScripts }
    ensures bench_scripts { TranscriptsAreBenchScripts }
    ensures inputs { TranscriptsAreInputs }
    ensures remarks { LastLinesAreRemarks }
    ensures lines { LinesHaveNoLf }
{}

/// No `<` stands in the data of a page, whatever the names, the texts and the lines are, so that no
/// script begins there: texts and lines are fields, the lines of the cluster are guarded, and the rest
/// are numbers and fixed words.
pub fn page_data_are_inert()
    ensures { DataAreInert }
{}

/// No `<` stands in the data of the page of a campaign, whatever the names, the texts and the lines are,
/// so that no script begins there: texts and lines are fields, names are guarded, objects have an
/// escape, and the rest are numbers and fixed words.
pub fn campaign_data_are_inert()
    ensures { CampaignDataAreInert }
{}

/// What a plain LDF text describes, it says as a text of the field too, with the versions of its
/// header. It holds where none of the bytes that are read as spaces and no word of texts of the field
/// stands in it, nor `response_error = WORD , ;`, which names a signal in texts of the field alone.
/// Where nothing is found in such a text, and the version of its header doesn't begin with `1.`, it
/// is settled to the same description, and so to the same cluster; nothing is told but marks that
/// are left out, no slot is tight, and the order of bytes doesn't matter.
pub fn plain_texts_are_read()
    ensures read { PlainTextsAreRead }
    ensures same { PlainTextsSayTheSame }
{}
