//! Clusters from LDF texts: that of a reader or a file is read, and that of the built-in cluster
//! stands here.

ghost use Rattle.std.specs.Prelude.{◌≡◌, List, ℕ, IfOk, IsSome};
ghost use Rattle.lin_ldf.specs.Describes.{Describes};
ghost use Rattle.lin_cluster.specs.SlotTimes.{NoSlotIsShort};
ghost use Rattle.lin_tool.specs.Clusters.{AnswersParse, AnswersText, IsSaidBy, IsParseFault};
ghost use Rattle.lin_tool.specs.Coding.{AnswersCoded, AnswersParsed, AnswersSections};
ghost use Rattle.lin_tool.specs.Reading.{AnswersLdf, AnswersReading, ReadsWholeInput};
ghost use Rattle.lin_tool.specs.declared.describing.Reading.TheVariants.{Plain};

use crate::coding::{
    Described, ExtraSections, Extras, coded_noted, configured, sections_of, with_findings,
    with_lints,
};
use crate::fault::Fault;
use crate::field::field_of_reader;
use crate::finding_lines::Findings;
use crate::notes::Notes;
use lin_cluster::{CheckFault, check};
use lin_field::Checked;
use lin_ldf::{LdfFault, Parser, TokenKind, UnknownWords, parse_noting};
use lin_parts::Cluster;
use lin_parts::description::Description;
use lin_text::{Many, ReadFault, read_whole};
use std::alloc::Global;
use std::fs::{self, Files};
use std::io::Read;

/// The most bytes that an LDF text may have.
const LIMIT: usize = 4_194_304;

/// The LDF text of the built-in cluster: the commander `cem`, the responder `door` with the
/// diagnostic address 1, and the schedule table `diag` with a master request and a slave response,
/// 10 ms each.
pub const BUILT_IN: &[u8] = b"LIN_description_file;
LIN_protocol_version = \"2.2\";
LIN_language_version = \"2.2\";
LIN_speed = 19.2 kbps;
Nodes { Master: cem, 5 ms, 0.1 ms; Slaves: door; }
Node_attributes { door { LIN_protocol = \"2.2\"; configured_NAD = 0x01; } }
Schedule_tables { diag { MasterReq delay 10 ms; SlaveResp delay 10 ms; } }
";

/// The bytes that a reader gives up to its end, at most 4,194,304.
///
/// # Errors
/// `LdfTooLong` where there are more; `OutOfMemory` where the program's own request for memory is
/// refused; `ReadFailed` where the reader answers an error, whatever its kind, after which it is
/// asked no second time.
pub fn read_text<R: Read>(alloc: Global, reader: &mut R) -> Result<Vec<u8>, Fault>
    ensures { ReadsWholeInput (λ v. v.items) result (R.remaining reader.old) }
{
    match read_whole(alloc, reader, LIMIT) {
        Ok(bytes) => Ok(bytes),
        Err(ReadFault::TooLong) => Err(Fault::LdfTooLong),
        Err(ReadFault::ReadFailed) => Err(Fault::ReadFailed),
        Err(ReadFault::OutOfMemory) => Err(Fault::OutOfMemory),
    }
}

/// What a fault of `parse` is to the program.
pub(crate) fn fault_of(fault: LdfFault) -> Fault
    ensures { IsParseFault result fault }
{
    match fault {
        LdfFault::OutOfMemory => Fault::OutOfMemory,
        fault => Fault::Ldf(fault),
    }
}

/// Reads the declarations of an LDF, and the words of its sections and attributes that LIN doesn't have.
///
/// # Errors
/// `Ldf` for the first fault of the text; `OutOfMemory`.
pub(crate) fn description_of<'a>(
    alloc: Global,
    text: &'a [u8],
    unknown: &mut UnknownWords<'a>,
) -> Result<Description, Fault>
    ensures { AnswersParse result text.now }
{
    match parse_noting(alloc, text, unknown) {
        Ok(description) => Ok(description),
        Err(fault) => Err(fault_of(fault)),
    }
}

/// The cluster that a description says.
///
/// # Errors
/// `Findings` for all the reasons why it says no cluster; `OutOfMemory`.
fn said_by(alloc: Global, description: Description) -> Result<Cluster, Fault>
    ensures said { IfOk result (IsSaidBy description) }
    ensures answers { (text : List ℕ) → Describes text description → AnswersText result text }
{
    match check(alloc, description) {
        Ok(cluster) => Ok(cluster),
        Err(CheckFault::OutOfMemory) => Err(Fault::OutOfMemory),
        Err(CheckFault::Findings(findings)) => Err(Fault::Findings(Findings(findings))),
    }
}

/// The cluster that an LDF text describes.
///
/// # Errors
/// `Ldf` for the first fault of the text; `Findings` for all the reasons why it describes no
/// cluster; `OutOfMemory`.
pub fn cluster_of_text(alloc: Global, text: &[u8]) -> Result<Cluster, Fault>
    ensures { AnswersText result text.now }
{
    match description_of(alloc, text, &mut UnknownWords::new(alloc)) {
        Ok(description) => said_by(alloc, description),
        Err(fault) => Err(fault),
    }
}

/// Gives the memory of a text back, but for a byte. (It is shrunk in place: once a block as large is
/// freed, the C library's heap grows lists by copying them.)
pub(crate) fn let_go(text: &mut Vec<u8>) {
    text.truncate(1);
    text.shrink_to_fit();
}

/// Reads the declarations of an LDF, what the extras want of its sections, and its unknown words, as
/// `description_of` does.
///
/// # Errors
/// Those of `description_of`.
fn parse_text<'a>(
    alloc: Global,
    text: &'a [u8],
    extras: Extras,
    unknown: &mut UnknownWords<'a>,
) -> Result<(Description, ExtraSections), Fault>
    ensures { AnswersSections extras result text.now }
{
    let description = description_of(alloc, text, unknown)?;
    let sections = sections_of(alloc, text, &description, None, extras)?;
    Ok((description, sections))
}

/// The cluster of what was parsed, with the requests of the commands in `text` if that is wanted, and what
/// the values of its signals mean. The notes keep warnings, and tell where they stand in `text`.
///
/// # Errors
/// That of what was parsed; those of `said_by`.
fn check_parsed(
    alloc: Global,
    parsed: Result<(Description, ExtraSections), Fault>,
    extras: Extras,
    text: &[u8],
    notes: &mut Notes<'_>,
) -> Result<Described, Fault>
    ensures { AnswersParsed extras parsed text.now result notes.new.warnings }
{
    let (description, sections) = parsed?;
    let ExtraSections {
        codings,
        configurables,
        found,
        limits,
    } = sections;
    let none = Many::new(Vec::new(alloc));
    let words = with_findings(none, found.as_slice())?;
    let warnings = with_lints(
        alloc,
        words,
        &description,
        &[],
        configurables,
        codings.as_ref(),
    )?;
    let cluster = said_by(alloc, description)?;
    let checked = configured(alloc, Checked { cluster, warnings }, extras, text)?;
    coded_noted(
        alloc,
        checked,
        codings,
        limits,
        extras.encodings,
        text,
        notes,
    )
}

/// Whether the version in the header of a text begins with `1.`, as in LIN 1.2 and 1.3. A version that
/// isn't among the first 64 tokens isn't found.
pub(crate) fn is_old(alloc: Global, text: &[u8]) -> bool {
    let mut parser = Parser::new(alloc, text);
    let mut is_version = false;
    for _ in 0..64 {
        match parser.front_kind() {
            Some(TokenKind::Text) if is_version => return parser.text().starts_with(b"\"1."),
            Some(TokenKind::Word) => is_version = parser.text()
                == b"LIN_protocol_version".as_slice(),
            Some(_) => {}
            None => return false,
        }
        parser.skip();
    }
    false
}

/// The cluster that an LDF text describes, as of `cluster_of_text`, and what the values of its signals
/// mean. The notes keep the warnings that the extras want, or tell where it is at fault; where they want
/// no text, its memory is let go of before the description is checked. Of a text of LIN 1.x that
/// `--field` reads, too, they tell that; of one that isn't linted, how many of its sections and
/// attributes LIN doesn't have.
fn cluster_of_bytes(
    alloc: Global,
    mut bytes: Vec<u8>,
    extras: Extras,
    notes: &mut Notes<'_>,
) -> Result<Described, Fault>
    ensures { AnswersCoded extras result notes.new.warnings bytes.items }
{
    let parsed = {
        let mut unknown = UnknownWords::new(alloc);
        let parsed = parse_text(alloc, bytes.as_slice(), extras, &mut unknown);
        if parsed.is_ok() && !extras.is_linted {
            notes.count_unknown(alloc, &unknown)?;
        }
        parsed
    };
    let is_old = is_old(alloc, bytes.as_slice());
    if !is_old && !notes.is_text_wanted() && !extras.is_configured {
        let_go(&mut bytes);
    }
    let answer = check_parsed(alloc, parsed, extras, bytes.as_slice(), notes);
    if let Err(fault) = &answer {
        notes.add_text(alloc, Reading::Plain, bytes.as_slice(), fault)?;
    }
    if is_old {
        if let Ok(described) = &answer {
            notes.add_old(alloc, bytes.as_mut_slice(), &described.cluster);
        }
    }
    notes.add_field(alloc, bytes.as_mut_slice(), &answer);
    answer
}

/// The cluster that the LDF text of a reader describes, and what the values of its signals mean by its
/// sections of encodings, where they are read. The notes keep what is wrong with these, and what is odd
/// in the text where it is linted, as warnings, by place and then by number; where the text is at
/// fault, they tell where.
///
/// # Errors
/// Those of `read_text`, and of what was read those of `cluster_of_text`.
#[tactic(auto, using(crate::proofs::Texts::answers_read, crate::proofs::Texts::answers_unread))]
pub fn cluster_of_reader<R: Read>(
    alloc: Global,
    reader: &mut R,
    extras: Extras,
    notes: &mut Notes<'_>,
) -> Result<Described, Fault>
    ensures { AnswersLdf extras result notes.new.warnings (R.remaining reader.old) }
{
    let text = read_text(alloc, reader)?;
    cluster_of_bytes(alloc, text, extras, notes)
}

/// How an LDF text is read.
#[derive(Clone, Copy, Debug, Drop, PartialEq)]
pub enum Reading {
    /// By the grammar of LIN 2.2A alone.
    Plain,
    /// As a text of the field.
    Field,
}

/// The cluster that the LDF text of a reader describes, as of `cluster_of_reader`, or as a text of
/// the field.
pub(crate) fn cluster_read<R: Read>(
    alloc: Global,
    reader: &mut R,
    reading: Reading,
    extras: Extras,
    notes: &mut Notes<'_>,
) -> Result<Described, Fault>
    ensures { AnswersReading reading extras result notes.new.warnings (R.remaining reader.old) }
{
    match reading {
        Reading::Plain => cluster_of_reader(alloc, reader, extras, notes),
        Reading::Field => field_of_reader(alloc, reader, extras, notes),
    }
}

/// The cluster that the LDF text on standard input describes.
///
/// # Errors
/// Those of `cluster_of_reader`, or of `field_of_reader`.
#[tactic(auto, using(crate::proofs::FieldTexts::reading_untold))]
pub fn cluster_of_input<R: AllocGlobal + Input>(
    rt: &R,
    reading: Reading,
    extras: Extras,
    notes: &mut Notes<'_>,
) -> Result<Described, Fault>
    ensures { AnswersReading reading extras result notes.new.warnings None }
{
    let answer = cluster_read(rt.alloc(), &mut rt.reader(), reading, extras, notes);
    notes.add_unread(&answer, None);
    answer
}

/// The cluster that the LDF text in the file at `path` describes; without a path the built-in one.
///
/// # Errors
/// `ReadFailed` where the file can't be opened, and those of `cluster_of_input`.
#[tactic(auto, using(crate::proofs::FieldTexts::reading_untold, crate::proofs::FieldTexts::reading_unread))]
pub fn cluster_of_file<R: AllocGlobal + Files>(
    rt: &R,
    path: Option<&str>,
    reading: Reading,
    extras: Extras,
    notes: &mut Notes<'_>,
) -> Result<Described, Fault>
    ensures built_in { path.entry ≡ None
        → AnswersCoded extras result notes.new.warnings BUILT_IN.now }
    ensures file { IsSome path.entry
        → AnswersReading reading extras result notes.new.warnings None }
{
    match path {
        None => {
            let mut unknown = UnknownWords::new(rt.alloc());
            let parsed = parse_text(rt.alloc(), BUILT_IN, extras, &mut unknown);
            check_parsed(rt.alloc(), parsed, extras, BUILT_IN, notes)
        }
        Some(path) => {
            let answer = match fs::open(rt, path) {
                Ok(mut file) => cluster_read(rt.alloc(), &mut file, reading, extras, notes),
                Err(_) => Err(Fault::ReadFailed),
            };
            notes.add_unread(&answer, Some(path));
            answer
        }
    }
}

/// The cluster that the LDF text in the file at `path` describes; where the path is `-`, that on
/// standard input.
///
/// # Errors
/// Those of `cluster_of_file` and `cluster_of_input`.
#[tactic(auto, using(crate::proofs::FieldTexts::long_slots))]
pub fn cluster_at<R: AllocGlobal + Files + Input>(
    rt: &R,
    path: &str,
    reading: Reading,
    extras: Extras,
    notes: &mut Notes<'_>,
) -> Result<Described, Fault>
    ensures answers { AnswersReading reading extras result notes.new.warnings None }
    ensures long { reading ≡ Plain → IfOk result (λ d. NoSlotIsShort d.cluster) }
{
    if path == "-" {
        cluster_of_input(rt, reading, extras, notes)
    } else {
        cluster_of_file(rt, Some(path), reading, extras, notes)
    }
}
