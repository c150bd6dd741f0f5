//! What is told of an LDF text beside its cluster: what it says of the values of its signals (LIN
//! 2.2A, section 9.2.6), with `--physical`; and what is odd in it, with `--lint`.

ghost use Rattle.std.specs.Prelude.{◌≡◌, ◌++◌, ◌||◌, true, map, IfOk, IfErr, IsPermutation, IsSorted, List};
ghost use Rattle.std.specs.Prelude.{is_some, option_map};
ghost use Rattle.lin_ldf.specs.Stream.{start_of};
ghost use Rattle.lin_ldf.specs.Symbols.{symbols_in};
ghost use Rattle.lin_ldf.specs.Tokens.{AreTokens};
ghost use Rattle.lin_ldf.specs.declared.token.Token.{Token};
ghost use Rattle.lin_field.specs.Checks.{remark, remark_cmp};
ghost use Rattle.lin_tool.specs.Coding.{AddsCommands, AddsLints, are_read, coded_read, codings_in, codings_kept, codings_with};
ghost use Rattle.lin_tool.specs.Coding.{attributes_read, configurables_read, configured_read, found_read, limits_read, sections_in, reported_findings, unknown_read, unused_told, AreWarnings};
ghost use Rattle.lin_tool.specs.Limits.{node_limits};
ghost use Rattle.lin_tool.specs.declared.fault.Fault.TheVariants.{OutOfMemory};

use crate::fault::Fault;
use crate::limits::node_limits;
use crate::notes::Notes;
use lin_bench::NodeLimits;
use lin_cluster::{Configurable, Finding, lint};
use lin_field::{Checked, Remark};
use lin_parts::Cluster;
use lin_parts::description::{Description, Name};
use lin_sections::{
    TransferLimits, configure, header_version, lint_attributes, read_attributes, read_codings,
    read_configurables, read_field_codings, read_transfer_limits, unknown_words,
};
use lin_text::Many;
use lin_values::{Coded, Codings, coded_by, unused_encodings};
use std::alloc::{AllocError, Global};

/// How the sections of encodings are read.
#[derive(Clone, Copy, Debug, Drop, PartialEq)]
pub enum Encodings {
    /// They aren't, unless the text is linted.
    Unread,
    /// They are, and nothing is told of them.
    Read,
    /// What is wrong with them is told as warnings.
    Told,
}

/// What is told of an LDF text beside its cluster.
#[derive(Clone, Copy, Debug, Drop, PartialEq)]
pub struct Extras {
    pub encodings: Encodings,
    /// Whether what is odd in a text in which nothing is wrong is told as warnings, encodings that no
    /// signal has among it.
    pub is_linted: bool,
    /// Whether the requests of node configuration commands are sent.
    pub is_configured: bool,
}

/// What the sections of an LDF say in addition to its description, if they are read: the encodings, and the
/// configurable frames of node attributes; and the words that LIN doesn't have, with what is odd in node
/// attributes.
#[derive(Drop)]
pub(crate) struct ExtraSections {
    pub codings: Option<Codings>,
    pub configurables: Option<Many<Configurable>>,
    pub found: Many<Finding>,
    /// The limits of transfers, if lines may name them.
    pub limits: Many<TransferLimits>,
}

/// The cluster of an LDF text, and what the values of its signals mean, where that is read.
#[derive(Drop)]
pub struct Described {
    pub cluster: Cluster,
    pub coded: Option<Coded>,
    /// The limits of the transfers of its nodes, if they are read.
    pub limits: Many<NodeLimits>,
}

/// Whether the sections of encodings are read.
fn are_read(extras: Extras) -> bool
    ensures { result ≡ are_read extras.encodings extras.is_linted }
{
    match extras.encodings {
        Encodings::Unread => extras.is_linted,
        Encodings::Read | Encodings::Told => true,
    }
}

/// What the sections of encodings of an LDF say. `wide` are the names of the wide signals, with `--field`.
///
/// An error means out of memory.
pub(crate) fn codings_with(
    alloc: Global,
    text: &[u8],
    wide: Option<&[Name]>,
) -> Result<Codings, AllocError>
    ensures read { IfOk result (λ k. k ≡ codings_with (option_map (λ w. w.now) wide.entry)
        (symbols_in text.now (start_of text.now).tokens)) }
    ensures tokens { (ts : List Token) → AreTokens text.now ts
        → IfOk result
        (λ k. k ≡ codings_with (option_map (λ w. w.now) wide.entry) (symbols_in text.now ts)) }
{
    match wide {
        Some(wide) => read_field_codings(alloc, text, wide),
        None => read_codings(alloc, text),
    }
}

/// What the sections of encodings of an LDF text say, where they are read. `wide` are the names of the wide
/// signals, with `--field`.
///
/// An error means out of memory.
fn codings_of(
    alloc: Global,
    text: &[u8],
    wide: Option<&[Name]>,
    is_read: bool,
) -> Result<Option<Codings>, AllocError>
    ensures read { IfOk result (λ k. k ≡ codings_in wide.entry is_read
        (symbols_in text.now (start_of text.now).tokens)) }
    ensures tokens { (ts : List Token) → AreTokens text.now ts
        → IfOk result
        (λ k. k ≡ codings_in wide.entry is_read (symbols_in text.now ts)) }
{
    if is_read {
        Ok(Some(codings_with(alloc, text, wide)?))
    } else {
        Ok(None)
    }
}

/// The lists of configurable frames of an LDF text, where it is linted.
///
/// An error means out of memory.
fn configurables_of(
    alloc: Global,
    text: &[u8],
    is_linted: bool,
) -> Result<Option<Many<Configurable>>, AllocError>
    ensures read { IfOk result
        (λ c. c ≡ configurables_read is_linted (symbols_in text.now (start_of text.now).tokens)) }
    ensures tokens { (ts : List Token) → AreTokens text.now ts
        → IfOk result (λ c. c ≡ configurables_read is_linted (symbols_in text.now ts)) }
{
    if is_linted {
        Ok(Some(read_configurables(alloc, text)?))
    } else {
        Ok(None)
    }
}

/// Finds the words of sections and attributes that LIN doesn't have, if they are reported.
///
/// An error means out of memory.
fn unknown_of(alloc: Global, text: &[u8], is_reported: bool) -> Result<Vec<Finding>, AllocError>
    ensures read { IfOk result
        (λ u. u.items ≡ unknown_read is_reported (symbols_in text.now (start_of text.now).tokens)) }
    ensures tokens { (ts : List Token) → AreTokens text.now ts
        → IfOk result (λ u. u.items ≡ unknown_read is_reported (symbols_in text.now ts)) }
{
    if is_reported {
        unknown_words(alloc, text)
    } else {
        Ok(Vec::new(alloc))
    }
}

/// Finds what is odd in the attributes of a description's nodes, where its text is linted.
///
/// An error means out of memory.
fn attributes_of(
    alloc: Global,
    text: &[u8],
    description: &Description,
    is_linted: bool,
) -> Result<Vec<Finding>, AllocError>
    ensures read { IfOk result (λ a. a.items ≡ attributes_read is_linted description.now
        (symbols_in text.now (start_of text.now).tokens)) }
    ensures tokens { (ts : List Token) → AreTokens text.now ts
        → IfOk result
        (λ a. a.items ≡ attributes_read is_linted description.now (symbols_in text.now ts)) }
{
    if !is_linted {
        return Ok(Vec::new(alloc));
    }
    let version = header_version(alloc, text)?;
    let blocks = read_attributes(alloc, text)?;
    lint_attributes(alloc, description, version.as_ref(), blocks.as_slice())
}

/// Finds the words that LIN doesn't have, where they are reported, and then what is odd in the attributes of
/// nodes, where the text is linted.
///
/// An error means out of memory.
fn found_of(
    alloc: Global,
    text: &[u8],
    description: &Description,
    is_reported: bool,
    is_linted: bool,
) -> Result<Vec<Finding>, AllocError>
    ensures read { IfOk result (λ f. f.items ≡ found_read is_reported is_linted description.now
        (symbols_in text.now (start_of text.now).tokens)) }
    ensures tokens { (ts : List Token) → AreTokens text.now ts
        → IfOk result (λ f. f.items ≡ found_read is_reported is_linted description.now
        (symbols_in text.now ts)) }
{
    let mut found = unknown_of(alloc, text, is_reported)?;
    let odd = attributes_of(alloc, text, description, is_linted)?;
    found.extend_from_slice(odd.as_slice())?;
    Ok(found)
}

/// The limits of transfers of an LDF text, if its sections are read for more than a lint.
///
/// An error means out of memory.
fn limits_read(
    alloc: Global,
    text: &[u8],
    encodings: Encodings,
) -> Result<Many<TransferLimits>, AllocError>
    ensures read { IfOk result
        (λ l. l ≡ limits_read encodings (symbols_in text.now (start_of text.now).tokens)) }
    ensures tokens { (ts : List Token) → AreTokens text.now ts
        → IfOk result (λ l. l ≡ limits_read encodings (symbols_in text.now ts)) }
{
    match encodings {
        Encodings::Unread => Ok(Many::new(Vec::new(alloc))),
        Encodings::Read | Encodings::Told => read_transfer_limits(alloc, text),
    }
}

/// Whether words that LIN doesn't have are reported: with `--field`, where there are names of wide signals, and
/// in a text that is linted.
fn reports_unknown(wide: Option<&[Name]>, is_linted: bool) -> bool
    ensures { result ≡ (is_some (option_map (λ w. w.now) wide.entry) || is_linted) }
{
    match wide {
        Some(_) => true,
        None => is_linted,
    }
}

/// Reads what the extras want of the sections of an LDF that says a description; with `--field` the words
/// that LIN doesn't have in any case. `wide` are the names of the wide signals, with `--field`.
///
/// An error means out of memory.
pub(crate) fn sections_of(
    alloc: Global,
    text: &[u8],
    description: &Description,
    wide: Option<&[Name]>,
    extras: Extras,
) -> Result<ExtraSections, AllocError>
    ensures read { IfOk result
        (λ s. s ≡ sections_in wide.entry extras description.now
        (symbols_in text.now (start_of text.now).tokens)) }
    ensures tokens { (ts : List Token) → AreTokens text.now ts
        → IfOk result
        (λ s. s ≡ sections_in wide.entry extras description.now
        (symbols_in text.now ts)) }
{
    let codings = codings_of(alloc, text, wide, are_read(extras))?;
    let configurables = configurables_of(alloc, text, extras.is_linted)?;
    let is_reported = reports_unknown(wide, extras.is_linted);
    let found = found_of(alloc, text, description, is_reported, extras.is_linted)?;
    let limits = limits_read(alloc, text, extras.encodings)?;
    Ok(ExtraSections {
        codings,
        configurables,
        found: Many::new(found),
        limits,
    })
}

/// Warnings, and findings as such, by place and then by number.
///
/// An error means out of memory.
pub(crate) fn with_findings(
    warnings: Many<Remark>,
    findings: &[Finding],
) -> Result<Many<Remark>, AllocError>
    ensures all { IfOk result
        (λ all. IsPermutation (warnings ++ map (remark true) findings.now) all) }
    ensures ordered { IfOk result (λ all. IsSorted remark_cmp all) }
{
    let mut all = warnings.into_vec();
    for finding in findings {
        all.push(Remark {
            finding: *finding,
            is_warning: true,
        })?;
    }
    all.sort()?;
    Ok(Many::new(all))
}

/// The encodings that no signal of a description has, where these are read.
///
/// An error means out of memory.
fn unused_of(
    alloc: Global,
    description: &Description,
    codings: Option<&Codings>,
) -> Result<Vec<Finding>, AllocError>
    ensures { IfOk result (λ found. IsPermutation
        (unused_told description.now (option_map (λ k. k.now) codings.entry)) found.items) }
{
    match codings {
        Some(codings) => unused_encodings(alloc, description, codings),
        None => Ok(Vec::new(alloc)),
    }
}

/// Warnings with what is odd in a description and its encodings, where its text is linted, by place
/// and then by number. `placed_elsewhere` are signals that frames outside the description have.
///
/// An error means out of memory.
pub(crate) fn with_lints(
    alloc: Global,
    warnings: Many<Remark>,
    description: &Description,
    placed_elsewhere: &[Name],
    configurables: Option<Many<Configurable>>,
    codings: Option<&Codings>,
) -> Result<Many<Remark>, AllocError>
    requires { IsSorted remark_cmp warnings }
    ensures all { IfOk result (λ all. AddsLints description.now placed_elsewhere.now configurables
        codings.entry warnings all) }
    ensures ordered { IfOk result (λ all. IsSorted remark_cmp all) }
{
    let Some(configurables) = configurables else {
        return Ok(warnings);
    };
    let found = lint(
        alloc,
        description,
        placed_elsewhere,
        configurables.as_slice(),
    )?;
    let odd = with_findings(warnings, found.as_slice())?;
    let unused = unused_of(alloc, description, codings)?;
    with_findings(odd, unused.as_slice())
}

/// Warnings with what is wrong with encodings, where that is told, by place and then by number.
///
/// An error means out of memory.
fn with_told(
    warnings: Many<Remark>,
    found: &[Finding],
    encodings: Encodings,
) -> Result<Many<Remark>, AllocError>
    requires { IsSorted remark_cmp warnings }
    ensures all { IfOk result
        (λ all. IsPermutation (warnings ++ map (remark true) (reported_findings encodings found.now)) all) }
    ensures ordered { IfOk result (λ all. IsSorted remark_cmp all) }
{
    match encodings {
        Encodings::Unread | Encodings::Read => Ok(warnings),
        Encodings::Told => with_findings(warnings, found),
    }
}

/// What the sections of encodings say, where they aren't read for a lint alone.
fn kept(codings: Option<Codings>, encodings: Encodings) -> Option<Codings>
    ensures { result ≡ codings_kept encodings codings }
{
    match encodings {
        Encodings::Unread => None,
        Encodings::Read | Encodings::Told => codings,
    }
}

/// What the values of a cluster's signals mean by the sections of encodings, where they are kept;
/// and warnings with what is wrong with these, where that is told, by place and then by number.
///
/// An error means out of memory.
#[tactic(auto, using(crate::proofs::Warned::untold))]
fn coded_with(
    alloc: Global,
    cluster: &Cluster,
    codings: Option<Codings>,
    encodings: Encodings,
    warnings: Many<Remark>,
) -> Result<(Option<Coded>, Many<Remark>), AllocError>
    requires { IsSorted remark_cmp warnings }
    ensures coded { IfOk result (λ r. r.0 ≡ coded_read encodings cluster.now codings) }
    ensures warnings { IfOk result
        (λ r. AreWarnings encodings cluster.now codings warnings r.1) }
{
    let Some(codings) = kept(codings, encodings) else {
        return Ok((None, warnings));
    };
    let (coded, found) = coded_by(alloc, cluster, codings)?;
    let all = with_told(warnings, found.as_slice(), encodings)?;
    Ok((Some(coded), all))
}

/// A checked cluster, with the requests of the node configuration commands in a text if that is wanted, and
/// then with what is wrong with the commands among its warnings.
///
/// An error means out of memory.
pub(crate) fn configured(
    alloc: Global,
    checked: Checked,
    extras: Extras,
    text: &[u8],
) -> Result<Checked, Fault>
    requires { IsSorted remark_cmp checked.warnings }
    ensures cluster { IfOk result (λ k. k.cluster ≡ configured_read extras.is_configured
        checked.cluster (symbols_in text.now (start_of text.now).tokens)) }
    ensures warnings { IfOk result (λ k. AddsCommands extras.is_configured checked
        (symbols_in text.now (start_of text.now).tokens) k.warnings) }
    ensures ordered { IfOk result (λ k. IsSorted remark_cmp k.warnings) }
    ensures memory { IfErr result (λ fault. fault ≡ OutOfMemory) }
{
    if !extras.is_configured {
        return Ok(checked);
    }
    let Checked { cluster, warnings } = checked;
    let (cluster, found) = configure(alloc, cluster, text)?;
    let warnings = with_findings(warnings, found.as_slice())?;
    Ok(Checked { cluster, warnings })
}

/// A checked cluster, and what the values of its signals mean by the sections of encodings, where they
/// are read. The notes keep the warnings of its text with those of its encodings, where these are told.
///
/// # Errors
/// `OutOfMemory`.
pub(crate) fn coded_noted(
    alloc: Global,
    checked: Checked,
    codings: Option<Codings>,
    limits: Many<TransferLimits>,
    encodings: Encodings,
    text: &[u8],
    notes: &mut Notes<'_>,
) -> Result<Described, Fault>
    requires { IsSorted remark_cmp checked.warnings }
    ensures cluster { IfOk result (λ d. d.cluster ≡ checked.cluster) }
    ensures coded { IfOk result (λ d. d.coded ≡ coded_read encodings d.cluster codings) }
    ensures limits { IfOk result (λ d. d.limits ≡ node_limits d.cluster limits) }
    ensures warnings { IfOk result
        (λ d. AreWarnings encodings d.cluster codings checked.warnings notes.new.warnings) }
    ensures memory { IfErr result (λ fault. fault ≡ OutOfMemory) }
{
    let Checked { cluster, warnings } = checked;
    let (coded, warnings) = coded_with(alloc, &cluster, codings, encodings, warnings)?;
    notes.add_remarks(alloc, text, warnings.as_slice())?;
    notes.keep_warnings(warnings);
    let limits = node_limits(alloc, &cluster, limits.as_slice())?;
    Ok(Described {
        cluster,
        coded,
        limits,
    })
}
