//! The lines of a bench script, with long lines, parameters and repetition resolved while it is read.

ghost use Rattle.std.specs.Prelude.{◌≡◌, ◌≤◌, ◌<◌, ◌+◌, ◌-◌, ℕ, [], Err, IfOk, List, OnOk, length, map, take};
ghost use Rattle.std.specs.Bool.{OnTrue};
ghost use Rattle.std.specs.List.{list_any};
ghost use Rattle.lin_log.specs.Judged.{left_length};
ghost use Rattle.lin_bench.specs.Fields.{line_fields, maybe_text};
ghost use Rattle.lin_bench.specs.LineWords.{fields_text};
ghost use Rattle.lin_bench.specs.Parts.{fields_of};
ghost use Rattle.lin_bench.specs.Read.{Fails, Gives};
ghost use Rattle.lin_bench.specs.declared.reason.Reason.TheVariants.{LongFile, Unread};
ghost use Rattle.lin_bench.specs.Files.{source_data};
ghost use Rattle.lin_bench.specs.Resolved.{Act as Done, act_of, act_of_fields, act_of_text, alone_or_joined, bad_act, begun, end_act, ended, file_uses, has_name, include_act, included, is_used, place_in, replaced_text, unless_open};
ghost use Rattle.lin_bench.specs.Resolved.Act.{IncludeFile};
ghost use Rattle.lin_bench.specs.Resolved.{items, missing_file, missing_in, names_parameter, parameter_said};
ghost use Rattle.lin_bench.specs.Resolved.{repeat_act, set_act, sets_name};
ghost use Rattle.lin_bench.specs.Resolved.{text_uses, text_within, uses_in};
ghost use Rattle.lin_bench.specs.Written.{goes_on, is_said, part_fields, written_fields, written_lines};
ghost use Rattle.lin_bench.specs.Resolving.{act_done, alone, DoesAct, DoesLine, GivesAct, GivesItem, GivesItemOrEnd, IsAtEnd, IsWhole, KeepsLeft, LeavesFile, NotDone as NotDoneAs};
ghost use Rattle.lin_bench.specs.Resolving.{TakesLine, TakesUnended, bad_unless, fields_of_line, file_opened, following, item_of, items_left, open_file_of, steps_left, text_of_line, written_of};
ghost use Rattle.lin_bench.specs.declared.resolving.Undone.TheVariants.{OutOfMemory as NotDone};

use crate::fault::LineFault;
use crate::fields::{Fields, count_field};
use crate::files::{FileText, MOST_BYTES, ScriptFile, Source, file_name, find_file, included_name};
use crate::parameters::{
    Parameter, Parameters, has_name, name_a_parameter, parameter_said, set_parameter,
};
use crate::place::LinePlace;
use crate::reason::Reason;
use crate::said_values::{add_spaced, joined};
use crate::script::without_mark;
use lin_log::{first_line, is_over, without_return};
use lin_parts::Cluster;
use lin_text::{Many, Text};
use std::alloc::{AllocError, Global};
use std::mem;

/// How many lines are read beside those that a script has.
const MORE_LINES: usize = 1_000_000;

/// How many files may be open beside the script's own one, each included by the one before it.
const DEEPEST: usize = 16;

/// A line that has fields, with the lines that follow in place of `\`: the number of the first one, and
/// their text.
#[derive(Clone, Copy)]
struct WrittenLine<'a> {
    number: u64,
    text: &'a [u8],
}

/// Whether a line says something: it has a field, and isn't a reply of a log.
fn is_said(cluster: &Cluster, line: &[u8]) -> bool
    ensures { result ≡ is_said line.now }
{
    !matches!(line, [b'>', ..]) && !is_over(cluster, line)
}

/// Whether the last field of a line is `\`.
fn goes_on(cluster: &Cluster, line: &[u8]) -> bool
    ensures { result ≡ goes_on line.now }
{
    match Fields::of(cluster, line).last() {
        Some((_, last)) => last == b"\\".as_slice(),
        None => false,
    }
}

/// The fields of one line, without `\` at its end.
fn part_fields<'a>(cluster: &'a Cluster, part: &'a [u8]) -> Fields<'a>
    ensures { fields_of result ≡ part_fields part.now }
{
    let all = Fields::of(cluster, part);
    if goes_on(cluster, part) {
        all.take(all.len().saturating_sub(1))
    } else {
        all
    }
}

/// The text that follows a line in place of `\`, if it goes on.
fn following<'a>(cluster: &Cluster, line: &[u8], rest: Option<&'a [u8]>) -> Option<&'a [u8]>
    ensures { maybe_text result ≡ following line.now (maybe_text rest.entry) }
{
    if goes_on(cluster, without_return(line)) {
        rest
    } else {
        None
    }
}

/// The text before what is left of it after an LF; all of it if nothing is left.
fn text_before<'a>(text: &'a [u8], rest: Option<&[u8]>) -> &'a [u8]
    requires { left_length rest ≤ length text.now }
    ensures { result.now ≡ take (length text.now - left_length rest.entry) text.now }
{
    let after = match rest {
        Some(rest) => rest.len() + 1,
        None => 0,
    };
    &text[..text.len() - after]
}

/// The first line of a text with those that follow in place of `\`, how many lines these are, and the text
/// after them.
fn whole_line<'a>(cluster: &Cluster, text: &'a [u8]) -> (&'a [u8], u64, Option<&'a [u8]>)
    ensures whole { IsWhole text.now result.0.now result.1 result.2 }
    ensures some { 1 ≤ result.1 }
    ensures few { result.1 + left_length result.2 ≤ length text.now + 1 }
{
    let (first, after) = first_line(text);
    let mut line = first;
    let mut rest = after;
    let mut count = 1;
    while let Some(more) = following(cluster, line, rest) {
        let (next, after) = first_line(more);
        line = next;
        rest = after;
        count += 1;
    }
    (text_before(text, rest), count, rest)
}

/// The lines of a text that have fields. An error means out of memory.
fn written_lines<'a>(
    alloc: Global,
    cluster: &Cluster,
    text: &'a [u8],
) -> Result<Vec<WrittenLine<'a>>, AllocError>
    ensures { IfOk result (λ v. map written_of v.items ≡ written_lines text.now) }
{
    let mut lines = Vec::new(alloc);
    let mut left = Some(without_mark(text));
    let mut number = 1;
    while let Some(text) = left {
        let (line, rest) = first_line(text);
        if is_said(cluster, without_return(line)) {
            let (text, count, rest) = whole_line(cluster, text);
            lines.push(WrittenLine { number, text })?;
            number += count;
            left = rest;
        } else {
            number += 1;
            left = rest;
        }
    }
    Ok(lines)
}

impl<'a> WrittenLine<'a> {
    /// The line alone, if no other one follows in place of `\`.
    fn alone(self) -> Option<&'a [u8]>
        ensures { maybe_text result ≡ alone (written_of self.entry).parts }
    {
        let (line, rest) = first_line(self.text);
        match rest {
            None => Some(without_return(line)),
            Some(_) => None,
        }
    }

    /// The fields, without `\` at the ends of lines, with one space between two. An error means out of memory.
    fn joined(self, alloc: Global, cluster: &Cluster) -> Result<Vec<u8>, AllocError>
        ensures { IfOk result (λ v. v.items ≡ fields_text (written_fields (written_of self.entry))) }
    {
        let mut all = Vec::new(alloc);
        let mut left = Some(self.text);
        while let Some(text) = left {
            let (part, rest) = first_line(text);
            let fields = part_fields(cluster, without_return(part));
            if all.is_empty() {
                all = joined(alloc, fields)?;
            } else {
                add_spaced(&mut all, fields)?;
            }
            left = rest;
        }
        Ok(all)
    }

    /// The text: the line, or the fields of several lines. An error means out of memory.
    fn text(self, alloc: Global, cluster: &Cluster) -> Result<LineText<'a>, AllocError>
        ensures text { IfOk result (λ t. text_of_line t
            ≡ alone_or_joined (written_of self.entry).parts (written_fields (written_of self.entry))) }
        ensures fields { IfOk result (λ t. fields_of_line t ≡ written_fields (written_of self.entry)) }
    {
        match self.alone() {
            Some(text) => Ok(LineText::Written(text)),
            None => Ok(LineText::Resolved(self.joined(alloc, cluster)?)),
        }
    }
}

/// What a line does while the script is read.
#[derive(Drop)]
enum Act {
    /// It is for the play.
    Say,
    Set(Parameter),
    /// The lines up to `end` are read so many times.
    Repeat(u32),
    End,
    /// The lines of a file with this name are here.
    Include(Text),
}

/// Why a line does nothing: it is bad, as another line, as one that begins a block or as one that ends a block.
#[derive(Drop)]
enum Undone {
    Line(Reason),
    Repeat(Reason),
    End(Reason),
    OutOfMemory,
}

impl From<AllocError> for Undone {
    ghost from_gives = { λ _ e. e ≡ NotDone };

    fn from(_: AllocError) -> Undone {
        Undone::OutOfMemory
    }
}

/// A parameter, by the fields after `set`.
fn set(alloc: Global, fields: Fields<'_>) -> Result<Act, Undone>
    ensures { (text : List ℕ) → DoesAct result text (set_act (parameter_said (fields_of fields.entry))) }
{
    match parameter_said(alloc, fields) {
        Ok(parameter) => Ok(Act::Set(parameter)),
        Err(LineFault::Bad(reason)) => Err(Undone::Line(reason)),
        Err(LineFault::OutOfMemory) => Err(Undone::OutOfMemory),
    }
}

/// A block, by the fields after `repeat`.
fn repeat(alloc: Global, fields: Fields<'_>) -> Result<Act, Undone>
    ensures { (text : List ℕ) → DoesAct result text (repeat_act (fields_of fields.entry)) }
{
    let Some(count) = fields.one() else {
        return Err(Undone::Repeat(Reason::RepeatForm));
    };
    match count_field(alloc, count) {
        Ok(times) => Ok(Act::Repeat(times)),
        Err(LineFault::Bad(reason)) => Err(Undone::Repeat(reason)),
        Err(LineFault::OutOfMemory) => Err(Undone::OutOfMemory),
    }
}

/// The end of a block, by the fields after `end`.
fn end(alloc: Global, fields: Fields<'_>) -> Result<Act, Undone>
    ensures { (text : List ℕ) → DoesAct result text (end_act (fields_of fields.entry)) }
{
    if fields.is_empty() {
        return Ok(Act::End);
    }
    Err(Undone::End(Reason::Step(lin_log::Reason::Takes {
        word: Text::copied(alloc, b"end")?,
        fields: 0,
    })))
}

/// A file, by the fields after `include`.
fn include(alloc: Global, fields: Fields<'_>) -> Result<Act, Undone>
    ensures { (text : List ℕ) → DoesAct result text (include_act (fields_of fields.entry)) }
{
    if fields.is_empty() {
        return Err(Undone::Line(Reason::IncludeForm));
    }
    let name = joined(alloc, fields)?;
    Ok(Act::Include(Text::copied(alloc, name.as_slice())?))
}

/// What a line with these fields does.
fn act_of_fields(alloc: Global, fields: Fields<'_>) -> Result<Act, Undone>
    ensures { (text : List ℕ) → DoesAct result text (act_of_fields text (fields_of fields.entry)) }
{
    let Some((word, rest)) = fields.first() else {
        return Ok(Act::Say);
    };
    if word == b"set".as_slice() {
        set(alloc, rest)
    } else if word == b"repeat".as_slice() {
        repeat(alloc, rest)
    } else if word == b"end".as_slice() {
        end(alloc, rest)
    } else if word == b"include".as_slice() {
        include(alloc, rest)
    } else {
        Ok(Act::Say)
    }
}

/// Why a line with these fields does nothing, whose parameters can't be replaced.
fn undone_by(fields: Fields<'_>, reason: Reason) -> Undone
    ensures { NotDoneAs result (bad_act (fields_of fields.entry) reason) }
{
    let Some((word, _)) = fields.first() else {
        return Undone::Line(reason);
    };
    if word == b"repeat".as_slice() {
        Undone::Repeat(reason)
    } else if word == b"end".as_slice() {
        Undone::End(reason)
    } else {
        Undone::Line(reason)
    }
}

/// What a line with this text does.
fn act_of_text(alloc: Global, cluster: &Cluster, text: &[u8]) -> Result<Act, Undone>
    ensures { DoesAct result text.now (act_of_fields text.now (line_fields text.now)) }
{
    act_of_fields(alloc, Fields::of(cluster, text))
}

/// A block that is open: the number of its `repeat`, the index of its first line, and how many times it is
/// read again.
#[derive(Clone, Copy)]
struct Block {
    number: u64,
    first: usize,
    again: u32,
}

/// The text of a line: as it is written, or with what was resolved.
#[derive(Drop)]
pub(crate) enum LineText<'a> {
    Written(&'a [u8]),
    Resolved(Vec<u8>),
}

impl LineText<'_> {
    pub(crate) fn as_slice(&self) -> &[u8]
        ensures { result.now ≡ text_of_line self.now }
    {
        match self {
            LineText::Written(text) => *text,
            LineText::Resolved(text) => text.as_slice(),
        }
    }

    /// The fields, without `\` at the end of a line.
    fn fields<'l>(&'l self, cluster: &'l Cluster) -> Fields<'l>
        ensures { fields_of result ≡ fields_of_line self.now }
    {
        match self {
            LineText::Written(text) => part_fields(cluster, *text),
            LineText::Resolved(text) => Fields::of(cluster, text.as_slice()),
        }
    }
}

/// A line that is for the play, or why a line is bad.
#[derive(Drop)]
pub(crate) enum Item<'a> {
    Line(LineText<'a>),
    Bad(Reason),
}

/// A file that is read: its number, its lines, which one is next, and the blocks that are open. If it is
/// included, there is also the number of the line of the script's own file by which it is.
#[derive(Drop)]
struct OpenFile<'a> {
    file: usize,
    by: Option<u64>,
    lines: Vec<WrittenLine<'a>>,
    next: usize,
    blocks: Vec<Block>,
}

impl<'a> OpenFile<'a> {
    /// Begins with a text. An error means out of memory.
    fn new(
        alloc: Global,
        cluster: &Cluster,
        file: usize,
        by: Option<u64>,
        text: &'a [u8],
    ) -> Result<OpenFile<'a>, AllocError>
        ensures whole { IfOk result (λ f. open_file_of f ≡ file_opened file by text.now) }
        ensures start { IfOk result (λ f. f.next ≡ 0) }
    {
        Ok(OpenFile {
            file,
            by,
            lines: written_lines(alloc, cluster, text)?,
            next: 0,
            blocks: Vec::new(alloc),
        })
    }

    /// The line that is next, after which another one is.
    fn step(&mut self) -> Option<WrittenLine<'a>>
        ensures { TakesLine result (open_file_of self.old) (open_file_of self.new) }
    {
        let line = self.lines.as_slice().get(self.next).copied()?;
        self.next += 1;
        Some(line)
    }

    /// The place of the line with a number. It is in no test.
    fn place(&self, number: u64) -> LinePlace
        ensures { result ≡ place_in (open_file_of self.now) number }
    {
        LinePlace {
            file: self.file,
            line: number,
            own: self.by.unwrap_or(number),
            test: 0,
        }
    }

    /// Begins a block after a line, which is read again so many times. An error means out of memory.
    fn begin(&mut self, number: u64, again: u32) -> Result<(), AllocError>
        ensures { OnOk result (open_file_of self.new ≡ begun (open_file_of self.old) number again) }
    {
        self.blocks.push(Block {
            number,
            first: self.next,
            again,
        })?;
        Ok(())
    }

    /// Ends the innermost block, or goes back to its first line. Returns whether there is a block.
    fn end(&mut self) -> bool
        ensures ended { open_file_of self.new ≡ ended (open_file_of self.old) }
        ensures answer { (p : LinePlace) → unless_open p (open_file_of self.old).blocks ≡ bad_unless result p }
    {
        let Some(block) = self.blocks.as_slice().last().copied() else {
            return false;
        };
        if block.again == 0 {
            let _ = self.blocks.pop();
        } else {
            self.next = block.first;
            let again = block.again - 1;
            let last = self.blocks.len() - 1;
            self.blocks[last] = Block { again, ..block };
        }
        true
    }

    /// The next block that isn't ended at the end of the file, the outermost first.
    fn unended(&mut self) -> Option<(LinePlace, Item<'a>)>
        ensures { TakesUnended result (open_file_of self.old) (open_file_of self.new) }
    {
        if self.blocks.is_empty() {
            return None;
        }
        let block = self.blocks.remove(0);
        Some((
            self.place(block.number),
            Item::Bad(Reason::RepeatWithoutEnd),
        ))
    }

    /// Leaves the lines that are left, and the blocks that are open.
    fn stop(&mut self, alloc: Global)
        ensures { open_file_of self.new ≡ record (open_file_of self.old) { blocks = []; lines = [] } }
    {
        self.next = self.lines.len();
        self.blocks = Vec::new(alloc);
    }
}

/// The fault of a line that includes a file under this name, which isn't read.
fn unread(alloc: Global, name: &[u8]) -> LineFault
    ensures { Fails {Y = ℕ × List ℕ} result (Err (Unread name.now)) }
{
    match Text::copied(alloc, name) {
        Ok(name) => LineFault::Bad(Reason::Unread(name)),
        Err(_) => LineFault::OutOfMemory,
    }
}

/// The fault of a line with whose file, included under this name, the script is too long.
fn too_long(alloc: Global, name: &[u8]) -> LineFault
    ensures { Fails {Y = ℕ × List ℕ} result (Err (LongFile name.now)) }
{
    match Text::copied(alloc, name) {
        Ok(name) => LineFault::Bad(Reason::LongFile(name)),
        Err(_) => LineFault::OutOfMemory,
    }
}

/// The text of a file that is included under a name, if it has at most so many bytes.
///
/// # Errors
/// `Bad` with `Unread` or `LongFile`; `OutOfMemory`.
fn text_within<'a>(
    alloc: Global,
    room: usize,
    name: &[u8],
    text: &'a FileText,
) -> Result<&'a [u8], LineFault>
    ensures { (n : ℕ) → Gives (λ t. (n, t.now)) result (text_within room name.now n text.now) }
{
    match text {
        FileText::Read(text) => {
            if text.as_slice().len() <= room {
                Ok(text.as_slice())
            } else {
                Err(too_long(alloc, name))
            }
        }
        FileText::Unread => Err(unread(alloc, name)),
        FileText::TooLong => Err(too_long(alloc, name)),
    }
}

/// A bench script that is read: the file whose lines are next, those that include it, how many lines may
/// still be read, how many bytes may still be included, and its parameters.
#[derive(Drop)]
pub(crate) struct ScriptReader<'a> {
    source: Source<'a>,
    file: OpenFile<'a>,
    outer: Vec<OpenFile<'a>>,
    left: usize,
    room: usize,
    sets: Many<Parameter>,
}

impl<'a> ScriptReader<'a> {
    /// Begins with a script. An error means out of memory.
    pub(crate) fn new(
        alloc: Global,
        cluster: &Cluster,
        source: Source<'a>,
    ) -> Result<ScriptReader<'a>, AllocError>
        requires { length source.text.now ≤ 16777216 }
        ensures { IfOk result (λ r. items_left r ≡ items (source_data source.entry)) }
    {
        let file = OpenFile::new(alloc, cluster, 0, None, source.text)?;
        let left = file.lines.len() + MORE_LINES;
        Ok(ScriptReader {
            source,
            file,
            outer: Vec::new(alloc),
            left,
            room: MOST_BYTES - source.text.len(),
            sets: Many::new(Vec::new(alloc)),
        })
    }

    /// What a line with these fields does, with texts in place of parameters, and its text.
    fn act_replaced(
        &self,
        alloc: Global,
        cluster: &Cluster,
        fields: Fields<'_>,
    ) -> Result<(Act, LineText<'a>), Undone>
        ensures { GivesAct result (act_of_text (fields_of fields.entry)
            (replaced_text self.now.source.given.now self.now.sets (fields_of fields.entry))) }
    {
        let parameters = Parameters {
            given: self.source.given,
            sets: self.sets.as_slice(),
        };
        match parameters.replaced(alloc, fields) {
            Ok(text) => {
                let act = act_of_text(alloc, cluster, text.as_slice())?;
                Ok((act, LineText::Resolved(text)))
            }
            Err(LineFault::Bad(reason)) => Err(undone_by(fields, reason)),
            Err(LineFault::OutOfMemory) => Err(Undone::OutOfMemory),
        }
    }

    /// What a line does, and its text.
    fn act(
        &self,
        alloc: Global,
        cluster: &Cluster,
        line: WrittenLine<'a>,
    ) -> Result<(Act, LineText<'a>), Undone>
        ensures { GivesAct result (act_of self.now.source.given.now self.now.sets (written_of line.entry)) }
    {
        let text = line.text(alloc, cluster)?;
        if name_a_parameter(text.fields(cluster)) {
            return self.act_replaced(alloc, cluster, text.fields(cluster));
        }
        let act = act_of_text(alloc, cluster, text.as_slice())?;
        Ok((act, text))
    }

    /// The file that a line includes under a name, and its text.
    ///
    /// # Errors
    /// `Bad` with `Unread` or `LongFile`; `OutOfMemory`.
    fn included(&self, alloc: Global, name: &[u8]) -> Result<(usize, &'a [u8]), LineFault>
        ensures { Gives (λ f. (f.0, f.1.now)) result
            (included (source_data self.now.source) self.now.room self.now.file.file name.now) }
    {
        let includer = file_name(self.source.name, self.source.files, self.file.file);
        let whole = included_name(alloc, includer, name)?;
        match find_file(self.source.files, whole.as_slice()) {
            Some((number, text)) => {
                let text = text_within(alloc, self.room, whole.as_slice(), text)?;
                Ok((number, text))
            }
            None => Err(unread(alloc, whole.as_slice())),
        }
    }

    /// Goes on with the lines of a file, which the line with a number includes. Returns why the line is bad,
    /// if it is; nothing is read after a file that isn't read. An error means out of memory.
    fn include(
        &mut self,
        alloc: Global,
        cluster: &Cluster,
        number: u64,
        name: &[u8],
    ) -> Result<Option<Reason>, AllocError>
        ensures does { DoesLine result (λ why. Err why) self.old self.new number (IncludeFile name.now) }
        ensures left { OnOk result (KeepsLeft self.old self.new) }
    {
        if self.outer.len() == DEEPEST {
            return Ok(Some(Reason::IncludeDepth));
        }
        match self.included(alloc, name) {
            Ok((file, text)) => {
                let by = self.file.by.unwrap_or(number);
                let inner = OpenFile::new(alloc, cluster, file, Some(by), text)?;
                self.outer.push(mem::replace(&mut self.file, inner))?;
                self.room -= text.len();
                Ok(None)
            }
            Err(LineFault::Bad(reason)) => {
                self.stop(alloc);
                Ok(Some(reason))
            }
            Err(LineFault::OutOfMemory) => Err(AllocError),
        }
    }

    /// Leaves all lines that are left.
    fn stop(&mut self, alloc: Global)
        ensures none { items_left self.new ≡ [] }
        ensures left { KeepsLeft self.old self.new }
        ensures fewer { steps_left self.new ≤ steps_left self.old }
    {
        self.file.stop(alloc);
        self.outer = Vec::new(alloc);
    }

    /// Goes on with the file that includes the one whose lines are read. Returns whether there is one.
    fn leave(&mut self) -> bool
        requires { IsAtEnd self.old.file }
        ensures leaves { LeavesFile result self.old self.new }
        ensures fewer { OnTrue result (steps_left self.new < steps_left self.old) }
    {
        match self.outer.pop() {
            Some(file) => {
                self.file = file;
                true
            }
            None => false,
        }
    }

    /// Does what the line with a number and a text does, and returns what it says, if it is for the play or bad.
    /// An error means out of memory.
    fn do_act(
        &mut self,
        alloc: Global,
        cluster: &Cluster,
        number: u64,
        act: Act,
        text: LineText<'a>,
    ) -> Result<Option<Item<'a>>, AllocError>
        ensures does { DoesLine result item_of self.old self.new number (act_done act (text_of_line text.entry)) }
        ensures left { OnOk result (KeepsLeft self.old self.new) }
    {
        match act {
            Act::Say => Ok(Some(Item::Line(text))),
            Act::Set(parameter) => {
                set_parameter(&mut self.sets, parameter)?;
                Ok(None)
            }
            Act::Repeat(times) => {
                self.file.begin(number, times.saturating_sub(1))?;
                Ok(None)
            }
            Act::End => {
                if self.file.end() {
                    Ok(None)
                } else {
                    Ok(Some(Item::Bad(Reason::EndWithoutRepeat)))
                }
            }
            Act::Include(name) => match self.include(alloc, cluster, number, name.as_slice())? {
                Some(reason) => Ok(Some(Item::Bad(reason))),
                None => Ok(None),
            },
        }
    }

    /// Leaves out the line with a number, and returns why. A bad `repeat` still begins a block, and a bad `end`
    /// ends one. An error means out of memory.
    fn leave_out(&mut self, number: u64, undone: Undone) -> Result<Option<Item<'a>>, AllocError>
        ensures does { (done : Done) → NotDoneAs undone done → DoesLine result item_of self.old self.new number done }
        ensures left { OnOk result (KeepsLeft self.old self.new) }
    {
        match undone {
            Undone::Line(reason) => Ok(Some(Item::Bad(reason))),
            Undone::Repeat(reason) => {
                self.file.begin(number, 0)?;
                Ok(Some(Item::Bad(reason)))
            }
            Undone::End(reason) => {
                let _ = self.file.blocks.pop();
                Ok(Some(Item::Bad(reason)))
            }
            Undone::OutOfMemory => Err(AllocError),
        }
    }

    /// Does what a line does, and returns what it says, if it is for the play or bad. An error means out of
    /// memory.
    fn take(
        &mut self,
        alloc: Global,
        cluster: &Cluster,
        line: WrittenLine<'a>,
    ) -> Result<Option<Item<'a>>, AllocError>
        ensures does { DoesLine result item_of self.old self.new line.entry.number
            (act_of self.old.source.given.now self.old.sets (written_of line.entry)) }
        ensures left { OnOk result (KeepsLeft self.old self.new) }
    {
        match self.act(alloc, cluster, line) {
            Ok((act, text)) => self.do_act(alloc, cluster, line.number, act, text),
            Err(undone) => self.leave_out(line.number, undone),
        }
    }

    /// The next line that is for the play, or that is bad, with its place, up to the end of the file whose
    /// lines are read, or of one that it includes. An error means out of memory.
    fn next_in_file(
        &mut self,
        alloc: Global,
        cluster: &Cluster,
    ) -> Result<Option<(LinePlace, Item<'a>)>, AllocError>
        ensures gives { GivesItemOrEnd result self.old self.new }
        ensures fewer { OnOk result (steps_left self.new ≤ steps_left self.old) }
    {
        while let Some(line) = self.file.step() {
            let place = self.file.place(line.number);
            if self.left == 0 {
                self.stop(alloc);
                return Ok(Some((place, Item::Bad(Reason::TooManyLines))));
            }
            self.left -= 1;
            if let Some(item) = self.take(alloc, cluster, line)? {
                return Ok(Some((place, item)));
            }
        }
        Ok(self.file.unended())
    }

    /// The next line that is for the play, or that is bad, with its place; none after the last one. An error
    /// means out of memory.
    pub(crate) fn next(
        &mut self,
        alloc: Global,
        cluster: &Cluster,
    ) -> Result<Option<(LinePlace, Item<'a>)>, AllocError>
        ensures { GivesItem result (items_left self.old) (items_left self.new) }
    {
        'files: loop {
            if let Some(item) = self.next_in_file(alloc, cluster)? {
                return Ok(Some(item));
            }
            if !self.leave() {
                return Ok(None);
            }
        }
    }
}

/// Whether a line with these fields sets the parameter with a name.
fn sets_name(fields: Fields<'_>, name: &[u8]) -> bool
    ensures { result ≡ sets_name name.now (fields_of fields.entry) }
{
    let Some((word, others)) = fields.first() else {
        return false;
    };
    match others.first() {
        Some((field, _)) => word == b"set".as_slice() && field == name,
        None => false,
    }
}

/// Whether the parameter with a name is in one of these fields.
fn is_name_in(fields: Fields<'_>, name: &[u8]) -> bool
    ensures { result ≡ list_any (has_name name.now) (fields_of fields.entry) }
{
    let mut left = fields;
    while let Some((field, rest)) = left.first() {
        if has_name(field, name) {
            return true;
        }
        left = rest;
    }
    false
}

/// Whether a line with these fields sets the parameter with a name, or has it in a field.
fn uses_name(fields: Fields<'_>, name: &[u8]) -> bool
    ensures { result ≡ uses_in name.now (fields_of fields.entry) }
{
    sets_name(fields, name) || is_name_in(fields, name)
}

/// Whether a line of a text sets the parameter with a name, or has it in a field. An error means out of
/// memory.
fn text_uses(alloc: Global, cluster: &Cluster, text: &[u8], name: &[u8]) -> Result<bool, AllocError>
    ensures { IfOk result (λ used. used ≡ text_uses text.now name.now) }
{
    let lines = written_lines(alloc, cluster, text)?;
    for line in lines.as_slice() {
        let whole = line.text(alloc, cluster)?;
        if uses_name(whole.fields(cluster), name) {
            return Ok(true);
        }
    }
    Ok(false)
}

/// Whether a line of a file sets the parameter with a name, or has it in a field. An error means out of
/// memory.
fn file_uses(
    alloc: Global,
    cluster: &Cluster,
    file: &ScriptFile,
    name: &[u8],
) -> Result<bool, AllocError>
    ensures { IfOk result (λ used. used ≡ file_uses name.now file.now) }
{
    match &file.text {
        FileText::Read(text) if text.as_slice().len() <= MOST_BYTES => {
            text_uses(alloc, cluster, text.as_slice(), name)
        }
        _ => Ok(false),
    }
}

/// Returns whether a line of a bench script, or of a file that it includes, sets the parameter with a name,
/// or has it in a field. An error means out of memory.
pub fn uses_parameter(
    alloc: Global,
    cluster: &Cluster,
    source: Source<'_>,
    name: &[u8],
) -> Result<bool, AllocError>
    requires { length source.text.now ≤ 16777216 }
    ensures { IfOk result (λ used. used ≡ is_used (source_data source.entry) name.now) }
{
    if text_uses(alloc, cluster, source.text, name)? {
        return Ok(true);
    }
    for file in source.files {
        if file_uses(alloc, cluster, file, name)? {
            return Ok(true);
        }
    }
    Ok(false)
}

/// Returns the name of the first file that the lines of a bench script include and that isn't among its files.
/// An error means out of memory.
pub fn missing_file(
    alloc: Global,
    cluster: &Cluster,
    source: Source<'_>,
) -> Result<Option<Text>, AllocError>
    requires { length source.text.now ≤ 16777216 }
    ensures { IfOk result (λ name. name ≡ missing_file (source_data source.entry)) }
{
    let mut script = ScriptReader::new(alloc, cluster, source)?;
    while let Some((_, item)) = script.next(alloc, cluster)? {
        let missing = missing_name(source.files, item);
        if missing.is_some() {
            return Ok(missing);
        }
    }
    Ok(None)
}

/// The name under which a bad line includes a file that isn't among these.
fn name_of_missing(files: &[ScriptFile], reason: Reason) -> Option<Text>
    ensures { result ≡ missing_in files.now (Err reason) }
{
    let name = reason.unread_file()?;
    if find_file(files, name.as_slice()).is_some() {
        None
    } else {
        Some(name)
    }
}

/// The name under which a line includes a file that isn't among these.
fn missing_name(files: &[ScriptFile], item: Item<'_>) -> Option<Text>
    ensures { result ≡ missing_in files.now (item_of item.entry) }
{
    match item {
        Item::Line(_) => None,
        Item::Bad(reason) => name_of_missing(files, reason),
    }
}
