//! A bench that a hand holds.

ghost use Rattle.std.specs.Prelude.{◌≡◌, ◌≤◌, ◌||◌, [], IfOk, IfSome, None, if◌then◌else◌};
ghost use Rattle.std.specs.Prelude.{length, option_map, reverse, true};
ghost use Rattle.std.specs.Option.{option_map_or};
ghost use Rattle.lin_bench.specs.Marks.{IsMarkOf, state_at};
ghost use Rattle.lin_bench.specs.Read.{Gives as ReadsLine};
ghost use Rattle.lin_bench.specs.Resolved.{replaced_line};
ghost use Rattle.lin_bench.specs.Words.{read_worded_line};
ghost use Rattle.lin_bench.specs.Written.{without_mark};
ghost use Rattle.lin_live.specs.Asked.{IsAskable};
ghost use Rattle.lin_live.specs.Hand.{IsOpening};
ghost use Rattle.lin_live.specs.Held.{IsBoxedTrack, IsBoxedTrackOf, IsKept, earlier, entries_from, line_text};
ghost use Rattle.lin_live.specs.Serving.{WritesAlone, WritesAnswer};
ghost use Rattle.lin_live.specs.Told.{Fine, HandData, Is, IsFullFor, asked_value, bad_reply, ending_text};
ghost use Rattle.lin_live.specs.Told.{heard_reply, is_limit, is_unmet_verdict};
ghost use Rattle.lin_live.specs.Told.{verdict_with_meaning, without_byte_order_mark};
ghost use Rattle.lin_live.specs.Values.{IsBoxedKeptOf, KeepsLastSlot, as_said};
ghost use Rattle.lin_live.specs.declared.answer_format.AnswerFormat.TheVariants.{Jsonl, Named};
ghost use Rattle.lin_live.specs.Heard.Heard.{Make, SetParameter};

use crate::answer_format::AnswerFormat;
use crate::answer_objects::{
    line_ending, with_objects, write_bad_object, write_line_object, write_object,
    write_value_object,
};
use crate::answer_texts::{
    with_names, write_bad, write_line, write_named_line, write_ok, write_value,
};
use crate::answer_value::{AnswerValue, value_of};
use crate::fault::Fault;
use crate::question::Question;
use crate::reason::Reason;
use lin_bench::{
    Bench, Mark, NodeLimits, Parameter, ScriptLine, Verdict, read_worded_line, replaced_line,
    set_parameter, told_meaning, without_mark,
};
use lin_core::{Core, Log};
use lin_export::{LastSlot, ObjectTrack, Opening, Track};
use lin_parts::Cluster;
use lin_text::{Many, TextBuffer};
use lin_values::Coded;
use std::alloc::{AllocError, Global};
use std::io::Write;
use std::marker::Model;

/// An interactive session without its marks: a bench that answers lines of scripts and questions. Contracts
/// see the format of its answers, the cluster, what the core was opened with, the encodings and whether
/// answers have physical values, the parameters, the log, consumed events, whether there was a line, and
/// whether one was bad or an expectation failed.
#[derive(Drop)]
pub(crate) struct HeldBench {
    bench: Bench,
    format: AnswerFormat,
    /// The encodings of the signals, if they are known.
    coded: Option<Coded>,
    /// The limits of transfers in the LDF.
    limits: Many<NodeLimits>,
    /// Whether answers also have physical values.
    is_physical: bool,
    /// The parameters that lines have set.
    sets: Many<Parameter>,
    /// The state for writing further entries with names, if it is kept; in a box, since each line moves it.
    track: Option<Box<Track>>,
    /// The same for objects.
    objects: Option<Box<ObjectTrack>>,
    /// The slot that had ended last when it was last asked for.
    last_slot: Option<Box<LastSlot>>,
    /// Whether there was a line.
    begun: bool,
    was_bad: bool,
    was_unmet: bool,
}

impl Model for HeldBench {
    ghost use Rattle.lin_live.specs.Told.{HandData};

    ghost Value = { HandData };

    ghost use Rattle.lin_live.specs.Held.{IsFollowed, held_data};

    ghost view = { held_data };

    ghost invariant = { IsFollowed };
}

/// The tracks of the entries of a log before one, if they are at hand.
#[derive(Drop)]
struct KeptTracks {
    /// The place of this entry, from which on entries are written.
    from: usize,
    track: Option<Box<Track>>,
    objects: Option<Box<ObjectTrack>>,
}

/// Whether a line made more slots than a line may.
fn is_limit(verdict: &Verdict) -> bool
    ensures { result ≡ is_limit verdict.now }
{
    match verdict {
        Verdict::SlotLimit => true,
        Verdict::Nothing | Verdict::Met(_) | Verdict::Unmet(_, _) => false,
    }
}

/// Whether what a line expects isn't so.
fn is_unmet(verdict: &Verdict) -> bool
    ensures { result ≡ is_unmet_verdict verdict.now }
{
    match verdict {
        Verdict::Unmet(_, _) => true,
        Verdict::Nothing | Verdict::Met(_) | Verdict::SlotLimit => false,
    }
}

/// A line without the byte order mark at its beginning.
fn without_its_mark(line: Option<&[u8]>) -> Option<&[u8]>
    ensures { option_map (λ l. l.now) result
        ≡ option_map without_mark (option_map (λ l. l.now) line.entry) }
{
    Some(without_mark(line?))
}

/// Returns the encodings, if answers have physical values.
fn told_coding(coded: Option<&Coded>, is_physical: bool) -> Option<&Coded>
    ensures { option_map (λ k. k.now) result
        ≡ (if is_physical then option_map (λ k. k.now) coded.entry else None) }
{
    if is_physical { coded } else { None }
}

impl HeldBench {
    ghost use Rattle.lin_live.specs.Held.{new_hand};

    /// Returns a session over a core with an empty log, whose answers have this format. With
    /// encodings, lines may have physical values; with `is_physical`, answers also have them.
    pub(crate) fn new(
        alloc: Global,
        core: Core,
        format: AnswerFormat,
        coded: Option<Coded>,
        limits: Many<NodeLimits>,
        is_physical: bool,
    ) -> HeldBench
        requires { core.log ≡ [] }
        ensures { result ≡ new_hand format coded limits is_physical core.cluster core.opening core.capacity }
    {
        HeldBench {
            bench: Bench::new(alloc, core),
            format,
            coded,
            limits,
            is_physical,
            sets: Many::new(Vec::new(alloc)),
            track: None,
            objects: None,
            last_slot: None,
            begun: false,
            was_bad: false,
            was_unmet: false,
        }
    }

    /// The log of all steps that were made.
    pub(crate) fn log(&self) -> &Log
        ensures { reverse result.now.entries ≡ self.now.bench.past }
    {
        self.bench.core().log()
    }

    /// Whether a line was bad, or made more slots than a line may.
    pub(crate) fn was_bad(&self) -> bool
        ensures { result ≡ self.now.was_bad }
    {
        self.was_bad
    }

    /// Whether an expectation wasn't met.
    pub(crate) fn was_unmet(&self) -> bool
        ensures { result ≡ self.now.was_unmet }
    {
        self.was_unmet
    }

    /// A line, of which the first one has no byte order mark.
    fn unmarked<'l>(&self, line: Option<&'l [u8]>) -> Option<&'l [u8]>
        ensures { option_map (λ l. l.now) result
            ≡ without_byte_order_mark self.now (option_map (λ l. l.now) line.entry) }
    {
        if self.begun {
            line
        } else {
            without_its_mark(line)
        }
    }

    /// The cluster.
    pub(crate) fn cluster(&self) -> &Cluster
        ensures { result.now ≡ self.now.cluster }
    {
        self.bench.core().cluster()
    }

    /// Begins a line: returns it without a byte order mark. `None` is a line that is too long.
    pub(crate) fn begin<'l>(&mut self, line: Option<&'l [u8]>) -> Option<&'l [u8]>
        ensures line { option_map (λ l. l.now) result
            ≡ without_byte_order_mark self.old (option_map (λ l. l.now) line.entry) }
        ensures begun { self.new ≡ record self.old { begun = true } }
    {
        let line = self.unmarked(line);
        self.begun = true;
        line
    }

    /// Returns a line with texts in place of its parameters; `None` if it has none.
    pub(crate) fn replaced(
        &self,
        alloc: Global,
        line: &[u8],
    ) -> Result<Option<Vec<u8>>, lin_bench::LineFault>
        ensures { ReadsLine (λ text. option_map_or (λ v. v.items) text line.now) result (replaced_line self.now.sets line.now) }
    {
        replaced_line(alloc, self.cluster(), self.sets.as_slice(), line)
    }

    /// Reads a line of a bench script.
    pub(crate) fn script_line(
        &self,
        alloc: Global,
        line: &[u8],
    ) -> Result<Option<ScriptLine>, lin_bench::LineFault>
        ensures { ReadsLine (λ l. l) result (read_worded_line
            self.now.cluster self.now.coded self.now.limits line.now) }
    {
        let coded = self.coded.as_ref();
        read_worded_line(alloc, self.cluster(), coded, self.limits.as_slice(), line)
    }

    /// Returns a mark of the bench as it is. An error means out of memory.
    pub(crate) fn mark(&self, alloc: Global) -> Result<Mark, AllocError>
        ensures mark { IfOk result (IsMarkOf (reverse self.now.bench.past)) }
        ensures state { IfOk result (λ mark. state_at (reverse self.now.bench.past) mark ≡ self.now.bench) }
    {
        self.bench.mark(alloc)
    }

    /// Returns this bench as it was at a mark, over a new core that is opened so. Earlier bad lines and failed
    /// expectations still count. An error means out of memory, and the bench is dropped.
    pub(crate) fn back(
        self,
        alloc: Global,
        opening: Opening,
        mark: &Mark,
    ) -> Result<HeldBench, AllocError>
        requires opening { IsOpening opening self }
        requires mark { IsMarkOf (reverse self.bench.past) mark.now }
        ensures { IfOk result (λ back.
            back ≡ record self { bench = state_at (reverse self.bench.past) mark.now }) }
    {
        let Opening { table, capacity } = opening;
        Ok(HeldBench {
            bench: self.bench.back(alloc, table, capacity, mark)?,
            track: None,
            objects: None,
            last_slot: None,
            ..self
        })
    }

    /// Tells that a line says nothing.
    pub(crate) fn pass<W: Write>(
        &self,
        writer: &mut W,
        buffer: &mut TextBuffer,
    ) -> Result<(), Fault>
        ensures { WritesAnswer (self.now, ending_text self.now Fine)
            ⊥ self.now (W.contents writer.old) (W.contents writer.new) result }
    {
        match self.format {
            AnswerFormat::Jsonl => write_object(writer, buffer, &[], "ok", &[])?,
            AnswerFormat::Log | AnswerFormat::Named => write_ok(writer, buffer)?,
        }
        Ok(())
    }

    /// Sets a parameter, and answers so.
    pub(crate) fn set<W: Write>(
        &mut self,
        parameter: Parameter,
        writer: &mut W,
        buffer: &mut TextBuffer,
    ) -> Result<(), Fault>
        ensures { WritesAnswer (heard_reply self.old (SetParameter parameter))
            ⊥ self.new (W.contents writer.old) (W.contents writer.new) result }
    {
        set_parameter(&mut self.sets, parameter)?;
        self.pass(writer, buffer)
    }

    /// Tells that a line is bad.
    pub(crate) fn refuse<W: Write>(
        &mut self,
        alloc: Global,
        reason: &Reason,
        writer: &mut W,
        buffer: &mut TextBuffer,
    ) -> Result<(), Fault>
        ensures { WritesAnswer (bad_reply self.old reason.now)
            ⊥ self.new (W.contents writer.old) (W.contents writer.new) result }
    {
        self.was_bad = true;
        match self.format {
            AnswerFormat::Jsonl => write_bad_object(alloc, writer, buffer, reason)?,
            AnswerFormat::Log | AnswerFormat::Named => write_bad(writer, buffer, reason)?,
        }
        Ok(())
    }

    /// Takes the slot that had ended last, if a question asks for it.
    fn take_slot(&mut self, question: Question) -> Option<Box<LastSlot>>
        ensures same { self.new ≡ self.old }
        ensures kept { IfSome result (IsBoxedKeptOf self.old.cluster (reverse self.old.bench.past)) }
    {
        if !matches!(question, Question::LastSlot) {
            return None;
        }
        self.last_slot.take()
    }

    /// Keeps the slot that ended last, if the answer to a question is that.
    fn keep_slot(&mut self, value: AnswerValue)
        requires { KeepsLastSlot self.old.cluster (reverse self.old.bench.past) value }
        ensures { self.new ≡ self.old }
    {
        if let AnswerValue::LastSlot(last) = value {
            self.last_slot = last;
        }
    }

    /// Writes the answer to a question.
    fn write_asked<W: Write>(
        &self,
        alloc: Global,
        value: &AnswerValue,
        writer: &mut W,
        buffer: &mut TextBuffer,
    ) -> Result<(), Fault>
        ensures { WritesAlone (W.contents writer.old) (W.contents writer.new)
            (ending_text self.now (Is (as_said self.now.cluster value.now))) result }
    {
        let cluster = self.bench.core().cluster();
        let coded = told_coding(self.coded.as_ref(), self.is_physical);
        match self.format {
            AnswerFormat::Jsonl => {
                write_value_object(alloc, writer, buffer, cluster, coded, value)?;
            }
            AnswerFormat::Log | AnswerFormat::Named => {
                write_value(writer, buffer, cluster, coded, value)?;
            }
        }
        Ok(())
    }

    /// Answers a question.
    pub(crate) fn ask<W: Write>(
        &mut self,
        alloc: Global,
        question: Question,
        writer: &mut W,
        buffer: &mut TextBuffer,
    ) -> Result<(), Fault>
        requires { IsAskable self.old.cluster question }
        ensures { WritesAnswer (self.old, ending_text self.old (Is (asked_value self.old question)))
            ⊥ self.new (W.contents writer.old) (W.contents writer.new) result }
    {
        let known = self.take_slot(question);
        let value = value_of(alloc, &self.bench, known, question)?;
        self.write_asked(alloc, &value, writer, buffer)?;
        self.keep_slot(value);
        Ok(())
    }

    /// Keeps what a line came to.
    fn keep(&mut self, verdict: &Verdict)
        ensures { self.new ≡ record self.old {
          was_bad = self.old.was_bad || is_limit verdict.now;
          was_unmet = self.old.was_unmet || is_unmet_verdict verdict.now;
        } }
    {
        self.was_bad = self.was_bad || is_limit(verdict);
        self.was_unmet = self.was_unmet || is_unmet(verdict);
    }

    /// Returns the text of the entries from one on with names, and keeps the track of all. An error
    /// means out of memory.
    #[inline(never)]
    fn names_from(
        &mut self,
        alloc: Global,
        track: Option<Box<Track>>,
        from: usize,
    ) -> Result<Vec<u8>, AllocError>
        requires there { from ≤ length self.old.bench.past }
        requires track { IfSome track (IsBoxedTrack self.old.cluster (earlier from self.old.bench.past)) }
        ensures same { self.new ≡ self.old }
        ensures text { IfOk result (λ text. text.items ≡ entries_from Named self.old from) }
    {
        let coded = told_coding(self.coded.as_ref(), self.is_physical);
        let (text, track) = with_names(alloc, self.bench.core(), coded, track, from)?;
        self.track = Some(track);
        Ok(text)
    }

    /// Returns the objects of the entries from one on, and keeps the track of all. An error means out of
    /// memory.
    #[inline(never)]
    fn objects_from(
        &mut self,
        alloc: Global,
        objects: Option<Box<ObjectTrack>>,
        from: usize,
    ) -> Result<Vec<u8>, AllocError>
        requires there { from ≤ length self.old.bench.past }
        requires track { IfSome objects
            (IsBoxedTrackOf self.old.cluster (earlier from self.old.bench.past)) }
        ensures same { self.new ≡ self.old }
        ensures text { IfOk result (λ text. text.items ≡ entries_from Jsonl self.old from) }
    {
        let coded = told_coding(self.coded.as_ref(), self.is_physical);
        let (text, objects) = with_objects(alloc, self.bench.core(), coded, objects, from)?;
        self.objects = Some(objects);
        Ok(text)
    }

    /// Writes the answer to a line that was made: its entries, and how it ends.
    fn write_line_answer<W: Write>(
        &mut self,
        alloc: Global,
        kept: KeptTracks,
        verdict: Verdict,
        writer: &mut W,
        buffer: &mut TextBuffer,
    ) -> Result<(), Fault>
        requires there { kept.from ≤ length self.old.bench.past }
        requires kept { IsKept self.old.cluster (earlier kept.from self.old.bench.past) kept }
        ensures { WritesAnswer (self.old, line_text self.old kept.from verdict)
            ⊥ self.new (W.contents writer.old) (W.contents writer.new) result }
    {
        let KeptTracks {
            from,
            track,
            objects,
        } = kept;
        match self.format {
            AnswerFormat::Log => write_line(writer, buffer, self.bench.core(), from, &verdict)?,
            AnswerFormat::Named => {
                let text = self.names_from(alloc, track, from)?;
                let entries = text.as_slice();
                write_named_line(writer, buffer, self.bench.core(), from, entries, &verdict)?;
            }
            AnswerFormat::Jsonl => {
                let text = self.objects_from(alloc, objects, from)?;
                let ending = line_ending(alloc, self.bench.core(), from, verdict)?;
                write_line_object(writer, buffer, text.as_slice(), &ending)?;
            }
        }
        Ok(())
    }

    /// A verdict; where what is expected in words isn't so, with what the value means.
    fn in_words(&self, alloc: Global, verdict: Verdict) -> Result<Verdict, AllocError>
        ensures { IfOk result (λ v. v ≡ verdict_with_meaning self.now.coded verdict) }
    {
        match &self.coded {
            Some(coded) => told_meaning(alloc, coded, verdict),
            None => Ok(verdict),
        }
    }

    /// Writes the answer to a line that was made and expects what isn't so.
    #[inline(never)]
    fn write_unmet<W: Write>(
        &mut self,
        alloc: Global,
        kept: KeptTracks,
        verdict: Verdict,
        writer: &mut W,
        buffer: &mut TextBuffer,
    ) -> Result<(), Fault>
        requires there { kept.from ≤ length self.old.bench.past }
        requires kept { IsKept self.old.cluster (earlier kept.from self.old.bench.past) kept }
        ensures { WritesAnswer (
          self.old,
          line_text self.old kept.from (verdict_with_meaning self.old.coded verdict),
        )
            ⊥ self.new (W.contents writer.old) (W.contents writer.new) result }
    {
        let told = self.in_words(alloc, verdict)?;
        self.write_line_answer(alloc, kept, told, writer, buffer)
    }

    /// Makes a line, and writes the answer to it.
    pub(crate) fn make<W: Write>(
        &mut self,
        alloc: Global,
        line: ScriptLine,
        writer: &mut W,
        buffer: &mut TextBuffer,
    ) -> Result<(), Fault>
        ensures { WritesAnswer (heard_reply self.old (Make line)) (IsFullFor self.old line)
            self.new (W.contents writer.old) (W.contents writer.new) result }
    {
        let from = self.bench.core().log().len();
        let kept = KeptTracks {
            from,
            track: self.track.take(),
            objects: self.objects.take(),
        };
        let last_slot = self.last_slot.take();
        self.bench.renew_slots();
        let verdict = self.bench.make(alloc, line)?;
        self.last_slot = last_slot;
        self.keep(&verdict);
        if is_unmet(&verdict) {
            return self.write_unmet(alloc, kept, verdict, writer, buffer);
        }
        self.write_line_answer(alloc, kept, verdict, writer, buffer)
    }
}
