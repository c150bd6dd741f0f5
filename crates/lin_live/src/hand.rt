//! Interactive sessions, their marks and their parameters.

ghost use Rattle.std.specs.Prelude.{◌≡◌, ◌≤◌, ◌<◌, [], IfOk, IfSome, OnErr, OnOk, Option, Result, length, option_map};
ghost use Rattle.std.specs.Prelude.{position, reverse, true};
ghost use Rattle.std.specs.Str.{bytes_eq};
ghost use Rattle.lin_bench.specs.Played.{initial_bench};
ghost use Rattle.lin_bench.specs.Fields.{line_fields};
ghost use Rattle.lin_bench.specs.declared.reason.Reason.TheVariants.{ForScripts};
ghost use Rattle.lin_bench.specs.Words.{read_worded_line};
ghost use Rattle.lin_live.specs.Asked.{Fails, IsAskable};
ghost use Rattle.lin_live.specs.Hand.{AnswersSaid, gone_to, other_marks, with_named};
ghost use Rattle.lin_live.specs.Heard.{Heard, back_heard, line_heard, mark_heard, of_line, of_script};
ghost use Rattle.lin_live.specs.Heard.{question_heard, set_heard, text_heard};
ghost use Rattle.lin_live.specs.Held.{new_hand};
ghost use Rattle.lin_live.specs.Marking.{mark_place, with_mark};
ghost use Rattle.lin_live.specs.Serving.{WritesAnswer};
ghost use Rattle.lin_live.specs.Told.{Fine, HandData, Is, IsFull, IsFullFor, asked_value, bad_reply, ending_text};
ghost use Rattle.lin_live.specs.Told.{heard_reply, reply, without_byte_order_mark};
ghost use Rattle.lin_live.specs.Heard.Heard.{GoBack, Make, SetMark, SetParameter};
ghost use Rattle.lin_live.specs.declared.reason.Reason.{Reason};
ghost use Rattle.lin_live.specs.declared.reason.Reason.TheVariants.{Script, TooLong};

use crate::answer_format::AnswerFormat;
use crate::answering::Answering;
use crate::asking::{question, question_alone};
use crate::fault::Fault;
use crate::held::HeldBench;
use crate::marking::{START, back_name, mark_name};
use crate::question::Question;
use crate::reason::{LineFault, Reason};
use lin_bench::{Mark, NodeLimits, Parameter, ScriptLine, parameter_of_line};
use lin_core::{Core, Log};
use lin_export::Opening;
use lin_log::first_field;
use lin_parts::Cluster;
use lin_text::{Many, Text, TextBuffer};
use lin_values::Coded;
use std::alloc::{AllocError, Global};
use std::io::Write;
use std::marker::Model;

/// A mark with its name.
#[derive(Drop)]
pub(crate) struct NamedMark {
    pub(crate) name: Text,
    pub(crate) at: Mark,
}

/// An interactive session, which answers lines of bench scripts, questions and marks, and replaces parameters.
/// Contracts see the format of its answers, the cluster, what the core was opened with, what signals mean and
/// whether answers report that, the parameters, the bench, each mark with the bench as it was, whether there was a line, whether one was bad, and
/// whether an expectation failed.
#[derive(Drop)]
pub struct Hand {
    /// `None` if the session ran out of memory while it went back to a mark.
    held: Option<HeldBench>,
    opening: Opening,
    /// In the order in which they were set; `None` after a line without an answer.
    marks: Option<Vec<NamedMark>>,
}

impl Model for Hand {
    ghost use Rattle.lin_live.specs.Told.{HandData};

    ghost Value = { HandData };

    ghost use Rattle.lin_live.specs.Hand.{HasItsMarks, hand_data};

    ghost view = { hand_data };

    ghost invariant = { HasItsMarks };
}

/// Returns the place of the mark with a name.
fn mark_place(marks: &[NamedMark], name: &[u8]) -> Option<usize>
    ensures place { result ≡ position (λ m. bytes_eq m.name name.now) marks.now }
    ensures there { IfSome result (λ place. place < length marks.now) }
{
    marks.iter().position(|mark| mark.name.as_slice() == name)
}

/// Puts a mark last, in place of an older one of its name. An error means out of memory, and the older one is
/// gone.
fn put_mark(marks: &mut Vec<NamedMark>, mark: NamedMark) -> Result<(), AllocError>
    ensures put { OnOk result (marks.new.items ≡ with_named marks.old.items mark) }
    ensures rest { OnErr result (marks.new.items ≡ other_marks marks.old.items mark) }
{
    let name = mark.name.as_slice();
    marks.retain(|other| other.name.as_slice() != name);
    marks.push(mark)?;
    Ok(())
}

impl Hand {
    /// Returns a session over a new core, without lines or marks, whose answers have this format. If it is given
    /// what signals mean, lines may have physical values, and with `is_physical` answers have them, too. `limits`
    /// are those of transfers in the LDF. An error means out of memory, and the cluster is dropped.
    pub fn new(
        alloc: Global,
        cluster: Cluster,
        opening: Opening,
        format: AnswerFormat,
        coded: Option<Coded>,
        limits: Many<NodeLimits>,
        is_physical: bool,
    ) -> Result<Hand, AllocError>
        requires table { opening.table < length cluster.tables }
        requires some { 1 ≤ opening.capacity }
        requires few { opening.capacity ≤ 1024 }
        ensures { IfOk result (λ hand.
            hand ≡ new_hand format coded limits is_physical cluster opening.table opening.capacity) }
    {
        let core = Core::new(alloc, cluster, opening.table, opening.capacity)?;
        Ok(Hand {
            held: Some(HeldBench::new(alloc, core, format, coded, limits, is_physical)),
            opening,
            marks: Some(Vec::new(alloc)),
        })
    }

    /// Returns the log of the steps, without those that `back` has undone; `None` if the session ran out of
    /// memory while it went back to a mark.
    pub fn log(&self) -> Option<&Log>
        ensures { IfSome result (λ log. reverse log.now.entries ≡ self.now.bench.past) }
    {
        match &self.held {
            Some(held) => Some(held.log()),
            None => None,
        }
    }

    /// Whether a line was bad, or made more slots than a line may.
    pub fn was_bad(&self) -> bool
        ensures { result ≡ self.now.was_bad }
    {
        match &self.held {
            Some(held) => held.was_bad(),
            None => false,
        }
    }

    /// Whether an expectation failed.
    pub fn was_unmet(&self) -> bool
        ensures { result ≡ self.now.was_unmet }
    {
        match &self.held {
            Some(held) => held.was_unmet(),
            None => false,
        }
    }

    /// Tells that a line says nothing.
    #[inline(never)]
    fn pass<W: Write>(&self, writer: &mut W, buffer: &mut TextBuffer) -> Result<(), Fault>
        ensures { WritesAnswer (self.now, ending_text self.now Fine)
            ⊥ self.now (W.contents writer.old) (W.contents writer.new) result }
    {
        match &self.held {
            Some(held) => held.pass(writer, buffer),
            None => Err(Fault::OutOfMemory),
        }
    }

    /// Tells that a line is bad.
    fn refuse<W: Write>(
        &mut self,
        alloc: Global,
        reason: &Reason,
        writer: &mut W,
        buffer: &mut TextBuffer,
    ) -> Result<(), Fault>
        ensures { WritesAnswer (bad_reply self.old reason.now)
            ⊥ self.new (W.contents writer.old) (W.contents writer.new) result }
    {
        let Some(held) = &mut self.held else {
            return Err(Fault::OutOfMemory);
        };
        let marks = self.marks.take();
        held.refuse(alloc, reason, writer, buffer)?;
        self.marks = marks;
        Ok(())
    }

    /// Sets a parameter, and answers so.
    fn set<W: Write>(
        &mut self,
        parameter: Parameter,
        writer: &mut W,
        buffer: &mut TextBuffer,
    ) -> Result<(), Fault>
        ensures { WritesAnswer (heard_reply self.old (SetParameter parameter))
            ⊥ self.new (W.contents writer.old) (W.contents writer.new) result }
    {
        let Some(held) = &mut self.held else {
            return Err(Fault::OutOfMemory);
        };
        let marks = self.marks.take();
        held.set(parameter, writer, buffer)?;
        self.marks = marks;
        Ok(())
    }

    /// Answers a question.
    fn ask<W: Write>(
        &mut self,
        alloc: Global,
        question: Question,
        writer: &mut W,
        buffer: &mut TextBuffer,
    ) -> Result<(), Fault>
        requires { IsAskable self.old.cluster question }
        ensures { WritesAnswer (self.old, ending_text self.old (Is (asked_value self.old question)))
            ⊥ self.new (W.contents writer.old) (W.contents writer.new) result }
    {
        let Some(held) = &mut self.held else {
            return Err(Fault::OutOfMemory);
        };
        let marks = self.marks.take();
        held.ask(alloc, question, writer, buffer)?;
        self.marks = marks;
        Ok(())
    }

    /// Makes a line, and tells its entries and what it came to.
    fn make<W: Write>(
        &mut self,
        alloc: Global,
        line: ScriptLine,
        writer: &mut W,
        buffer: &mut TextBuffer,
    ) -> Result<(), Fault>
        ensures { WritesAnswer (heard_reply self.old (Make line)) (IsFullFor self.old line)
            self.new (W.contents writer.old) (W.contents writer.new) result }
    {
        let Some(held) = &mut self.held else {
            return Err(Fault::OutOfMemory);
        };
        let marks = self.marks.take();
        held.make(alloc, line, writer, buffer)?;
        self.marks = marks;
        Ok(())
    }

    /// Sets a mark. An error means out of memory.
    fn set_mark(&mut self, alloc: Global, name: Text) -> Result<(), AllocError>
        ensures { OnOk result (self.new
            ≡ record self.old { marks = with_mark self.old.marks name self.old.bench }) }
    {
        let Some(held) = &self.held else {
            return Err(AllocError);
        };
        let Some(marks) = &mut self.marks else {
            return Err(AllocError);
        };
        let at = held.mark(alloc)?;
        put_mark(marks, NamedMark { name, at })
    }

    /// Returns the place of the mark with a name.
    fn place(&self, name: &[u8]) -> Option<usize>
        ensures place { result ≡ mark_place self.now.marks name.now }
        ensures there { IfSome result (λ place. place < length self.now.marks) }
    {
        match &self.marks {
            Some(marks) => mark_place(marks.as_slice(), name),
            None => None,
        }
    }

    /// Goes back to the beginning. An error means out of memory, and the bench is dropped.
    fn go_to_start(&mut self, alloc: Global) -> Result<(), AllocError>
        ensures { OnOk result (self.new ≡ record self.old { bench = initial_bench; marks = [] }) }
    {
        let Some(held) = self.held.take() else {
            return Err(AllocError);
        };
        let Some(mut marks) = self.marks.take() else {
            return Err(AllocError);
        };
        let start = Mark::start(alloc);
        self.held = Some(held.back(alloc, self.opening, &start)?);
        marks.clear();
        self.marks = Some(marks);
        Ok(())
    }

    /// Goes back to the mark at a place. An error means out of memory, and the bench is dropped.
    fn go_to(&mut self, alloc: Global, place: usize) -> Result<(), AllocError>
        requires { place < length self.old.marks }
        ensures { OnOk result (self.new ≡ gone_to self.old place) }
    {
        let Some(held) = self.held.take() else {
            return Err(AllocError);
        };
        let Some(mut marks) = self.marks.take() else {
            return Err(AllocError);
        };
        let mark = &marks[place];
        self.held = Some(held.back(alloc, self.opening, &mark.at)?);
        marks.truncate(place + 1);
        self.marks = Some(marks);
        Ok(())
    }

    /// Goes back to the mark with a name, if there is one, and answers so.
    fn go_back<W: Write>(
        &mut self,
        alloc: Global,
        name: Text,
        writer: &mut W,
        buffer: &mut TextBuffer,
    ) -> Result<(), Fault>
        ensures { WritesAnswer (heard_reply self.old (GoBack name))
            ⊥ self.new (W.contents writer.old) (W.contents writer.new) result }
    {
        if name.as_slice() == START {
            self.go_to_start(alloc)?;
            return self.pass(writer, buffer);
        }
        let Some(place) = self.place(name.as_slice()) else {
            return self.refuse(alloc, &Reason::NoMark(name), writer, buffer);
        };
        self.go_to(alloc, place)?;
        self.pass(writer, buffer)
    }

    /// Sets a mark, and answers so.
    fn mark<W: Write>(
        &mut self,
        alloc: Global,
        name: Text,
        writer: &mut W,
        buffer: &mut TextBuffer,
    ) -> Result<(), Fault>
        ensures { WritesAnswer (heard_reply self.old (SetMark name))
            ⊥ self.new (W.contents writer.old) (W.contents writer.new) result }
    {
        self.set_mark(alloc, name)?;
        self.pass(writer, buffer)
    }

    /// Begins a line: returns it without a byte order mark. `None` is a line that is too long. An error means that
    /// the session ran out of memory before.
    fn begin<'l>(&mut self, line: Option<&'l [u8]>) -> Result<Option<&'l [u8]>, AllocError>
        ensures line { IfOk result (λ begun. option_map (λ l. l.now) begun
            ≡ without_byte_order_mark self.old (option_map (λ l. l.now) line.entry)) }
        ensures begun { OnOk result (self.new ≡ record self.old { begun = true }) }
    {
        let Some(held) = &mut self.held else {
            return Err(AllocError);
        };
        Ok(held.begin(line))
    }

    /// Answers a line that isn't read, for this fault.
    #[inline(never)]
    fn answer_fault<W: Write>(
        &mut self,
        alloc: Global,
        fault: &LineFault,
        writer: &mut W,
        buffer: &mut TextBuffer,
    ) -> Result<(), Fault>
        ensures { (said : Result (Option Heard) Reason) → Fails fault.now said
            → AnswersSaid self.old said self.new
            (W.contents writer.old) (W.contents writer.new) result }
    {
        match fault {
            LineFault::Bad(reason) => self.refuse(alloc, reason, writer, buffer),
            LineFault::OutOfMemory => Err(Fault::OutOfMemory),
        }
    }

    /// Answers a question, by the fields after `?`, whatever they are.
    #[inline(never)]
    fn answer_any_question<W: Write>(
        &mut self,
        alloc: Global,
        line: &[u8],
        writer: &mut W,
        buffer: &mut TextBuffer,
    ) -> Result<(), Fault>
        ensures { AnswersSaid self.old (question_heard self.old.cluster (line_fields line.now))
            self.new (W.contents writer.old) (W.contents writer.new) result }
    {
        let Some(held) = &self.held else {
            return Err(Fault::OutOfMemory);
        };
        let asked = question(alloc, held.cluster(), line);
        match &asked {
            Ok(question) => self.ask(alloc, *question, writer, buffer),
            Err(fault) => self.answer_fault(alloc, fault, writer, buffer),
        }
    }

    /// Answers a question, by the fields after `?`.
    #[inline(never)]
    fn answer_question<W: Write>(
        &mut self,
        alloc: Global,
        line: &[u8],
        writer: &mut W,
        buffer: &mut TextBuffer,
    ) -> Result<(), Fault>
        ensures { AnswersSaid self.old (question_heard self.old.cluster (line_fields line.now))
            self.new (W.contents writer.old) (W.contents writer.new) result }
    {
        let Some(held) = &self.held else {
            return Err(Fault::OutOfMemory);
        };
        match question_alone(held.cluster(), line) {
            Some(question) => self.ask(alloc, question, writer, buffer),
            None => self.answer_any_question(alloc, line, writer, buffer),
        }
    }

    /// Sets a mark, by the fields after `mark`, and answers so.
    #[inline(never)]
    fn answer_mark<W: Write>(
        &mut self,
        alloc: Global,
        line: &[u8],
        writer: &mut W,
        buffer: &mut TextBuffer,
    ) -> Result<(), Fault>
        ensures { AnswersSaid self.old (mark_heard (line_fields line.now))
            self.new (W.contents writer.old) (W.contents writer.new) result }
    {
        let Some(held) = &self.held else {
            return Err(Fault::OutOfMemory);
        };
        match mark_name(alloc, held.cluster(), line) {
            Ok(name) => self.mark(alloc, name, writer, buffer),
            Err(fault) => self.answer_fault(alloc, &fault, writer, buffer),
        }
    }

    /// Goes back to a mark, by the fields after `back`, and answers so.
    #[inline(never)]
    fn answer_back<W: Write>(
        &mut self,
        alloc: Global,
        line: &[u8],
        writer: &mut W,
        buffer: &mut TextBuffer,
    ) -> Result<(), Fault>
        ensures { AnswersSaid self.old (back_heard (line_fields line.now))
            self.new (W.contents writer.old) (W.contents writer.new) result }
    {
        let Some(held) = &self.held else {
            return Err(Fault::OutOfMemory);
        };
        match back_name(alloc, held.cluster(), line) {
            Ok(name) => self.go_back(alloc, name, writer, buffer),
            Err(fault) => self.answer_fault(alloc, &fault, writer, buffer),
        }
    }

    /// Sets a parameter, by the fields after `set`, and answers so.
    #[inline(never)]
    fn answer_set<W: Write>(
        &mut self,
        alloc: Global,
        line: &[u8],
        writer: &mut W,
        buffer: &mut TextBuffer,
    ) -> Result<(), Fault>
        ensures { AnswersSaid self.old (set_heard (line_fields line.now))
            self.new (W.contents writer.old) (W.contents writer.new) result }
    {
        let Some(held) = &self.held else {
            return Err(Fault::OutOfMemory);
        };
        match parameter_of_line(alloc, held.cluster(), line) {
            Ok(parameter) => self.set(parameter, writer, buffer),
            Err(fault) => self.answer_fault(alloc, &LineFault::from(fault), writer, buffer),
        }
    }

    /// Answers a line that begins with a word which is for scripts.
    #[inline(never)]
    fn refuse_for_scripts<W: Write>(
        &mut self,
        alloc: Global,
        word: &[u8],
        writer: &mut W,
        buffer: &mut TextBuffer,
    ) -> Result<(), Fault>
        ensures { WritesAnswer (bad_reply self.old (Script (ForScripts word.now)))
            ⊥ self.new (W.contents writer.old) (W.contents writer.new) result }
    {
        let word = Text::copied(alloc, word)?;
        let reason = Reason::Script(lin_bench::Reason::ForScripts(word));
        self.refuse(alloc, &reason, writer, buffer)
    }

    /// Makes a line that is read, unless it is for scripts, and answers so.
    fn answer_made<W: Write>(
        &mut self,
        alloc: Global,
        line: ScriptLine,
        writer: &mut W,
        buffer: &mut TextBuffer,
    ) -> Result<(), Fault>
        ensures { AnswersSaid self.old (of_line line) self.new
            (W.contents writer.old) (W.contents writer.new) result }
    {
        match line {
            ScriptLine::Test(_) => self.refuse_for_scripts(alloc, b"test", writer, buffer),
            line => self.make(alloc, line, writer, buffer),
        }
    }

    /// Makes a line of a bench script, and answers so.
    #[inline(never)]
    fn answer_script<W: Write>(
        &mut self,
        alloc: Global,
        line: &[u8],
        writer: &mut W,
        buffer: &mut TextBuffer,
    ) -> Result<(), Fault>
        ensures { AnswersSaid self.old (of_script
            (read_worded_line self.old.cluster self.old.coded self.old.limits line.now))
            self.new (W.contents writer.old) (W.contents writer.new) result }
    {
        let Some(held) = &self.held else {
            return Err(Fault::OutOfMemory);
        };
        match held.script_line(alloc, line) {
            Ok(Some(line)) => self.answer_made(alloc, line, writer, buffer),
            Ok(None) => self.pass(writer, buffer),
            Err(fault) => self.answer_fault(alloc, &LineFault::from(fault), writer, buffer),
        }
    }

    /// Answers a line in which parameters were replaced.
    fn answer_text<W: Write>(
        &mut self,
        alloc: Global,
        line: &[u8],
        writer: &mut W,
        buffer: &mut TextBuffer,
    ) -> Result<(), Fault>
        ensures { AnswersSaid self.old (text_heard self.old.cluster self.old.coded self.old.limits line.now)
            self.new (W.contents writer.old) (W.contents writer.new) result }
    {
        let Some(held) = &self.held else {
            return Err(Fault::OutOfMemory);
        };
        match first_field(held.cluster(), line) {
            Some((word, rest)) if word == b"?".as_slice() => {
                self.answer_question(alloc, rest, writer, buffer)
            }
            Some((word, rest)) if word == b"mark".as_slice() => {
                self.answer_mark(alloc, rest, writer, buffer)
            }
            Some((word, rest)) if word == b"back".as_slice() => {
                self.answer_back(alloc, rest, writer, buffer)
            }
            Some((word, rest)) if word == b"set".as_slice() => {
                self.answer_set(alloc, rest, writer, buffer)
            }
            _ => self.answer_script(alloc, line, writer, buffer),
        }
    }

    /// Answers a line without its byte order mark.
    fn answer_line<W: Write>(
        &mut self,
        alloc: Global,
        line: &[u8],
        writer: &mut W,
        buffer: &mut TextBuffer,
    ) -> Result<(), Fault>
        ensures { AnswersSaid self.old
            (line_heard self.old.cluster self.old.coded self.old.limits self.old.sets line.now)
            self.new (W.contents writer.old) (W.contents writer.new) result }
    {
        let Some(held) = &self.held else {
            return Err(Fault::OutOfMemory);
        };
        match held.replaced(alloc, line) {
            Ok(Some(text)) => self.answer_text(alloc, text.as_slice(), writer, buffer),
            Ok(None) => self.answer_text(alloc, line, writer, buffer),
            Err(fault) => self.answer_fault(alloc, &LineFault::from(fault), writer, buffer),
        }
    }

    /// Answers a line that is too long.
    #[inline(never)]
    fn answer_long<W: Write>(
        &mut self,
        alloc: Global,
        writer: &mut W,
        buffer: &mut TextBuffer,
    ) -> Result<(), Fault>
        ensures { WritesAnswer (bad_reply self.old TooLong)
            ⊥ self.new (W.contents writer.old) (W.contents writer.new) result }
    {
        self.refuse(alloc, &Reason::TooLong, writer, buffer)
    }
}

impl Answering for Hand {
    ghost State = { HandData };

    ghost state = { λ hand. hand };

    ghost reply = { reply };

    ghost is_full = { IsFull };

    fn answer<W: Write>(
        &mut self,
        alloc: Global,
        line: Option<&[u8]>,
        writer: &mut W,
        buffer: &mut TextBuffer,
    ) -> Result<(), Fault> {
        match self.begin(line)? {
            Some(line) => self.answer_line(alloc, line, writer, buffer),
            None => self.answer_long(alloc, writer, buffer),
        }
    }
}
