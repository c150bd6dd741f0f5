//! What is said of bad lines and of expectations that aren't met.

ghost use Rattle.std.specs.Prelude.{◌≡◌, ◌∷◌, ◌++◌, [], flat_map, map};
ghost use Rattle.std.specs.Option.{option_map_or};
ghost use Rattle.lin_log.specs.Words.{spaced_word};
ghost use Rattle.lin_text.specs.Written.{Grows, WritesText};
ghost use Rattle.lin_log.specs.Language.{named_language};
ghost use Rattle.lin_log.specs.Shown.{as_word};
ghost use Rattle.lin_bench.specs.LineWords.{spaced_words};
ghost use Rattle.lin_bench.specs.Texts.{bad_line_text, bad_place_text, bytes_word, cluster_text, condition_words, counts_word, end_words, entries_word, expected_text, expected_words, fields_word};
ghost use Rattle.lin_bench.specs.declared.expected.Expected.TheVariants.{HasRule};
ghost use Rattle.lin_bench.specs.declared.rules.RuleEnd.{RuleEnd};
ghost use Rattle.lin_bench.specs.Texts.{found_text, got_text, hint_words, judged_text, on_end_words};
ghost use Rattle.lin_bench.specs.Texts.{or_marked, other_pending_words, pending_text};
ghost use Rattle.lin_bench.specs.Texts.{pending_words, reason_text, reason_words, repeated_words};
ghost use Rattle.lin_bench.specs.Texts.{short_words, since_word, step_reason_words};
ghost use Rattle.lin_bench.specs.Texts.{unmet_text, verdict_text, what_text, when_end_words, word_if};

use crate::expected::{Condition, Expected, Since};
use crate::files::ScriptFile;
use crate::got::{Got, Judged, Judgement, Pending, is_unmet};
use crate::place::{LinePlace, put_place_number};
use crate::reason::{Hint, Reason};
use crate::rules::{Form, RuleEnd};
use crate::rules_in_force::put_repeating_port;
use crate::word_list::{WordList, put_all_after, put_joined, put_word_list};
use lin_core::{Listed, PortId, Step};
use lin_log::{NumberNaming, Pattern, Reason as StepReason, Word, put_node, put_step};
use lin_parts::Cluster;
use lin_text::{Text, TextBuffer, TextWriter, WriteFailed};
use std::io::Write;

/// `argument`, or `arguments`.
fn plural(fields: u8) -> &'static str
    ensures { result.now ≡ fields_word fields }
{
    if fields == 1 { "argument" } else { "arguments" }
}

/// `byte`, or `bytes`.
fn bytes_word(count: u8) -> &'static str
    ensures { result.now ≡ bytes_word count }
{
    if count == 1 { "byte" } else { "bytes" }
}

/// `entry`, or `entries`.
fn entries_word(count: u16) -> &'static str
    ensures { result.now ≡ entries_word count }
{
    if count == 1 { "entry" } else { "entries" }
}

/// Why a line of a step is bad.
fn step_line(reason: &StepReason) -> WordList<'_>
    ensures { result ≡ step_reason_words reason.now }
{
    match reason {
        StepReason::NoPort => return WordList::of(&[Word::Fixed("missing port")]),
        StepReason::NoStep => return WordList::of(&[Word::Fixed("missing step after the port")]),
        StepReason::UnknownStep(word) => {
            return WordList::of(&[Word::Fixed("unknown step"), Word::Said(word.as_slice())]);
        }
        StepReason::NoNode(name) => {
            return WordList::of(&[Word::Fixed("unknown node"), Word::Said(name.as_slice())]);
        }
        StepReason::NoSignal(name) => {
            return WordList::of(&[Word::Fixed("unknown signal"), Word::Said(name.as_slice())]);
        }
        StepReason::NoTable(name) => {
            return WordList::of(&[Word::Fixed("unknown table"), Word::Said(name.as_slice())]);
        }
        StepReason::NoNumber { field, most } => {
            return WordList::of(&[
                Word::Fixed("expected a number from 0 to"),
                Word::Number(u64::from(*most)),
                Word::Mark(","),
                Word::Fixed("not"),
                Word::Said(field.as_slice()),
            ]);
        }
        StepReason::NoBytes => return WordList::of(&[Word::Fixed("expected hexadecimal bytes")]),
        StepReason::NotBytes(fields) => {
            return WordList::of(&[
                Word::Fixed("expected hexadecimal bytes, not"),
                Word::Fields(fields.as_slice()),
            ]);
        }
        StepReason::TooManyBytes(field) => {
            return WordList::of(&[
                Word::Said(field.as_slice()),
                Word::Fixed("has more than 8 bytes"),
            ]);
        }
        StepReason::Takes { word, fields } => {
            return WordList::of(&[
                Word::Said(word.as_slice()),
                Word::Fixed("takes"),
                Word::Number(u64::from(*fields)),
                Word::Fixed(plural(*fields)),
            ]);
        }
        StepReason::SendForm => return WordList::of(&[Word::Fixed("usage: send NODE NODE BYTES")]),
        StepReason::WriteForm => {
            return WordList::of(&[Word::Fixed("usage: write SIGNAL VALUE")]);
        }
        StepReason::TimeoutForm => return WordList::of(&[Word::Fixed(
            "usage: timeout NODE down or timeout NODE up",
        )]),
    }
}

/// Three words, and the hint about the values of a signal after them.
fn hinted_line<'a>(one: Word<'a>, two: Word<'a>, three: Word<'a>, hint: &'a Hint) -> WordList<'a>
    ensures { result ≡ as_word one.entry ∷ as_word two.entry ∷ as_word three.entry ∷ hint_words hint.now }
{
    let end = Word::Mark(")");
    match hint {
        Hint::Nothing => return WordList::of(&[one, two, three]),
        Hint::NoEncoding => {
            return WordList::of(&[one, two, three, Word::Fixed("(no encoding)")]);
        }
        Hint::Units(units) => {
            let units = Word::Listed(units.as_slice());
            return WordList::of(&[one, two, three, Word::Fixed("(units:"), units, end]);
        }
        Hint::Nearest(near) => {
            let near = Word::Listed(near.as_slice());
            return WordList::of(&[one, two, three, Word::Fixed("(nearest:"), near, end]);
        }
        Hint::Values(texts) => {
            let texts = Word::Listed(texts.as_slice());
            return WordList::of(&[one, two, three, Word::Fixed("(values:"), texts, end]);
        }
    }
}

fn or_marked(ranged: bool) -> &'static str
    ensures { result.now ≡ or_marked ranged }
{
    if ranged {
        ", a range, or = before a text, not"
    } else {
        ", or = before a text, not"
    }
}

/// Why a line is bad.
pub fn reason_line(reason: &Reason) -> WordList<'_>
    ensures { result ≡ reason_words reason.now }
{
    match reason {
        Reason::Step(why) => return step_line(why),
        Reason::NoRefusal(name) => return WordList::of(&[
            Word::Fixed("unknown refusal"),
            Word::Said(name.as_slice()),
        ]),
        Reason::NoFrame(name) => return WordList::of(&[
            Word::Fixed("unknown frame"),
            Word::Said(name.as_slice()),
        ]),
        Reason::NoData { frame, bytes } => return WordList::of(&[
            Word::Said(frame.as_slice()),
            Word::Fixed("has"),
            Word::Number(u64::from(*bytes)),
            Word::Fixed(bytes_word(*bytes)),
        ]),
        Reason::NoEntry { table, entries } => return WordList::of(&[
            Word::Said(table.as_slice()),
            Word::Fixed("has"),
            Word::Number(u64::from(*entries)),
            Word::Fixed(entries_word(*entries)),
        ]),
        Reason::NoRange(field) => return WordList::of(&[
            Word::Fixed("expected a range LOW..HIGH, not"),
            Word::Said(field.as_slice()),
        ]),
        Reason::NoTime(field) => return WordList::of(&[
            Word::Said(field.as_slice()),
            Word::Fixed("isn't a time up to 1000000 ms"),
        ]),
        Reason::TooSmall => return WordList::of(&[Word::Fixed(
            "expected a number of at least 1, not 0",
        )]),
        Reason::SlotsForm => return WordList::of(&[Word::Fixed(
            "usage: slots N, slots N ms, slots N leave NODE .., slots N until FORM, slots N while FORM or slots idle",
        )]),
        Reason::SlotForm(word) => return WordList::of(&[
            Word::Fixed("expected hurt or leave after slot, not"),
            Word::Said(word.as_slice()),
        ]),
        Reason::LeaveForm => return WordList::of(&[Word::Fixed("usage: slot leave NODE ..")]),
        Reason::SlotsLeaveForm => return WordList::of(&[Word::Fixed(
            "usage: slots N leave NODE ..",
        )]),
        Reason::ExpectForm => return WordList::of(&[Word::Fixed(
            "missing expectation after expect",
        )]),
        Reason::UnknownExpectation(fields) => return WordList::of(&[
            Word::Fixed("unknown expectation"),
            Word::Fields(fields.as_slice()),
        ]),
        Reason::UntilForm => return WordList::of(&[Word::Fixed("missing expectation after until")]),
        Reason::UnknownUntil(fields) => return WordList::of(&[
            Word::Fixed("until doesn't accept"),
            Word::Fields(fields.as_slice()),
        ]),
        Reason::WhileForm => return WordList::of(&[Word::Fixed("missing expectation after while")]),
        Reason::UnknownWhile(fields) => return WordList::of(&[
            Word::Fixed("while doesn't accept"),
            Word::Fields(fields.as_slice()),
        ]),
        Reason::UnknownOn(fields) => return WordList::of(&[
            Word::Fixed("on doesn't accept"),
            Word::Fields(fields.as_slice()),
        ]),
        Reason::OnForm => {
            return WordList::of(&[Word::Fixed("usage: on FORM do STEP, on FORM off or on off")]);
        }
        Reason::OnStep => {
            return WordList::of(&[Word::Fixed("on accepts only send, write, switch and sleep")]);
        }
        Reason::ForScripts(word) => return WordList::of(&[
            Word::Said(word.as_slice()),
            Word::Fixed("is for scripts"),
        ]),
        Reason::SetForm => return WordList::of(&[Word::Fixed("usage: set NAME TEXT")]),
        Reason::NoParameter(name) => return WordList::of(&[
            Word::Fixed("unknown parameter"),
            Word::Said(name.as_slice()),
        ]),
        Reason::HashField(field) => return WordList::of(&[
            Word::Said(field.as_slice()),
            Word::Fixed("would begin a comment"),
        ]),
        Reason::IncludeForm => return WordList::of(&[Word::Fixed("usage: include FILE")]),
        Reason::IncludeDepth => return WordList::of(&[Word::Fixed("include is more than 16 deep")]),
        Reason::Unread(_) => return WordList::of(&[Word::Fixed("read failed")]),
        Reason::LongFile(_) => return WordList::of(&[Word::Fixed("script too long")]),
        Reason::LongLine => return WordList::of(&[Word::Fixed("more than 65536 bytes")]),
        Reason::RepeatForm => return WordList::of(&[Word::Fixed("usage: repeat N")]),
        Reason::EndWithoutRepeat => return WordList::of(&[Word::Fixed("end without repeat")]),
        Reason::RepeatWithoutEnd => return WordList::of(&[Word::Fixed("repeat without end")]),
        Reason::TooManyLines => return WordList::of(&[Word::Fixed("more than 1000000 lines")]),
        Reason::TestForm => return WordList::of(&[Word::Fixed("usage: test NAME")]),
        Reason::WhenForm => return WordList::of(&[Word::Fixed(
            "usage: when NODE PATTERN answer BYTES, when NODE PATTERN silent or when NODE PATTERN off",
        )]),
        Reason::StateForm => return WordList::of(&[Word::Fixed("usage: state NODE NAME")]),
        Reason::NodeForm => {
            return WordList::of(&[Word::Fixed("usage: node NODE off or node NODE on")]);
        }
        Reason::NoName(field) => return WordList::of(&[
            Word::Fixed("expected a name, not"),
            Word::Said(field.as_slice()),
        ]),
        Reason::NoResponder(field) => return WordList::of(&[
            Word::Said(field.as_slice()),
            Word::Fixed("isn't a responder with a NAD"),
        ]),
        Reason::NotResponder(field) => return WordList::of(&[
            Word::Said(field.as_slice()),
            Word::Fixed("isn't a responder"),
        ]),
        Reason::NoMessages { from, to } => return WordList::of(&[
            Word::Fixed("no message goes from"),
            Word::Said(from.as_slice()),
            Word::Fixed("to"),
            Word::Said(to.as_slice()),
        ]),
        Reason::NotItsSignal { node, signal } => return WordList::of(&[
            Word::Said(node.as_slice()),
            Word::Fixed("neither publishes nor subscribes"),
            Word::Said(signal.as_slice()),
        ]),
        Reason::NoPattern(fields) => return WordList::of(&[
            Word::Fields(fields.as_slice()),
            Word::Fixed("isn't a pattern"),
        ]),
        Reason::LongAnswer => return WordList::of(&[Word::Fixed(
            "answer has more than 4095 bytes",
        )]),
        Reason::TimeoutsForm => return WordList::of(&[Word::Fixed(
            "usage: timeouts N ms, timeouts ldf, timeouts NODE N ms, timeouts NODE off or timeouts off",
        )]),
        Reason::EveryForm => return WordList::of(&[Word::Fixed(
            "usage: every N ms STEP, every off STEP or every off",
        )]),
        Reason::EveryStep => return WordList::of(&[Word::Fixed(
            "every accepts only send and write",
        )]),
        Reason::ServicesForm => return WordList::of(&[Word::Fixed(
            "usage: services on or services off",
        )]),
        Reason::NoServices => return WordList::of(&[Word::Fixed("no responder answers services")]),
        Reason::ErrorsForm => return WordList::of(&[Word::Fixed(
            "usage: response_errors on or response_errors off",
        )]),
        Reason::NoErrorSignal => return WordList::of(&[Word::Fixed(
            "no responder has a response_error signal",
        )]),
        Reason::WideErrorSignal { signal, bits } => return WordList::of(&[
            Word::Fixed("response_error signal"),
            Word::Said(signal.as_slice()),
            Word::Fixed("has"),
            Word::Number(u64::from(*bits)),
            Word::Fixed("bits"),
        ]),
        Reason::NoDecimal(field) => return WordList::of(&[
            Word::Said(field.as_slice()),
            Word::Fixed("isn't a number"),
        ]),
        Reason::NoWords => return WordList::of(&[Word::Fixed("missing value")]),
        Reason::WideSignal(signal) => return WordList::of(&[
            Word::Said(signal.as_slice()),
            Word::Fixed("is a wide signal"),
        ]),
        Reason::NoValue { text, signal, hint } => return hinted_line(
            Word::Said(signal.as_slice()),
            Word::Fixed("has no value"),
            Word::Said(text.as_slice()),
            hint,
        ),
        Reason::EveryValue { text, signal } => return WordList::of(&[
            Word::Said(text.as_slice()),
            Word::Fixed("includes every value of"),
            Word::Said(signal.as_slice()),
        ]),
        Reason::EveryNumber(field) => return WordList::of(&[
            Word::Said(field.as_slice()),
            Word::Fixed("includes every number of messages"),
        ]),
        Reason::Unmarked {
            fields,
            ranged,
            hint,
        } => return hinted_line(
            Word::Fixed("expected a raw value"),
            Word::Mark(or_marked(*ranged)),
            Word::Fields(fields.as_slice()),
            hint,
        ),
        Reason::SeveralValues {
            count,
            text,
            signal,
        } => {
            return WordList::of(&[
                Word::Number(*count),
                Word::Fixed("values of"),
                Word::Said(signal.as_slice()),
                Word::Fixed("have the text"),
                Word::Said(text.as_slice()),
            ]);
        }
    }
}

/// Why a line is bad.
pub fn put_reason<W: Write>(out: &mut TextWriter<'_, W>, reason: &Reason)
    ensures { Grows W.contents out.old out.new (reason_text reason.now) }
{
    put_word_list(out, &NumberNaming, &reason_line(reason));
}

/// The place of a bad line; nothing if it includes a file that isn't read.
fn put_bad_place<W: Write>(
    out: &mut TextWriter<'_, W>,
    files: &[ScriptFile],
    place: LinePlace,
    reason: &Reason,
)
    ensures { Grows W.contents out.old out.new (bad_place_text files.now place reason.now) }
{
    match reason {
        Reason::Unread(_) => {}
        Reason::LongFile(_) => {}
        _ => {
            out.put_text("script ");
            put_place_number(out, files, place);
            out.put_text(" bad line: ");
        }
    }
}

fn put_bad_line<W: Write>(
    out: &mut TextWriter<'_, W>,
    files: &[ScriptFile],
    place: LinePlace,
    reason: &Reason,
)
    ensures { Grows W.contents out.old out.new (bad_line_text files.now place reason.now) }
{
    put_bad_place(out, files, place, reason);
    put_reason(out, reason);
    out.put_byte(b'\n');
}

/// Writes the line that says why a line of a bench script is bad: `script LINE bad line: REASON`, with the
/// number of the line after the name of its file if the script includes that. For a line that includes a file
/// that isn't read it is `REASON`.
///
/// # Errors
/// `WriteFailed` at the first error of the writer; what was written then is the beginning of the
/// line.
pub fn write_bad_line<W: Write>(
    files: &[ScriptFile],
    place: LinePlace,
    reason: &Reason,
    writer: &mut W,
) -> Result<(), WriteFailed>
    ensures { WritesText (W.contents writer.old) (W.contents writer.new) result
        (bad_line_text files.now place reason.now) }
{
    let mut buffer = TextBuffer::empty();
    let mut out = TextWriter::new(writer, &mut buffer);
    put_bad_line(&mut out, files, place, reason);
    out.finish()
}

/// The unit of a time, and from which earlier message it counts.
fn since_word(since: Since) -> &'static str
    ensures { result.now ≡ since_word since }
{
    match since {
        Since::Request => "ms",
        Since::Last => "ms of last",
    }
}

/// A number of messages, or a range of them.
fn counts_word(low: u32, high: u32) -> Word<'static>
    ensures { as_word result ≡ counts_word low high }
{
    if low == high {
        Word::Number(u64::from(low))
    } else {
        Word::Range(u64::from(low), u64::from(high))
    }
}

/// The word of a condition that is to hold, or of one that isn't.
fn word_if(wanted: bool, plain: &'static str, negated: &'static str) -> Word<'static>
    ensures { as_word result ≡ word_if wanted plain.now negated.now }
{
    if wanted {
        Word::Fixed(plain)
    } else {
        Word::Fixed(negated)
    }
}

/// That a condition is to hold, or isn't.
pub(crate) fn condition_line(condition: &Condition, wanted: bool) -> WordList<'_>
    ensures { result ≡ condition_words wanted condition.now }
{
    match condition {
        Condition::Signal {
            node,
            signal,
            value,
        } => {
            return WordList::of(&[
                word_if(wanted, "signal", "not signal"),
                Word::Node(*node),
                Word::Signal(*signal),
                Word::Value(value),
            ]);
        }
        Condition::SignalWithin {
            node,
            signal,
            low,
            high,
        } => {
            return WordList::of(&[
                word_if(wanted, "signal", "not signal"),
                Word::Node(*node),
                Word::Signal(*signal),
                Word::Range(u64::from(*low), u64::from(*high)),
            ]);
        }
        Condition::SignalMeans {
            node,
            signal,
            text,
            values: _,
        } => {
            return WordList::of(&[
                word_if(wanted, "signal", "not signal"),
                Word::Node(*node),
                Word::Signal(*signal),
                Word::Fixed("="),
                Word::Said(text.as_slice()),
            ]);
        }
        Condition::Waiting { host, count } => {
            return WordList::of(&[
                word_if(wanted, "waiting", "not waiting"),
                Word::Node(*host),
                Word::Number(u64::from(*count)),
            ]);
        }
        Condition::Messages {
            from,
            to,
            low,
            high,
        } => {
            return WordList::of(&[
                word_if(wanted, "messages", "not messages"),
                Word::Node(*from),
                Word::Node(*to),
                counts_word(*low, *high),
            ]);
        }
        Condition::Seen(how) => {
            return WordList::of(&[word_if(wanted, "seen", "not seen"), Word::Fixed(how.word())]);
        }
        Condition::Frame {
            frame,
            pattern: None,
        } => {
            return WordList::of(&[word_if(wanted, "frame", "not frame"), Word::Frame(*frame)]);
        }
        Condition::Frame {
            frame,
            pattern: Some(pattern),
        } => {
            return WordList::of(&[
                word_if(wanted, "frame", "not frame"),
                Word::Frame(*frame),
                Word::Pattern(pattern),
            ]);
        }
        Condition::Slot { table, entry } => {
            return WordList::of(&[
                word_if(wanted, "slot", "not slot"),
                Word::Table(*table),
                Word::Number(u64::from(*entry)),
            ]);
        }
        Condition::Changed {
            node,
            signal,
            first: _,
        } => {
            return WordList::of(&[
                word_if(wanted, "changed", "not changed"),
                Word::Node(*node),
                Word::Signal(*signal),
            ]);
        }
    }
}

/// What is expected.
fn expected_line(expected: &Expected) -> WordList<'_>
    requires { (end : RuleEnd) → expected.now ≡ HasRule end → ⊥ }
    ensures { result ≡ expected_words expected.now }
{
    match expected {
        Expected::Is(what) => return condition_line(what, true),
        Expected::Not(what) => return condition_line(what, false),
        Expected::Message { from, to, pattern } => {
            return WordList::of(&[
                Word::Fixed("message"),
                Word::Node(*from),
                Word::Node(*to),
                Word::Pattern(pattern),
            ]);
        }
        Expected::MessageWithin {
            from,
            to,
            pattern,
            most_ms,
            since,
        } => {
            return WordList::of(&[
                Word::Fixed("message"),
                Word::Node(*from),
                Word::Node(*to),
                Word::Pattern(pattern),
                Word::Fixed("within"),
                Word::Number(u64::from(*most_ms)),
                Word::Fixed(since_word(*since)),
            ]);
        }
        Expected::NextMessage { from, to, pattern } => {
            return WordList::of(&[
                Word::Fixed("next message"),
                Word::Node(*from),
                Word::Node(*to),
                Word::Pattern(pattern),
            ]);
        }
        Expected::NoMessage { from, to } => {
            return WordList::of(&[
                Word::Fixed("no message"),
                Word::Node(*from),
                Word::Node(*to),
            ]);
        }
        Expected::NoLost { host: None } => return WordList::of(&[Word::Fixed("no lost")]),
        Expected::NoLost { host: Some(host) } => {
            return WordList::of(&[Word::Fixed("no lost"), Word::Node(*host)]);
        }
        Expected::Sent { host } => return WordList::of(&[Word::Fixed("sent"), Word::Node(*host)]),
        Expected::Lost { host, cause } => {
            return WordList::of(&[
                Word::Fixed("lost"),
                Word::Node(*host),
                Word::Fixed(cause.word()),
            ]);
        }
        Expected::Cycle {
            frame,
            time,
            within: None,
        } => {
            return WordList::of(&[
                Word::Fixed("cycle"),
                Word::Frame(*frame),
                Word::Said(time.text.as_slice()),
                Word::Fixed("ms"),
            ]);
        }
        Expected::Cycle {
            frame,
            time,
            within: Some(within),
        } => {
            return WordList::of(&[
                Word::Fixed("cycle"),
                Word::Frame(*frame),
                Word::Said(time.text.as_slice()),
                Word::Fixed("+-"),
                Word::Said(within.text.as_slice()),
                Word::Fixed("ms"),
            ]);
        }
        Expected::Table(table) => {
            return WordList::of(&[Word::Fixed("table"), Word::Table(*table)]);
        }
        Expected::Done => return WordList::of(&[Word::Fixed("done")]),
        Expected::Refused(why) => {
            return WordList::of(&[Word::Fixed("refused"), Word::Fixed(why.word())]);
        }
        Expected::Asleep => return WordList::of(&[Word::Fixed("asleep")]),
        Expected::Awake => return WordList::of(&[Word::Fixed("awake")]),
        Expected::Idle => return WordList::of(&[Word::Fixed("idle")]),
        Expected::HasRule(_) => return WordList::of(&[]),
    }
}

/// The end of the rule of a pattern.
fn when_end_line<'a>(node: u8, state: &'a Option<Text>, pattern: &'a Pattern) -> WordList<'a>
    ensures { result ≡ when_end_words node state.now pattern.now }
{
    match state {
        None => {
            return WordList::of(&[
                Word::Fixed("when"),
                Word::Node(node),
                Word::Pattern(pattern),
                Word::Fixed("off"),
            ]);
        }
        Some(state) => {
            return WordList::of(&[
                Word::Fixed("when"),
                Word::Node(node),
                Word::Fixed("in"),
                Word::Said(state.as_slice()),
                Word::Pattern(pattern),
                Word::Fixed("off"),
            ]);
        }
    }
}

/// The end of a repetition, with a space before it.
fn put_every_end<W: Write>(out: &mut TextWriter<'_, W>, cluster: &Cluster, by: PortId, step: &Step)
    ensures { Grows W.contents out.old out.new
        (spaced_word (cluster_text cluster.now (repeated_words by step.now))) }
{
    out.put_text(" every off");
    put_repeating_port(out, cluster, by);
    put_step(out, cluster, step);
}

/// The end of the steps that a form calls for, with a space before it.
fn put_on_end<W: Write>(out: &mut TextWriter<'_, W>, cluster: &Cluster, form: &Form)
    ensures { Grows W.contents out.old out.new
        (spaced_word (cluster_text cluster.now (on_end_words form.now))) }
{
    out.put_text(" on ");
    put_word_list(out, cluster, &condition_line(&form.what, form.wanted));
    out.put_text(" off");
}

/// The line that ends rules, with a space before it.
fn put_end<W: Write>(out: &mut TextWriter<'_, W>, cluster: &Cluster, end: &RuleEnd)
    ensures { Grows W.contents out.old out.new
        (spaced_word (cluster_text cluster.now (end_words end.now))) }
{
    match end {
        RuleEnd::When {
            node,
            state,
            pattern,
        } => {
            out.put_byte(b' ');
            put_word_list(out, cluster, &when_end_line(*node, state, pattern));
        }
        RuleEnd::WhensOf(node) => {
            out.put_text(" when");
            put_node(out, cluster, *node);
            out.put_text(" off");
        }
        RuleEnd::Every { by, step } => put_every_end(out, cluster, *by, step),
        RuleEnd::On(form) => put_on_end(out, cluster, form),
    }
}

/// What is expected, with a space before it.
fn put_expected<W: Write>(out: &mut TextWriter<'_, W>, cluster: &Cluster, expected: &Expected)
    ensures { Grows W.contents out.old out.new
        (spaced_word (expected_text cluster.now expected.now)) }
{
    match expected {
        Expected::HasRule(end) => put_end(out, cluster, end),
        _ => {
            out.put_byte(b' ');
            put_word_list(out, cluster, &expected_line(expected));
        }
    }
}

/// How many messages of a host wait, or answers of a node are noted.
fn pending_words(pending: &Pending) -> [Word<'_>; 4]
    ensures { map as_word result ≡ pending_words pending.now }
{
    let (node, count, how) = match pending {
        Pending::MessagesWait(host, count) => (*host, *count, "waiting"),
        Pending::AnswersNoted(node, count) => (*node, *count, "noted"),
    };
    [
        Word::Number(count as u64),
        Word::Fixed("of"),
        Word::Node(node),
        Word::Fixed(how),
    ]
}

fn put_others<W: Write>(out: &mut TextWriter<'_, W>, cluster: &Cluster, pending: &[Pending])
    ensures { Grows W.contents out.old out.new
        (spaced_words (named_language cluster.now)
        (flat_map other_pending_words pending.now)) }
{
    for one in pending {
        out.put_byte(b',');
        put_all_after(out, cluster, &pending_words(one));
    }
}

/// What waits, and what is noted: `1 of door waiting, 2 of cem waiting, 1 of door noted`.
pub fn put_pending<W: Write>(out: &mut TextWriter<'_, W>, cluster: &Cluster, pending: &[Pending])
    ensures { Grows W.contents out.old out.new (pending_text cluster.now pending.now) }
{
    match pending {
        [] => {}
        [first, rest @ ..] => {
            put_joined(out, cluster, &pending_words(first));
            put_others(out, cluster, rest);
        }
    }
}

/// What is so in its place, in few words; nothing for what `put_is` puts.
fn got_line(got: &Got) -> WordList<'_>
    ensures { result ≡ short_words got.now }
{
    match got {
        Got::Value(value) => return WordList::of(&[Word::Value(value)]),
        Got::Meaning(text) => return WordList::of(&[Word::Said(text.as_slice())]),
        Got::Waiting(count) => return WordList::of(&[Word::Number(*count as u64)]),
        Got::Message(bytes) => return WordList::of(&[Word::Bytes(bytes.as_slice())]),
        Got::MessageOf { from, to, bytes } => return WordList::of(&[
            Word::Node(*from),
            Word::Node(*to),
            Word::Bytes(bytes.as_slice()),
        ]),
        Got::Took(time) => return WordList::of(&[Word::Number(*time), Word::Fixed("us")]),
        Got::Sent { number } => return WordList::of(&[
            Word::Fixed("message"),
            Word::Number(u64::from(*number)),
            Word::Fixed("sent"),
        ]),
        Got::Lost { number, cause } => return WordList::of(&[
            Word::Fixed("message"),
            Word::Number(u64::from(*number)),
            Word::Fixed("lost"),
            Word::Fixed(cause.word()),
        ]),
        Got::LostOf {
            host,
            number,
            cause,
        } => return WordList::of(&[
            Word::Fixed("message"),
            Word::Number(u64::from(*number)),
            Word::Fixed("of"),
            Word::Node(*host),
            Word::Fixed("lost"),
            Word::Fixed(cause.word()),
        ]),
        Got::NoEvent => return WordList::of(&[Word::Fixed("none")]),
        Got::Seen(how) => return WordList::of(&[Word::Fixed(how.word())]),
        Got::Frame { frame, bytes } => return WordList::of(&[
            Word::Frame(*frame),
            Word::Bytes(bytes.as_slice()),
        ]),
        Got::Slot { table, entry } => return WordList::of(&[
            Word::Table(*table),
            Word::Number(u64::from(*entry)),
        ]),
        Got::Table(table) => return WordList::of(&[Word::Table(*table)]),
        Got::NoSlot => return WordList::of(&[Word::Fixed("no slot")]),
        Got::Done => return WordList::of(&[Word::Fixed("done")]),
        Got::Refused(why) => return WordList::of(&[
            Word::Fixed("refused"),
            Word::Fixed(why.word()),
        ]),
        Got::NoStep => return WordList::of(&[Word::Fixed("no step")]),
        Got::Asleep => return WordList::of(&[Word::Fixed("asleep")]),
        Got::Awake => return WordList::of(&[Word::Fixed("awake")]),
        Got::StillPending(_) | Got::Messages(_) => return WordList::of(&[]),
        Got::NoRule => return WordList::of(&[Word::Fixed("no such rule")]),
        Got::NoNode => return WordList::of(&[Word::Fixed("no such node")]),
        Got::NoNodeOrSignal => return WordList::of(&[Word::Fixed("no such node or signal")]),
    }
}

/// What is so in its place.
fn put_is<W: Write>(out: &mut TextWriter<'_, W>, cluster: &Cluster, got: &Got)
    ensures { Grows W.contents out.old out.new (got_text cluster.now got.now) }
{
    match got {
        Got::StillPending(pending) => put_pending(out, cluster, pending.as_slice()),
        Got::Messages(count) => out.put_number(*count),
        _ => put_word_list(out, cluster, &got_line(got)),
    }
}

/// What is so in its place, with a space before it.
fn put_got<W: Write>(out: &mut TextWriter<'_, W>, cluster: &Cluster, got: &Got)
    ensures { Grows W.contents out.old out.new (spaced_word (got_text cluster.now got.now)) }
{
    out.put_byte(b' ');
    put_is(out, cluster, got);
}

/// What is expected and what is so, with the line's end.
pub fn put_verdict<W: Write>(
    out: &mut TextWriter<'_, W>,
    cluster: &Cluster,
    expected: &Expected,
    got: &Got,
)
    ensures { Grows W.contents out.old out.new
        (verdict_text (expected_text cluster.now expected.now) (got_text cluster.now got.now)) }
{
    out.put_text(" expected");
    put_expected(out, cluster, expected);
    out.put_byte(b':');
    put_got(out, cluster, got);
    out.put_byte(b'\n');
}

/// What was judged, with a space before it.
pub fn put_what<W: Write>(out: &mut TextWriter<'_, W>, cluster: &Cluster, judged: &Judged)
    ensures { Grows W.contents out.old out.new (spaced_word (what_text cluster.now judged.now)) }
{
    match judged {
        Judged::Met(expected) | Judged::Unmet(expected, _) => put_expected(out, cluster, expected),
        Judged::NotDue { node } => {
            out.put_text(" leave");
            put_node(out, cluster, *node);
        }
        Judged::NothingExpected => out.put_text(" expectations"),
    }
}

/// What is so in place of what is expected, with a space before it; nothing where that is so.
pub fn put_found<W: Write>(out: &mut TextWriter<'_, W>, cluster: &Cluster, judged: &Judged)
    ensures { Grows W.contents out.old out.new
        (option_map_or spaced_word (found_text cluster.now judged.now) []) }
{
    match judged {
        Judged::Met(_) => {}
        Judged::Unmet(_, got) => put_got(out, cluster, got),
        Judged::NotDue { .. } => out.put_text(" not due"),
        Judged::NothingExpected => out.put_text(" none"),
    }
}

/// That what is expected isn't so, and what is: ` expected WHAT: GOT`.
pub fn put_judged<W: Write>(out: &mut TextWriter<'_, W>, cluster: &Cluster, judged: &Judged)
    ensures { Grows W.contents out.old out.new (judged_text cluster.now judged.now) }
{
    out.put_text(" expected");
    put_what(out, cluster, judged);
    out.put_byte(b':');
    put_found(out, cluster, judged);
}

/// The line of a judgement, where it isn't met.
pub fn put_unmet<W: Write>(
    out: &mut TextWriter<'_, W>,
    cluster: &Cluster,
    files: &[ScriptFile],
    judgement: &Judgement,
)
    ensures { Grows W.contents out.old out.new (unmet_text cluster.now files.now judgement.now) }
{
    if is_unmet(&judgement.judged) {
        out.put_text("script ");
        put_place_number(out, files, judgement.place);
        put_judged(out, cluster, &judgement.judged);
        out.put_byte(b'\n');
    }
}

fn put_all_unmet<W: Write>(
    out: &mut TextWriter<'_, W>,
    cluster: &Cluster,
    files: &[ScriptFile],
    judgements: &[Judgement],
)
    ensures { Grows W.contents out.old out.new
        (flat_map (unmet_text cluster.now files.now) judgements.now) }
{
    for one in judgements {
        put_unmet(out, cluster, files, one);
    }
}

/// Writes a line for each expectation that isn't met, in order: `script LINE expected WHAT: GOT`, with the
/// number of the line after the name of its file if the script includes that.
///
/// # Errors
/// `WriteFailed` at the first error of the writer; what was written then is the beginning of the
/// lines.
pub fn write_unmet<W: Write>(
    cluster: &Cluster,
    files: &[ScriptFile],
    judgements: &[Judgement],
    writer: &mut W,
) -> Result<(), WriteFailed>
    ensures { WritesText (W.contents writer.old) (W.contents writer.new) result
        (flat_map (unmet_text cluster.now files.now) judgements.now) }
{
    let mut buffer = TextBuffer::empty();
    let mut out = TextWriter::new(writer, &mut buffer);
    put_all_unmet(&mut out, cluster, files, judgements);
    out.finish()
}
