//! What a reader without scripts sees first: what stands in a log, in numbers.

ghost use Rattle.std.specs.Prelude.{◌≡◌, flat_map};
ghost use Rattle.std.specs.List.{count_by};
ghost use Rattle.lin_core.specs.History.{reply_events};
ghost use Rattle.lin_core.specs.Tables.{looks};
ghost use Rattle.lin_text.specs.Written.{Grows};
ghost use Rattle.lin_tool.specs.Page.{events_so, is_lost_event, is_refusal, is_seen, look_count, labeled_number, summary};
ghost use Rattle.lin_tool.specs.PageTold.{is_told};

use itoa::Integer;
use lin_core::{Core, Event, Listed, Log, Look, Reply};
use lin_text::TextWriter;
use std::io::Write;

/// Which events are counted.
#[derive(Clone, Copy)]
enum CountedEvents {
    Slots,
    Seen(Look),
    Lost,
}

/// Whether an event is counted.
fn is_told(told: CountedEvents, event: &Event) -> bool
    ensures { result ≡ is_told told event.now }
{
    match (told, event) {
        (CountedEvents::Slots, Event::Seen(_)) => true,
        (CountedEvents::Seen(look), Event::Seen(how)) => how.look().number() == look.number(),
        (CountedEvents::Lost, Event::Lost { .. }) => true,
        _ => false,
    }
}

/// How many events of an entry are counted.
fn entry_told(told: CountedEvents, reply: &Reply) -> usize
    ensures { result ≡ count_by (is_told told) (reply_events reply.now) }
{
    let Reply::Done(events) = reply else {
        return 0;
    };
    let mut count = 0;
    for event in events.as_slice() {
        if is_told(told, event) {
            count += 1;
        }
    }
    count
}

/// How many events of a log are counted.
fn count(told: CountedEvents, log: &Log) -> u128
    ensures { result ≡ events_so (is_told told) log.now.entries }
{
    let mut count: u128 = 0;
    for index in 0..log.len() {
        count += entry_told(told, &log.entry(index).reply) as u128;
    }
    count
}

/// How many slots of a log were finished.
pub(crate) fn slots_finished(log: &Log) -> u128
    ensures { result ≡ events_so is_seen log.now.entries }
{
    count(CountedEvents::Slots, log)
}

/// How many messages of a log were lost.
pub(crate) fn messages_lost(log: &Log) -> u128
    ensures { result ≡ events_so is_lost_event log.now.entries }
{
    count(CountedEvents::Lost, log)
}

/// How many steps of a log were refused.
pub(crate) fn steps_refused(log: &Log) -> usize
    ensures { result ≡ count_by (λ e. is_refusal e.reply) log.now.entries }
{
    let mut count = 0;
    for index in 0..log.len() {
        if let Reply::Refused(_) = &log.entry(index).reply {
            count += 1;
        }
    }
    count
}

fn put_count<W: Write, I: Integer>(out: &mut TextWriter<'_, W>, word: &str, count: I)
    ensures { Grows W.contents out.old out.new (labeled_number word.now (I.text count)) }
{
    out.put_text(word);
    out.put_text(": ");
    out.put_number(count);
}

/// How many slots were seen how.
fn put_looks<W: Write>(out: &mut TextWriter<'_, W>, log: &Log)
    ensures { Grows W.contents out.old out.new (flat_map (look_count log.now.entries) looks) }
{
    for look in Look::all() {
        out.put_text(", ");
        put_count(out, look.word(), count(CountedEvents::Seen(*look), log));
    }
}

/// The line of numbers.
pub(crate) fn put_summary<W: Write>(out: &mut TextWriter<'_, W>, core: &Core)
    ensures { Grows W.contents out.old out.new (summary core.now.cluster core.now.log) }
{
    let log = core.log();
    out.put_text("<p>");
    put_count(out, "slots", slots_finished(log));
    put_looks(out, log);
    put_count(out, ", refused", steps_refused(log));
    put_count(out, ", lost", messages_lost(log));
    put_count(out, ", time_us", core.time());
    out.put_text("</p>\n");
}
