//! Copies of events against what they copy.

use lin_core::{Core, Event, LogEntry, Reply, Seen};
use std::alloc::Global;
use std::process::Abort;
use std::test::Fail;

fn is_seen_alike(a: &Seen, b: &Seen) -> bool {
    match (a, b) {
        (Seen::Good(a), Seen::Good(b)) => a.as_slice() == b.as_slice(),
        (Seen::Silent, Seen::Silent)
        | (Seen::NoAnswer, Seen::NoAnswer)
        | (Seen::Damaged, Seen::Damaged)
        | (Seen::Collided, Seen::Collided) => true,
        _ => false,
    }
}

/// Whether two events of hosts' messages are equal.
fn is_told_alike(a: &Event, b: &Event) -> bool {
    match (a, b) {
        (
            Event::Accepted { host, number },
            Event::Accepted {
                host: other,
                number: copy,
            },
        )
        | (
            Event::Sent { host, number },
            Event::Sent {
                host: other,
                number: copy,
            },
        ) => host == other && number == copy,
        (
            Event::Lost {
                host,
                number,
                cause,
            },
            Event::Lost {
                host: other,
                number: copy,
                cause: why,
            },
        ) => host == other && number == copy && cause == why,
        (
            Event::Message { from, to, bytes },
            Event::Message {
                from: sender,
                to: receiver,
                bytes: copy,
            },
        ) => from == sender && to == receiver && bytes.as_slice() == copy.as_slice(),
        _ => false,
    }
}

/// Whether two events of slots are equal.
fn is_slot_alike(a: &Event, b: &Event) -> bool {
    match (a, b) {
        (
            Event::Slot {
                table,
                entry,
                header,
            },
            Event::Slot {
                table: other,
                entry: place,
                header: copy,
            },
        ) => table == other && entry == place && header == copy,
        (Event::Due { node }, Event::Due { node: other }) => node == other,
        (
            Event::Put { node, answer },
            Event::Put {
                node: other,
                answer: copy,
            },
        ) => node == other && answer.as_slice() == copy.as_slice(),
        (Event::Seen(seen), Event::Seen(copy)) => is_seen_alike(seen, copy),
        (Event::Service, Event::Service) | (Event::Asleep, Event::Asleep) => true,
        _ => false,
    }
}

/// Copies the events of an entry, and says how many there are.
fn copies_in(rt: &impl Abort, alloc: Global, entry: &LogEntry) -> Result<usize, Fail> {
    let Reply::Done(events) = &entry.reply else {
        return Ok(0);
    };
    for event in events.as_slice() {
        let copy = event.copy(alloc)?;
        assert!(rt; is_told_alike(event, &copy) || is_slot_alike(event, &copy));
    }
    Ok(events.as_slice().len())
}

/// Copies each event of a core's log, and compares it with its copy.
pub fn copies(rt: &impl Abort, alloc: Global, core: &Core, wanted: usize) -> Result<(), Fail> {
    let log = core.log();
    let mut count = 0usize;
    for index in 0..log.len() {
        count = count.saturating_add(copies_in(rt, alloc, log.entry(index))?);
    }
    assert_eq!(rt; count, wanted);
    Ok(())
}
