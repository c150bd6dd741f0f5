//! Messages that are lost as the cluster goes to sleep.

ghost use Rattle.std.specs.Prelude.{◌≡◌, ◌<◌, ◌≤◌, ◌+◌, ◌++◌, ◌∷◌, [], ◌^◌, ℕ, Some, length};
ghost use Rattle.std.specs.Prelude.{option_map, slice_get, vec_capacity};
ghost use Rattle.lin_core.specs.kept.Hosts.{losses, loss_of, host_after_sleep};
ghost use Rattle.lin_core.specs.declared.host.Host.{Host};

use crate::event::{Event, Seen};
use crate::host::Host;
use crate::link::Cause;
use crate::payload::Events;

/// The message that a host has begun is lost, and the host is told.
fn lose_one(kept: &mut Host, host: u8, events: &mut Vec<Event>)
    requires small { kept.old.settled + 1 < 2 ^ 32 }
    requires room { length events.old.items + 1 ≤ vec_capacity events.old }
    ensures host { kept.new ≡ host_after_sleep kept.old }
    ensures events { events.new.items ≡ events.old.items ++ loss_of host kept.old }
    ensures room { vec_capacity events.old ≤ vec_capacity events.new }
{
    if kept.sender.is_none() {
        return;
    }
    kept.settle();
    let lost = Event::Lost {
        host,
        number: kept.settled,
        cause: Cause::Slept,
    };
    events.push(lost).unwrap();
}

/// The message that each host has begun is lost, and the hosts are told, by rising number.
fn lose_begun(hosts: &mut Vec<Host>, events: &mut Vec<Event>)
    requires few { length hosts.old.items ≤ 16 }
    requires small { (h : ℕ) (kept : Host) → slice_get hosts.old.items h ≡ Some kept
        → kept.settled + 1 < 2 ^ 32 }
    requires room { length events.old.items + length hosts.old.items ≤ vec_capacity events.old }
    ensures count { length hosts.new.items ≡ length hosts.old.items }
    ensures hosts { (h : ℕ) → slice_get hosts.new.items h
        ≡ option_map host_after_sleep (slice_get hosts.old.items h) }
    ensures events { events.new.items ≡ events.old.items ++ losses hosts.old.items }
{
    for host in 0..hosts.len() as u8 {
        lose_one(&mut hosts[host as usize], host, events);
    }
}

/// The cluster goes to sleep at the end of a slot that is seen so: the message that each host has
/// begun is lost. The events, in the room that was made for them.
pub(crate) fn sleep_events(room: Vec<Event>, seen: Seen, hosts: &mut Vec<Host>) -> Events
    requires empty { room.items ≡ [] }
    requires few { length hosts.old.items ≤ 16 }
    requires small { (h : ℕ) (kept : Host) → slice_get hosts.old.items h ≡ Some kept
        → kept.settled + 1 < 2 ^ 32 }
    requires room { 2 + length hosts.old.items ≤ vec_capacity room }
    ensures count { length hosts.new.items ≡ length hosts.old.items }
    ensures hosts { (h : ℕ) → slice_get hosts.new.items h
        ≡ option_map host_after_sleep (slice_get hosts.old.items h) }
    ensures events { result ≡ Event.Seen seen ∷ Event.Asleep ∷ losses hosts.old.items }
{
    let mut events = room;
    events.push(Event::Seen(seen)).unwrap();
    events.push(Event::Asleep).unwrap();
    lose_begun(hosts, &mut events);
    Events::new(events)
}
