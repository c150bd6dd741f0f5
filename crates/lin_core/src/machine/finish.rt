//! Finishes of slots.

ghost use Rattle.std.specs.Prelude.{◌≡◌, IfOk, Some, true, false, reverse};

use crate::event::Event;
use crate::link::Cause;
use crate::log::Log;
use crate::machine::{three_events, two_events};
use crate::messages::message_at;
use crate::messages_to_all::events_to_all;
use crate::payload::{Events, MadeEvents, Payload};
use crate::pdu::Pdu;
use crate::port::PortId;
use crate::receivers::{hear, make_room_in_all, reset_all};
use crate::setup::Setup;
use crate::sleep_losses::sleep_events;
use crate::state::State;
use crate::step::Step;
use std::alloc::{AllocError, Global};

/// The bytes of a message as they are told where its last frame is heard; before, none.
fn told_bytes(alloc: Global, last: bool, bytes: &[u8]) -> Result<Payload, AllocError>
    ensures { IfOk result (λ p. last ≡ true → p ≡ bytes.now) }
{
    Payload::copied(alloc, if last { bytes } else { &[] })
}

impl State {
    ghost use Rattle.lin_core.specs.kept.State.{stage, IsExecuted, IsStepReady, ExecutesStep};
    ghost use Rattle.lin_core.specs.History.{open_slot, Slot as OpenedSlot};
    ghost use Rattle.lin_core.specs.kept.Hosts.{is_next_to_all};
    ghost use Rattle.lin_core.specs.kept.Slots.{is_still, pdu_of, IsCarried};
    ghost use Rattle.lin_core.specs.declared.pdu.Pdu.TheVariants.{OfMessage, Sleep};

    /// A finish of a slot by which no message moves on, and the cluster stays awake.
    fn finish_plain(&mut self, setup: &Setup, log: &Log, by: PortId) -> Events
        requires ready { IsStepReady (stage setup.now log.now self.old) by Step.Finish }
        requires still { (s : OpenedSlot) → open_slot (reverse log.now.entries) ≡ Some s
            → is_still (pdu_of s) s.hurt ≡ true }
        ensures { IsExecuted (stage setup.now log.now self.old) by Step.Finish result self.new }
    {
        let seen = self.pass_slot(&setup.cluster);
        Events::one(Event::Seen(seen))
    }

    /// A finish of a slot with a damaged frame of a host's message, which is lost.
    fn finish_damaged(&mut self, setup: &Setup, log: &Log, by: PortId, sender: u8) -> MadeEvents
        requires ready { IsStepReady (stage setup.now log.now self.old) by Step.Finish }
        requires carried { (s : OpenedSlot) → open_slot (reverse log.now.entries) ≡ Some s
            → (pdu_of s ≡ OfMessage sender) × (s.hurt ≡ true) }
        ensures { ExecutesStep (stage setup.now log.now self.old) by Step.Finish result self.new }
    {
        let room = Vec::with_capacity(setup.alloc, 2)?;
        let seen = self.pass_slot(&setup.cluster);
        let host = &mut self.hosts[sender as usize];
        let number = host.settled + 1;
        host.settle();
        let lost = Event::Lost {
            host: sender,
            number,
            cause: Cause::Damaged,
        };
        Ok(two_events(room, Event::Seen(seen), lost))
    }

    /// A finish of a slot with a good frame to all responders: each of them that has an address is
    /// told of the message.
    fn finish_to_all(&mut self, setup: &Setup, log: &Log, by: PortId) -> MadeEvents
        requires ready { IsStepReady (stage setup.now log.now self.old) by Step.Finish }
        requires carried { IsCarried (reverse log.now.entries) 0 false }
        requires all { is_next_to_all setup.now.cluster (reverse log.now.entries) 0 ≡ true }
        ensures { ExecutesStep (stage setup.now log.now self.old) by Step.Finish result self.new }
    {
        let room = Vec::with_capacity(setup.alloc, 2 + self.receivers.len())?;
        make_room_in_all(&mut self.receivers)?;
        let frame = self.slot.open().data();
        let seen = self.pass_slot(&setup.cluster);
        let host = &mut self.hosts[0];
        let number = host.settled + 1;
        host.settle();
        let told = &mut self.receivers;
        Ok(events_to_all(room, seen, setup, told, &frame, number))
    }

    /// A finish of a slot with a good frame of a host's message: the message goes on, or it is
    /// whole, and its receiver is told of it.
    fn finish_good(&mut self, setup: &Setup, log: &Log, by: PortId, sender: u8) -> MadeEvents
        requires ready { IsStepReady (stage setup.now log.now self.old) by Step.Finish }
        requires carried { IsCarried (reverse log.now.entries) sender false }
        ensures { ExecutesStep (stage setup.now log.now self.old) by Step.Finish result self.new }
    {
        let host = &self.hosts[sender as usize];
        let message = message_at(&setup.cluster, log, host.next() as usize);
        if message.link.is_to_all() {
            return self.finish_to_all(setup, log, by);
        }
        let last = host.is_last(message.bytes.len());
        let told = if last { 3 } else { 0 };
        // (what is told is made before anything changes, since memory may be refused)
        let room = Vec::with_capacity(setup.alloc, told)?;
        let bytes = told_bytes(setup.alloc, last, message.bytes)?;
        let frame = self.slot.open().data();
        hear(&mut self.receivers, message.link, &frame)?;
        let seen = self.pass_slot(&setup.cluster);
        let host = &mut self.hosts[sender as usize];
        if last {
            let number = host.settled + 1;
            host.settle();
            let to = message.link.receiver();
            let whole = Event::Message {
                from: sender,
                to,
                bytes,
            };
            let sent = Event::Sent {
                host: sender,
                number,
            };
            return Ok(three_events(room, Event::Seen(seen), whole, sent));
        }
        host.go_on(message.address, message.bytes.len());
        Ok(Events::one(Event::Seen(seen)))
    }

    /// A finish of a slot with the sleep frame, seen good: the cluster goes to sleep, and each
    /// message that is begun is lost.
    fn finish_sleep(&mut self, setup: &Setup, log: &Log, by: PortId) -> MadeEvents
        requires ready { IsStepReady (stage setup.now log.now self.old) by Step.Finish }
        requires asleep { (s : OpenedSlot) → open_slot (reverse log.now.entries) ≡ Some s
            → (pdu_of s ≡ Sleep) × (s.hurt ≡ false) }
        ensures { ExecutesStep (stage setup.now log.now self.old) by Step.Finish result self.new }
    {
        let room = Vec::with_capacity(setup.alloc, 2 + self.hosts.len())?;
        let seen = self.pass_slot(&setup.cluster);
        reset_all(&mut self.receivers);
        Ok(sleep_events(room, seen, &mut self.hosts))
    }

    /// A finish.
    pub(super) fn finish(&mut self, setup: &Setup, log: &Log, by: PortId) -> MadeEvents
        requires ready { IsStepReady (stage setup.now log.now self.old) by Step.Finish }
        ensures { ExecutesStep (stage setup.now log.now self.old) by Step.Finish result self.new }
    {
        let slot = self.slot.open();
        let hurt = slot.hurt;
        match slot.pdu() {
            Pdu::OfMessage { host } => {
                if hurt {
                    self.finish_damaged(setup, log, by, host)
                } else {
                    self.finish_good(setup, log, by, host)
                }
            }
            Pdu::Sleep => {
                if hurt {
                    Ok(self.finish_plain(setup, log, by))
                } else {
                    self.finish_sleep(setup, log, by)
                }
            }
            Pdu::Nothing => Ok(self.finish_plain(setup, log, by)),
        }
    }
}
