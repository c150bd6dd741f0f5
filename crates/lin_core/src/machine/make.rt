//! Steps as they are made on what the core keeps.

ghost use Rattle.std.specs.Prelude.{◌≡◌, ◌<◌, reverse, length, Some, None, IsOk, true, false};

use crate::due::{has_request, header_of};
use crate::event::Event;
use crate::host::responder;
use crate::link::Link;
use crate::log::Log;
use crate::machine::no_events;
use crate::messages::next_bytes;
use crate::payload::{Events, MadeEvents, Payload};
use crate::port::PortId;
use crate::ready::{is_service, service_bytes, slot_nodes};
use crate::setup::Setup;
use crate::signal_frames::frame_answer;
use crate::slot::{Put, is_sleep_asked, opening_events};
use crate::state::State;
use crate::step::{SendStep, Step, WriteStep};
use lin_frame::{SumKind, Value, answer};

impl State {
    ghost use Rattle.lin_core.specs.kept.Slots.{frame_answered};
    ghost use Rattle.lin_core.specs.Core.{IsSmall};
    ghost use Rattle.lin_core.specs.History.{open_slot, Slot as OpenedSlot};
    ghost use Rattle.lin_core.specs.kept.State.{stage, IsExecuted, IsStepReady, ExecutesStep};
    ghost use Rattle.lin_core.specs.kept.State.{send_step, write_step};

    /// A send that is accepted: its place in the log joins the sender's queue.
    fn send(&mut self, setup: &Setup, log: &Log, by: PortId, sent: SendStep<'_>) -> Events
        requires { IsStepReady (stage setup.now log.now self.old) by (send_step sent) }
        ensures { IsExecuted (stage setup.now log.now self.old) by (send_step sent.entry) result self.new }
    {
        let place = log.len() as u32;
        let host = &mut self.hosts[sent.from as usize];
        let number = host.settled + host.queue.len() as u32 + 1;
        host.accept(place);
        Events::one(Event::Accepted {
            host: sent.from,
            number,
        })
    }

    /// A write: the signal has the value, and its frames are pending.
    fn write(&mut self, setup: &Setup, log: &Log, by: PortId, written: WriteStep<'_>) -> Events
        requires { IsStepReady (stage setup.now log.now self.old) by (write_step written) }
        ensures { IsExecuted (stage setup.now log.now self.old) by
            (write_step written.entry) result self.new }
    {
        self.signals
            .write(&setup.cluster, written.signal, *written.value);
        no_events(setup)
    }

    /// A switch: the schedule goes on with a table.
    fn switch(&mut self, setup: &Setup, log: &Log, by: PortId, table: u16) -> Events
        requires { IsStepReady (stage setup.now log.now self.old) by (Step.Switch table) }
        ensures { IsExecuted (stage setup.now log.now self.old) by (Step.Switch table) result self.new }
    {
        self.walker.switch(table);
        no_events(setup)
    }

    /// An open: the slot that the schedule names begins.
    fn open(&mut self, setup: &Setup, log: &Log, by: PortId) -> MadeEvents
        requires ready { IsStepReady (stage setup.now log.now self.old) by Step.Open }
        ensures { ExecutesStep (stage setup.now log.now self.old) by Step.Open result self.new }
    {
        let place = self.walker.place();
        let waits = !self.hosts[0].queue.is_empty();
        let requests = has_request(waits, self.bus.asked);
        let responder = responder(self.hosts.as_slice(), self.bus.selected);
        let pending = self.signals.pending.as_slice();
        let due = self.walker.due(&setup.cluster, pending);
        let header = header_of(&setup.cluster, due, requests);
        let ready = self.ready.as_slice();
        let service = is_service(due, ready);
        let nodes = slot_nodes(&setup.cluster, due, requests, responder, pending, ready);
        let events = opening_events(setup.alloc, place, header, service, nodes.as_slice())?;
        self.slot
            .begin(&setup.cluster, place, header, service, nodes);
        Ok(events)
    }

    /// An answer.
    fn answer(&mut self, setup: &Setup, log: &Log, by: PortId, node: u8) -> Events
        requires ready { IsStepReady (stage setup.now log.now self.old) by (Step.Answer node) }
        ensures { IsExecuted (stage setup.now log.now self.old) by (Step.Answer node) result self.new }
    {
        let slot = self.slot.open();
        if slot.service {
            return self.answer_service(setup, log, by, node);
        }
        match slot.frame_answered(&setup.cluster, node) {
            Some(frame) => self.answer_frame(setup, log, by, node, frame),
            None => self.answer_message(setup, log, by, node),
        }
    }

    /// An answer with a frame of signals: the node puts it as the values stand, and the frame is
    /// pending no longer, unless the slot is then seen otherwise than good.
    fn answer_frame(&mut self, setup: &Setup, log: &Log, by: PortId, node: u8, frame: u16) -> Events
        requires ready { IsStepReady (stage setup.now log.now self.old) by (Step.Answer node) }
        requires plain { (s : OpenedSlot) → open_slot (reverse log.now.entries) ≡ Some s
            → s.service ≡ false }
        requires carried { frame_answered setup.now.cluster (reverse log.now.entries) node ≡ Some frame }
        requires frame { frame < length setup.now.cluster.frames }
        ensures { IsExecuted (stage setup.now log.now self.old) by (Step.Answer node) result self.new }
    {
        let slot = self.slot.open();
        let header = slot.header();
        let model = slot.frame_model(&setup.cluster, frame);
        let answer = frame_answer(
            &setup.cluster,
            self.signals.values.as_slice(),
            &mut self.signals.room,
            frame,
            model,
            header,
        );
        self.slot.put(Put {
            node,
            answer,
            cleared: self.signals.clear(frame),
        });
        Events::one(Event::Put { node, answer })
    }

    /// An answer in a diagnostic slot: the node puts what comes next of its host's messages, or the
    /// commander the sleep frame.
    fn answer_message(&mut self, setup: &Setup, log: &Log, by: PortId, node: u8) -> Events
        requires ready { IsStepReady (stage setup.now log.now self.old) by (Step.Answer node) }
        requires plain { (s : OpenedSlot) → open_slot (reverse log.now.entries) ≡ Some s
            → s.service ≡ false }
        requires none { frame_answered setup.now.cluster (reverse log.now.entries) node ≡ None }
        ensures { IsExecuted (stage setup.now log.now self.old) by (Step.Answer node) result self.new }
    {
        let header = self.slot.open().header();
        let sleeping = is_sleep_asked(header, self.bus.asked);
        let host = &self.hosts[node as usize];
        let place = host.next() as usize;
        let data = next_bytes(&setup.cluster, log, host, place, sleeping);
        let answer = answer(SumKind::Classic, header, &data);
        self.slot.put(Put {
            node,
            answer,
            cleared: None,
        });
        Events::one(Event::Put { node, answer })
    }

    /// An answer in a slot for a service: the commander puts the request, a responder its response.
    fn answer_service(&mut self, setup: &Setup, log: &Log, by: PortId, node: u8) -> Events
        requires ready { IsStepReady (stage setup.now log.now self.old) by (Step.Answer node) }
        requires service { (s : OpenedSlot) → open_slot (reverse log.now.entries) ≡ Some s
            → s.service ≡ true }
        ensures { IsExecuted (stage setup.now log.now self.old) by (Step.Answer node) result self.new }
    {
        let slot = self.slot.open();
        let header = slot.header();
        let data = service_bytes(slot.kind, self.ready.as_slice(), node);
        let frame = answer(SumKind::Classic, header, &data);
        self.slot.put(Put {
            node,
            answer: frame,
            cleared: None,
        });
        Events::one(Event::Put {
            node,
            answer: frame,
        })
    }

    /// A node leaves its response out.
    fn leave(&mut self, setup: &Setup, log: &Log, by: PortId, node: u8) -> Events
        requires { IsStepReady (stage setup.now log.now self.old) by (Step.Leave node) }
        ensures { IsExecuted (stage setup.now log.now self.old) by (Step.Leave node) result self.new }
    {
        self.slot.leave(node);
        no_events(setup)
    }

    /// The one response in the slot is disturbed.
    fn hurt(&mut self, setup: &Setup, log: &Log, by: PortId, bytes: &Payload) -> Events
        requires { IsStepReady (stage setup.now log.now self.old) by (Step.Hurt bytes.now) }
        ensures { IsExecuted (stage setup.now log.now self.old) by
            (Step.Hurt bytes.now) result self.new }
    {
        self.slot.hurt();
        no_events(setup)
    }

    /// An ask for sleep: the next frame of a message that isn't begun gives way to the sleep frame.
    fn ask_sleep(&mut self, setup: &Setup, log: &Log, by: PortId) -> Events
        requires { IsStepReady (stage setup.now log.now self.old) by Step.AskSleep }
        ensures { IsExecuted (stage setup.now log.now self.old) by Step.AskSleep result self.new }
    {
        self.bus.asked = true;
        no_events(setup)
    }

    /// A wake: the schedule's table starts again.
    fn wake(&mut self, setup: &Setup, log: &Log, by: PortId) -> Events
        requires { IsStepReady (stage setup.now log.now self.old) by Step.Wake }
        ensures { IsExecuted (stage setup.now log.now self.old) by Step.Wake result self.new }
    {
        self.walker.restart();
        self.bus.asleep = false;
        no_events(setup)
    }

    /// A close: the host sends no more messages.
    fn close(&mut self, setup: &Setup, log: &Log, by: PortId, host: u8) -> Events
        requires { IsStepReady (stage setup.now log.now self.old) by (Step.Close host) }
        ensures { IsExecuted (stage setup.now log.now self.old) by (Step.Close host) result self.new }
    {
        self.hosts[host as usize].closed = true;
        no_events(setup)
    }

    /// Makes a step that isn't refused: the events of it. An error means out of memory, and nothing
    /// is changed.
    #[inline(always)]
    pub(super) fn make(&mut self, setup: &Setup, log: &Log, by: PortId, step: &Step) -> MadeEvents
        requires ready { IsStepReady (stage setup.now log.now self.old) by step.now }
        ensures makes { ExecutesStep (stage setup.now log.now self.old) by step.now result self.new }
        ensures small { IsSmall step.now → IsOk result }
    {
        match step {
            Step::Send { from, to, message } => {
                let sent = SendStep {
                    from: *from,
                    to: *to,
                    message,
                };
                Ok(self.send(setup, log, by, sent))
            }
            Step::Write {
                by: node,
                signal,
                value,
            } => {
                let written = WriteStep {
                    node: *node,
                    signal: *signal,
                    value,
                };
                Ok(self.write(setup, log, by, written))
            }
            Step::Open => self.open(setup, log, by),
            Step::Answer { node } => Ok(self.answer(setup, log, by, *node)),
            Step::Leave { node } => Ok(self.leave(setup, log, by, *node)),
            Step::Hurt { bytes } => Ok(self.hurt(setup, log, by, bytes)),
            Step::Finish => self.finish(setup, log, by),
            Step::Timeout { node, dir } => {
                let link = Link {
                    node: *node,
                    dir: *dir,
                };
                Ok(self.time_out(setup, log, by, link))
            }
            Step::Switch { table } => Ok(self.switch(setup, log, by, *table)),
            Step::AskSleep => Ok(self.ask_sleep(setup, log, by)),
            Step::Wake => Ok(self.wake(setup, log, by)),
            Step::Close { host } => Ok(self.close(setup, log, by, *host)),
        }
    }
}
