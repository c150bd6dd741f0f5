//! Timeouts.

use crate::event::Event;
use crate::host::{begun_by, next_by};
use crate::link::{Cause, Link};
use crate::log::Log;
use crate::machine::Core;
use crate::messages::message_at;
use crate::payload::Events;
use crate::port::PortId;
use crate::setup::Setup;
use crate::state::State;
use crate::step::Step;

impl Core {
    ghost use Rattle.lin_core.specs.Core.{past_of};
    ghost use Rattle.lin_core.specs.kept.Refusals.{KnowsBegun};

    /// Whether a message is begun on a link, where no slot is open.
    pub(super) fn is_begun(&self, link: Link) -> bool
        ensures { KnowsBegun self.now.cluster (past_of self.now) link result }
    {
        let hosts = self.state.hosts.as_slice();
        let host = link.sender();
        let place = next_by(hosts, host) as usize;
        begun_by(hosts, host)
            && message_at(&self.setup.cluster, &self.log, place)
                .link
                .is(link)
    }
}

impl State {
    ghost use Rattle.lin_core.specs.kept.State.{stage, IsExecuted, IsStepReady};

    /// A timeout: the message that is begun there is lost, and its receiver forgets what it heard
    /// of it.
    pub(super) fn time_out(&mut self, setup: &Setup, log: &Log, by: PortId, link: Link) -> Events
        requires { IsStepReady (stage setup.now log.now self.old) by (Step.Timeout link.node link.dir) }
        ensures { IsExecuted (stage setup.now log.now self.old) by
            (Step.Timeout link.node link.dir) result self.new }
    {
        let host = link.sender();
        let kept = &mut self.hosts[host as usize];
        let number = kept.settled + 1;
        kept.settle();
        self.receivers[link.node as usize].reset(link.dir);
        Events::one(Event::Lost {
            host,
            number,
            cause: Cause::TimedOut,
        })
    }
}
