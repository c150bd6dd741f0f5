//! A host's task that puts the steps of a script.

use crate::ports::{Full, HostPort, HostStep};
use crate::tasks::{HostTask, Turn};
use std::marker::Model;
use std::vec::IntoIter;

/// A task that puts a list of steps in order. Contracts see it as the steps that are left.
#[derive(Drop)]
pub struct ScriptTask {
    next: Option<HostStep>,
    rest: IntoIter<HostStep>,
}

impl Model for ScriptTask {
    ghost use Rattle.std.specs.Prelude.{◌≡◌, List, [], ◌++◌, IfNone};
    ghost use Rattle.std.specs.Option.{option_to_list};
    ghost use Rattle.std.specs.Vec.Iter.{into_iter_items};
    ghost use Rattle.lin_threads.specs.declared.ports.steps.HostStep.{HostStep};

    ghost Value = { List HostStep };

    ghost view = { λ t. option_to_list t.next ++ into_iter_items t.rest };

    ghost invariant = { λ t. IfNone t.next (into_iter_items t.rest ≡ []) };
}

impl ScriptTask {
    ghost use Rattle.std.specs.Prelude.{◌≡◌, ◌≤◌, [], length, IsTrue, ◌↔◌};
    ghost use Rattle.lin_threads.specs.Ports.{host_wiring, host_put, host_took, host_ring};
    ghost use Rattle.lin_threads.specs.Scripts.{PutsFirst};

    /// A task with all these steps left.
    pub fn new(steps: Vec<HostStep>) -> ScriptTask
        ensures { result ≡ steps.items }
    {
        let mut rest = steps.into_iter();
        ScriptTask {
            next: rest.next(),
            rest,
        }
    }

    /// Puts the first step that is left, where there is one and the port's ring has room.
    fn put_next(&mut self, port: &mut HostPort)
        ensures port { host_wiring port.new ≡ host_wiring port.old }
        ensures puts { PutsFirst self.old self.new port.old port.new }
        ensures full { self.new ≡ self.old → 1 ≤ length self.old
            → host_ring port.old ≤ length (host_put port.old) }
        ensures took { host_took port.new ≡ host_took port.old }
    {
        let Some(step) = self.next.take() else {
            return;
        };
        match port.put(step) {
            Ok(()) => self.next = self.rest.next(),
            Err(Full(back)) => self.next = Some(back),
        }
    }

    /// Whether no step is left.
    fn is_empty(&self) -> bool
        ensures { IsTrue result ↔ (self.now ≡ []) }
    {
        self.next.is_none()
    }
}

impl HostTask for ScriptTask {
    ghost use Rattle.std.specs.Prelude.{◌≡◌, ◌≤◌, ◌+◌, length};
    ghost use Rattle.lin_threads.specs.Ports.{Continues, host_put, host_took, host_ring};
    ghost use Rattle.lin_threads.specs.Scripts.{PutsFirst, turn_with};

    /// Takes a note, if one has come, and puts the first step that is left, which stays where the
    /// port's ring is full. The task is done once no step is left and the run's slots are over.
    fn turn(&mut self, port: &mut HostPort, over: bool) -> Turn
        ensures port { Continues port.old port.new }
        ensures puts { PutsFirst self.old self.new port.old port.new }
        ensures full { self.new ≡ self.old → 1 ≤ length self.old
            → host_ring port.old ≤ length (host_put port.old) }
        ensures took { length (host_took port.new) ≤ length (host_took port.old) + 1 }
        ensures turn { result ≡ turn_with self.new over }
    {
        let _note = port.take();
        self.put_next(port);
        if over && self.is_empty() {
            Turn::Done
        } else {
            Turn::Again
        }
    }

    /// Whether no step is left.
    fn is_idle(&self) -> bool {
        self.is_empty()
    }
}
