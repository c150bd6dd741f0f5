//! What holds of the notes of every log of a core.

ghost use Rattle.std.specs.Prelude.{ℕ, List};
ghost use Rattle.lin_parts.specs.Sound.{IsSound};
ghost use Rattle.lin_core.specs.Core.{CoreData, IsHistory};
ghost use Rattle.lin_core.specs.Links.{Link};
ghost use Rattle.lin_core.specs.declared.port.PortId.{PortId};
ghost use Rattle.lin_threads.specs.Messages.{TakesGrowths, TellsLink};
ghost use Rattle.lin_threads.specs.declared.ports.steps.Note.{Note};

/// The messages of a host that another host's port is told of, from any place of the log on, are
/// what the reading of the link between them grew by since then.
pub fn tells_messages()
    ensures { (core : CoreData) (base : ℕ) (l : Link) → IsSound core.cluster → IsHistory core
        → TellsLink core base l }
{}

/// Where the notes that were taken are the first of those that a host's port is told, the messages
/// of each other host among them are the first of those by which the reading of the link between
/// the two hosts grew.
pub fn taken_messages()
    ensures { (core : CoreData) (base : ℕ) (port : PortId) (taken : List Note)
        → IsSound core.cluster → IsHistory core → TakesGrowths core base port taken }
{}
