//! What holds of every history: of each list of steps, by any ports, in any order, refused ones
//! included.

ghost use Rattle.std.specs.Prelude.{ℕ, List};
ghost use Rattle.lin_parts.specs.Sound.{IsSound};
ghost use Rattle.lin_parts.specs.declared.parts.Parts.{Parts};
ghost use Rattle.lin_core.specs.Promises.{CarriesFrames, StaysClosed, DeliversExactly};
ghost use Rattle.lin_core.specs.Promises.{FatesAreFinal, HasNoRequest, LosesNothing, NoServices};
ghost use Rattle.lin_core.specs.Promises.{PutsInOrder};
ghost use Rattle.lin_core.specs.Runs.{history};
ghost use Rattle.lin_core.specs.declared.port.PortId.{PortId};
ghost use Rattle.lin_core.specs.declared.step.Step.{Step};

/// The receiver of each link reads the messages that were accepted for it and sent, in order and
/// each once, and is told of these alone.
pub fn delivers_exactly()
    ensures { (c : Parts) (opening capacity : ℕ) (steps : List (PortId × Step)) → IsSound c
        → DeliversExactly c (history c opening capacity steps) }
{}

/// Each link carries the frames of its messages in order, each message's from its first frame on.
pub fn puts_in_order()
    ensures { (c : Parts) (opening capacity : ℕ) (steps : List (PortId × Step)) → IsSound c
        → PutsInOrder c (history c opening capacity steps) }
{}

/// A message's fate that isn't to wait never changes, its host is told of it once, and each link
/// that it goes over tells the same.
pub fn fates_are_final()
    ensures { (c : Parts) (opening capacity : ℕ) (steps : List (PortId × Step)) → IsSound c
        → FatesAreFinal c (history c opening capacity steps) }
{}

/// Each slot has the due entry, its header and its due nodes, and each put the bytes of its entry.
pub fn carries_frames()
    ensures { (c : Parts) (opening capacity : ℕ) (steps : List (PortId × Step))
        → CarriesFrames c opening (history c opening capacity steps) }
{}

/// Nothing of a host is accepted after it was closed.
pub fn stays_closed()
    ensures { (c : Parts) (opening capacity : ℕ) (steps : List (PortId × Step))
        → StaysClosed (history c opening capacity steps) }
{}

/// Where nothing is disturbed, no message is lost, and where nothing of a host waits, all that was
/// accepted from it was read.
pub fn loses_nothing()
    ensures { (c : Parts) (opening capacity : ℕ) (steps : List (PortId × Step)) → IsSound c
        → LosesNothing c (history c opening capacity steps) }
{}

/// Where no entry carries a request of node configuration, no slot is for a service.
pub fn no_services()
    ensures { (c : Parts) (opening capacity : ℕ) (steps : List (PortId × Step)) → HasNoRequest c
        → NoServices c (history c opening capacity steps) }
{}
