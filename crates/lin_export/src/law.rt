//! What holds of every history, as it is written in other forms.

ghost use Rattle.std.specs.Prelude.{ℕ, All, List, Option};
ghost use Rattle.lin_core.specs.Runs.{history};
ghost use Rattle.lin_core.specs.declared.port.PortId.{PortId};
ghost use Rattle.lin_core.specs.declared.step.Step.{Step};
ghost use Rattle.lin_export.specs.Captured.{IsCaptured};
ghost use Rattle.lin_export.specs.Dumped.{IsDumped};
ghost use Rattle.lin_export.specs.Marks.{TellsPlaces};
ghost use Rattle.lin_parts.specs.declared.parts.Parts.{Parts};
ghost use Rattle.lin_values.specs.Coded.{CodedData};

use lin_parts::Cluster;

/// The good frames of a capture have the data and the checksums that were seen good, in order, and
/// the times of its packets never fall.
pub fn captures_what_was_seen()
    ensures { (c : Parts) (opening capacity : ℕ) (steps : List (PortId × Step))
        → IsCaptured c (history c opening capacity steps) }
{}

/// The last value of each signal in a dump, as it is heard and as it is written, is the one that
/// the core has; where it is told what values mean, its last decimal is what the heard one means.
pub fn dumps_last_values(cluster: &Cluster)
    ensures { (k : Option CodedData) (opening capacity : ℕ) (steps : List (PortId × Step))
        → IsDumped cluster.now k (history cluster.now opening capacity steps) }
{
    cluster.sound();
}

/// In the map of each frame, a bit has the mark of a signal exactly if the signal's place has the bit,
/// and as many bits as are free have the mark of a free bit.
pub fn maps_tell_places(cluster: &Cluster)
    ensures { All (λ f. TellsPlaces f.layout) cluster.now.frames }
{
    cluster.sound();
}
