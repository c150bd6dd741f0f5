//! What holds of the definitions.

ghost use Rattle.std.specs.Prelude.{ℕ, ◌<◌, Bool, List, length};
ghost use Rattle.lin_parts.specs.Cluster.{table_of};
ghost use Rattle.lin_parts.specs.Rules.{IsCluster};
ghost use Rattle.lin_parts.specs.declared.parts.Parts.{Parts};
ghost use Rattle.lin_schedule.specs.Schedule.{Move};
ghost use Rattle.lin_schedule.specs.Law.{HaveOwnOffsets, IsInTurn, IsDueInTurn, RunsOnce};

/// A law over the definitions; there is nothing to run. Times tell the entries of a table apart,
/// and where nothing clashes its entries are due in turn, round and round (ISO 17987-3, schedule
/// tables).
pub fn entries_in_turn()
    ensures offsets { (c : Parts) → IsCluster c → (t : ℕ) → t < length c.tables
        → HaveOwnOffsets (table_of c t) }
    ensures times { (c : Parts) → IsCluster c → (t : ℕ) → t < length c.tables → (n : ℕ)
        → IsInTurn c t n }
    ensures slots { (c : Parts) → IsCluster c → (t : ℕ) → t < length c.tables → (n : ℕ)
        → IsDueInTurn c t n }
{}

/// A law over the definitions; there is nothing to run. An excursion is as many slots as its
/// resolving table has entries, and after it the schedule stands as if the slot had not clashed
/// (ISO 17987-3, event-triggered frames).
pub fn excursions_run_once()
    ensures { (c : Parts) (opening : ℕ) (moves : List Move) (r : ℕ)
        → RunsOnce c opening moves r }
{}
