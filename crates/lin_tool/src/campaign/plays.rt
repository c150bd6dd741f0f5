//! The plays of a campaign's script: without faults, and under them.

ghost use Rattle.std.specs.Prelude.{◌≡◌, IfErr, IfOk, List};
ghost use Rattle.lin_bench.specs.Plays.{ComesUnder};
ghost use Rattle.lin_bench.specs.declared.line.ScriptLine.{ScriptLine};
ghost use Rattle.lin_bench.specs.declared.place.LinePlace.{LinePlace};
ghost use Rattle.lin_export.specs.WhereTold.{given_coding};
ghost use Rattle.lin_tool.specs.campaign.Played.{IsMemoryFault, IsPlayOf, IsUnfinished, PlaysRow, PlaysUndisturbed};
ghost use Rattle.lin_tool.specs.campaign.Steps.{IsCampaignReady, SaysLines};

use crate::campaign::row::row_of;
use crate::campaign::{Campaign, Play};
use crate::fault::Fault;
use crate::notes::Notes;
use crate::play_command::{in_words, limit_fault};
use lin_bench::{LinePlace, PlayedUnder, ReadFault, ScriptLine, SlotFault, play_under, read};
use lin_parts::Cluster;

impl Campaign<'_, '_> {
    /// Plays the script under faults on a cluster, which the play keeps.
    ///
    /// # Errors
    /// `LogFull`, `OutOfMemory`.
    pub(crate) fn play(&self, cluster: Cluster, faults: &[SlotFault]) -> Result<Play, Fault>
        requires ready { IsCampaignReady self.now cluster }
        ensures plays { (ls : List (LinePlace × ScriptLine)) → SaysLines self.now cluster ls
            → PlaysRow self.now cluster faults.now ls result }
        ensures same { IfOk result (λ play. play.core.cluster ≡ cluster) }
    {
        let lines = match read(self.alloc, &cluster, self.coded, self.limits, self.source) {
            Ok(lines) => lines,
            Err(ReadFault::BadLine { place, .. }) => {
                return Err(Fault::BadBenchLine {
                    place,
                    told: Ok(()),
                });
            }
            Err(ReadFault::OutOfMemory) => return Err(Fault::OutOfMemory),
        };
        let played = self.played(cluster, lines, faults)?;
        self.judged(played)
    }

    /// Plays lines of the script on a cluster without faults, and adds the refused steps to the notes.
    ///
    /// # Errors
    /// `SlotLimit`, `LogFull`, `OutOfMemory`.
    pub(crate) fn undisturbed(
        &self,
        cluster: Cluster,
        lines: Vec<(LinePlace, ScriptLine)>,
        notes: &mut Notes<'_>,
    ) -> Result<Play, Fault>
        requires ready { IsCampaignReady self.now cluster }
        ensures { PlaysUndisturbed self.now cluster lines.items result }
    {
        let played = self.played(cluster, lines, &[])?;
        notes.add_refusals(played.core.log());
        match played.limit {
            Some(place) => Err(limit_fault(self.alloc, self.source, place)?),
            None => self.judged(played),
        }
    }

    /// Plays lines of the script on a cluster under faults.
    ///
    /// # Errors
    /// `LogFull`, `OutOfMemory`.
    fn played(
        &self,
        cluster: Cluster,
        lines: Vec<(LinePlace, ScriptLine)>,
        faults: &[SlotFault],
    ) -> Result<PlayedUnder, Fault>
        requires ready { IsCampaignReady self.now cluster }
        ensures plays { IfOk result (λ it. ComesUnder self.now.is_strict cluster self.now.table
            self.now.capacity faults.now lines.items it) }
        ensures fails { IfErr result (IsUnfinished self.now cluster faults.now lines.items) }
    {
        let played = play_under(
            self.alloc,
            cluster,
            self.table,
            self.capacity,
            lines,
            self.is_strict,
            faults,
        )?;
        Ok(played)
    }

    /// A play, with its row.
    ///
    /// # Errors
    /// `OutOfMemory`.
    fn judged(&self, played: PlayedUnder) -> Result<Play, Fault>
        ensures row { IfOk result (λ play. IsPlayOf (given_coding self.now.coded) played play) }
        ensures fails { IfErr result IsMemoryFault }
    {
        let row = row_of(self.alloc, &played)?;
        let PlayedUnder {
            core,
            judgements,
            ..
        } = played;
        Ok(Play {
            core,
            judgements: in_words(self.alloc, self.coded, judgements)?,
            row,
        })
    }
}
