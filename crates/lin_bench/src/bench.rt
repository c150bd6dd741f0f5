//! Benches in hand.

ghost use Rattle.std.specs.Prelude.{◌≡◌, ◌≤◌, ◌<◌, [], IfOk, OnOk, count_by, length, not, option_map};
ghost use Rattle.lin_bench.specs.Bench.{early_end};
ghost use Rattle.lin_core.specs.Core.{IsAlike, past_of};
ghost use Rattle.lin_bench.specs.Made.{ended_verdict, expected_after, met_or};
ghost use Rattle.lin_bench.specs.Making.{ending_of};
ghost use Rattle.lin_bench.specs.RulesInForce.{lines_of_rules};
ghost use Rattle.lin_bench.specs.Searches.{IsSearchState, taken_by};
ghost use Rattle.lin_bench.specs.Slots.{pending};
ghost use Rattle.lin_bench.specs.Verdicts.{kind_taken, taking, verdict};
ghost use Rattle.lin_bench.specs.declared.line.Disturbance.{Disturbance};
ghost use Rattle.lin_bench.specs.declared.line.ScriptLine.{ScriptLine};
ghost use Rattle.lin_bench.specs.declared.rules.Rule.{Rule};

use crate::ended_rules::has_rule;
use crate::expected::Expected;
use crate::fault::MakeFault;
use crate::faults::ArmedFault;
use crate::got::{Got, Pending, Verdict};
use crate::line::{Disturbance, Extent, ScriptLine, Slots};
use crate::marks::Mark;
use crate::ruled::{RuledCore, pending};
use crate::rules::{Rule, RuleEnd};
use crate::rules_in_force::lines_of_rules;
use crate::slot_runs::{Ending, SLOT_LIMIT, SlotsEnd, slots};
use crate::taken::{Cleared, TakenEvents};
use crate::verdicts::verdict;
use crate::watches::Watch;
use lin_core::Core;
use lin_text::{Many, Text};
use std::alloc::{AllocError, Global};
use std::marker::Model;

/// A core in hand, on which lines of bench scripts are made, each after those before it. Contracts
/// see the core, the rules in force, of which kinds expectations took events, in order, and how many
/// slots lines of slots may still make.
#[derive(Drop)]
pub struct Bench {
    ruled: RuledCore,
    taken: TakenEvents,
    left: u32,
}

impl Model for Bench {
    ghost use Rattle.lin_bench.specs.Bench.{AreKnown, BenchData, bench_data};

    ghost Value = { BenchData };

    ghost view = { bench_data };

    ghost invariant = { AreKnown };
}

/// Judges what is expected.
#[inline(never)]
fn judge_on(
    alloc: Global,
    ruled: &RuledCore,
    taken: &mut TakenEvents,
    expected: Expected,
) -> Result<Verdict, AllocError>
    requires { IsSearchState ruled.now.core.log taken.old }
    ensures verdict { IfOk result (λ v. v ≡ met_or expected
        (verdict ruled.now.core.cluster ruled.now.core.opening (past_of ruled.now.core)
        ruled.now.rules.noted (taken_by ruled.now.core.log taken.old) expected)) }
    ensures taken { OnOk result (taken_by ruled.now.core.log taken.new ≡ taking
        (past_of ruled.now.core) (taken_by ruled.now.core.log taken.old)
        (kind_taken (past_of ruled.now.core) (taken_by ruled.now.core.log taken.old) expected)) }
    ensures known { IsSearchState ruled.now.core.log taken.new }
{
    let mut watch = Watch::new();
    match verdict(alloc, ruled, taken, &mut watch, &expected)? {
        None => Ok(Verdict::Met(expected)),
        Some(got) => Ok(Verdict::Unmet(expected, got)),
    }
}

/// What slots expect after them.
fn expected_after(extent: Extent) -> Option<Expected>
    ensures { result ≡ expected_after extent }
{
    match extent {
        Extent::Count(_) | Extent::Milliseconds(_) => None,
        Extent::Idle(_) => Some(Expected::Idle),
    }
}

/// When slots end before their extent does.
#[derive(Clone, Copy)]
pub(crate) enum Early {
    Never,
    /// As soon as what is expected comes.
    Until,
    /// With the first slot after which it doesn't hold.
    While,
}

/// What ends slots early, by what is expected after them.
fn early_end(early: Early, expected: &Option<Expected>) -> Option<Ending<'_>>
    ensures { option_map ending_of result ≡ early_end early expected.now }
{
    let is_while = match early {
        Early::Never => return None,
        Early::Until => false,
        Early::While => true,
    };
    match expected {
        Some(expected) => Some(Ending { is_while, expected }),
        None => None,
    }
}

/// The verdict on a line that ends rules: that there are none, if so.
fn ended_verdict(found: bool, end: RuleEnd) -> Verdict
    ensures { result ≡ ended_verdict found end }
{
    if found {
        Verdict::Nothing
    } else {
        Verdict::Unmet(Expected::HasRule(end), Got::NoRule)
    }
}

impl Bench {
    ghost use Rattle.lin_bench.specs.Bench.{GivesVerdict, MakesBench, MakesLine, forgotten, new_bench, fresh_under};
    ghost use Rattle.lin_bench.specs.Bench.{made_early};
    ghost use Rattle.lin_bench.specs.Bench.{state_of, with_all_slots};
    ghost use Rattle.lin_bench.specs.Marks.{IsMarkOf, state_at};

    /// A bench over a core with an empty log, on which no rule is in force. Its lines of slots may
    /// make 1,000,000 slots.
    pub fn new(alloc: Global, core: Core) -> Bench
        requires { core.log ≡ [] }
        ensures { result ≡ new_bench core }
    {
        Bench::under(alloc, core, Many::new(Vec::new(alloc)))
    }

    /// Likewise, but the steps of lines are made under these faults.
    pub(crate) fn under(alloc: Global, core: Core, faults: Many<ArmedFault>) -> Bench
        requires { core.log ≡ [] }
        ensures { result ≡ fresh_under faults core }
    {
        Bench {
            ruled: RuledCore::new(alloc, core, faults),
            taken: TakenEvents::none(alloc),
            left: SLOT_LIMIT,
        }
    }

    /// The core, with the log of all steps that were made.
    pub fn core(&self) -> &Core
        ensures { result.now ≡ self.now.core }
    {
        self.ruled.core()
    }

    /// The core, with the log of all steps that were made.
    pub fn into_core(self) -> Core
        ensures { result ≡ self.core }
    {
        let Bench { ruled, .. } = self;
        ruled.into_core()
    }

    /// Returns how many faults have changed no step.
    pub(crate) fn missed(&self) -> usize
        ensures { result ≡ count_by (λ f. not f.has_struck) self.now.rules.faults }
    {
        self.ruled.missed()
    }

    /// The hosts of which messages wait, and then the nodes of which answers are noted, and how
    /// many. An error means out of memory.
    #[inline(never)]
    pub fn pending(&self, alloc: Global) -> Result<Vec<Pending>, AllocError>
        ensures { IfOk result (λ v. v.items
            ≡ pending self.now.core.cluster (past_of self.now.core) self.now.rules.noted) }
    {
        pending(alloc, &self.ruled)
    }

    /// Returns the lines that make the rules in force, each without its end: `when` in the order of the
    /// first lines of a node, a state and a pattern, then `timeouts` of all and of single responders,
    /// `response_errors on`, `services on`, `every` and `on` in the order of the lines, the states that
    /// aren't `default`, and the nodes that are off. An error means out of memory.
    #[inline(never)]
    pub fn rules(&self, alloc: Global) -> Result<Vec<Text>, AllocError>
        ensures { IfOk result (λ lines. lines.items
            ≡ lines_of_rules self.now.core.cluster self.now.rules) }
    {
        lines_of_rules(alloc, self.core().cluster(), self.ruled.rules())
    }

    /// Returns a mark of the bench as it is. An error means out of memory.
    pub fn mark(&self, alloc: Global) -> Result<Mark, AllocError>
        ensures mark { IfOk result (IsMarkOf self.now.core.log) }
        ensures state { IfOk result (λ mark. state_at self.now.core.log mark ≡ state_of (with_all_slots self.now)) }
    {
        Ok(Mark {
            entries: self.core().log().len(),
            rules: self.ruled.rules().copy(alloc)?,
            taken: self.taken.copy(alloc)?,
        })
    }

    /// Returns the bench as it was at a mark, of which lines may make 1,000,000 slots. The steps up to the
    /// mark are made again on the cluster, whose schedule opens with this table. At most `capacity` messages
    /// of a host wait. An error means out of memory, and the bench is dropped.
    pub fn back(
        self,
        alloc: Global,
        table: u16,
        capacity: usize,
        mark: &Mark,
    ) -> Result<Bench, AllocError>
        requires mark { IsMarkOf self.core.log mark.now }
        requires table { table ≡ self.core.opening }
        requires capacity { capacity ≡ self.core.capacity }
        requires tables { table < length self.core.cluster.tables }
        requires some { 1 ≤ capacity }
        requires few { capacity ≤ 1024 }
        ensures state { IfOk result (λ back. state_of back ≡ state_at self.core.log mark.now) }
        ensures alike { IfOk result (λ back. IsAlike self.core back.core) }
    {
        let rules = mark.rules.copy(alloc)?;
        let taken = mark.taken.copy(alloc)?;
        let Bench { ruled, .. } = self;
        Ok(Bench {
            ruled: ruled.back(alloc, table, capacity, mark.entries, rules)?,
            taken,
            left: SLOT_LIMIT,
        })
    }

    /// Lets the lines from now on make 1,000,000 slots, whatever those before made.
    pub fn renew_slots(&mut self)
        ensures { self.new ≡ with_all_slots self.old }
    {
        self.left = SLOT_LIMIT;
    }

    /// Judges what is expected, if something is.
    #[inline(always)]
    fn judge(&mut self, alloc: Global, expected: Option<Expected>) -> Result<Verdict, MakeFault>
        ensures { GivesVerdict self.old expected result self.new }
    {
        match expected {
            None => Ok(Verdict::Nothing),
            Some(expected) => Ok(judge_on(alloc, &self.ruled, &mut self.taken, expected)?),
        }
    }

    /// Takes all events so far.
    fn forget(&mut self, alloc: Global)
        ensures { self.new ≡ forgotten self.old }
    {
        let entries = self.core().log().len();
        self.taken = TakenEvents {
            forgotten: entries,
            searches: Vec::new(alloc),
            cleared: Cleared::of(entries),
        };
    }

    /// Makes slots, which may end early by what is expected after them, and judges that.
    #[inline(always)]
    fn slots(
        &mut self,
        alloc: Global,
        how: &Disturbance,
        extent: Extent,
        expected: Option<Expected>,
        early: Early,
    ) -> Result<Verdict, MakeFault>
        ensures { MakesBench (made_early self.old how.now extent early expected) self.old result self.new }
    {
        let ending = early_end(early, &expected);
        let ends = SlotsEnd { extent, ending };
        match slots(
            alloc,
            &mut self.ruled,
            how,
            ends,
            &mut self.taken,
            self.left,
        )? {
            Some(left) => {
                self.left = left;
                self.judge(alloc, expected)
            }
            None => {
                self.left = 0;
                Ok(Verdict::SlotLimit)
            }
        }
    }

    /// Makes the slots of a line, which may end early by what is expected after them, and judges that.
    fn line_of_slots(
        &mut self,
        alloc: Global,
        slots: Slots,
        expected: Option<Expected>,
        early: Early,
    ) -> Result<Verdict, MakeFault>
        ensures { MakesBench (made_early self.old (Disturbance.Leave slots.leave) slots.extent early expected)
            self.old result self.new }
    {
        let Slots { extent, leave } = slots;
        self.slots(alloc, &Disturbance::Leave(leave), extent, expected, early)
    }

    /// Makes slots until what is expected comes, and judges it.
    #[inline(never)]
    fn slots_until(
        &mut self,
        alloc: Global,
        slots: Slots,
        expected: Expected,
    ) -> Result<Verdict, MakeFault>
        ensures { MakesLine self.old (ScriptLine.Until slots expected) result self.new }
    {
        let expected = expected.begun(self.core());
        self.line_of_slots(alloc, slots, Some(expected), Early::Until)
    }

    /// Makes slots as long as what is expected holds after each of them, and judges it.
    #[inline(never)]
    fn slots_while(
        &mut self,
        alloc: Global,
        slots: Slots,
        expected: Expected,
    ) -> Result<Verdict, MakeFault>
        ensures { MakesLine self.old (ScriptLine.While slots expected) result self.new }
    {
        let expected = expected.begun(self.core());
        self.line_of_slots(alloc, slots, Some(expected), Early::While)
    }

    /// Puts single rules out of force. The verdict is that there are none, if so.
    #[tactic(auto, unfolding(crate::specs::Made::made))]
    fn end_rules(&mut self, alloc: Global, end: RuleEnd) -> Result<Verdict, MakeFault>
        ensures { MakesLine self.old (ScriptLine.Rule (Rule.End end)) result self.new }
    {
        let found = has_rule(self.ruled.rules(), &end);
        self.ruled.end_rules(alloc, &end)?;
        Ok(ended_verdict(found, end))
    }

    /// Puts a rule in force, or out of it.
    #[inline(never)]
    #[tactic(auto, unfolding(crate::specs::Made::made))]
    fn rule(&mut self, alloc: Global, rule: Rule) -> Result<Verdict, MakeFault>
        ensures { MakesLine self.old (ScriptLine.Rule rule) result self.new }
    {
        match rule {
            Rule::End(end) => self.end_rules(alloc, end),
            rule => {
                self.ruled.rule(alloc, rule)?;
                Ok(Verdict::Nothing)
            }
        }
    }

    /// Makes a line: the steps that it says, each answered on the history before it, and its
    /// verdict. What it expects is judged after its steps. The entries of these steps are those by
    /// which the core's log grows.
    ///
    /// # Errors
    /// The log stands as it was, with entries of some of the line's steps behind; the bench isn't
    /// for more lines.
    /// - `LogFull`: the line's steps are more than fit;
    /// - `OutOfMemory`.
    #[tactic(auto, unfolding(crate::specs::Made::made, crate::specs::Made::steps_said))]
    pub fn make(&mut self, alloc: Global, line: ScriptLine) -> Result<Verdict, MakeFault>
        ensures { MakesLine self.old line result self.new }
    {
        match line {
            ScriptLine::Step(by, step) => {
                self.ruled.make(alloc, by, step)?;
                Ok(Verdict::Nothing)
            }
            ScriptLine::Slot(how) => self.slots(alloc, &how, Extent::Count(1), None, Early::Never),
            ScriptLine::Slots(slots) => {
                let expected = expected_after(slots.extent);
                self.line_of_slots(alloc, slots, expected, Early::Never)
            }
            ScriptLine::Until(slots, expected) => self.slots_until(alloc, slots, expected),
            ScriptLine::While(slots, expected) => self.slots_while(alloc, slots, expected),
            ScriptLine::Expect(expected) => self.judge(alloc, Some(expected)),
            ScriptLine::Forget | ScriptLine::Test(_) => {
                self.forget(alloc);
                Ok(Verdict::Nothing)
            }
            ScriptLine::Rule(rule) => self.rule(alloc, rule),
        }
    }
}
