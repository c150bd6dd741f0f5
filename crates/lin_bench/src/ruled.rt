//! Cores on which rules are in force.

ghost use Rattle.std.specs.Prelude.{◌≡◌, ◌<◌, ◌≤◌, ◌==◌, ◌++◌, ◌∷◌, [], count_by, false, filter, length, map, not, take, IfOk, None, OnOk};
ghost use Rattle.std.specs.List.{list_any};
ghost use Rattle.lin_parts.specs.Cluster.{nodes};
ghost use Rattle.lin_core.specs.Core.{IsAlike, past_of};
ghost use Rattle.lin_core.specs.History.{open_slot, time};
ghost use Rattle.lin_core.specs.Runs.{steps_of};
ghost use Rattle.lin_core.specs.Replies.{link_at};
ghost use Rattle.lin_core.specs.declared.port.PortId.TheVariants.{Bus};
ghost use Rattle.lin_core.specs.declared.step.Step.TheVariants.{Finish, Hurt};
ghost use Rattle.lin_bench.specs.Added.{is_given_up, is_late, is_repeated, send_of, step_to_repeat};
ghost use Rattle.lin_bench.specs.Added.{timeouts, times_until};
ghost use Rattle.lin_bench.specs.Adding.{AddsAfterFinish, AddsFirst, AfterFinish, CountsFinished, MakesAdded, MakesCalled, MakesOne};
ghost use Rattle.lin_bench.specs.Ons.{begun_rule};
ghost use Rattle.lin_bench.specs.Adding.{errors_after, has_no_limit, timeouts_of, with_arrived};
ghost use Rattle.lin_bench.specs.Faults.{changed_steps};
ghost use Rattle.lin_bench.specs.Making.{MakesSteps, MakesUnchanged, is_changed_on, struck_on};
ghost use Rattle.std.specs.Option.{option_copied};
ghost use Rattle.lin_bench.specs.Rules.{is_due_at, kept_at, no_rules, ruled, sent_at, serving, without_rule};
ghost use Rattle.lin_bench.specs.Slots.{nodes_noted, pending};
ghost use Rattle.lin_bench.specs.declared.got.Pending.TheVariants.{AnswersNoted};

use crate::answers::{add_when, react_to_events};
use crate::ended_rules::end_rules;
use crate::ends::Ends;
use crate::errors::tell_errors;
use crate::fault::MakeFault;
use crate::faults::{ArmedFault, missed, no_bytes, strike, target};
use crate::got::Pending;
use crate::limits::{limit_for, set_limit, set_limit_of_all};
use crate::ons::{begun_rule, look};
use crate::powers::{is_by_off, set_power};
use crate::replies::{is_done, is_finish, went_to_all};
use crate::rules::{Limit, Noted, Repeated, Rule, RuleEnd, Rules};
use crate::slot_runs::hosts_waiting;
use crate::states::set_state;
use lin_core::{Core, Direction, Hold, Log, PortId, Reply, Step};
use lin_parts::Cluster;
use lin_text::Many;
use std::alloc::{AllocError, Global};
use std::marker::Model;
use std::mem;

/// A core, and the rules in force with the faults. Contracts see both. Beside them are the ends of the
/// last good frames, and how many slots were finished.
#[derive(Drop)]
pub(crate) struct RuledCore {
    core: Core,
    rules: Rules,
    ends: Ends,
    slots: u64,
}

impl Model for RuledCore {
    ghost use Rattle.lin_bench.specs.Adding.{IsTimed, RuledData, ruled_data};

    ghost Value = { RuledData };

    ghost view = { ruled_data };

    ghost invariant = { IsTimed };
}

/// Makes a step by a port, to which no rule adds.
fn step_alone(core: &mut Core, by: PortId, step: Step) -> Result<(), MakeFault>
    ensures { MakesOne core.old by step result core.new }
{
    match core.step(by, step) {
        Ok(()) => Ok(()),
        Err(Hold::LogFull(_)) => Err(MakeFault::LogFull),
        Err(Hold::OutOfMemory(_)) => Err(MakeFault::OutOfMemory),
    }
}

/// Returns how many slots were finished when a step was logged, by whether it is a finish and how many
/// there were before it.
fn slots_after(log: &Log, finishes: bool, before: u64) -> u64
    requires { before < length log.now.entries }
    ensures { CountsFinished log.now.entries finishes before result }
{
    if !finishes {
        return before;
    }
    if is_done(log.entry(log.len() - 1)) {
        before + 1
    } else {
        before
    }
}

/// The steps of the first entries of a log, so many, with their ports. An error means out of memory.
fn first_steps(alloc: Global, log: &Log, entries: usize) -> Result<Vec<(PortId, Step)>, AllocError>
    requires { entries ≤ length log.now.entries }
    ensures { IfOk result (λ steps. steps.items ≡ steps_of (take entries log.now.entries)) }
{
    let mut steps = Vec::new(alloc);
    for index in 0..entries {
        let entry = log.entry(index);
        steps.push((entry.port, entry.step.copy(alloc)?))?;
    }
    Ok(steps)
}

/// How many times of what is repeated there are up to a time.
fn times_until(repeated: &Repeated, time: u64) -> u64
    ensures { result ≡ times_until repeated.now time }
{
    let period = 1000 * u64::from(repeated.every.period_ms);
    time.saturating_sub(repeated.began)
        .checked_div(period)
        .unwrap_or(0)
}

/// Whether a step is repeated by a time that is after the first time and not after the second, and isn't
/// one of a node that is off.
fn is_repeated(repeated: &Repeated, from: u64, to: u64, offs: &[u8]) -> bool
    ensures { result ≡ is_repeated from to offs.now repeated.now }
{
    times_until(repeated, from) < times_until(repeated, to)
        && !is_by_off(offs, &repeated.every.step)
}

/// The sending of an answer.
fn send_of(noted: Noted) -> (PortId, Step)
    ensures { result ≡ send_of noted }
{
    let Noted { node, bytes, .. } = noted;
    let step = Step::Send {
        from: node,
        to: 0,
        message: bytes,
    };
    (PortId::Host(node), step)
}

/// Whether the time of some answer has come.
fn some_due(noted: &[Noted], time: u64) -> bool
    ensures { result ≡ list_any (is_due_at time) noted.now }
{
    noted.iter().any(|one| one.time <= u128::from(time))
}

/// Adds the sending of the noted answers whose time has come, which are noted no longer.
fn take_noted(
    alloc: Global,
    noted: &mut Many<Noted>,
    time: u64,
    steps: &mut Vec<(PortId, Step)>,
) -> Result<(), AllocError>
    ensures steps { OnOk result
        (steps.new.items ≡ steps.old.items ++ map send_of (sent_at time noted.old)) }
    ensures noted { OnOk result (noted.new ≡ kept_at time noted.old) }
{
    if !some_due(noted.as_slice(), time) {
        return Ok(());
    }
    let time = u128::from(time);
    let all = mem::replace(noted, Many::new(Vec::new(alloc)));
    for one in all.into_vec() {
        if one.time <= time {
            steps.push(send_of(one))?;
        } else {
            noted.push(one)?;
        }
    }
    Ok(())
}

/// The cluster of a core, where its responders answer messages that ask for a service.
fn serving(core: &Core, is_on: bool) -> Option<&Cluster>
    ensures { option_copied result ≡ serving core.now.cluster is_on }
{
    if is_on { Some(core.cluster()) } else { None }
}

/// How many answers of a node are noted.
fn count_noted(noted: &[Noted], node: u8) -> usize
    ensures { result ≡ count_by (λ m. m.node == node) noted.now }
{
    noted.iter().filter(|one| one.node == node).count()
}

/// Puts a rule in force, or out of it, at a time in microseconds. An error means out of memory.
#[tactic(auto, unfolding(crate::specs::Rules::ruled))]
fn put_rule(alloc: Global, rules: &mut Rules, time: u64, rule: Rule) -> Result<(), AllocError>
    ensures { OnOk result (rules.new ≡ ruled time rules.old rule) }
{
    match rule {
        Rule::When(when) => add_when(&mut rules.whens, when)?,
        Rule::End(end) => end_rules(alloc, rules, &end)?,
        Rule::WhenOff => rules.whens = Many::new(Vec::new(alloc)),
        Rule::Timeouts(ms) => set_limit_of_all(alloc, rules, Some(Limit::Milliseconds(ms))),
        Rule::TimeoutsLdf(limits) => set_limit_of_all(alloc, rules, Some(Limit::Ldf(limits))),
        Rule::TimeoutsOff => set_limit_of_all(alloc, rules, None),
        Rule::TimeoutsOf { node, limit_ms } => {
            set_limit(alloc, &mut rules.own_limits, node, limit_ms)?;
        }
        Rule::Every(every) => rules.everies.push(Repeated { began: time, every })?,
        Rule::EveryOff => rules.everies = Many::new(Vec::new(alloc)),
        Rule::On(watched) => rules.ons.push(watched)?,
        Rule::OnOff => rules.ons = Many::new(Vec::new(alloc)),
        Rule::Errors(on) => rules.errors = on,
        Rule::Services(on) => rules.services = on,
        Rule::State { node, name } => {
            set_state(alloc, &mut rules.states, node, name.as_slice())?;
        }
        Rule::Power { node, is_on } => set_power(alloc, rules, node, is_on)?,
    }
    Ok(())
}

impl RuledCore {
    /// A core on which no rule is in force, and whose log is empty. The steps of lines are made under
    /// these faults.
    pub(crate) fn new(alloc: Global, core: Core, faults: Many<ArmedFault>) -> RuledCore
        requires { core.log ≡ [] }
        ensures { result ≡ record { core = core; rules = record no_rules { faults = faults } } }
    {
        RuledCore {
            core,
            rules: Rules {
                faults,
                ..Rules::none(alloc)
            },
            ends: Ends::new(),
            slots: 0,
        }
    }

    pub(crate) fn core(&self) -> &Core
        ensures { result.now ≡ self.now.core }
    {
        &self.core
    }

    pub(crate) fn into_core(self) -> Core
        ensures { result ≡ self.core }
    {
        let RuledCore { core, .. } = self;
        core
    }

    /// Returns a core with the first entries of the log, so many, and with these rules: the steps of these
    /// entries are made again. An error means out of memory.
    pub(crate) fn back(
        self,
        alloc: Global,
        table: u16,
        capacity: usize,
        entries: usize,
        rules: Rules,
    ) -> Result<RuledCore, AllocError>
        requires entries { entries ≤ length self.core.log }
        requires table { table ≡ self.core.opening }
        requires capacity { capacity ≡ self.core.capacity }
        requires tables { table < length self.core.cluster.tables }
        requires some { 1 ≤ capacity }
        requires few { capacity ≤ 1024 }
        ensures log { IfOk result (λ back. back.core.log ≡ take entries self.core.log) }
        ensures alike { IfOk result (λ back. IsAlike self.core back.core) }
        ensures rules { IfOk result (λ back. back.rules ≡ rules) }
    {
        let steps = first_steps(alloc, self.core.log(), entries)?;
        let cluster = self.into_core().into_cluster();
        let core = Core::new(alloc, cluster, table, capacity)?;
        let mut back = RuledCore::new(alloc, core, Many::new(Vec::new(alloc)));
        match back.make_all(steps) {
            Ok(()) => Ok(back.with(rules)),
            // (the log can't be full: it had these entries before)
            Err(_) => Err(AllocError),
        }
    }

    /// Returns the core with these rules in place of its own.
    fn with(self, rules: Rules) -> RuledCore
        ensures { result ≡ record { core = self.core; rules = rules } }
    {
        RuledCore { rules, ..self }
    }

    /// The rules in force.
    pub(crate) fn rules(&self) -> &Rules
        ensures { result.now ≡ self.now.rules }
    {
        &self.rules
    }

    /// The answers that are noted.
    pub(crate) fn noted(&self) -> &[Noted]
        ensures { result.now ≡ self.now.rules.noted }
    {
        self.rules.noted.as_slice()
    }

    /// Returns how many faults have changed no step.
    pub(crate) fn missed(&self) -> usize
        ensures { result ≡ count_by (λ f. not f.has_struck) self.now.rules.faults }
    {
        missed(self.rules.faults.as_slice())
    }

    /// Puts a rule in force, or out of it. An error means out of memory.
    pub(crate) fn rule(&mut self, alloc: Global, rule: Rule) -> Result<(), AllocError>
        ensures rules { OnOk result (self.new.rules
            ≡ ruled (time self.old.core.cluster (past_of self.old.core)) self.old.rules
            (begun_rule self.old.core.cluster (past_of self.old.core) rule)) }
        ensures core { self.new.core ≡ self.old.core }
    {
        let time = self.core.time();
        let rule = begun_rule(alloc, &self.core, rule)?;
        put_rule(alloc, &mut self.rules, time, rule)
    }

    /// Puts single rules out of force. An error means out of memory.
    pub(crate) fn end_rules(&mut self, alloc: Global, end: &RuleEnd) -> Result<(), AllocError>
        ensures rules { OnOk result (self.new.rules ≡ without_rule self.old.rules end.now) }
        ensures core { self.new.core ≡ self.old.core }
    {
        end_rules(alloc, &mut self.rules, end)
    }

    /// Makes a step by a port, to which no rule adds.
    fn alone(&mut self, by: PortId, step: Step) -> Result<(), MakeFault>
        ensures added { MakesAdded self.old.core ((by, step) ∷ []) result self.new.core }
        ensures rules { self.new.rules ≡ self.old.rules }
    {
        let finishes = is_finish(&step);
        let slot = if finishes && !self.core.is_in_service() {
            self.core.open_slot()
        } else {
            None
        };
        step_alone(&mut self.core, by, step)?;
        self.slots = slots_after(self.core.log(), finishes, self.slots);
        if let Some((header, node)) = slot {
            self.ends.hear(&self.core, header, node);
        }
        Ok(())
    }

    /// Whether rules may add a step. If they can't, no rule is in force, each state is `default`, no answer
    /// is noted, and there is no fault.
    fn may_add(&self) -> bool
        ensures { result ≡ false → self.now.rules ≡ no_rules }
    {
        let rules = &self.rules;
        rules.limit.is_some()
            || !rules.own_limits.as_slice().is_empty()
            || rules.errors
            || rules.services
            || !rules.whens.as_slice().is_empty()
            || !rules.everies.as_slice().is_empty()
            || !rules.ons.as_slice().is_empty()
            || !rules.states.as_slice().is_empty()
            || !rules.offs.as_slice().is_empty()
            || !rules.noted.as_slice().is_empty()
            || !rules.faults.as_slice().is_empty()
    }

    /// Makes a step by a port, whatever the faults are, and what the rules add after it.
    #[inline(always)]
    fn make_unchanged(&mut self, alloc: Global, by: PortId, step: Step) -> Result<(), MakeFault>
        ensures { MakesUnchanged self.old ((by, step) ∷ []) result self.new }
    {
        let began = self.core.time();
        let finishes = is_finish(&step);
        self.alone(by, step)?;
        if finishes && self.may_add() && is_done(self.core.newest()) {
            return self.add(alloc, began);
        }
        Ok(())
    }

    /// Marks the faults that change a step by a port, and returns whether there is one. An error means
    /// out of memory.
    fn strike(&mut self, alloc: Global, by: PortId, step: &Step) -> Result<bool, AllocError>
        ensures changed { IfOk result (λ is. is ≡ is_changed_on self.old (by, step.now)) }
        ensures struck { OnOk result (self.new.rules ≡ struck_on self.old (by, step.now)) }
        ensures core { self.new.core ≡ self.old.core }
    {
        if self.rules.faults.as_slice().is_empty() {
            return Ok(false);
        }
        match target(alloc, &self.core, by, step)? {
            Some(kind) => Ok(strike(&mut self.rules.faults, self.slots, kind)),
            None => Ok(false),
        }
    }

    /// Corrupts the only response of the open slot, and finishes the slot by a port.
    fn finish_damaged(&mut self, alloc: Global, by: PortId) -> Result<(), MakeFault>
        ensures { MakesUnchanged self.old ((Bus, Hurt []) ∷ (by, Finish) ∷ []) result self.new }
    {
        let damage = no_bytes(alloc)?;
        self.make_unchanged(alloc, PortId::Bus, damage)?;
        self.make_unchanged(alloc, by, Step::Finish)
    }

    /// Makes the steps that replace a step that a fault changes.
    fn make_changed(&mut self, alloc: Global, by: PortId, step: Step) -> Result<(), MakeFault>
        ensures { MakesUnchanged self.old (changed_steps (by, step)) result self.new }
    {
        match step {
            Step::Answer { node } => self.make_unchanged(alloc, by, Step::Leave { node }),
            Step::Finish => self.finish_damaged(alloc, by),
            _ => self.make_unchanged(alloc, by, step),
        }
    }

    /// Makes a step that a line says, by a port, as the faults change it, and what the rules add after
    /// it.
    pub(crate) fn make(&mut self, alloc: Global, by: PortId, step: Step) -> Result<(), MakeFault>
        ensures { MakesSteps self.old ((by, step) ∷ []) result self.new }
    {
        if self.strike(alloc, by, &step)? {
            return self.make_changed(alloc, by, step);
        }
        self.make_unchanged(alloc, by, step)
    }

    /// Changes what the messages of the finish change.
    fn react(&mut self, alloc: Global) -> Result<(), AllocError>
        requires { 0 < length self.old.core.log }
        ensures core { self.new.core ≡ self.old.core }
        ensures rules { OnOk result (AfterFinish self.old.core
            (λ e past. self.new.rules ≡ with_arrived self.old e past)) }
    {
        let time = self.core.time();
        let served = serving(&self.core, self.rules.services);
        let entry = self.core.newest();
        match &entry.reply {
            Reply::Refused(_) => Ok(()),
            Reply::Done(events) => react_to_events(
                alloc,
                &mut self.rules,
                served,
                went_to_all(entry),
                time,
                events.as_slice(),
            ),
        }
    }

    /// Whether a message is begun on a link whose last good frame is so many microseconds ago.
    fn is_given_up(&self, us: u64, node: u8, dir: Direction) -> bool
        requires node { node < nodes self.now.core.cluster }
        requires closed { open_slot (past_of self.now.core) ≡ None }
        ensures { result ≡ is_given_up self.now.core.cluster (past_of self.now.core) us
            (link_at node dir) }
    {
        self.core.time().saturating_sub(self.ends.of(node, dir)) >= us
            && self
                .core
                .refusal_of(PortId::Bus, &Step::Timeout { node, dir })
                .is_none()
    }

    /// Whether a message is begun on a link whose last good frame is longer ago than the limit of its node.
    fn is_late(&self, node: u8, dir: Direction) -> bool
        requires node { node < nodes self.now.core.cluster }
        requires closed { open_slot (past_of self.now.core) ≡ None }
        ensures { result ≡ is_late self.now.core.cluster (past_of self.now.core) self.now.rules
            (link_at node dir) }
    {
        match limit_for(&self.rules, node, dir) {
            Some(us) => self.is_given_up(us, node, dir),
            None => false,
        }
    }

    /// Adds the timeouts of a node's links whose messages are given up, where it has an address.
    fn give_up_at(&self, node: u8, steps: &mut Vec<(PortId, Step)>) -> Result<(), AllocError>
        requires node { node < nodes self.now.core.cluster }
        requires closed { open_slot (past_of self.now.core) ≡ None }
        ensures { OnOk result (steps.new.items ≡ steps.old.items
            ++ timeouts_of self.now.core.cluster (past_of self.now.core) self.now.rules node) }
    {
        if self.core.cluster().nad(node).is_none() {
            return Ok(());
        }
        if self.is_late(node, Direction::Down) {
            let dir = Direction::Down;
            steps.push((PortId::Bus, Step::Timeout { node, dir }))?;
        }
        if self.is_late(node, Direction::Up) {
            let dir = Direction::Up;
            steps.push((PortId::Bus, Step::Timeout { node, dir }))?;
        }
        Ok(())
    }

    /// Whether no transfer has a limit.
    fn has_no_limit(&self) -> bool
        ensures { result ≡ has_no_limit self.now.rules }
    {
        self.rules.limit.is_none() && self.rules.own_limits.as_slice().is_empty()
    }

    /// Adds the timeouts of messages that take too long.
    fn give_up(&self, steps: &mut Vec<(PortId, Step)>) -> Result<(), AllocError>
        requires { open_slot (past_of self.now.core) ≡ None }
        ensures { OnOk result (steps.new.items ≡ steps.old.items
            ++ timeouts self.now.core.cluster (past_of self.now.core) self.now.rules) }
    {
        if self.has_no_limit() {
            return Ok(());
        }
        for node in 0..self.core.cluster().nodes() as u8 {
            self.give_up_at(node, steps)?;
        }
        Ok(())
    }

    /// Adds the steps by which errors are told, where they are.
    fn tell_errors(&self, alloc: Global, steps: &mut Vec<(PortId, Step)>) -> Result<(), AllocError>
        requires { 0 < length self.now.core.log }
        ensures { OnOk result (AfterFinish self.now.core (λ e past. steps.new.items
            ≡ steps.old.items ++ errors_after self.now e past)) }
    {
        if !self.rules.errors {
            return Ok(());
        }
        tell_errors(alloc, &self.core, self.rules.offs.as_slice(), steps)
    }

    /// Adds what is repeated and whose time has come since a time, but for the steps of nodes that are off.
    fn repeat(
        &self,
        alloc: Global,
        began: u64,
        time: u64,
        steps: &mut Vec<(PortId, Step)>,
    ) -> Result<(), AllocError>
        ensures { OnOk result (steps.new.items ≡ steps.old.items
            ++ map step_to_repeat (filter (is_repeated began time self.now.rules.offs) self.now.rules.everies)) }
    {
        for repeated in self.rules.everies.as_slice() {
            if is_repeated(repeated, began, time, self.rules.offs.as_slice()) {
                let every = &repeated.every;
                steps.push((every.by, every.step.copy(alloc)?))?;
            }
        }
        Ok(())
    }

    /// Makes steps to which no rule adds.
    fn make_all(&mut self, steps: Vec<(PortId, Step)>) -> Result<(), MakeFault>
        ensures added { MakesAdded self.old.core steps.items result self.new.core }
        ensures rules { self.new.rules ≡ self.old.rules }
    {
        for (by, step) in steps {
            self.alone(by, step)?;
        }
        Ok(())
    }

    /// Looks at what calls for steps, and makes these.
    fn look(&mut self, alloc: Global) -> Result<(), MakeFault>
        ensures { MakesCalled self.old result self.new }
    {
        if self.rules.ons.as_slice().is_empty() {
            return Ok(());
        }
        let mut steps = Vec::new(alloc);
        let rules = &mut self.rules;
        look(
            alloc,
            &self.core,
            rules.offs.as_slice(),
            &mut rules.ons,
            &mut steps,
        )?;
        self.make_all(steps)
    }

    /// Makes the steps that the rules add by the history with the finish of a slot that began at a time.
    fn add_first(&mut self, alloc: Global, began: u64) -> Result<(), MakeFault>
        requires logged { 0 < length self.old.core.log }
        requires closed { open_slot (past_of self.old.core) ≡ None }
        ensures { AfterFinish self.old.core (λ e past. began ≡ time self.old.core.cluster past
            → AddsFirst self.old e past result self.new) }
    {
        self.react(alloc)?;
        let time = self.core.time();
        let mut steps = Vec::new(alloc);
        self.give_up(&mut steps)?;
        self.tell_errors(alloc, &mut steps)?;
        take_noted(alloc, &mut self.rules.noted, time, &mut steps)?;
        self.repeat(alloc, began, time, &mut steps)?;
        self.make_all(steps)
    }

    /// Makes the steps that the rules add after the finish of a slot that began at a time, and then those that
    /// are called for.
    fn add(&mut self, alloc: Global, began: u64) -> Result<(), MakeFault>
        requires logged { 0 < length self.old.core.log }
        requires closed { open_slot (past_of self.old.core) ≡ None }
        ensures { AfterFinish self.old.core (λ e past. began ≡ time self.old.core.cluster past
            → AddsAfterFinish self.old e past result self.new) }
    {
        self.add_first(alloc, began)?;
        self.look(alloc)
    }
}

/// The nodes of which answers are noted, and how many.
fn add_noted(all: &mut Vec<Pending>, ruled: &RuledCore) -> Result<(), AllocError>
    ensures { OnOk result (all.new.items ≡ all.old.items ++ map (λ n. AnswersNoted n.0 n.1)
        (nodes_noted ruled.now.core.cluster ruled.now.rules.noted)) }
{
    for node in 0..ruled.core().cluster().nodes() as u8 {
        let count = count_noted(ruled.noted(), node);
        if count > 0 {
            all.push(Pending::AnswersNoted(node, count))?;
        }
    }
    Ok(())
}

/// The hosts of which messages wait, and then the nodes of which answers are noted, and how many. An
/// error means out of memory.
pub(crate) fn pending(alloc: Global, ruled: &RuledCore) -> Result<Vec<Pending>, AllocError>
    ensures { IfOk result (λ v. v.items
        ≡ pending ruled.now.core.cluster (past_of ruled.now.core) ruled.now.rules.noted) }
{
    let mut all = Vec::new(alloc);
    for (host, count) in hosts_waiting(alloc, ruled.core())? {
        all.push(Pending::MessagesWait(host, count))?;
    }
    add_noted(&mut all, ruled)?;
    Ok(all)
}
