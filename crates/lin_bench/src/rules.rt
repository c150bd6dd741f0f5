//! Rules, which lines say and which are in force for the lines after them.

ghost use Rattle.std.specs.Prelude.{◌≡◌};
ghost use Rattle.lin_bench.specs.Rules.{no_rules};
ghost use Rattle.lin_bench.specs.Words.{meant_end, meant_form, meant_on, meant_rule};

use crate::expected::Condition;
use crate::faults::ArmedFault;
use crate::meant::MeantValues;
use lin_core::{Payload, PortId, Step};
use lin_log::Pattern;
use lin_text::{Many, Text};
use std::alloc::Global;

/// A byte of an answer.
#[derive(Clone, Copy, Debug)]
pub enum Part {
    Byte(u8),
    /// The byte with this number, from 0, of the message that is answered.
    Copied(u16),
}

/// An answer of a responder, so many milliseconds (at most 1,000,000) after the one before it, or
/// after the slot by which the message arrived.
#[derive(Drop)]
pub struct RuleAnswer {
    pub parts: Many<Part>,
    pub wait_ms: u32,
}

/// What a responder answers to messages from host 0.
#[derive(Drop)]
pub struct When {
    pub node: u8,
    /// The state in which it does; `None` stands for every state.
    pub state: Option<Text>,
    pub pattern: Pattern,
    pub answers: Many<RuleAnswer>,
    /// The state that the responder enters by such a message.
    pub enter: Option<Text>,
}

/// A send or a write that is made again and again.
#[derive(Drop)]
pub struct Every {
    /// Milliseconds, 1 to 1,000,000.
    pub period_ms: u32,
    pub by: PortId,
    pub step: Step,
}

/// What a step waits for: that a condition holds, or that it doesn't.
#[derive(Drop)]
pub struct Form {
    pub wanted: bool,
    pub what: Condition,
}

impl Form {
    /// The form, with the values that words say in the place of the one of a line in numbers.
    fn meant(self, text: Text, values: MeantValues) -> Form
        ensures { result ≡ meant_form text values self }
    {
        let Form { wanted, what } = self;
        Form {
            wanted,
            what: what.meant(text, values),
        }
    }
}

/// A send, a write, a switch or a sleep that is made after a slot if a form calls for it.
#[derive(Drop)]
pub struct On {
    pub form: Form,
    pub by: PortId,
    pub step: Step,
}

/// Such a step, and whether its form held when it was last looked at: after a slot, or at its line.
#[derive(Drop)]
pub struct Watched {
    pub on: On,
    pub held: bool,
}

impl Watched {
    /// The step, with the values that words say in its form.
    fn meant(self, text: Text, values: MeantValues) -> Watched
        ensures { result ≡ meant_on text values self }
    {
        let Watched { on, held } = self;
        let On { form, by, step } = on;
        Watched {
            on: On {
                form: form.meant(text, values),
                by,
                step,
            },
            held,
        }
    }
}

/// Single rules that a line ends.
pub enum RuleEnd {
    /// What a responder answers in this state, or in every state, to messages that match this pattern.
    When {
        node: u8,
        state: Option<Text>,
        pattern: Pattern,
    },
    /// All that this responder answers.
    WhensOf(u8),
    /// Each repetition of this step by this port.
    Every {
        by: PortId,
        step: Step,
    },
    /// Each step that this form calls for.
    On(Form),
}

// Written out, so that what owns an end of rules lets it go in one step of its proof.
impl Drop for RuleEnd {
    fn drop(self) {
        match self {
            RuleEnd::When {
                node: _,
                state: _state,
                pattern: _pattern,
            } => {}
            RuleEnd::WhensOf(_) => {}
            RuleEnd::Every { by: _, step: _step } => {}
            RuleEnd::On(_form) => {}
        }
    }
}

impl RuleEnd {
    /// The end of rules, with the values that words say in its form.
    fn meant(self, text: Text, values: MeantValues) -> RuleEnd
        ensures { result ≡ meant_end text values self }
    {
        match self {
            RuleEnd::On(form) => RuleEnd::On(form.meant(text, values)),
            other => other,
        }
    }
}

/// What a line of a rule says.
#[derive(Drop)]
pub enum Rule {
    When(When),
    /// These rules aren't in force any more. If there are none, the line's check fails.
    End(RuleEnd),
    /// No rule says any more what responders answer.
    WhenOff,
    /// Transfers are given up whose last good frame is so many milliseconds ago, 1 to 1,000,000.
    Timeouts(u32),
    /// Likewise by the limits in an LDF: none of them is known yet.
    TimeoutsLdf(Many<NodeLimits>),
    TimeoutsOff,
    /// Likewise those of one responder, or none of it. That goes before the limit of all.
    TimeoutsOf { node: u8, limit_ms: Option<u32> },
    Every(Every),
    EveryOff,
    /// A step that a form calls for, not looked at yet.
    On(Watched),
    OnOff,
    /// Whether responders tell errors in responses by their signals.
    Errors(bool),
    /// Whether responders answer messages that ask for a service.
    Services(bool),
    /// A responder enters a state.
    State { node: u8, name: Text },
    /// A responder has power, or has none.
    Power { node: u8, is_on: bool },
}

impl Rule {
    /// The rule, with the values that words say in its form.
    pub(crate) fn meant(self, text: Text, values: MeantValues) -> Rule
        ensures { result ≡ meant_rule text values self }
    {
        match self {
            Rule::On(watched) => Rule::On(watched.meant(text, values)),
            Rule::End(end) => Rule::End(end.meant(text, values)),
            other => other,
        }
    }
}

/// A step that is made again and again since a time in microseconds.
#[derive(Drop)]
pub struct Repeated {
    pub began: u64,
    pub every: Every,
}

/// An answer that is to be sent at a time in microseconds, which is more than a cluster's time can be
/// where waits are long.
#[derive(Drop)]
pub struct Noted {
    pub time: u128,
    pub node: u8,
    pub bytes: Payload,
}

/// The limits in an LDF of the transfers of a responder, in microseconds: of messages to it, and of those from
/// it (`N_Cr_timeout`, `N_As_timeout`; LIN 2.2A, section 9.2.2.2).
#[derive(Clone, Copy, Debug)]
pub struct NodeLimits {
    pub node: u8,
    pub down_us: u32,
    pub up_us: u32,
}

/// The limit of the transfers of all responders.
#[derive(Drop)]
pub enum Limit {
    /// 1 to 1,000,000.
    Milliseconds(u32),
    /// Those in an LDF, and a second for a responder that isn't among them.
    Ldf(Many<NodeLimits>),
}

/// The limit of the transfers of one responder in milliseconds, 1 to 1,000,000, or that it has none.
#[derive(Clone, Copy, Debug)]
pub struct OwnLimit {
    pub node: u8,
    pub limit_ms: Option<u32>,
}

/// The state of a responder.
#[derive(Drop)]
pub struct NodeState {
    pub node: u8,
    pub name: Text,
}

/// The rules in force, each kind in the order of their lines, the limits of single responders, the states that
/// aren't `default`, the nodes that are off, the answers that are noted, in the order in which they are sent, and
/// the faults under which the steps of lines are made.
#[derive(Drop)]
pub struct Rules {
    pub whens: Many<When>,
    pub limit: Option<Limit>,
    pub own_limits: Many<OwnLimit>,
    pub everies: Many<Repeated>,
    pub ons: Many<Watched>,
    pub errors: bool,
    pub services: bool,
    pub states: Many<NodeState>,
    pub offs: Many<u8>,
    pub noted: Many<Noted>,
    pub faults: Many<ArmedFault>,
}

impl Rules {
    /// Returns rules of which none is in force, without answers and faults.
    pub(crate) fn none(alloc: Global) -> Rules
        ensures { result ≡ no_rules }
    {
        Rules {
            whens: Many::new(Vec::new(alloc)),
            limit: None,
            own_limits: Many::new(Vec::new(alloc)),
            everies: Many::new(Vec::new(alloc)),
            ons: Many::new(Vec::new(alloc)),
            errors: false,
            services: false,
            states: Many::new(Vec::new(alloc)),
            offs: Many::new(Vec::new(alloc)),
            noted: Many::new(Vec::new(alloc)),
            faults: Many::new(Vec::new(alloc)),
        }
    }
}
