//! Bench scripts: what a person writes to make slots on a cluster and to say what is expected of
//! them.
//!
//! ```
//! // a message, the slots that it takes, and what is expected
//! let source = Source::of(b"send cem door 3E\nslots idle\nexpect sent cem\n");
//! let lines = read(alloc, &cluster, None, &[], source)?;
//! let Played { core, judgements } = play(alloc, cluster, table, capacity, lines, false)?;
//! write_unmet(core.cluster(), source.files, judgements.as_slice(), &mut errors)?;
//!
//! // the same in hand, a line at a time
//! let mut bench = Bench::new(alloc, Core::new(alloc, cluster, table, capacity)?);
//! let before = bench.core().log().len();
//! if let Some(line) = read_line(alloc, bench.core().cluster(), b"slots idle")? {
//!     bench.renew_slots();
//!     match bench.make(alloc, line)? { .. }
//! }
//! // the line's entries are those of bench.core().log() from `before` on
//! ```
#![tactic(auto)]

mod answers;
mod arrivals;
mod bench;
mod carried;
mod conditions;
mod copies;
mod cycles;
mod ended_rules;
mod ends;
mod errors;
mod expectations;
mod expected;
mod fault;
mod faults;
mod fields;
mod files;
mod forms;
mod got;
mod got_meanings;
mod hints;
mod law;
mod left_events;
mod limits;
mod line;
mod lines;
mod listed;
mod marks;
mod meant;
mod on_lines;
mod ons;
mod parameters;
mod place;
mod playing;
mod powers;
mod raw_values;
mod reason;
mod replies;
mod resolving;
mod rule_lines;
mod ruled;
mod rules;
mod rules_in_force;
mod said_values;
mod script;
mod slot_runs;
mod states;
mod strict;
mod taken;
mod tests;
mod texts;
mod times;
mod unmarked;
mod verdicts;
mod watches;
mod word_list;
mod worded_ons;
mod words;

pub use bench::Bench;
pub use expected::{Condition, Expected, SaidTime, Since};
pub use fault::{LineFault, MakeFault, PlayFault, ReadFault};
pub use faults::{FaultKind, SlotFault};
pub use fields::{present_node, present_signal};
pub use files::{FileText, ScriptFile, Source, file_name, file_text};
pub use got::{Got, Judged, Judgement, Pending, Verdict, is_unmet, some_unmet};
pub use got_meanings::{told_meaning, told_meanings};
pub use law::{
    faults_change_their_slots_alone, order_of_rules_is_free, plain_scripts_say_the_same,
    responders_off_leave_responses_out, rules_alone_add_steps,
};
pub use lin_core::Look;
pub use lin_log::{Carried, Pattern};
pub use line::{Disturbance, Extent, ScriptLine, Slots};
pub use lines::read_line;
pub use marks::Mark;
pub use meant::MeantValues;
pub use parameters::{GivenParameter, Parameter, parameter_of_line, replaced_line, set_parameter};
pub use place::{LinePlace, put_place_number};
pub use playing::{LineEnd, Played, PlayedUnder, play, play_under};
pub use reason::{Hint, Reason};
pub use replies::first_refusal;
pub use resolving::{missing_file, uses_parameter};
pub use rule_lines::is_name;
pub use rules::{
    Every, Form, Limit, NodeLimits, On, Part, Rule, RuleAnswer, RuleEnd, Watched, When,
};
pub use script::{bad_lines, read, without_mark};
pub use tests::{TestName, put_test_name, test_names};
pub use texts::{
    put_found, put_judged, put_pending, put_reason, put_unmet, put_verdict, put_what, reason_line,
    write_bad_line, write_unmet,
};
pub use word_list::{WordList, put_all_after, put_word_list};
pub use words::read_worded_line;
