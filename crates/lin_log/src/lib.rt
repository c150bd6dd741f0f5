//! Lines of steps, read and written in a language: by numbers alone, or with the names of a cluster;
//! scripts of steps by numbers, the text of logs, and replays of the one that write the other.
//!
//! ```
//! // reads a script, makes its steps from table 0 on, and writes the log
//! let core = replay(alloc, cluster, 0, 16, &mut reader, &mut writer)?;
//! ```
#![tactic(auto)]

mod caller_texts;
mod digits;
mod entries;
mod fault;
mod fields;
mod forms;
mod law;
mod line_words;
mod log_steps;
mod naming;
mod pattern;
mod reason;
mod replaying;
mod script;
mod slot_ends;
mod values;
mod writing;

pub use caller_texts::put_seen;
pub use digits::decoded;
pub use entries::{put_entries, put_event_line, put_step_line, write_log};
pub use fault::{ReplayFault, ScriptFault};
pub use fields::{copied, first_field, is_number, is_over, number, number_field};
pub use forms::{is_port, line_step, port_step, step};
pub use law::{logs_say_their_steps, numbers_say_the_same};
pub use lin_text::WriteFailed;
pub use line_words::{Carried, Word, put_head, put_line, put_shown, put_spaced, put_words};
pub use log_steps::steps_of;
pub use naming::{Naming, NumberNaming};
pub use pattern::{Pattern, put_pattern};
pub use reason::{LineFault, Reason};
pub use replaying::{make_step, replay, run_script};
pub use script::{first_line, read_bytes, read_script, without_return};
pub use slot_ends::{finishes, last_finish};
pub use values::{bytes_fields, hex_bytes, node_field, signal_field, table_field, value_field};
pub use writing::{
    put_bytes, put_event, put_hex, put_node, put_number, put_port, put_signal, put_step, put_table,
    put_value, put_word,
};
