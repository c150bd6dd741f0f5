//! What the program `linsim` does, apart from its command line: clusters from LDF texts, what each
//! subcommand does with one, and why it ends early.
//!
//! ```
//! let mut notes = Notes::new(alloc, wanted);
//! let cluster = cluster_of_text(alloc, text)?;
//! let table = opening_table(&cluster, Some("diag"))?;
//! let opened = Opened { cluster, table, coded: None, limits, settings };
//! replay_script(alloc, opened, &mut reader, &mut writer, &mut notes)?;
//! ```
#![tactic(auto)]

mod campaign;
mod causes;
mod check_json;
mod check_lists;
mod checking;
mod coding;
mod comparing;
mod describing;
mod diffing;
mod explaining;
mod fault;
mod fault_lines;
mod fault_text;
mod field;
mod finding_lines;
mod formats;
mod junit;
mod kinds;
mod law;
mod levels;
mod limits;
mod living;
mod locating;
mod meanings;
mod misspelled;
mod nearest;
mod notes;
mod objects;
mod opening;
mod page;
mod parties;
mod placing;
mod play_command;
mod plays;
mod replay_command;
mod running;
mod scripts;
mod tally;
mod wanted;

pub use campaign::{
    CampaignPart, CampaignPlan, Kinds, PlannedCampaign, RandomSets, RowFormat, campaign_script,
    parts_are_the_whole, run_campaign,
};
pub use check_json::check_object;
pub use check_lists::{Lists, write_lists};
pub use checking::{check, check_plain};
pub use coding::{Described, Encodings, Extras};
pub use comparing::{compare, compare_script, first_difference};
pub use describing::{
    BUILT_IN, Reading, cluster_of_file, cluster_of_input, cluster_of_reader, cluster_of_text,
    read_text,
};
pub use diffing::{ReadLdf, diff, read_ldf, write_compared};
pub use fault::{Fault, exit_status};
pub use fault_lines::write_fault;
pub use field::field_of_reader;
pub use finding_lines::{Findings, Remarks};
pub use formats::{Format, Shown, write_shown};
pub use kinds::{BadKinds, KindsFault, read_levels};
pub use law::{
    campaign_data_are_inert, named_logs_say_the_same, page_data_are_inert, plain_texts_are_read,
    transcripts_are_logs,
};
pub use levels::{Levels, NumberRange};
pub use lin_bench::{GivenParameter, is_name};
pub use lin_export::write_list;
pub use lin_sections::Classes;
pub use living::{answer_lines, bench_in_hand, live};
pub use notes::{Notes, Wanted};
pub use opening::{Opened, Settings, opening_table};
pub use play_command::{DisturbedPlay, play_script, play_source};
pub use plays::{PlayOptions, ScriptInput, play, play_scripts};
pub use replay_command::{replay, replay_script};
pub use running::run;
