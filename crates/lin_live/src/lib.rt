//! A bench in hand, and a loop that answers each line of a reader on a writer before it reads on.
//!
//! ```
//! let mut hand = Hand::new(alloc, cluster, opening, AnswerFormat::Log, None, limits, false)?;
//! // answers each line of standard input, until it ends
//! live(alloc, &mut hand, &mut reader, &mut writer)?;
//! ```
#![tactic(auto)]

mod answer_format;
mod answer_objects;
mod answer_texts;
mod answer_value;
mod answering;
mod asking;
mod begun;
mod check_texts;
mod fault;
mod hand;
mod held;
mod law;
mod marking;
mod question;
mod reason;
mod serving;
mod versions;

pub use answer_format::AnswerFormat;
pub use answering::Answering;
pub use check_texts::{found_text, what_text, without_space};
pub use fault::Fault;
pub use hand::Hand;
pub use law::{
    answers_tell_the_log, back_restores, live_is_play, pieces_come_back, transcripts_split,
};
pub use lin_export::Opening;
pub use question::Question;
pub use reason::{LineFault, Reason};
pub use serving::live;
