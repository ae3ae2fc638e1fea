//! What comes out of a served store as text: a line for each answer.
//!
//! `AnswerLine` and `OpenedLine` are what is printed: their texts are `answer_line` and `opened_line`. `words_of` says why a transaction
//! is no plan.
#![tactic(auto)]

mod answer;
mod array;
mod fault;
mod line;
mod opened;

pub use answer::{Answer, Stats};
pub use fault::words_of;
pub use line::AnswerLine;
pub use opened::OpenedLine;
