//! The language of scripts: lines read into commands, and replies written as lines.
//!
//! [`read_line`] cuts a line into words, finds the command that its first word begins, and reads the words behind it by one
//! table of what each command takes. Of a line that says no command it tells the first word that can't stand where it does.
//! It takes no memory but for the texts and lists that the command keeps, and time in proportion to the line's length. What
//! it gives is within the ranges that its clauses tell. [`reply_text`] writes the line of any reply or refusal into a buffer
//! of fixed size. Only the reply to want of memory begins with the line `memory`.
#![tactic(auto)]

mod arguments;
mod build;
mod command;
mod kinds;
mod laws;
mod line;
mod misfit;
mod numbers;
mod reading;
mod reply;
mod reply_buf;
mod reply_lines;
mod spelling;
mod verb;
mod words;

pub use command::{Command, LineFault, Part, SurfaceWords};
pub use laws::{meaning_law, misfit_law, one_cut_law, want_of_memory_law};
pub use line::{Field, Line};
pub use reading::read_line;
pub use reply::{Refusal, Reply};
pub use reply_buf::{ReplyBuf, reply_text};
