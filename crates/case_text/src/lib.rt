//! Cases that stand in a text, and the transcript of their answers.
//!
//! A text of cases has a blank line between two. Each case is written as it stands, with its answers behind what asks for them:
//! lines that begin with `<` or `=`, as no line of a case does. So a transcript is a record that a reader follows without the
//! program that wrote it, and without its answers it is the text that was read. What a kind of case answers is the program's.
//! The crate promises nothing but that each call returns: it serves tries, and no proof rests on it.
#![tactic(auto)]

mod case;
mod fault;
mod spelling;
mod texts;
mod transcript;

pub use case::Case;
pub use fault::CaseFault;
pub use spelling::{add_bytes, add_line, add_lines, spelled_bytes, spelled_text};
pub use texts::{Texts, with_line};
pub use transcript::{Answers, add_transcript};
