//! The tokens of a map text: words and quoted texts, each with its line.
//!
//! Blanks are space, tab, carriage return and line feed, and lines end at line feeds. At the start
//! of a word `//` begins a comment to the end of its line, and `"` a quoted token; any other word
//! runs to the next blank. A quoted token ends on its line, at the first `"` that isn't directly
//! after a backslash or that only blanks follow on the line. A byte below 32 that is no blank is
//! refused wherever it stands.
//!
//! By these rules a text is cut in exactly one way, and [`Tokens::next`] gives the tokens of that
//! cut, in order, up to the first fault of the text or to its end. A fault is answered again for
//! ever. Nothing here takes memory, and each byte is looked at a few times at most.
#![tactic(auto)]

mod bytes;
mod laws;
mod lexer;
mod places;
mod plain_words;
mod spans;

pub use laws::one_cut_law;
pub use lexer::{LexFault, Token, Tokens};
