//! Fixed tables of words.
//!
//! A [`Word`] is a text of at most 32 bytes that is kept in place, and a [`Keys`] is a list of
//! distinct words that tells the place of a word, or that it isn't there. A look-up compares the
//! word with about log2 N words of the table. [`command_keys`] and [`file_keys`] are the two
//! tables of the program. No call takes memory, and no call fails but by `None`.
#![tactic(auto)]

mod keys;
mod tables;
mod word;

pub use keys::Keys;
pub use tables::{command_keys, file_keys};
pub use word::Word;
