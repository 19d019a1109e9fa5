#![tactic(auto)]

//! Decimal numbers without rounding errors: it reads number words into whole counts of millionths,
//! billionths or trillionths, and writes such counts as the shortest decimal.
//!
//! A count that is read is the exact value of its word, rounded once, halves away from zero, whatever
//! the word's digits and exponent are. A count that is written reads back as itself. The crate also has
//! the small types that the rest of the program keeps numbers and texts in: `Micro`, `Nano`, `Pico`,
//! `Frac`, `Text`.

mod fraction;
mod kept_count;
mod laws;
mod micro;
mod nano;
mod num_buf;
mod pico;
mod plain_word;
mod quotient;
mod read;
mod scale;
mod sign;
mod text;
mod units;
mod whole;
mod word;
mod write;

pub use fraction::Frac;
pub use laws::count_law;
pub use micro::Micro;
pub use nano::Nano;
pub use num_buf::NumBuf;
pub use pico::Pico;
pub use quotient::exact_quotient;
pub use read::{MicroFault, read_micro, read_nano, read_pico};
pub use text::Text;
pub use whole::{WholeFault, read_whole, read_wide};
pub use write::{write_micro, write_nano, write_pico};
