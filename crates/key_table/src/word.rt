//! Words of at most 32 bytes.
ghost use Rattle.std.specs.Prelude.{◌≡◌, ◌↔◌, ◌<◌, ◌≤◌, length, IfSome};

use std::marker::Model;

/// A text of at most 32 bytes, of any values, kept in place.
#[derive(Clone, Copy, Debug, PartialEq, Eq, PartialOrd, Ord)]
pub struct Word {
    // The text, and zeros up to the end.
    bytes: [u8; Word::LIMIT],
    len: usize,
}

impl Model for Word {
    ghost use Rattle.std.specs.Prelude.{◌≡◌, List, ℕ, ◌-◌, ◌≤◌, take, length, ◌++◌};
    ghost use Rattle.key_table.specs.Padding.{padded};
    ghost use Rattle.std.proofs.Common.{sym};
    ghost use Rattle.std.proofs.lemmas.List.{length-take-le};

    ghost Value = { List ℕ };

    ghost view = { λ w. take w.len w.bytes };

    ghost invariant = { λ w. (w.len ≤ length w.bytes) × (w.bytes ≡ padded (take w.len w.bytes)) };

    ghost inverse = { λ text. record { bytes = padded text; len = length text } };

    ghost inverse_ok = { λ w kept. λ i. record { bytes = sym kept.1 i; len = length-take-le w.len w.bytes kept.0 i } };
}

impl Word {
    /// The most bytes that a word has.
    pub const LIMIT: usize = 32;

    /// The word of these bytes, or `None` where there are more than 32.
    pub fn of(text: &[u8]) -> Option<Word>
        ensures text { IfSome result (λ word. word ≡ text.now) }
        ensures long { (result ≡ None) ↔ (32 < length text.now) }
    {
        if text.len() > Word::LIMIT {
            return None;
        }
        let mut bytes = [0; Word::LIMIT];
        bytes[..text.len()].copy_from_slice(text);
        Some(Word {
            bytes,
            len: text.len(),
        })
    }

    /// The word of a text that is known to be short.
    pub fn known(text: &[u8]) -> Word
        requires short { length text.now ≤ 32 }
        ensures text { result ≡ text.now }
    {
        Word::of(text).unwrap()
    }

    /// The text.
    pub fn bytes(&self) -> &[u8]
        ensures text { result.now ≡ self.now }
        ensures short { length self.now ≤ 32 }
    {
        &self.bytes[..self.len]
    }
}
