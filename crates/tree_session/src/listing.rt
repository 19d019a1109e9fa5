//! A listing that is being written.

ghost use Rattle.std.specs.Prelude.{◌≡◌, [], ◌∷◌, ◌++◌, OnOk, decimal};
ghost use Rattle.std.specs.Fmt.{signed_decimal};
ghost use Rattle.map_model.specs.Listings.{quoted};

use fixed_num::Text;
use itoa::Buffer;
use std::alloc::{AllocError, Global};
use std::marker::Model;

/// The text of a listing as far as it is written. Contracts see its bytes. Each call that adds to it fails for want of memory
/// alone, and the listing is given up then.
#[derive(Drop)]
pub(crate) struct Listing {
    text: Vec<u8>,
}

impl Model for Listing {
    ghost use Rattle.std.specs.Prelude.{List, ℕ};

    ghost Value = { List ℕ };

    ghost view = { λ l. l.text.items };
}

impl Listing {
    pub(crate) fn new(alloc: Global) -> Listing
        ensures { result ≡ [] }
    {
        Listing {
            text: Vec::new(alloc),
        }
    }

    /// The text that was written. It takes no memory.
    pub(crate) fn into_text(self) -> Text
        ensures { result ≡ self }
    {
        Text::from_vec(self.text)
    }

    pub(crate) fn put(&mut self, text: &[u8]) -> Result<(), AllocError>
        ensures { OnOk result (self.new ≡ self.old ++ text.now) }
    {
        self.text.extend_from_slice(text)
    }

    pub(crate) fn number(&mut self, number: u64) -> Result<(), AllocError>
        ensures { OnOk result (self.new ≡ self.old ++ decimal number) }
    {
        let mut buffer = Buffer::new();
        self.put(buffer.format(number).as_bytes())
    }

    pub(crate) fn signed(&mut self, number: i128) -> Result<(), AllocError>
        ensures { OnOk result (self.new ≡ self.old ++ signed_decimal number) }
    {
        let mut buffer = Buffer::new();
        self.put(buffer.format(number).as_bytes())
    }

    pub(crate) fn quoted(&mut self, text: &[u8]) -> Result<(), AllocError>
        ensures { OnOk result (self.new ≡ self.old ++ quoted text.now) }
    {
        self.put(b"\"")?;
        self.put(text)?;
        self.put(b"\"")
    }
}
