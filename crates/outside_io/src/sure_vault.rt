//! A vault that never fails, whatever memory there is.

ghost use Rattle.std.specs.Prelude.{◌≡◌, ◌↔◌, is_ok, IsTrue, ◌⊎◌, ◌<◌, ◌≤◌, [], length, Some, None, true, false, IsOk, OnOk, IfSome, IsSomeAnd, unwrap_or, vec_len};
ghost use Rattle.outside_io.specs.InMemory.{SureState, told_texts};
ghost use Rattle.outside_io.specs.Texts.{text_named, OnFailed, OnTooLong, texts_of};

use crate::faults::{Failed, FetchEnd};
use crate::texts::{copy, find};
use crate::vault::Vault;
use std::marker::Model;

/// A vault over texts in memory that never fails and keeps nothing. It tells its texts until the
/// first keep. From then on it tells none, and a fetch goes by the texts that it was made with: a
/// name that isn't among them is answered with no bytes.
#[derive(Drop)]
pub struct SureVault {
    texts: Vec<(String, Vec<u8>)>,
    // Whether nothing was kept yet.
    untouched: bool,
}

impl Model for SureVault {
    ghost Value = { SureState };

    ghost view = { λ v. record { texts = texts_of v.texts.items; untouched = v.untouched } };
}

impl SureVault {
    /// A vault that holds these texts, and of equal names the last one.
    pub fn new(texts: Vec<(String, Vec<u8>)>) -> SureVault
        ensures { result ≡ record { texts = texts_of texts.items; untouched = true } }
    {
        SureVault {
            texts,
            untouched: true,
        }
    }
}

impl Vault for SureVault {
    ghost fetch_faults = { λ _. 0 };

    ghost keep_faults = { λ _. 0 };

    ghost texts = { λ v. told_texts v };

    ghost kept = { λ _. None };

    fn fetch(&mut self, name: &str, limit: usize, out: &mut Vec<u8>) -> Result<(), FetchEnd>
        ensures within { OnOk result (vec_len out.new ≤ limit) }
        ensures found { OnOk result (IfSome (told_texts self.old)
            (λ texts. text_named texts name.now ≡ Some out.new.items)) }
        ensures too_long { OnTooLong result
            (IsSomeAnd (text_named self.old.texts name.now) (λ bytes. limit < length bytes)) }
        ensures cause { OnFailed result (IsSomeAnd (told_texts self.old)
            (λ texts. text_named texts name.now ≡ None)) }
        ensures value { OnOk result
            (out.new.items ≡ unwrap_or (text_named self.old.texts name.now) []) }
        ensures missing { text_named self.old.texts name.now ≡ None
            → IsTrue (is_ok result) ↔ (self.old.untouched ≡ false) }
        ensures stands { self.new ≡ self.old }
    {
        match find(self.texts.as_slice(), name) {
            Some(bytes) => copy(bytes, limit, out),
            None => {
                if self.untouched {
                    return Err(FetchEnd::Failed);
                }
                out.clear();
                Ok(())
            }
        }
    }

    fn keep(&mut self, _name: &str, _bytes: &[u8]) -> Result<(), Failed>
        ensures ok { IsOk result }
        ensures touched { self.new ≡ record self.old { untouched = false } }
    {
        self.untouched = false;
        Ok(())
    }
}
