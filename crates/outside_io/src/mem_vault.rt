//! Texts in memory, fetched and kept, with faults at chosen calls.

ghost use Rattle.std.specs.Prelude.{◌≡◌, ◌⊎◌, ◌<◌, ◌≤◌, [], ◌∷◌, ◌++◌, length, Some, None, true, false, if◌then◌else◌, OnOk, OnErr, IsSomeAnd, option_copied, vec_len};
ghost use Rattle.outside_io.specs.InMemory.{VaultState, fails_at};
ghost use Rattle.outside_io.specs.Moved.{Rose, Grew, after};
ghost use Rattle.outside_io.specs.Texts.{text_named, HoldsUnder, OnFailed, OnTooLong, UnlessFailed, texts_of};

use crate::calls::{Calls, raised};
use crate::faults::{Failed, FetchEnd};
use crate::texts::{copy, find};
use crate::vault::Vault;
use std::alloc::{AllocError, Global};
use std::marker::Model;

/// A vault over memory, which tells its texts and what was kept.
#[derive(Drop)]
pub struct MemVault {
    alloc: Global,
    texts: Vec<(String, Vec<u8>)>,
    kept: Vec<(String, Vec<u8>)>,
    calls: Calls,
    fetch_faults: u64,
    keep_faults: u64,
}

impl Model for MemVault {
    ghost Value = { VaultState };

    ghost view = { λ v. record {
      texts = texts_of v.texts.items ++ texts_of v.kept.items;
      kept = texts_of v.kept.items;
      fails = v.calls.fails.items;
      calls = v.calls.made;
      fetch_faults = v.fetch_faults;
      keep_faults = v.keep_faults;
    } };
}

impl MemVault {
    /// A vault that holds these texts, and of equal names the last one. The calls whose numbers
    /// are in `fails` fail, where fetches and keeps are counted together, from 1. So does a keep
    /// that finds no memory for its pair.
    pub fn new(alloc: Global, texts: Vec<(String, Vec<u8>)>, fails: Vec<u32>) -> MemVault
        ensures { result ≡ record {
          texts = texts_of texts.items;
          kept = [];
          fails = fails.items;
          calls = 0;
          fetch_faults = 0;
          keep_faults = 0;
        } }
    {
        MemVault {
            alloc,
            texts,
            kept: Vec::new(alloc),
            calls: Calls::new(fails),
            fetch_faults: 0,
            keep_faults: 0,
        }
    }

    /// The pairs of name and bytes that were kept, in order.
    pub fn kept(&self) -> &[(String, Vec<u8>)]
        ensures { texts_of result.now ≡ self.now.kept }
    {
        self.kept.as_slice()
    }

    fn text(&self, name: &str) -> Option<&[u8]>
        ensures { option_copied result ≡ text_named self.now.texts name.now }
    {
        match find(self.kept.as_slice(), name) {
            Some(bytes) => Some(bytes),
            None => find(self.texts.as_slice(), name),
        }
    }

    fn add(&mut self, name: &str, bytes: &[u8]) -> Result<(), AllocError>
        ensures ok { OnOk result (self.new ≡ record self.old {
          texts = self.old.texts ++ (name.now, bytes.now) ∷ [];
          kept = self.old.kept ++ (name.now, bytes.now) ∷ [];
        }) }
        ensures err { OnErr result (self.new ≡ self.old) }
    {
        let name = String::from_str(self.alloc, name)?;
        let bytes = Vec::from_slice(self.alloc, bytes)?;
        self.kept.push((name, bytes))?;
        Ok(())
    }
}

impl Vault for MemVault {
    ghost fetch_faults = { λ v. v.fetch_faults };

    ghost keep_faults = { λ v. v.keep_faults };

    ghost texts = { λ v. Some v.texts };

    ghost kept = { λ v. Some v.kept };

    fn fetch(&mut self, name: &str, limit: usize, out: &mut Vec<u8>) -> Result<(), FetchEnd>
        ensures within { OnOk result (vec_len out.new ≤ limit) }
        ensures found { OnOk result (text_named self.old.texts name.now ≡ Some out.new.items) }
        ensures too_long { OnTooLong result
            (IsSomeAnd (text_named self.old.texts name.now) (λ bytes. limit < length bytes)) }
        ensures quiet { UnlessFailed result (self.new.fetch_faults ≡ self.old.fetch_faults) }
        ensures later { self.old.fetch_faults ≤ self.new.fetch_faults }
        ensures cause { OnFailed result (Rose self.old.fetch_faults self.new.fetch_faults
            ⊎ (text_named self.old.texts name.now ≡ None)) }
        // A planned call fails and counts, and a name that isn't there fails and doesn't count.
        ensures after_call { self.new ≡ record self.old {
          calls = after self.old.calls;
          fetch_faults = if fails_at self.old.fails (after self.old.calls)
              then after self.old.fetch_faults else self.old.fetch_faults;
        } }
        ensures planned { fails_at self.old.fails (after self.old.calls) ≡ true
            → result ≡ Err FetchEnd.Failed }
        ensures missing { text_named self.old.texts name.now ≡ None → result ≡ Err FetchEnd.Failed }
    {
        if self.calls.next_fails() {
            self.fetch_faults = raised(self.fetch_faults);
            return Err(FetchEnd::Failed);
        }
        match self.text(name) {
            Some(bytes) => copy(bytes, limit, out),
            None => Err(FetchEnd::Failed),
        }
    }

    fn keep(&mut self, name: &str, bytes: &[u8]) -> Result<(), Failed>
        ensures kept { OnOk result
            (Grew (Some self.old.kept) (Some self.new.kept) ((name.now, bytes.now) ∷ [])) }
        ensures texts { OnOk result
            (HoldsUnder self.old.texts self.new.texts name.now bytes.now) }
        ensures failed { OnErr result (self.new.kept ≡ self.old.kept) }
        ensures texts_stand { OnErr result (self.new.texts ≡ self.old.texts) }
        ensures quiet { OnOk result (self.new.keep_faults ≡ self.old.keep_faults) }
        ensures later { self.old.keep_faults ≤ self.new.keep_faults }
        ensures fetches_stand { self.new.fetch_faults ≡ self.old.fetch_faults }
        ensures cause { OnErr result (Rose self.old.keep_faults self.new.keep_faults) }
        // The planned calls fail, and every other one where there is no memory for the pair.
        ensures planned { OnOk result (fails_at self.old.fails (after self.old.calls) ≡ false) }
        ensures counted { self.new.calls ≡ after self.old.calls }
        ensures plan { self.new.fails ≡ self.old.fails }
    {
        if !self.calls.next_fails() && self.add(name, bytes).is_ok() {
            return Ok(());
        }
        self.keep_faults = raised(self.keep_faults);
        Err(Failed)
    }
}
