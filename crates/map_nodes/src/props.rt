//! Properties: keys with values, in order.

ghost use Rattle.std.specs.Prelude.{◌≡◌, [], length, slice_get, is_some, option_map, option_copied, IsTrue, IfOk, OnOk, OnErr};
ghost use Rattle.std.specs.Bool.{Decides};
ghost use Rattle.std.specs.Map.Iter.{deref_pair};
ghost use Rattle.map_text.specs.Meaning.{put_property, value_of_key};
ghost use Rattle.map_text.specs.Spelled.{keys_are_distinct};
ghost use Rattle.map_nodes.specs.Pairs.{without_key};

use fixed_num::Text;
use indexmap::IndexMap;
use std::alloc::{AllocError, Global};
use std::marker::Model;

/// Properties: keys with values, in order. No key stands twice. Contracts see the list of pairs.
#[derive(Drop)]
pub struct Props {
    pairs: IndexMap<Vec<u8>, Vec<u8>>,
}

impl Model for Props {
    ghost use Rattle.std.specs.Prelude.{List, ℕ, IsTrue};
    ghost use Rattle.map_text.specs.Spelled.{keys_are_distinct};
    ghost use Rattle.map_nodes.specs.Pairs.{pairs_of};

    ghost Value = { List (List ℕ × List ℕ) };

    ghost view = { λ p. pairs_of p.pairs.entries };

    ghost invariant = { λ p. IsTrue (keys_are_distinct (pairs_of p.pairs.entries)) };
}

impl Props {
    /// No properties. It takes no memory.
    pub fn new(alloc: Global) -> Props
        ensures { result ≡ [] }
    {
        Props {
            pairs: IndexMap::new(alloc),
        }
    }

    /// How many pairs there are.
    pub fn len(&self) -> usize
        ensures { result ≡ length self.now }
    {
        self.pairs.len()
    }

    /// No key stands twice.
    pub fn are_distinct(&self)
        ensures { IsTrue (keys_are_distinct self.now) }
    {
        let _pairs = &self.pairs;
    }

    /// The pair at place k, from 0. `None` exactly past the end.
    pub fn pair(&self, k: usize) -> Option<(&[u8], &[u8])>
        ensures { option_map deref_pair result ≡ slice_get self.now k }
    {
        match self.pairs.get_index(k) {
            Some((key, value)) => Some((key.as_slice(), value.as_slice())),
            None => None,
        }
    }

    /// The value of a key. `None` exactly where the key isn't there.
    pub fn value(&self, key: &[u8]) -> Option<&[u8]>
        ensures { option_copied result ≡ value_of_key key.now self.now }
    {
        match self.pairs.get(key) {
            Some(value) => Some(value.as_slice()),
            None => None,
        }
    }

    /// Gives a key a value: the pair stands in the key's place, or last where the key is new. An error comes for want of memory
    /// alone, and nothing changes then.
    pub fn set(&mut self, alloc: Global, key: &[u8], value: &[u8]) -> Result<(), AllocError>
        ensures ok { OnOk result (self.new ≡ put_property key.now value.now self.old) }
        ensures err { OnErr result (self.new ≡ self.old) }
    {
        let own_key = Text::of(alloc, key)?;
        let own_value = Text::of(alloc, value)?;
        self.put(own_key, own_value)
    }

    /// What `set` does, with texts that the pair takes over: their bytes aren't copied. An error comes for want of memory alone,
    /// and nothing changes then.
    pub fn put(&mut self, key: Text, value: Text) -> Result<(), AllocError>
        ensures ok { OnOk result (self.new ≡ put_property key value self.old) }
        ensures err { OnErr result (self.new ≡ self.old) }
    {
        let own_key = key.into_vec();
        let own_value = value.into_vec();
        match self.pairs.insert(own_key, own_value) {
            Ok(_) => Ok(()),
            Err(_) => Err(AllocError),
        }
    }

    /// Takes a pair out; the others keep their order. False exactly where the key isn't there.
    pub fn unset(&mut self, key: &[u8]) -> bool
        ensures was { result ≡ is_some (value_of_key key.now self.old) }
        ensures now { self.new ≡ without_key key.now self.old }
    {
        self.pairs.shift_remove(key).is_some()
    }

    /// Whether two lists have the same pairs in the same order.
    pub fn is_same(&self, other: &Props) -> bool
        ensures { Decides result (self.now ≡ other.now) }
    {
        if self.len() != other.len() {
            return false;
        }
        for k in 0..self.len() {
            if !same_pairs(self.pair(k), other.pair(k)) {
                return false;
            }
        }
        true
    }

    /// An equal list of pairs, or an error for want of memory.
    pub fn copy(&self) -> Result<Props, AllocError>
        ensures { IfOk result (λ props. props ≡ self.now) }
    {
        Ok(Props {
            pairs: self.pairs.clone()?,
        })
    }
}

// Whether both are there and have one key and one value.
fn same_pairs(a: Option<(&[u8], &[u8])>, b: Option<(&[u8], &[u8])>) -> bool
    ensures { Decides result (option_map deref_pair a.entry ≡ option_map deref_pair b.entry) }
{
    match a {
        None => b.is_none(),
        Some((key, value)) => match b {
            None => false,
            Some((other_key, other_value)) => (key == other_key) & (value == other_value),
        },
    }
}
