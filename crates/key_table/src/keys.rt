//! Lists of distinct words, with an index for looking one up.
ghost use Rattle.std.specs.Prelude.{◌≡◌, ℕ, ◌↔◌, ◌<◌, length, List, [], IfSome, IsTrue, Contains, slice_get, slice_index_or, IsPermutation};
ghost use Rattle.std.specs.Cmp.Lexicographic.{slice_cmp};
ghost use Rattle.std.specs.Ordering.{nat_cmp};
ghost use Rattle.key_table.specs.Keys.{HasTwins, HasEarlierTwin, CountsUp, RisesBy};

use crate::word::Word;
use std::cmp::Ordering;
use std::marker::Model;

/// A list of distinct words that finds the place of a word.
#[derive(Drop)]
pub struct Keys<const N: usize> {
    words: [Word; N],
    // The places of the list, by rising word.
    order: [usize; N],
}

impl<const N: usize> Model for Keys<N> {
    ghost use Rattle.std.specs.Prelude.{List, ℕ};
    ghost use Rattle.key_table.specs.Keys.{IsIndexed};

    ghost Value = { List (List ℕ) };

    ghost view = { λ keys. keys.words };

    ghost invariant = { λ keys. IsIndexed keys.words keys.order };
}

impl<const N: usize> Keys<N> {
    /// The list of these words, or `None` where two of them are equal.
    pub fn of(words: [Word; N]) -> Option<Keys<N>>
        ensures words { IfSome result (λ keys. keys ≡ words.entry) }
        ensures twins { (result ≡ None) ↔ HasTwins words.entry }
    {
        if has_twins(&words) {
            return None;
        }
        let mut order = counted();
        sort_by_word(&mut order, &words);
        Some(Keys { words, order })
    }

    /// The words, in their places.
    pub fn words(&self) -> &[Word]
        ensures words { result.now ≡ self.now }
        ensures distinct { HasTwins self.now → ⊥ }
    {
        &self.words
    }

    /// The place of the word, counted from 0, or `None` where it isn't one of the list.
    pub fn find(&self, word: &[u8]) -> Option<usize>
        ensures place { (place : ℕ) → (result ≡ Some place) ↔ (slice_get self.now place ≡ Some word.now) }
        ensures absent { (result ≡ None) ↔ (Contains self.now word.now → ⊥) }
    {
        let mut low = 0;
        let mut high = self.order.len();
        while low < high {
            let middle = low + (high - low) / 2;
            let place = self.order[middle];
            match word.cmp(text_at(&self.words, place)) {
                Ordering::Less => high = middle,
                Ordering::Equal => return Some(place),
                Ordering::Greater => low = middle + 1,
            }
        }
        None
    }
}

// The word at a place, and no bytes past the end.
fn text_at(words: &[Word], place: usize) -> &[u8]
    ensures { result.now ≡ slice_index_or words.now place [] }
{
    match words.get(place) {
        Some(word) => word.bytes(),
        None => &[],
    }
}

// Whether an earlier word is equal to the one at a place.
fn has_earlier_twin(words: &[Word], place: usize) -> bool
    ensures { IsTrue result ↔ HasEarlierTwin words.now place }
{
    for earlier in 0..place {
        if text_at(words, earlier) == text_at(words, place) {
            return true;
        }
    }
    false
}

// Whether two of the words are equal.
fn has_twins(words: &[Word]) -> bool
    ensures { IsTrue result ↔ HasTwins words.now }
{
    for place in 0..words.len() {
        if has_earlier_twin(words, place) {
            return true;
        }
    }
    false
}

// The numbers from 0 on.
fn counted<const N: usize>() -> [usize; N]
    ensures { CountsUp result }
{
    let mut places = [0; N];
    for place in 0..N {
        places[place] = place;
    }
    places
}

// How the words at two places compare.
fn compare_at(words: &[Word], a: usize, b: usize) -> Ordering
    ensures { result ≡ slice_cmp nat_cmp (slice_index_or words.now a []) (slice_index_or words.now b []) }
{
    text_at(words, a).cmp(text_at(words, b))
}

// Puts the places in the order of their words.
fn sort_by_word(places: &mut [usize], words: &[Word])
    ensures rises { RisesBy words.now places.new }
    ensures places { IsPermutation places.old places.new }
{
    places.sort_unstable_by(|a, b| compare_at(words, *a, *b));
}
