//! Words and tables as values.

use super::table::same;
use key_table::{Keys, Word};

#[test]
fn words_compare_by_their_bytes(rt: HostRuntime) {
    // Zeros at the end are part of a word.
    assert!(rt; Word::of(b"a") != Word::of(b"a\0"));
    assert!(rt; Word::of(b"") != Word::of(b"\0"));
    assert!(rt; Word::of(b"same") == Word::of(b"same"));
    let none: [Word; 0] = [];
    match Keys::of(none) {
        Some(keys) => same(&rt, "no word", &keys.find(b""), &None),
        None => same(&rt, "a table", &false, &true),
    }
}
