//! Texts and counts as values.

use super::table::same;
use fixed_num::{Micro, NumBuf, Text};
use std::test::Fail;

#[test]
fn texts_keep_their_bytes(rt: HostRuntime) -> Result<(), Fail> {
    for bytes in [b"a\xff\0b".as_slice(), b""] {
        let text = Text::of(rt.alloc(), bytes)?;
        same(&rt, bytes, &text.bytes(), &bytes);
    }
    same(&rt, "empty", &Text::empty(rt.alloc()).bytes().len(), &0);
    Ok(())
}

#[test]
fn counts_compare_by_value(rt: HostRuntime) {
    assert!(rt; Micro(-1) < Micro(1));
    same(&rt, "greatest", &Micro(999_999_999_999).0, &999_999_999_999);
    same(&rt, "before", &NumBuf::new().text().len(), &0);
}
