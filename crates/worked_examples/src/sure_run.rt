//! A run over devices that never fail.

use super::table::same;
use edit_session::{Status, run};
use outside_io::{SureSink, SureSource, SureVault};
use std::test::Fail;

const EMPTY: &[u8] = b"{\n\"classname\" \"worldspawn\"\n\"mapversion\" \"220\"\n}\n";

#[test]
fn the_sure_devices_never_fail(rt: HostRuntime) -> Result<(), Fail> {
    let alloc = rt.alloc();
    let words = vec![in alloc;
        String::from_str(alloc, "edit")?,
        String::from_str(alloc, "m0.map")?,
        String::from_str(alloc, "out.map")?,
    ]?;
    let map = Vec::from_slice(alloc, EMPTY)?;
    let texts = vec![in alloc; (String::from_str(alloc, "m0.map")?, map)]?;
    let mut vault = SureVault::new(texts);
    let mut script = SureSource::new(Vec::from_slice(alloc, b"move 16 0 0 1\nfrob\n")?);
    let mut replies = SureSink::new();
    let status = run(alloc, &words, &mut vault, &mut script, &mut replies);
    same(&rt, "sure", &status, &Status::Ended);
    Ok(())
}
