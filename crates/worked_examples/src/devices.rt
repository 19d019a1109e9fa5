//! The outside: forms over memory, forms that never fail, and adapters over streams and files.

ghost use Rattle.std.specs.Prelude.{◌<◌, length};

use super::table::same;
use outside_io::{
    Failed, FetchEnd, FileVault, MemSink, MemSource, MemVault, Sink, Source, StdSink, StdSource,
    SureSink, SureSource, SureVault, Vault, give_all,
};
use std::alloc::{AllocError, Global};
use std::fs::File;
use std::io::{ErrorKind, Read, Write};
use std::process::Abort;
use std::test::Fail;
use std::{fs, io};

fn texts_from(
    alloc: Global,
    pairs: &[(&str, &[u8])],
) -> Result<Vec<(String, Vec<u8>)>, AllocError> {
    let mut texts = Vec::new(alloc);
    for (name, bytes) in pairs {
        texts.push((
            String::from_str(alloc, name)?,
            Vec::from_slice(alloc, bytes)?,
        ))?;
    }
    Ok(texts)
}

/// What a source gives at each call, where `None` is a fault.
fn gives<S: Source>(rt: &impl Abort, source: &mut S, buf: &mut [u8], wants: &[Option<&[u8]>])
    requires { 0 < length buf.old }
{
    for (i, want) in wants.iter().enumerate() {
        match source.take(buf) {
            Ok(n) => same(rt, i, &Some(&buf[..n]), want),
            Err(Failed) => same(rt, i, &None, want),
        }
    }
}

/// What a vault answers to fetches by name and limit.
fn fetches<V: Vault>(
    rt: &impl Abort,
    vault: &mut V,
    out: &mut Vec<u8>,
    wants: &[(&str, usize, Result<&[u8], FetchEnd>)],
) {
    for (name, limit, want) in wants {
        match vault.fetch(name, *limit, out) {
            Ok(()) => same(rt, (*name, *limit), &Ok(out.as_slice()), want),
            Err(end) => same(rt, (*name, *limit), &Err(end), want),
        }
    }
}

/// What a vault answers where it is to keep bytes.
fn keeps<V: Vault>(
    rt: &impl Abort,
    vault: &mut V,
    name: &str,
    bytes: &[u8],
    want: Result<(), Failed>,
) {
    same(rt, name, &vault.keep(name, bytes), &want);
}

/// What comes of giving a whole piece.
fn gives_all<S: Sink>(rt: &impl Abort, sink: &mut S, piece: &[u8], want: Result<(), Failed>) {
    same(rt, piece, &give_all(sink, piece), &want);
}

#[test]
fn a_source_over_memory_gives_pieces_and_fails_at_the_numbered_calls(
    rt: HostRuntime,
) -> Result<(), Fail> {
    let alloc = rt.alloc();
    let bytes = Vec::from_slice(alloc, b"abcdefghi")?;
    let mut source = MemSource::new(bytes, 3, vec![in alloc; 2, 4]?);
    let mut buf = [0; 8];
    gives(
        &rt,
        &mut source,
        &mut buf,
        &[Some(b"abc"), None, Some(b"def"), None],
    );
    gives(
        &rt,
        &mut source,
        &mut buf[..2],
        &[Some(b"gh"), Some(b"i"), Some(b""), Some(b"")],
    );
    Ok(())
}

#[test]
fn a_sink_over_memory_takes_whole_pieces_and_fails_at_the_numbered_calls(
    rt: HostRuntime,
) -> Result<(), Fail> {
    let alloc = rt.alloc();
    let mut sink = MemSink::new(alloc, vec![in alloc; 2, 3]?);
    let calls: [(&[u8], Result<usize, Failed>); 5] = [
        (b"ab", Ok(2)),
        (b"cd", Err(Failed)),
        (b"cd", Err(Failed)),
        (b"efg", Ok(3)),
        (b"h", Ok(1)),
    ];
    for (piece, want) in calls {
        same(&rt, piece, &sink.give(piece), &want);
    }
    same(&rt, "given", &sink.given(), &b"abefgh".as_slice());
    Ok(())
}

#[test]
fn a_vault_over_memory_goes_by_the_last_of_equal_names(rt: HostRuntime) -> Result<(), Fail> {
    let alloc = rt.alloc();
    let texts = texts_from(alloc, &[("a", b"one"), ("b", b"two"), ("a", b"three")])?;
    let mut vault = MemVault::new(alloc, texts, vec![in alloc; 2, 6]?);
    let mut out = Vec::from_slice(alloc, b"old")?;
    fetches(
        &rt,
        &mut vault,
        &mut out,
        &[
            ("a", 10, Ok(b"three")),
            ("a", 10, Err(FetchEnd::Failed)),
            ("b", 3, Ok(b"two")),
            ("b", 2, Err(FetchEnd::TooLong)),
            ("c", 10, Err(FetchEnd::Failed)),
        ],
    );
    keeps(&rt, &mut vault, "c", b"four", Err(Failed));
    keeps(&rt, &mut vault, "b", b"fives", Ok(()));
    keeps(&rt, &mut vault, "d", b"", Ok(()));
    fetches(
        &rt,
        &mut vault,
        &mut out,
        &[
            ("b", 5, Ok(b"fives")),
            ("d", 0, Ok(b"")),
            ("c", 10, Err(FetchEnd::Failed)),
            ("a", 5, Ok(b"three")),
        ],
    );
    same(&rt, "kept", &vault.kept().len(), &2);
    let kept = [("b", b"fives".as_slice()), ("d", b"")];
    for (pair, want) in vault.kept().iter().zip(kept) {
        same(&rt, want.0, &(pair.0.as_str(), pair.1.as_slice()), &want);
    }
    Ok(())
}

#[test]
fn the_sure_forms_never_fail(rt: HostRuntime) -> Result<(), Fail> {
    let alloc = rt.alloc();
    let mut source = SureSource::new(Vec::from_slice(alloc, b"abcde")?);
    let mut buf = [0; 3];
    gives(
        &rt,
        &mut source,
        &mut buf,
        &[Some(b"abc"), Some(b"de"), Some(b"")],
    );
    let mut sink = SureSink::new();
    same(&rt, "give", &sink.give(b"abc"), &Ok(3));
    gives_all(&rt, &mut sink, b"abc", Ok(()));
    let mut vault = SureVault::new(texts_from(alloc, &[("a", b"one"), ("a", b"two")])?);
    let mut out = Vec::new(alloc);
    fetches(
        &rt,
        &mut vault,
        &mut out,
        &[
            ("a", 3, Ok(b"two")),
            ("a", 2, Err(FetchEnd::TooLong)),
            ("b", 3, Err(FetchEnd::Failed)),
        ],
    );
    keeps(&rt, &mut vault, "b", b"three", Ok(()));
    fetches(
        &rt,
        &mut vault,
        &mut out,
        &[
            ("b", 3, Ok(b"")),
            ("a", 3, Ok(b"two")),
            ("a", 2, Err(FetchEnd::TooLong)),
        ],
    );
    Ok(())
}

/// A stream that takes and gives two bytes a call, fails at its third call, and takes none at its
/// fourth.
#[derive(Drop)]
struct Slow {
    calls: u8,
    bytes: Vec<u8>,
}

impl Slow {
    fn next(&mut self) -> io::Result<usize> {
        self.calls = self.calls.saturating_add(1);
        match self.calls {
            3 => Err(io::Error::from(ErrorKind::TimedOut)),
            4 => Ok(0),
            _ => Ok(2),
        }
    }
}

impl Read for Slow {
    fn read(&mut self, buf: &mut [u8]) -> io::Result<usize> {
        let n = self.next()?.min(buf.len());
        buf[..n].fill(b'x');
        Ok(n)
    }
}

impl Write for Slow {
    fn write(&mut self, buf: &[u8]) -> io::Result<usize> {
        let n = self.next()?.min(buf.len());
        self.bytes.extend_from_slice(&buf[..n])?;
        Ok(n)
    }

    fn flush(&mut self) -> io::Result<()> {
        Ok(())
    }
}

#[test]
fn a_stream_is_adapted_with_its_short_calls_and_its_errors(rt: HostRuntime) -> Result<(), Fail> {
    let alloc = rt.alloc();
    let mut slow = Slow {
        calls: 0,
        bytes: Vec::new(alloc),
    };
    let mut buf = [0; 4];
    let wants: [Option<&[u8]>; 5] = [Some(b"xx"), Some(b"xx"), None, Some(b""), Some(b"xx")];
    gives(&rt, &mut StdSource::new(&mut slow), &mut buf, &wants);
    let mut slow = Slow {
        calls: 0,
        bytes: Vec::new(alloc),
    };
    let mut sink = StdSink::new(&mut slow);
    for want in [Ok(2), Ok(1), Err(Failed), Err(Failed), Ok(2)] {
        let piece: &[u8] = if want == Ok(1) { b"c" } else { b"ab" };
        same(&rt, piece, &sink.give(piece), &want);
    }
    same(&rt, "given", &slow.bytes.as_slice(), &b"abcab".as_slice());
    Ok(())
}

#[test]
fn a_whole_piece_is_given_in_parts_up_to_a_fault(rt: HostRuntime) -> Result<(), Fail> {
    let alloc = rt.alloc();
    for (calls, piece, want, given) in [
        (4, b"abcde".as_slice(), Ok(()), b"abcde".as_slice()),
        (0, b"abc", Ok(()), b"abc"),
        (0, b"abcde", Err(Failed), b"abcd"),
        (3, b"abcde", Err(Failed), b""),
        (2, b"", Ok(()), b""),
    ] {
        let mut slow = Slow {
            calls,
            bytes: Vec::new(alloc),
        };
        gives_all(&rt, &mut StdSink::new(&mut slow), piece, want);
        same(&rt, piece, &slow.bytes.as_slice(), &given);
    }
    Ok(())
}

const FOLDER: &str = "outside_io_test";

#[test]
fn files_are_kept_and_fetched_and_streamed(rt: HostRuntime) -> Result<(), Fail> {
    let alloc = rt.alloc();
    let _ = fs::remove_dir_all(&rt, FOLDER);
    fs::create_dir(&rt, FOLDER)?;
    let mut vault = FileVault::new(&rt);
    let mut out = Vec::from_slice(alloc, b"old")?;
    keeps(
        &rt,
        &mut vault,
        "outside_io_test/a.map",
        b"first and longer",
        Ok(()),
    );
    keeps(&rt, &mut vault, "outside_io_test/a.map", b"second", Ok(()));
    keeps(
        &rt,
        &mut vault,
        "outside_io_test/none/a.map",
        b"x",
        Err(Failed),
    );
    keeps(&rt, &mut vault, "outside_io_test/empty", b"", Ok(()));
    fetches(
        &rt,
        &mut vault,
        &mut out,
        &[
            ("outside_io_test/a.map", 6, Ok(b"second")),
            ("outside_io_test/a.map", 5, Err(FetchEnd::TooLong)),
            ("outside_io_test/a.map", usize::MAX, Ok(b"second")),
            ("outside_io_test/empty", 0, Ok(b"")),
            ("outside_io_test/none", 9, Err(FetchEnd::Failed)),
            ("outside_io_test", 9, Err(FetchEnd::Failed)),
            ("", 9, Err(FetchEnd::Failed)),
        ],
    );
    let mut sink = StdSink::new(File::create(&rt, "outside_io_test/b")?);
    gives_all(&rt, &mut sink, b"abcde", Ok(()));
    let mut source = StdSource::new(File::open(&rt, "outside_io_test/b")?);
    let mut buf = [0; 3];
    gives(
        &rt,
        &mut source,
        &mut buf,
        &[Some(b"abc"), Some(b"de"), Some(b"")],
    );
    let mut source = StdSource::new(File::create(&rt, "outside_io_test/c")?);
    gives(&rt, &mut source, &mut buf, &[None, None]);
    fs::remove_dir_all(&rt, FOLDER)?;
    Ok(())
}
