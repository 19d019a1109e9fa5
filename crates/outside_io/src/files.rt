//! A thin adapter over files. What a file holds isn't told.

ghost use Rattle.std.specs.Prelude.{◌≡◌, ◌≤◌, None, true, IfOk, vec_len};

use crate::calls::raised;
use crate::faults::{Failed, FetchEnd};
use crate::vault::Vault;
use crate::whole_streams::{read_whole, write_whole};
use std::fs::{File, OpenFile};
use std::io;
use std::io::ErrorKind;
use std::rt::Files;

/// A vault over the files that the runtime reaches, each under its path. Each error of a file is a
/// fault, but for want of memory, of which a fetch has its own answer.
#[derive(Drop)]
pub struct FileVault<R: Files> {
    rt: R,
    fetch_faults: u64,
    keep_faults: u64,
}

impl<R: Files> FileVault<R> {
    /// A vault over the files of this runtime, which has had no fault yet.
    pub fn new(rt: R) -> FileVault<R>
        ensures fetch_faults { result.fetch_faults ≡ 0 }
        ensures keep_faults { result.keep_faults ≡ 0 }
    {
        FileVault {
            rt,
            fetch_faults: 0,
            keep_faults: 0,
        }
    }
}

impl<R: Files> Vault for FileVault<R> {
    ghost fetch_faults = { λ v. v.fetch_faults };

    ghost keep_faults = { λ v. v.keep_faults };

    ghost texts = { λ _. None };

    ghost kept = { λ _. None };

    fn fetch(&mut self, name: &str, limit: usize, out: &mut Vec<u8>) -> Result<(), FetchEnd> {
        match read_file(&self.rt, name, limit, out) {
            Ok(true) => Ok(()),
            Ok(false) => Err(FetchEnd::TooLong),
            Err(e) if e.kind() == ErrorKind::OutOfMemory => Err(FetchEnd::Memory),
            Err(_) => {
                self.fetch_faults = raised(self.fetch_faults);
                Err(FetchEnd::Failed)
            }
        }
    }

    fn keep(&mut self, name: &str, bytes: &[u8]) -> Result<(), Failed> {
        match write_file(&self.rt, name, bytes) {
            Ok(()) => Ok(()),
            Err(_) => {
                self.keep_faults = raised(self.keep_faults);
                Err(Failed)
            }
        }
    }
}

/// Replaces `out` by the file's bytes, and tells whether they are at most `limit`. Of a longer file
/// one byte more is read.
fn read_file<R: Files>(rt: &R, path: &str, limit: usize, out: &mut Vec<u8>) -> io::Result<bool>
    ensures { IfOk result (λ fits. fits ≡ true → vec_len out.new ≤ limit) }
{
    let file = File::open(rt, path)?;
    // Room for the whole file at once, and for the read that finds its end. The size is a hint
    // alone: not every file knows it.
    let size = file.metadata().map_or(0, |metadata| metadata.len());
    let most = (limit as u64).saturating_add(1);
    out.clear();
    out.reserve_exact(size.min(most).saturating_add(1) as usize)?;
    read_whole(file, limit, out)
}

fn write_file<R: Files>(rt: &R, path: &str, bytes: &[u8]) -> io::Result<()> {
    let mut file = File::create(rt, path)?;
    write_whole(&mut file, bytes)
}
