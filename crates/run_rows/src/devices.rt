//! The devices of a run, in memory.

use case_text::{Case, CaseFault, Texts, spelled_text, with_line};
use outside_io::{MemSink, MemSource, MemVault};
use std::alloc::Global;

/// What a run reads and writes.
#[derive(Drop)]
pub struct Devices {
    pub vault: MemVault,
    pub script: MemSource,
    pub replies: MemSink,
}

/// The words of a run.
pub fn words(alloc: Global, case: &Case<'_>) -> Result<Vec<String>, CaseFault> {
    let mut words = Vec::new(alloc);
    if let Some(spelled) = case.behind_kind() {
        for word in spelled.split(' ') {
            words.push(spelled_text(alloc, word)?)?;
        }
    }
    Ok(words)
}

/// How the devices of a case are set.
#[derive(Clone, Copy, Debug)]
pub struct Way {
    /// How many bytes a call of the script gives at most.
    pub piece: u32,
    /// How many bytes of each text the vault holds, where it doesn't hold them whole.
    pub cut: Option<u32>,
}

// A named text, with other lines where the case says so.
fn changed(alloc: Global, case: &Case<'_>, text: &[u8]) -> Result<Vec<u8>, CaseFault> {
    let mut text = Vec::from_slice(alloc, text)?;
    for line in case.lines() {
        if let Some(change) = line.strip_prefix("line ") {
            text = with_line(alloc, &text, change)?;
        }
    }
    Ok(text)
}

// As much of a text as the vault holds.
fn cut(mut text: Vec<u8>, way: Way) -> Vec<u8> {
    if let Some(most) = way.cut {
        text.truncate(most as usize);
    }
    text
}

// The texts that the words name.
fn held(
    alloc: Global,
    case: &Case<'_>,
    words: &[String],
    texts: &Texts,
    way: Way,
) -> Result<Vec<(String, Vec<u8>)>, CaseFault> {
    let mut held = Vec::new(alloc);
    for word in words {
        if let Some(text) = texts.named(word.as_str()) {
            held.push((word.clone()?, cut(changed(alloc, case, text)?, way)))?;
        }
    }
    Ok(held)
}

fn vault(
    alloc: Global,
    case: &Case<'_>,
    words: &[String],
    texts: &Texts,
    way: Way,
) -> Result<MemVault, CaseFault> {
    let held = held(alloc, case, words, texts, way)?;
    Ok(MemVault::new(alloc, held, case.numbers(alloc, "vault fails")?))
}

fn script(alloc: Global, case: &Case<'_>, piece: u32) -> Result<MemSource, CaseFault> {
    if piece == 0 {
        return Err(CaseFault::Number);
    }
    let text = case.marked(alloc, '>')?;
    Ok(MemSource::new(text, piece as usize, case.numbers(alloc, "script fails")?))
}

impl Devices {
    /// The vault of a case holds the texts that the words name, and its script comes in pieces. A piece of no bytes is a fault of the case.
    pub fn of(
        alloc: Global,
        case: &Case<'_>,
        words: &[String],
        texts: &Texts,
        way: Way,
    ) -> Result<Devices, CaseFault> {
        Ok(Devices {
            vault: vault(alloc, case, words, texts, way)?,
            script: script(alloc, case, way.piece)?,
            replies: MemSink::new(alloc, case.numbers(alloc, "replies fail")?),
        })
    }
}
