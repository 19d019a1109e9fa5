//! Map texts by the part that a row spells, by another line in a text, by so many faces, and cut after each byte.

use crate::documents::{Around, add_read, refusal};
use case_text::{Case, CaseFault, Texts, with_line};
use map_text::ReadFault;
use std::alloc::{AllocError, Global};

/// Adds what comes of the text with a part between what stands around it.
pub fn add_part(
    alloc: Global,
    case: &Case<'_>,
    texts: &Texts,
    out: &mut String,
    part: &[u8],
) -> Result<(), CaseFault> {
    let around = Around::of(alloc, case)?;
    let mut text = Vec::from_slice(alloc, &around.before)?;
    text.extend_from_slice(part)?;
    text.extend_from_slice(&around.behind)?;
    add_read(alloc, out, &around, texts, &text)
}

// The text that the head of a case names.
fn named<'a>(case: &Case<'_>, texts: &'a Texts) -> Result<&'a [u8], CaseFault> {
    let name = case.behind_kind().unwrap_or("");
    texts.named(name).ok_or(CaseFault::NoText)
}

fn nothing_around(alloc: Global) -> Around {
    Around {
        before: Vec::new(alloc),
        behind: Vec::new(alloc),
    }
}

/// Adds what comes of the text that the head names with the line in it that a row spells.
pub fn add_changed(
    alloc: Global,
    case: &Case<'_>,
    texts: &Texts,
    out: &mut String,
    spelled: &str,
) -> Result<(), CaseFault> {
    let text = with_line(alloc, named(case, texts)?, spelled)?;
    add_read(alloc, out, &nothing_around(alloc), texts, &text)
}

// A face that makes its brush bad for a reason, or a good one.
fn face(kind: &str) -> &'static str {
    match kind {
        "Point" => "( 0.5 0 0 ) ( 0 1 0 ) ( 1 0 0 ) a 0 0 0 1 1\n",
        "Range" => "( 4353 0 0 ) ( 0 1 0 ) ( 1 0 0 ) a 0 0 0 1 1\n",
        "Texture" => "( 0 0 0 ) ( 0 1 0 ) ( 1 0 0 ) a 1e6 0 0 1 1\n",
        "Flat" => "( 0 0 0 ) ( 0 1 0 ) ( 0 2 0 ) a 0 0 0 1 1\n",
        _ => "( 0 0 0 ) ( 0 1 0 ) ( 1 0 0 ) a 0 0 0 1 1\n",
    }
}

// Adds a face of a kind, or so many good ones.
fn add_faces(text: &mut Vec<u8>, word: &str) -> Result<(), AllocError> {
    for _ in 0..word.parse::<u32>().unwrap_or(1) {
        text.extend_from_slice(face(word).as_bytes())?;
    }
    Ok(())
}

/// Adds the reason of a brush with the faces that a row names, by their kinds or as a number of good ones.
pub fn add_judged(
    alloc: Global,
    texts: &Texts,
    out: &mut String,
    spelled: &str,
) -> Result<(), CaseFault> {
    let mut text = Vec::from_slice(alloc, b"{ {\n")?;
    for word in spelled.split_whitespace() {
        add_faces(&mut text, word)?;
    }
    text.extend_from_slice(b"} { ( .5 0 0 ) ( 0 1 0 ) ( 1 0 0 ) a 0 0 0 1 1 } }\n")?;
    add_read(alloc, out, &nothing_around(alloc), texts, &text)
}

// Adds why a text is refused where it is cut behind the lengths from one up to another.
fn add_stretch(
    out: &mut String,
    first: usize,
    last: usize,
    fault: Option<ReadFault>,
) -> Result<(), AllocError> {
    writeln!(out, "= {first} to {last}: {fault:?}")
}

/// Adds what comes of the text that the head names, cut behind each number of its bytes.
pub fn add_cuts(
    alloc: Global,
    case: &Case<'_>,
    texts: &Texts,
    out: &mut String,
) -> Result<(), CaseFault> {
    case.add_to(out)?;
    let text = named(case, texts)?;
    let mut first = 0;
    let mut fault = refusal(alloc, b"")?;
    for length in 1..=text.len() {
        let next = refusal(alloc, &text[..length])?;
        if next != fault {
            add_stretch(out, first, length - 1, fault)?;
            first = length;
            fault = next;
        }
    }
    add_stretch(out, first, text.len(), fault)?;
    Ok(())
}
