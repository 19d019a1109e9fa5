//! Transcripts.

use crate::case::Case;
use crate::fault::CaseFault;
use crate::texts::Texts;
use std::alloc::Global;

/// What answers the cases of a program.
pub trait Answers {
    /// Adds a case and its answers.
    fn answer(
        &self,
        alloc: Global,
        case: &Case<'_>,
        texts: &Texts,
        out: &mut String,
    ) -> Result<(), CaseFault>;
}

// Adds a case and its answers. Comments and texts have none.
fn add_answered<A: Answers>(
    alloc: Global,
    text: &str,
    answers: &A,
    texts: &mut Texts,
    out: &mut String,
) -> Result<usize, CaseFault> {
    let case = Case::of(text)?;
    match case.kind() {
        "#" => case.add_to(out)?,
        "text" => {
            texts.add(alloc, &case)?;
            case.add_to(out)?;
        }
        _ => answers.answer(alloc, &case, texts, out)?,
    }
    Ok(case.row_count())
}

/// Adds the cases of a text and their answers, and their number. Where a case isn't answered, what was added ends with it.
pub fn add_transcript<A: Answers>(
    alloc: Global,
    cases: &str,
    answers: &A,
    out: &mut String,
) -> Result<(), CaseFault> {
    let mut texts = Texts::new(alloc);
    let mut count = 0usize;
    let mut rows = 0usize;
    for text in cases.trim_end_matches('\n').split("\n\n") {
        if count > 0 {
            out.push('\n')?;
        }
        rows = rows.wrapping_add(add_answered(alloc, text, answers, &mut texts, out)?);
        count = count.saturating_add(1);
    }
    writeln!(out, "= {count} cases, {rows} rows")?;
    Ok(())
}
