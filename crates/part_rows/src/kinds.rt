//! The kinds of cases.

use crate::shown::add_shown;
use crate::{
    carried, cutting, documents, hulls, maps, motions, moved, numbers, planes, polyhedra,
    properties, solids, tokens, vertices, words,
};
use case_text::{Answers, Case, CaseFault, Texts, spelled_bytes};
use cmd_text::read_line;
use fixed_num::{read_micro, read_nano, read_pico, read_wide};
use key_table::{Word, command_keys, file_keys};
use std::alloc::Global;

// A row as it is spelled, and its bytes.
#[derive(Drop)]
struct Row<'a> {
    spelled: &'a str,
    bytes: &'a [u8],
}

// The number behind a field's name.
fn number(case: &Case<'_>, name: &str) -> Result<u32, CaseFault> {
    let number = case.field(name).ok_or(CaseFault::Number)?;
    number.parse().ok().ok_or(CaseFault::Number)
}

// Adds what a row asks of map texts, lines of scripts or words.
fn add_of_texts(
    alloc: Global,
    case: &Case<'_>,
    texts: &Texts,
    row: &Row<'_>,
    out: &mut String,
) -> Result<(), CaseFault> {
    match case.kind() {
        "tokens" => tokens::add_tokens(out, row.bytes),
        "formats" => documents::add_format(alloc, out, row.bytes),
        "maps" => maps::add_part(alloc, case, texts, out, row.bytes),
        "lines" => maps::add_changed(alloc, case, texts, out, row.spelled),
        "faces" => maps::add_judged(alloc, texts, out, row.spelled),
        "script-lines" => add_shown(out, &read_line(alloc, row.bytes)),
        "commands" => add_shown(out, &command_keys().find(row.bytes)),
        "file-keys" => add_shown(out, &file_keys().find(row.bytes)),
        "three" => words::add_three(alloc, out, row.spelled),
        "words" => add_shown(out, &Word::of(row.bytes).is_some()),
        _ => Err(CaseFault::NoKind),
    }
}

// Adds what a row asks of brushes, motions or faces.
fn add_of_shapes(
    alloc: Global,
    case: &Case<'_>,
    texts: &Texts,
    row: &Row<'_>,
    out: &mut String,
) -> Result<(), CaseFault> {
    match case.kind() {
        "splits" => cutting::add_split_row(alloc, out, row.spelled),
        "intersections" => cutting::add_common_row(alloc, out, row.spelled),
        "differences" => cutting::add_difference_row(alloc, out, row.spelled),
        "hollows" => cutting::add_hollow_row(alloc, out, row.spelled),
        "moved-vertices" => moved::add_move_row(alloc, out, row.spelled),
        "snaps" => moved::add_snap_row(alloc, out, row.spelled),
        "orientations" => motions::add_orient(out, row.spelled),
        "products" => motions::add_product(out, row.spelled),
        "applied" => motions::add_applied(out, row.spelled),
        "chains" => motions::add_chain(out, row.spelled),
        "moved-planes" => motions::add_moved_plane(out, row.spelled),
        "motion-texts" => motions::add_text(alloc, out, row.bytes),
        "carried" => carried::add_carried(alloc, out, row.spelled, false),
        "locked" => carried::add_carried(alloc, out, row.spelled, true),
        "coordinates" => carried::add_uv(alloc, out, row.spelled),
        "valve-faces" => carried::add_valve(alloc, out, row.spelled),
        _ => add_of_texts(alloc, case, texts, row, out),
    }
}

// Adds what a row asks, by the kind of its case.
fn add_answer(
    alloc: Global,
    case: &Case<'_>,
    texts: &Texts,
    row: &Row<'_>,
    out: &mut String,
) -> Result<(), CaseFault> {
    match case.kind() {
        "millionths" => add_shown(out, &read_micro(row.bytes)),
        "billionths" => add_shown(out, &read_nano(row.bytes)),
        "trillionths" => add_shown(out, &read_pico(row.bytes)),
        "whole" => numbers::add_whole(out, row.bytes, i64::from(number(case, "limit")?)),
        "wide" => add_shown(out, &read_wide(row.bytes)),
        "decimals" => numbers::add_decimal(out, row.spelled, number(case, "places")?),
        "quotients" => numbers::add_quotient(out, row.spelled),
        "divisors" => numbers::add_divisor(out, row.spelled),
        "planes" => planes::add_plane(out, row.spelled),
        "half-spaces" => planes::add_same(out, row.spelled),
        "vertices" => vertices::add_vertex(out, row.spelled),
        "hulls" => hulls::add_hull(alloc, out, row.spelled),
        _ => add_of_shapes(alloc, case, texts, row, out),
    }
}

// Adds a case, and behind each of its rows the answer.
fn add_table(
    alloc: Global,
    case: &Case<'_>,
    texts: &Texts,
    out: &mut String,
) -> Result<(), CaseFault> {
    for line in case.lines() {
        writeln!(out, "{line}")?;
        if let Some(spelled) = line.strip_prefix("> ") {
            let bytes = spelled_bytes(alloc, spelled)?;
            let row = Row {
                spelled,
                bytes: &bytes,
            };
            add_answer(alloc, case, texts, &row, out)?;
        }
    }
    Ok(())
}

/// What the libraries answer.
pub struct Parts;

impl Answers for Parts {
    fn answer(
        &self,
        alloc: Global,
        case: &Case<'_>,
        texts: &Texts,
        out: &mut String,
    ) -> Result<(), CaseFault> {
        match case.kind() {
            "polyhedron" => polyhedra::answer(alloc, case, out),
            "properties" => properties::answer(alloc, case, out),
            "solid" => solids::answer(alloc, case, out),
            "cuts" => maps::add_cuts(alloc, case, texts, out),
            _ => add_table(alloc, case, texts, out),
        }
    }
}
