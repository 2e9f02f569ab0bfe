//! The conflicts of an integration.
ghost use Rattle.std.specs.Prelude.{◌≡◌, ◌++◌, map, IfOk, OnOk, codes, string_bytes};
ghost use Rattle.hpr_report.specs.GraphTexts.{on_lines};
ghost use Rattle.hpr_report.specs.ConflictsText.{conflict_text, conflicts_text, many_conflict_text, many_conflicts_text, shown_text, side_word, variant_word};

use crate::graphs::{count_line, put_behind, put_edge, put_line};
use hpr_graph::{Conflict, Edge, ManyConflict, NoMemory, Side, Vertex};
use std::alloc::Global;

/// The conflicts of an integration: the line `interference N`, with their number, and a line
/// `SIDE POINT: EDGE` for each, as they are listed. SIDE is `A` or `B`, POINT is the affected point as a
/// vertex in brackets, and EDGE is the edge that shows the conflict. Each line ends with a newline. It
/// fails only for want of memory.
pub fn conflicts_text(alloc: Global, conflicts: &[Conflict]) -> Result<Vec<u8>, NoMemory>
    ensures { IfOk result (λ text. text.items ≡ conflicts_text conflicts.now) }
{
    let mut out = count_line(alloc, "interference ", conflicts.len() as u64)?;
    put_conflicts(alloc, &mut out, conflicts)?;
    Ok(out)
}

/// Puts a line for each conflict.
fn put_conflicts(alloc: Global, out: &mut Vec<u8>, conflicts: &[Conflict]) -> Result<(), NoMemory>
    ensures { OnOk result (out.new.items ≡ out.old.items ++ on_lines (map conflict_text conflicts.now)) }
{
    for conflict in conflicts {
        put_conflict(alloc, out, conflict)?;
    }
    Ok(())
}

/// Puts the line of a conflict.
fn put_conflict(alloc: Global, out: &mut Vec<u8>, conflict: &Conflict) -> Result<(), NoMemory>
    ensures { OnOk result (out.new.items ≡ out.old.items ++ (conflict_text conflict.now ++ codes "\n")) }
{
    let text = conflict_text(alloc, conflict)?;
    put_line(out, text.as_str())
}

fn conflict_text(alloc: Global, conflict: &Conflict) -> Result<String, NoMemory>
    ensures { IfOk result (λ text. string_bytes text ≡ conflict_text conflict.now) }
{
    let mut text = String::from_str(alloc, side_word(conflict.side))?;
    put_shown(alloc, &mut text, &conflict.point, &conflict.edge)?;
    Ok(text)
}

/// Puts the point and the edge of a conflict behind the word for its variant.
fn put_shown(alloc: Global, text: &mut String, point: &Vertex, edge: &Edge) -> Result<(), NoMemory>
    ensures { OnOk result (string_bytes text.new ≡ shown_text (string_bytes text.old) point.now edge.now) }
{
    put_behind(alloc, text, " ", point)?;
    text.push_str(": ")?;
    put_edge(alloc, text, edge)
}

fn side_word(side: Side) -> &'static str
    ensures { result.now ≡ side_word side }
{
    match side {
        Side::A => "A",
        Side::B => "B",
    }
}

/// The conflicts of an integration of any number of variants: the line `interference N`, with their
/// number, and a line `VARIANT POINT: EDGE` for each, as they are listed. VARIANT is `V1` for the first
/// variant, `V2` for the next and so on; POINT and EDGE are those of `conflicts_text`. Each line ends
/// with a newline. It fails only for want of memory.
pub fn many_conflicts_text(alloc: Global, conflicts: &[ManyConflict]) -> Result<Vec<u8>, NoMemory>
    ensures { IfOk result (λ text. text.items ≡ many_conflicts_text conflicts.now) }
{
    let mut out = count_line(alloc, "interference ", conflicts.len() as u64)?;
    put_many_conflicts(alloc, &mut out, conflicts)?;
    Ok(out)
}

/// Puts a line for each conflict.
fn put_many_conflicts(
    alloc: Global,
    out: &mut Vec<u8>,
    conflicts: &[ManyConflict],
) -> Result<(), NoMemory>
    ensures { OnOk result (out.new.items ≡ out.old.items ++ on_lines (map many_conflict_text conflicts.now)) }
{
    for conflict in conflicts {
        put_many_conflict(alloc, out, conflict)?;
    }
    Ok(())
}

/// Puts the line of a conflict.
fn put_many_conflict(
    alloc: Global,
    out: &mut Vec<u8>,
    conflict: &ManyConflict,
) -> Result<(), NoMemory>
    ensures { OnOk result (out.new.items ≡ out.old.items ++ (many_conflict_text conflict.now ++ codes "\n")) }
{
    let text = many_conflict_text(alloc, conflict)?;
    put_line(out, text.as_str())
}

fn many_conflict_text(alloc: Global, conflict: &ManyConflict) -> Result<String, NoMemory>
    ensures { IfOk result (λ text. string_bytes text ≡ many_conflict_text conflict.now) }
{
    let mut text = variant_word(alloc, conflict.variant)?;
    put_shown(alloc, &mut text, &conflict.point, &conflict.edge)?;
    Ok(text)
}

fn variant_word(alloc: Global, number: usize) -> Result<String, NoMemory>
    ensures { IfOk result (λ text. string_bytes text ≡ variant_word number) }
{
    Ok(format!(in alloc; "V{number}")?)
}
