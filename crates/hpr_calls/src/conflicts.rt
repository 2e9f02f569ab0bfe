//! Calls of hpr_report on the conflicts of many variants.
use hpr_graph::{Edge, Kind, ManyConflict, Vertex};
use hpr_report::many_conflicts_text;
use hpr_rows::{Out, Row, put_made};
use hpr_text::read_content;

// The part of the tag at 2 with the content of a text.
fn part(row: Row<'_>, text: &str) -> Option<Vertex> {
    let (content, _) = read_content(row.alloc, row.named(text)?, 0).ok()?;
    Some(Vertex::Part(row.tag(2)?, content))
}

// The final value of the name at 1.
fn last(row: Row<'_>) -> Option<Vertex> {
    Some(Vertex::Final(row.name(1)?))
}

fn conflict(row: Row<'_>, variant: usize, text: &str) -> Option<ManyConflict> {
    Some(ManyConflict {
        variant,
        point: last(row)?,
        edge: Edge {
            kind: Kind::Independent(row.name(1)?),
            from: part(row, text)?,
            to: last(row)?,
        },
    })
}

/// `NAME TAG TEXT..`: a conflict of each variant at the final value of the name, which flows there from
/// the part of the tag whose content is the variant's text.
pub(crate) fn call(row: Row<'_>, out: &mut Out) -> Option<()> {
    let mut conflicts = Vec::new(row.alloc);
    for (at, text) in row.rest(3).iter().enumerate() {
        conflicts.push(conflict(row, at + 1, text.as_str())?).ok()?;
    }
    put_made(out, many_conflicts_text(row.alloc, &conflicts));
    Some(())
}
