//! Vertices, edges and conflicts that the lines of a text spell, in the form in which hpr prints them.
use hpr_graph::{Edge, Kind, ManyConflict, Vertex};
use hpr_rows::{Row, name_of, tag_of};
use hpr_text::read_content;
use std::alloc::Global;

// `1.1 x := 1`
fn part(alloc: Global, words: &str) -> Option<Vertex> {
    let (tag, content) = words.split_once(' ')?;
    let tag = tag_of(tag)?;
    let ended = format!(in alloc; "{content};").ok()?;
    let (content, _) = read_content(alloc, ended.as_bytes(), 0).ok()?;
    Some(Vertex::Part(tag, content))
}

// `init x`, `final x` or a part
fn beside_entry(alloc: Global, words: &str) -> Option<Vertex> {
    if let Some(name) = words.strip_prefix("init ") {
        return Some(Vertex::Init(name_of(alloc, name)?));
    }
    match words.strip_prefix("final ") {
        Some(name) => Some(Vertex::Final(name_of(alloc, name)?)),
        None => part(alloc, words),
    }
}

// A vertex without its brackets.
fn bare(alloc: Global, words: &str) -> Option<Vertex> {
    if words == "entry" {
        return Some(Vertex::Entry);
    }
    beside_entry(alloc, words)
}

fn vertex(alloc: Global, line: &str) -> Option<Vertex> {
    bare(alloc, line.strip_prefix("[")?.strip_suffix("]")?)
}

// `flow x`, or `carried x` with its loop
fn named_kind(alloc: Global, words: &str, third: &str) -> Option<Kind> {
    let (kind, name) = words.split_once(' ')?;
    let name = name_of(alloc, name)?;
    match kind {
        "flow" => Some(Kind::Independent(name)),
        "carried" => Some(Kind::Carried(name, bare(alloc, third)?)),
        _ => None,
    }
}

// The kind of an edge, by the words before its ends and the loop or the shared use behind them.
fn kind(alloc: Global, words: &str, third: &str) -> Option<Kind> {
    match words {
        "control true" => Some(Kind::Control(true)),
        "control false" => Some(Kind::Control(false)),
        "order" => Some(Kind::Order(bare(alloc, third)?)),
        _ => named_kind(alloc, words, third),
    }
}

// A target, and behind it the loop or the shared use, if there is one.
fn target(words: &str) -> (&str, &str) {
    if let Some(loop_behind) = words.split_once("] by [") {
        return loop_behind;
    }
    match words.split_once("] for [") {
        Some(use_behind) => use_behind,
        None => (words, ""),
    }
}

// An edge by the words before its ends, its source, and the rest without the last bracket.
fn edge_of(alloc: Global, words: &str, from: &str, rest: &str) -> Option<Edge> {
    let (to, third) = target(rest);
    let to = bare(alloc, to)?;
    let from = bare(alloc, from)?;
    let kind = kind(alloc, words, third)?;
    Some(Edge { to, from, kind })
}

// `flow x [FROM] -> [TO]`
fn edge(alloc: Global, line: &str) -> Option<Edge> {
    let (words, ends) = line.split_once(" [")?;
    let (from, rest) = ends.strip_suffix("]")?.split_once("] -> [")?;
    edge_of(alloc, words, from, rest)
}

// `V1 [POINT`
fn head(alloc: Global, words: &str) -> Option<(usize, Vertex)> {
    let (variant, point) = words.split_once(" [")?;
    let variant = variant.strip_prefix("V")?.parse().ok()?;
    Some((variant, bare(alloc, point)?))
}

// `V1 [POINT]: EDGE`
fn conflict(alloc: Global, line: &str) -> Option<ManyConflict> {
    let (words, shown) = line.split_once("]: ")?;
    let (variant, point) = head(alloc, words)?;
    let edge = edge(alloc, shown)?;
    Some(ManyConflict {
        variant,
        point,
        edge,
    })
}

/// The vertices that the text spells whose name stands at this place.
pub(crate) fn vertices(row: Row<'_>, at: usize) -> Option<Vec<Vertex>> {
    let mut vertices = Vec::new(row.alloc);
    for line in row.text(at)?.lines() {
        vertices.push(vertex(row.alloc, line)?).ok()?;
    }
    Some(vertices)
}

/// The edges that the text spells whose name stands at this place.
pub(crate) fn edges(row: Row<'_>, at: usize) -> Option<Vec<Edge>> {
    let mut edges = Vec::new(row.alloc);
    for line in row.text(at)?.lines() {
        edges.push(edge(row.alloc, line)?).ok()?;
    }
    Some(edges)
}

/// The conflicts that the text spells whose name stands at this place.
pub(crate) fn conflicts(row: Row<'_>, at: usize) -> Option<Vec<ManyConflict>> {
    let mut conflicts = Vec::new(row.alloc);
    for line in row.text(at)?.lines() {
        conflicts.push(conflict(row.alloc, line)?).ok()?;
    }
    Some(conflicts)
}
