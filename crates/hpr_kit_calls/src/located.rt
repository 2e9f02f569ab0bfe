//! Calls of hpr_located on texts, vertices, edges and conflicts.
use crate::put::{put_value, put_values};
use crate::sources::{places, source_with, sources};
use crate::spelled::{conflicts, edges, vertices};
use hpr_graph::{NoMemory, Vertex};
use hpr_located::{
    Located, Source, conflict_at, edge_at, locate, vertex_at, vertices_at, with_member,
};
use hpr_rows::{Out, Row, put, put_counted, put_tag};
use hpr_text::TextError;
use serde_json::Value;
use std::alloc::Global;

/// Answers the call.
pub(crate) fn call(row: Row<'_>, out: &mut Out) -> Option<()> {
    match row.word(1)? {
        "parts" => parts(row, out),
        "source" => found(row, out),
        "member" => with_members(row, out),
        "no-object" => no_object(row, out),
        _ => in_files(row, out),
    }
}

fn put_line(out: &mut Out, title: &str, number: usize) {
    put_counted(out, title, number);
    out.put_piece("\n");
}

// Puts a part: its tag, its first byte, how many bytes it has, its line and its column.
fn put_located(out: &mut Out, located: Located) {
    put_tag(out, located.tag);
    put_counted(out, " at ", located.place.first);
    put_counted(out, ", bytes ", located.place.length);
    put_counted(out, ", line ", located.line);
    put_line(out, ", column ", located.column);
}

fn put_parts(out: &mut Out, parts: &[Located]) {
    put_line(out, "parts ", parts.len());
    for located in parts {
        put_located(out, *located);
    }
}

// `parts TEXT`: each part and where it stands, or where the text is refused.
fn parts(row: Row<'_>, out: &mut Out) -> Option<()> {
    match locate(row.alloc, row.bytes(2)?) {
        Ok(parts) => put_parts(out, &parts),
        Err(TextError::Syntax { place }) => put_line(out, "syntax ", place),
        Err(TextError::Shape(_error)) => out.put_piece("shape\n"),
        Err(TextError::Memory) => out.cut(),
    }
    Some(())
}

fn put_place(out: &mut Out, place: Option<Located>) {
    match place {
        Some(located) => put_located(out, located),
        None => out.put_piece("nowhere\n"),
    }
}

fn put_places(out: &mut Out, source: &Source, vertices: &[Vertex]) {
    put(out, &["file ", source.file(), "\n"]);
    for vertex in vertices {
        put_place(out, source.place(vertex));
    }
}

// `source TEXT PLACES VERTICES`: the name of the file with the first text's program and the places of the second
// one's parts, and where the vertices stand in it.
fn found(row: Row<'_>, out: &mut Out) -> Option<()> {
    let source = source_with(row, 2, &places(row, 3)?)?;
    put_places(out, &source, &vertices(row, 4)?);
    Some(())
}

// `vertex VERTICES FILE..` and `vertices VERTICES FILE..`: each vertex with its place, by a call each or by one;
// `edge EDGES FILE..`: each edge; `conflict CONFLICTS FILE..`: each conflict.
fn in_files(row: Row<'_>, out: &mut Out) -> Option<()> {
    let sources = sources(row, 3)?;
    match row.word(1)? {
        "vertex" => put_each(row, out, &sources),
        "vertices" => put_all(row, out, &sources),
        "edge" => put_edges(row, out, &sources),
        "conflict" => put_conflicts(row, out, &sources),
        _ => None,
    }
}

fn put_each(row: Row<'_>, out: &mut Out, sources: &[Source]) -> Option<()> {
    for vertex in vertices(row, 2)?.iter() {
        put_value(row.alloc, out, vertex_at(row.alloc, vertex, sources));
    }
    Some(())
}

fn put_all(row: Row<'_>, out: &mut Out, sources: &[Source]) -> Option<()> {
    let vertices = vertices(row, 2)?;
    put_values(row.alloc, out, vertices_at(row.alloc, &vertices, sources));
    Some(())
}

fn put_edges(row: Row<'_>, out: &mut Out, sources: &[Source]) -> Option<()> {
    for edge in edges(row, 2)?.iter() {
        put_value(row.alloc, out, edge_at(row.alloc, edge, sources));
    }
    Some(())
}

fn put_conflicts(row: Row<'_>, out: &mut Out, sources: &[Source]) -> Option<()> {
    for conflict in conflicts(row, 2)?.iter() {
        put_value(row.alloc, out, conflict_at(row.alloc, conflict, sources));
    }
    Some(())
}

fn text_value(alloc: Global, text: &str) -> Result<Value, NoMemory> {
    Ok(Value::from(String::from_str(alloc, text)?))
}

// The value with a member that is a text.
fn with_text(alloc: Global, value: Value, key: &str, text: &str) -> Result<Value, NoMemory> {
    let text = text_value(alloc, text)?;
    Ok(with_member(alloc, value, key, text)?)
}

fn vertex_with(alloc: Global, vertex: &Vertex, key: &str, text: &str) -> Result<Value, NoMemory> {
    let value = vertex_at(alloc, vertex, &[])?;
    with_text(alloc, value, key, text)
}

// `member VERTICES KEY TEXT`: the object of each vertex with this member.
fn with_members(row: Row<'_>, out: &mut Out) -> Option<()> {
    let (key, text) = (row.word(3)?, row.word(4)?);
    for vertex in vertices(row, 2)?.iter() {
        put_value(row.alloc, out, vertex_with(row.alloc, vertex, key, text));
    }
    Some(())
}

// `no-object TEXT KEY TEXT`: a text, which gets no member.
fn no_object(row: Row<'_>, out: &mut Out) -> Option<()> {
    let (key, text) = (row.word(3)?, row.word(4)?);
    let value = text_value(row.alloc, row.word(2)?).ok()?;
    put_value(row.alloc, out, with_text(row.alloc, value, key, text));
    Some(())
}
