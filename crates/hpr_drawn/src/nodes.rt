//! The vertices of a picture: their names, their lines, and which stand side by side or below each other.
ghost use Rattle.std.specs.Prelude.{◌≡◌, ◌++◌, IfOk, OnOk, codes, filter, flat_map, map, string_bytes, take};
ghost use Rattle.hpr_graph.specs.InOrder.{vertex_at};
ghost use Rattle.hpr_located.specs.Sources.{part_vertex};
ghost use Rattle.hpr_drawn.specs.Pictures.{column_line, is_final, is_init, name, names_text, node_line, nodes_text, parts_of, row_line, rows_text, short_words, vertices_text};

use crate::put::{put, put_quoted};
use hpr_graph::{NoMemory, Vertex};
use hpr_report::vertex_words;
use hpr_syntax::{Program, Row};
use std::alloc::Global;

/// The tag of a part, and what any other vertex is.
pub(crate) fn short_words(alloc: Global, vertex: &Vertex) -> Result<String, NoMemory>
    ensures { IfOk result (λ text. string_bytes text ≡ short_words vertex.now) }
{
    match vertex {
        Vertex::Part(tag, _) => Ok(tag.to_string(alloc)?),
        Vertex::Entry | Vertex::Init(_) | Vertex::Final(_) => vertex_words(alloc, vertex),
    }
}

/// The same of the vertex with this number. There is none past the last; definitions take Entry for it.
pub(crate) fn short_words_at(
    alloc: Global,
    vertices: &[Vertex],
    at: usize,
) -> Result<String, NoMemory>
    ensures { IfOk result (λ text. string_bytes text ≡ short_words (vertex_at vertices.now at)) }
{
    if at < vertices.len() {
        short_words(alloc, &vertices[at])
    } else {
        Ok(String::from_str(alloc, "entry")?)
    }
}

pub(crate) fn put_name(alloc: Global, out: &mut Vec<u8>, vertex: &Vertex) -> Result<(), NoMemory>
    ensures { OnOk result (out.new.items ≡ out.old.items ++ name vertex.now) }
{
    let words = short_words(alloc, vertex)?;
    put_quoted(out, words.as_str())
}

/// Puts the line of a vertex.
fn put_node(alloc: Global, out: &mut Vec<u8>, vertex: &Vertex) -> Result<(), NoMemory>
    ensures { OnOk result (out.new.items ≡ out.old.items ++ node_line vertex.now) }
{
    put(out, "  ")?;
    put_name(alloc, out, vertex)?;
    put(out, " [label=")?;
    put_quoted(out, vertex_words(alloc, vertex)?.as_str())?;
    put(out, "]\n")
}

/// Puts the line of each vertex.
fn put_nodes(alloc: Global, out: &mut Vec<u8>, vertices: &[Vertex]) -> Result<(), NoMemory>
    ensures { OnOk result (out.new.items ≡ out.old.items ++ nodes_text vertices.now) }
{
    for vertex in vertices {
        put_node(alloc, out, vertex)?;
    }
    Ok(())
}

/// Puts the name of each vertex behind a word.
fn put_names(
    alloc: Global,
    out: &mut Vec<u8>,
    word: &str,
    vertices: &[Vertex],
) -> Result<(), NoMemory>
    ensures { OnOk result (out.new.items ≡ out.old.items ++ names_text word.now vertices.now) }
{
    for vertex in vertices {
        put(out, word)?;
        put_name(alloc, out, vertex)?;
    }
    Ok(())
}

/// Puts the line of vertices that stand side by side.
fn put_side_by_side(alloc: Global, out: &mut Vec<u8>, vertices: &[Vertex]) -> Result<(), NoMemory>
    ensures { OnOk result (out.new.items ≡ out.old.items ++ row_line vertices.now) }
{
    put(out, "  {rank=same")?;
    put_names(alloc, out, "; ", vertices)?;
    put(out, "}\n")
}

/// Puts the line by which vertices stand below each other.
fn put_column(
    alloc: Global,
    out: &mut Vec<u8>,
    inits: &[Vertex],
    parts: &[Vertex],
    finals: &[Vertex],
) -> Result<(), NoMemory>
    ensures { OnOk result (out.new.items ≡ out.old.items ++ column_line inits.now parts.now finals.now) }
{
    put(out, "  {edge [style=invis weight=0]; \"entry\"")?;
    put_names(alloc, out, " -> ", first(inits))?;
    put_names(alloc, out, " -> ", parts)?;
    put_names(alloc, out, " -> ", first(finals))?;
    put(out, "}\n")
}

/// The first of the vertices, if there is one.
fn first(vertices: &[Vertex]) -> &[Vertex]
    ensures { result.now ≡ take 1 vertices.now }
{
    if 1 < vertices.len() {
        &vertices[..1]
    } else {
        vertices
    }
}

/// Puts the line of each vertex.
fn put_all_nodes(
    alloc: Global,
    out: &mut Vec<u8>,
    inits: &[Vertex],
    parts: &[Vertex],
    finals: &[Vertex],
) -> Result<(), NoMemory>
    ensures { OnOk result (out.new.items ≡ out.old.items ++ (node_line Vertex.Entry
        ++ nodes_text inits.now ++ nodes_text parts.now ++ nodes_text finals.now)) }
{
    put(out, "  \"entry\" [label=\"entry\"]\n")?;
    put_nodes(alloc, out, inits)?;
    put_nodes(alloc, out, parts)?;
    put_nodes(alloc, out, finals)
}

/// Puts the lines of these vertices, and which stand side by side or below each other.
fn put_rows(
    alloc: Global,
    out: &mut Vec<u8>,
    inits: &[Vertex],
    parts: &[Vertex],
    finals: &[Vertex],
) -> Result<(), NoMemory>
    ensures { OnOk result (out.new.items ≡ out.old.items ++ rows_text inits.now parts.now finals.now) }
{
    put_all_nodes(alloc, out, inits, parts, finals)?;
    put_side_by_side(alloc, out, inits)?;
    put_side_by_side(alloc, out, finals)?;
    put_column(alloc, out, inits, parts, finals)
}

/// Puts the lines of the vertices of a graph and of the program's parts.
pub(crate) fn put_vertices(
    alloc: Global,
    out: &mut Vec<u8>,
    program: &Program,
    vertices: &[Vertex],
) -> Result<(), NoMemory>
    ensures { OnOk result (out.new.items ≡ out.old.items ++ vertices_text (parts_of program.now) vertices.now) }
{
    let inits = inits(alloc, vertices)?;
    let parts = parts(alloc, program)?;
    let finals = finals(alloc, vertices)?;
    put_rows(alloc, out, &inits, &parts, &finals)
}

/// Copies of the Inits.
fn inits(alloc: Global, vertices: &[Vertex]) -> Result<Vec<Vertex>, NoMemory>
    ensures { IfOk result (λ inits. inits.items ≡ filter is_init vertices.now) }
{
    let mut inits = Vec::new(alloc);
    for vertex in vertices {
        if is_init(vertex) {
            inits.push(vertex.copy(alloc)?)?;
        }
    }
    Ok(inits)
}

/// Copies of the Finals.
fn finals(alloc: Global, vertices: &[Vertex]) -> Result<Vec<Vertex>, NoMemory>
    ensures { IfOk result (λ finals. finals.items ≡ filter is_final vertices.now) }
{
    let mut finals = Vec::new(alloc);
    for vertex in vertices {
        if is_final(vertex) {
            finals.push(vertex.copy(alloc)?)?;
        }
    }
    Ok(finals)
}

fn is_init(vertex: &Vertex) -> bool
    ensures { result ≡ is_init vertex.now }
{
    match vertex {
        Vertex::Init(_) => true,
        Vertex::Entry | Vertex::Part(_, _) | Vertex::Final(_) => false,
    }
}

fn is_final(vertex: &Vertex) -> bool
    ensures { result ≡ is_final vertex.now }
{
    match vertex {
        Vertex::Final(_) => true,
        Vertex::Entry | Vertex::Init(_) | Vertex::Part(_, _) => false,
    }
}

/// The vertices of the program's parts, in preorder.
fn parts(alloc: Global, program: &Program) -> Result<Vec<Vertex>, NoMemory>
    ensures { IfOk result (λ parts. parts.items ≡ parts_of program.now) }
{
    let rows = program.preorder(alloc)?;
    part_vertices(alloc, &rows)
}

/// The vertex of the part of each row.
fn part_vertices(alloc: Global, rows: &[Row]) -> Result<Vec<Vertex>, NoMemory>
    ensures { IfOk result (λ parts. parts.items ≡ map part_vertex rows.now) }
{
    let mut parts = Vec::new(alloc);
    for row in rows {
        parts.push(Vertex::Part(row.tag, row.content.copy(alloc)?))?;
    }
    Ok(parts)
}
