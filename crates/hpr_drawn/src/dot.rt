//! Pictures of graphs as texts for Graphviz.
ghost use Rattle.std.specs.Prelude.{◌≡◌, IfOk};
ghost use Rattle.hpr_graph.specs.InOrder.{edges_of};
ghost use Rattle.hpr_graph.specs.Numbered.{graph_in};
ghost use Rattle.hpr_drawn.specs.Pictures.{IsPicture, dot_text, parts_of};

use crate::edges::put_edges;
use crate::nodes::put_vertices;
use crate::put::put;
use hpr_graph::{Graph, NoMemory};
use hpr_syntax::Program;
use std::alloc::Global;

/// Which edges a picture leaves out: control edges, flow edges with the carried ones, order edges.
#[derive(Clone, Copy, Debug, PartialEq, Eq)]
pub struct LeftOut {
    pub control: bool,
    pub flow: bool,
    pub order: bool,
}

/// The picture of a program's graph, as a text for [Graphviz](https://graphviz.org). A vertex is named by its tag, or
/// by what it is, and has its text as its label. The vertices stand from top to bottom as in the program: the entry,
/// initial values side by side, the parts in preorder, final values side by side. Control edges are black, with `false`
/// where the branch is false; flow edges are blue, with the name that flows; carried ones are dashed, with the loop's
/// tag; order edges are faint, with the use for which they are. It fails only for want of memory.
pub fn dot_text(
    alloc: Global,
    program: &Program,
    graph: &Graph,
    left_out: LeftOut,
) -> Result<Vec<u8>, NoMemory>
    ensures { IfOk result (λ text. IsPicture left_out program.now (graph_in graph.now) text.items) }
{
    let graph = graph.in_order()?;
    let _vertices = graph.vertices();
    ordered_text(alloc, program, &graph, left_out)
}

/// The picture of a graph whose vertices and edges stand as they do in the graph.
fn ordered_text(
    alloc: Global,
    program: &Program,
    graph: &Graph,
    left_out: LeftOut,
) -> Result<Vec<u8>, NoMemory>
    ensures { IfOk result (λ text.
        text.items ≡ dot_text left_out (parts_of program.now) graph.now.vertices (edges_of graph.now)) }
{
    let mut out = Vec::new(alloc);
    put(
        &mut out,
        "digraph {\n  node [shape=box fontname=monospace fontsize=11 height=0.3]\n  edge [fontname=monospace fontsize=9]\n",
    )?;
    put_vertices(alloc, &mut out, program, graph.vertices())?;
    put_edges(alloc, &mut out, graph, left_out)?;
    put(&mut out, "}\n")?;
    Ok(out)
}
