//! The graph of a program.
ghost use Rattle.std.specs.Prelude.{◌≡◌, ◌↔◌, ℕ, IfOk, OnOk, IsErrOf};
ghost use Rattle.hpr_graph.specs.declared.link.Link.{Link};
ghost use Rattle.hpr_graph.specs.Graphs.{Same, HasMoreEdges};
ghost use Rattle.hpr_graph.specs.Numbered.{HasLink, graph_in};
ghost use Rattle.hpr_graph.specs.ProgramGraph.{graph_of};
ghost use Rattle.hpr_build.specs.Links.{IsLinkOf, HasMoreLinks};
ghost use Rattle.hpr_build.specs.Stages.{AreTables, IsBegun};

use crate::controls::push_controls;
use crate::error::BuildError;
use crate::flow_links::push_flows;
use crate::order_links::push_orders;
use crate::tables::{Tables, tables_of};
use hpr_graph::{Draft, Graph};
use hpr_syntax::Program;
use std::alloc::Global;

/// Puts the edges of the program into a draft that has its vertices and no edge.
fn push_edges(alloc: Global, tables: &Tables, graph: &mut Draft) -> Result<(), BuildError>
    requires tables { AreTables tables.now }
    requires begun { IsBegun tables.now.program.now tables.now.inits.items tables.now.most graph.old }
    requires none { (to : ℕ) (l : Link) → ¬ HasLink graph.old to l }
    ensures begun { OnOk result (IsBegun tables.now.program.now tables.now.inits.items tables.now.most graph.new) }
    ensures exact { OnOk result ((to : ℕ) (l : Link) → HasLink graph.new to l
        ↔ IsLinkOf tables.now.program.now tables.now.inits.items to l) }
    ensures too_many { IsErrOf result BuildError.TooManyEdges
        → HasMoreLinks tables.now.program.now tables.now.inits.items tables.now.most }
{
    push_controls(alloc, tables, graph)?;
    push_flows(alloc, tables, graph)?;
    push_orders(alloc, tables, graph)
}

/// The dependence graph of a program (Horwitz, Prins and Reps 1989). Its vertices are Entry, the
/// parts in preorder, the names of `end` in their order, and the names that the program takes from
/// before it, ascending. Its edges are the control edges, the flow edges of each loop that carries
/// them and of none, and the order edges. A loop encloses its own predicate, and a loop's predicate
/// has no control edge to itself, which some definitions give it.
///
/// Refuses with `TooManyEdges` where the graph has more than `most_edges` edges, and only there, and
/// with `Memory` where memory runs out.
///
/// Takes one search of the program for all names that no part defines, one for each definition of a name that is
/// used, one more where many edges go into the uses of its name, and for each loop around it to which its value
/// comes round two more.
pub fn graph_of(alloc: Global, program: &Program, most_edges: usize) -> Result<Graph, BuildError>
    ensures graph { IfOk result (λ g. Same (graph_in g) (graph_of program.now)) }
    ensures within { IfOk result (λ g. ¬ HasMoreEdges (graph_of program.now) most_edges) }
    ensures too_many { IsErrOf result BuildError.TooManyEdges → HasMoreEdges (graph_of program.now) most_edges }
{
    let mut vertices = Vec::new(alloc);
    let tables = tables_of(alloc, program, most_edges, &mut vertices)?;
    let mut draft = Draft::from_vertices(alloc, vertices)?;
    push_edges(alloc, &tables, &mut draft)?;
    let _vertices = draft.vertices();
    Ok(draft.finish())
}
