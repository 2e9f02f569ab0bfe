//! Which parts of a graph keep their tags.
ghost use Rattle.std.specs.Prelude.{◌≡◌, ◌↔◌, ◌⊎◌, ◌∷◌, [], false, length, replicate, Contains, IsTrue, IfOk, OnOk};
ghost use Rattle.hpr_terms.specs.declared.tag.Tag.{Tag};
ghost use Rattle.hpr_graph.specs.Answer.{graphs_of};
ghost use Rattle.hpr_graph.specs.Numbered.{graph_in};
ghost use Rattle.hpr_graph.specs.ProgramGraph.{graph_of};
ghost use Rattle.hpr_graph.specs.Split.{HasOneContent};
ghost use Rattle.hpr_engine.specs.Kept.{AreKeptBy, AreKeptMore, AreTakenMore, IsTaken};

use hpr_graph::{Graph, NoMemory, Tag, Vertex};
use hpr_order::parts;
use hpr_syntax::Program;
use indexmap::IndexSet;
use std::alloc::Global;

/// The tags that were taken, each by its author and its serial.
struct Taken {
    tags: IndexSet<(u32, u32)>,
}

// By hand, so that each way out of a function that holds these is one call.
impl Drop for Taken {
    fn drop(self) {
        let Taken { tags: _ } = self;
    }
}

/// For each vertex of the graph whether it is a part that keeps its tag: of the parts with one tag A's
/// keeps it, or B's where A has none of them. Looks each part of A and of B up by hash. Horwitz, Prins and
/// Reps 1989 have no tags.
pub(crate) fn kept(
    alloc: Global,
    graph: &Graph,
    a: &Program,
    b: &Program,
) -> Result<Vec<bool>, NoMemory>
    ensures count { IfOk result (λ keep. length keep.items ≡ length graph.now.vertices) }
    ensures kept { IfOk result (λ keep. AreKeptBy (graph_of a.now ∷ graph_of b.now ∷ []) graph.now keep.items) }
{
    let mut keep = unmarked(alloc, graph.vertex_count())?;
    let mut taken = Taken {
        tags: IndexSet::new(alloc),
    };
    keep_program(alloc, graph, a, &mut taken.tags, &mut keep)?;
    keep_program(alloc, graph, b, &mut taken.tags, &mut keep)?;
    Ok(keep)
}

/// The same of any number of variants: of the parts with one tag that of the first variant keeps it which
/// has one of them.
pub(crate) fn kept_of_all(
    alloc: Global,
    graph: &Graph,
    variants: &[Program],
) -> Result<Vec<bool>, NoMemory>
    ensures count { IfOk result (λ keep. length keep.items ≡ length graph.now.vertices) }
    ensures kept { IfOk result (λ keep. AreKeptBy (graphs_of variants.now) graph.now keep.items) }
{
    let mut keep = unmarked(alloc, graph.vertex_count())?;
    let mut taken = Taken {
        tags: IndexSet::new(alloc),
    };
    for variant in variants {
        keep_program(alloc, graph, variant, &mut taken.tags, &mut keep)?;
    }
    Ok(keep)
}

/// So many vertices, none of which is marked.
fn unmarked(alloc: Global, count: usize) -> Result<Vec<bool>, NoMemory>
    ensures { IfOk result (λ marks. marks.items ≡ replicate count false) }
{
    Ok(vec![in alloc; false; count]?)
}

/// Marks those of the program's parts that the graph has and whose tags aren't taken, and takes the tags.
fn keep_program(
    alloc: Global,
    graph: &Graph,
    program: &Program,
    taken: &mut IndexSet<(u32, u32)>,
    keep: &mut Vec<bool>,
) -> Result<(), NoMemory>
    requires marks { length keep.old.items ≡ length graph.now.vertices }
    ensures marks { length keep.new.items ≡ length keep.old.items }
    ensures kept { OnOk result (AreKeptMore graph.now (graph_of program.now).vertex taken.old.keys
        keep.old.items keep.new.items) }
    ensures taken { OnOk result (AreTakenMore graph.now (graph_of program.now).vertex taken.old.keys
        taken.new.keys) }
{
    // each tag of a program has one content
    let _body = program.body();
    let listed = parts(alloc, program)?;
    keep_free(graph, &listed, taken, keep)
}

/// Marks those of the parts that the graph has and whose tags aren't taken, and takes the tags.
fn keep_free(
    graph: &Graph,
    parts: &[Vertex],
    taken: &mut IndexSet<(u32, u32)>,
    keep: &mut Vec<bool>,
) -> Result<(), NoMemory>
    requires marks { length keep.old.items ≡ length graph.now.vertices }
    requires contents { HasOneContent (Contains parts.now) }
    ensures marks { length keep.new.items ≡ length keep.old.items }
    ensures kept { OnOk result (AreKeptMore graph.now (Contains parts.now) taken.old.keys keep.old.items
        keep.new.items) }
    ensures taken { OnOk result (AreTakenMore graph.now (Contains parts.now) taken.old.keys taken.new.keys) }
{
    for part in parts {
        keep_if_free(graph, part, taken, keep)?;
    }
    Ok(())
}

/// The same of one vertex.
fn keep_if_free(
    graph: &Graph,
    vertex: &Vertex,
    taken: &mut IndexSet<(u32, u32)>,
    keep: &mut Vec<bool>,
) -> Result<(), NoMemory>
    requires marks { length keep.old.items ≡ length graph.now.vertices }
    ensures marks { length keep.new.items ≡ length keep.old.items }
    ensures kept { OnOk result (AreKeptMore graph.now (λ v. v ≡ vertex.now) taken.old.keys keep.old.items
        keep.new.items) }
    ensures taken { OnOk result (AreTakenMore graph.now (λ v. v ≡ vertex.now) taken.old.keys taken.new.keys) }
{
    let Vertex::Part(tag, _) = vertex else {
        return Ok(());
    };
    let Some(at) = graph.number_of(vertex) else {
        return Ok(());
    };
    if take(taken, *tag)? {
        keep[at] = true;
    }
    Ok(())
}

/// Takes the tag, and tells whether it was free.
fn take(taken: &mut IndexSet<(u32, u32)>, tag: Tag) -> Result<bool, NoMemory>
    ensures free { IfOk result (λ free. IsTrue free ↔ (¬ IsTaken taken.old.keys tag)) }
    ensures taken { OnOk result ((t : Tag) → IsTaken taken.new.keys t ↔ (IsTaken taken.old.keys t ⊎ (t ≡ tag))) }
{
    let is_new = taken.insert((tag.author, tag.serial))?;
    Ok(is_new)
}
