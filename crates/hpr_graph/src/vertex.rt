//! The vertices of a dependence graph.
ghost use Rattle.std.specs.Prelude.{◌≡◌, ◌↔◌, Contains, IfOk, IfSome, IsNone, IsTrue, Some, slice_get};
ghost use Rattle.std.specs.Option.{option_copied};
ghost use Rattle.hpr_graph.specs.Graphs.{name_of};

use hpr_syntax::{Content, Name, NoMemory, Tag};
use std::alloc::Global;
use std::hash::{Hash, Hasher};

/// A vertex of a dependence graph (Horwitz, Prins and Reps 1989). A part whose content changed under a kept
/// tag is another vertex.
///
/// Vertices compare by the declared order of variants and fields.
#[derive(PartialEq, Eq, PartialOrd, Ord)]
pub enum Vertex {
    /// Where the program begins.
    Entry,
    /// The value that a name has before the program.
    Init(Name),
    /// An assignment, a write, a store, or the predicate of a conditional or a loop.
    Part(Tag, Content),
    /// The value of a name after the program.
    Final(Name),
}

/// A vertex is dropped in one call.
impl Drop for Vertex {
    fn drop(self) {
        match self {
            Vertex::Entry => {}
            Vertex::Init(_) => {}
            Vertex::Part(_, _) => {}
            Vertex::Final(_) => {}
        }
    }
}

impl Vertex {
    /// The name that the vertex defines: that of an Init vertex, or the one that the part defines.
    pub fn defines(&self) -> Option<&Name>
        ensures { option_copied result ≡ name_of self.now }
    {
        match self {
            Vertex::Init(name) => Some(name),
            Vertex::Part(_, content) => content.assigned(),
            _ => None,
        }
    }

    /// A copy.
    pub fn copy(&self, alloc: Global) -> Result<Vertex, NoMemory>
        ensures { IfOk result (λ v. v ≡ self.now) }
    {
        match self {
            Vertex::Entry => Ok(Vertex::Entry),
            Vertex::Init(name) => Ok(Vertex::Init(name.copy(alloc)?)),
            Vertex::Part(tag, content) => Ok(Vertex::Part(*tag, content.copy(alloc)?)),
            Vertex::Final(name) => Ok(Vertex::Final(name.copy(alloc)?)),
        }
    }
}

/// A vertex is hashed by its name, or by its tag without its content.
impl Hash for Vertex {
    ghost use Rattle.hpr_graph.specs.Hashed.{hash_input, same_input};

    ghost hash_input = { hash_input };

    ghost respects_eq = { same_input };

    fn hash<H: Hasher>(&self, state: &mut H) {
        match self {
            Vertex::Entry => {}
            Vertex::Init(name) => name.text().hash(state),
            Vertex::Part(tag, _) => {
                state.write_u32(tag.author);
                state.write_u32(tag.serial);
            }
            Vertex::Final(name) => name.text().hash(state),
        }
    }
}

/// Copies of the vertices.
pub(crate) fn copies(alloc: Global, vertices: &[Vertex]) -> Result<Vec<Vertex>, NoMemory>
    ensures { IfOk result (λ v. v.items ≡ vertices.now) }
{
    let mut copies = Vec::new(alloc);
    for vertex in vertices {
        copies.push(vertex.copy(alloc)?)?;
    }
    Ok(copies)
}

/// Whether two vertices are the same.
#[tactic(auto, using(crate::proofs::VertexOrder::vertex_equal))]
pub fn same_vertex(a: &Vertex, b: &Vertex) -> bool
    ensures { IsTrue result ↔ (a.now ≡ b.now) }
{
    a == b
}

/// The place of the vertex in the list, if it is there. Looks at the vertices one after another.
pub fn place_of(vertices: &[Vertex], vertex: &Vertex) -> Option<usize>
    ensures found { IfSome result (λ n. slice_get vertices.now n ≡ Some vertex.now) }
    ensures stranger { IsNone result ↔ (¬ Contains vertices.now vertex.now) }
{
    for (at, one) in vertices.iter().enumerate() {
        if same_vertex(one, vertex) {
            return Some(at);
        }
    }
    None
}
