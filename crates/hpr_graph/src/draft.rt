//! Graphs while they are filled, with dense numbers.
ghost use Rattle.std.specs.Prelude.{◌≡◌, ◌↔◌, ◌⊎◌, ℕ, ◌+◌, ◌<◌, [], ◌∷◌, ◌++◌, length, map, replicate, Contains, slice_get, Some, IsNone, IsSome, IsTrue, OnOk, OnErr, IfOk, IfSome};
ghost use Rattle.hpr_graph.specs.declared.vertex.Vertex.{Vertex};
ghost use Rattle.hpr_graph.specs.declared.edge.Kind.{Kind};
ghost use Rattle.hpr_graph.specs.declared.edge.Edge.{Edge};
ghost use Rattle.hpr_graph.specs.declared.link.Link.{Link};
ghost use Rattle.hpr_graph.specs.Graphs.{HasEdges, IsOnce, Same, name_of};
ghost use Rattle.hpr_graph.specs.Numbered.{HasVertex, HasLink, HasEdge, IsKindAt, IsEdgeAt, IsLink, IsNumbered, IsGrown, graph_in, link_count, row_items, rows_of};
ghost use Rattle.hpr_graph.specs.Moves.{with_link, with_row};
ghost use Rattle.hpr_graph.specs.InOrder.{RowsAscend};
ghost use Rattle.std.specs.List.Sorted.{IsSorted, IsPermutation};

use crate::vertex::copies;
use crate::{Graph, Link, LinkKind, Vertex};
use hpr_syntax::NoMemory;
use indexmap::IndexSet;
use std::alloc::Global;
use std::marker::Model;

/// A dependence graph while it is filled: a finite set of vertices and a finite set of edges, all of whose
/// vertices are vertices of the graph. `finish` makes the `Graph` of it.
///
/// The vertices have the numbers 0, 1, .. in the order of adding, and a vertex keeps its number. The number
/// of a vertex is looked up by a hash of its name or tag. An edge is a link in the row of its target, and
/// new links go behind the others. A contract sees the vertices by number with their rows of links, and by
/// these the two sets.
pub struct Draft {
    vertices: IndexSet<Vertex>,
    links: Vec<Vec<Link>>,
    edges: usize,
    alloc: Global,
}

impl Model for Draft {
    ghost use Rattle.std.specs.Coded.{codes};
    ghost use Rattle.hpr_graph.specs.contracts.vertex.Vertex as vertex;
    ghost use Rattle.hpr_graph.specs.Numbered.{Numbered, IsCounted, rows_of};

    ghost Value = { Numbered };

    ghost coded = { Prim.hlevel (codes, vertex.the_row.coded) };

    ghost view = { λ d. record { vertices = d.vertices.keys; links = rows_of d.links.items } };

    ghost invariant = { λ d. IsCounted
        (record { vertices = d.vertices.keys; links = rows_of d.links.items }) d.edges };
}

/// A draft is dropped in one call.
impl Drop for Draft {
    fn drop(self) {
        let Draft {
            vertices: _,
            links: _,
            edges: _,
            alloc: _,
        } = self;
    }
}

impl Draft {
    /// The draft with no vertex, whose memory comes from this allocator.
    pub fn empty(alloc: Global) -> Draft
        ensures vertices { result.vertices ≡ [] }
        ensures links { result.links ≡ [] }
    {
        Draft {
            vertices: IndexSet::new(alloc),
            links: Vec::new(alloc),
            edges: 0,
            alloc,
        }
    }

    /// The draft with these vertices in this order, each once, and no edge.
    pub fn of_vertices(alloc: Global, vertices: &[Vertex]) -> Result<Draft, NoMemory>
        requires { IsOnce vertices.now }
        ensures vertices { IfOk result (λ d. d.vertices ≡ vertices.now) }
        ensures none { IfOk result (λ d. (to : ℕ) (l : Link) → ¬ HasLink d to l) }
    {
        let copies = copies(alloc, vertices)?;
        Draft::from_vertices(alloc, copies)
    }

    /// The draft of these vertices, as `of_vertices` makes it, with no copy of them.
    pub fn from_vertices(alloc: Global, vertices: Vec<Vertex>) -> Result<Draft, NoMemory>
        requires { IsOnce vertices.items }
        ensures vertices { IfOk result (λ d. d.vertices ≡ vertices.items) }
        ensures none { IfOk result (λ d. (to : ℕ) (l : Link) → ¬ HasLink d to l) }
    {
        let links = blank_rows(alloc, vertices.len())?;
        let vertices = indexed(alloc, vertices)?;
        Ok(Draft {
            vertices,
            links,
            edges: 0,
            alloc,
        })
    }

    /// How many vertices there are.
    pub fn vertex_count(&self) -> usize
        ensures { result ≡ length self.now.vertices }
    {
        self.vertices.len()
    }

    /// How many edges there are.
    pub fn edge_count(&self) -> usize
        ensures count { result ≡ link_count self.now }
        ensures edges { HasEdges (graph_in self.now) result }
        ensures numbered { IsNumbered self.now }
    {
        self.edges
    }

    /// The vertices in the order of their numbers.
    pub fn vertices(&self) -> &[Vertex]
        ensures vertices { result.now ≡ self.now.vertices }
        ensures numbered { IsNumbered self.now }
    {
        self.vertices.as_slice()
    }

    /// The number of the vertex, or none where the draft lacks it. Takes one look-up by hash.
    pub fn number_of(&self, vertex: &Vertex) -> Option<usize>
        ensures found { IfSome result (λ n. slice_get self.now.vertices n ≡ Some vertex.now) }
        ensures stranger { IsNone result ↔ (¬ HasVertex self.now vertex.now) }
    {
        number_in(&self.vertices, vertex)
    }

    /// Whether the link into the vertex with the number `to` is an edge: all its numbers are vertices, and
    /// the source of a flow edge defines a name.
    pub fn is_link(&self, to: usize, link: Link) -> bool
        ensures { IsTrue result ↔ IsLink self.now to link }
    {
        is_link_of(self.vertices.as_slice(), to, link)
    }

    /// The edges into the vertex with this number, which is below `vertex_count`.
    pub fn edges_into(&self, at: usize) -> &[Link]
        requires { at < length self.now.vertices }
        ensures row { slice_get self.now.links at ≡ Some result.now }
        ensures links { (l : Link) → Contains result.now l → IsLink self.now at l }
        ensures numbered { IsNumbered self.now }
    {
        &self.links[at]
    }

    /// Adds a vertex and answers its number, which is the count of vertices before. A vertex that is
    /// there keeps its number, and nothing changes. Takes two look-ups by hash.
    pub fn add_vertex(&mut self, vertex: Vertex) -> Result<usize, NoMemory>
        ensures there { IfOk result (λ n. slice_get self.new.vertices n ≡ Some vertex) }
        ensures known { HasVertex self.old vertex → OnOk result (self.new ≡ self.old) }
        ensures next { ¬ HasVertex self.old vertex → IfOk result (λ n. n ≡ length self.old.vertices) }
        ensures grown { OnOk result (IsGrown self.old self.new) }
        ensures edges { OnOk result ((e : Edge) → HasEdge self.new e ↔ HasEdge self.old e) }
        ensures only { OnOk result ((v : Vertex) → HasVertex self.new v → HasVertex self.old v ⊎ (v ≡ vertex)) }
        ensures err { OnErr result (self.new ≡ self.old) }
    {
        match self.number_of(&vertex) {
            Some(at) => Ok(at),
            None => self.push_new_vertex(vertex),
        }
    }

    /// Adds a vertex that isn't there, and answers its number, which is the count of vertices before. Takes
    /// one look-up by hash, but for the growth of the table.
    pub fn push_new_vertex(&mut self, vertex: Vertex) -> Result<usize, NoMemory>
        requires { ¬ HasVertex self.old vertex }
        ensures next { IfOk result (λ n. n ≡ length self.old.vertices) }
        ensures vertices { OnOk result (self.new.vertices ≡ self.old.vertices ++ vertex ∷ []) }
        ensures grown { OnOk result (IsGrown self.old self.new) }
        ensures edges { OnOk result ((e : Edge) → HasEdge self.new e ↔ HasEdge self.old e) }
        ensures err { OnErr result (self.new ≡ self.old) }
    {
        let number = self.vertices.len();
        push_with_row(self.alloc, &mut self.vertices, &mut self.links, vertex)?;
        Ok(number)
    }

    /// Adds an edge into the vertex with the number `to`; `is_link` says which links are edges. An edge
    /// that is there changes nothing. Looks at the edges into the vertex one after another. `NoMemory`
    /// also comes where the count of edges would pass `usize::MAX`, which no memory can hold.
    pub fn add_link(&mut self, to: usize, link: Link) -> Result<(), NoMemory>
        requires { IsLink self.old to link }
        ensures vertices { self.new.vertices ≡ self.old.vertices }
        ensures known { HasLink self.old to link → self.new ≡ self.old }
        ensures there { OnOk result (HasLink self.new to link) }
        ensures kept { OnOk result ((at : ℕ) (l : Link) → HasLink self.old at l → HasLink self.new at l) }
        ensures only { OnOk result ((at : ℕ) (l : Link) → HasLink self.new at l → HasLink self.old at l
            ⊎ ((at ≡ to) × (l ≡ link))) }
        ensures err { OnErr result (self.new ≡ self.old) }
    {
        if has_link(self.edges_into(to), link) {
            return Ok(());
        }
        self.push_new_link(to, link)
    }

    /// Adds an edge that isn't there, as `add_link` does, but with no look-up: in constant time, but for
    /// the growth of its row.
    pub fn push_new_link(&mut self, to: usize, link: Link) -> Result<(), NoMemory>
        requires link { IsLink self.old to link }
        requires fresh { ¬ HasLink self.old to link }
        ensures vertices { self.new.vertices ≡ self.old.vertices }
        ensures there { OnOk result (HasLink self.new to link) }
        ensures kept { OnOk result ((at : ℕ) (l : Link) → HasLink self.old at l → HasLink self.new at l) }
        ensures only { OnOk result ((at : ℕ) (l : Link) → HasLink self.new at l → HasLink self.old at l
            ⊎ ((at ≡ to) × (l ≡ link))) }
        ensures count { OnOk result (link_count self.new ≡ link_count self.old + 1) }
        ensures err { OnErr result (self.new ≡ self.old) }
    {
        let Some(edges) = self.edges.checked_add(1) else {
            return Err(NoMemory);
        };
        push_at(&mut self.links, to, link)?;
        self.edges = edges;
        Ok(())
    }

    /// What its memory comes from.
    pub(crate) fn alloc(&self) -> Global
        ensures numbered { IsNumbered self.now }
    {
        self.alloc
    }

    /// The graph that was filled: puts the edges into each vertex in the order of their links, and changes no
    /// number. Takes no memory, and as many comparisons as sorting each row takes.
    pub fn finish(self) -> Graph
        ensures vertices { result.vertices ≡ self.vertices }
        ensures links { (at : ℕ) (l : Link) → HasLink result at l ↔ HasLink self at l }
        ensures same { Same (graph_in result) (graph_in self) }
        ensures rows { RowsAscend ⟦<Link as Ord>⟧.cmp result }
    {
        let mut draft = self;
        draft.sort_rows();
        Graph::of_sorted(draft)
    }

    /// A copy, with the same numbers.
    pub(crate) fn copy(&self) -> Result<Draft, NoMemory>
        ensures { IfOk result (λ d. d ≡ self.now) }
    {
        Ok(Draft {
            vertices: copy_set(self.alloc, self.vertices.as_slice())?,
            links: copy_rows(self.alloc, &self.links)?,
            edges: self.edges,
            alloc: self.alloc,
        })
    }

    /// A copy in which these vertices, each once, stand in place of the others: as many, each of which
    /// defines the name that the one with its number defines here.
    pub(crate) fn with_vertices(&self, vertices: Vec<Vertex>) -> Result<Draft, NoMemory>
        requires once { IsOnce vertices.items }
        requires names { map name_of vertices.items ≡ map name_of self.now.vertices }
        ensures { IfOk result (λ d. d ≡ record { vertices = vertices.items; links = self.now.links }) }
    {
        Ok(Draft {
            vertices: indexed(self.alloc, vertices)?,
            links: copy_rows(self.alloc, &self.links)?,
            edges: self.edges,
            alloc: self.alloc,
        })
    }

    /// Puts the edges into each vertex in the order of their links.
    fn sort_rows(&mut self)
        ensures vertices { self.new.vertices ≡ self.old.vertices }
        ensures links { (at : ℕ) (l : Link) → HasLink self.new at l ↔ HasLink self.old at l }
        ensures rows { RowsAscend ⟦<Link as Ord>⟧.cmp self.new }
    {
        sort_rows(&mut self.links);
    }
}

/// Puts a vertex that isn't there behind the vertices, and an empty row behind the rows.
fn push_with_row(
    alloc: Global,
    vertices: &mut IndexSet<Vertex>,
    links: &mut Vec<Vec<Link>>,
    vertex: Vertex,
) -> Result<(), NoMemory>
    requires { ¬ Contains vertices.old.keys vertex }
    ensures vertex { OnOk result (vertices.new.keys ≡ vertices.old.keys ++ vertex ∷ []) }
    ensures row { OnOk result (rows_of links.new.items ≡ with_row (rows_of links.old.items)) }
    ensures err_vertices { OnErr result (vertices.new.keys ≡ vertices.old.keys) }
    ensures err_rows { OnErr result (links.new.items ≡ links.old.items) }
{
    links.push(Vec::new(alloc))?;
    if let Err(error) = insert_new(vertices, vertex) {
        let _ = links.pop();
        return Err(error);
    }
    Ok(())
}

/// Puts a vertex that isn't there behind the others.
fn insert_new(vertices: &mut IndexSet<Vertex>, vertex: Vertex) -> Result<(), NoMemory>
    requires { ¬ Contains vertices.old.keys vertex }
    ensures ok { OnOk result (vertices.new.keys ≡ vertices.old.keys ++ vertex ∷ []) }
    ensures err { OnErr result (vertices.new.keys ≡ vertices.old.keys) }
{
    vertices.insert(vertex)?;
    Ok(())
}

/// The number of the vertex, if it is there.
fn number_in(vertices: &IndexSet<Vertex>, vertex: &Vertex) -> Option<usize>
    ensures found { IfSome result (λ n. slice_get vertices.now.keys n ≡ Some vertex.now) }
    ensures stranger { IsNone result ↔ (¬ Contains vertices.now.keys vertex.now) }
{
    vertices.get_index_of(vertex)
}

/// Puts a link at the end of a row.
fn push_at(links: &mut Vec<Vec<Link>>, to: usize, link: Link) -> Result<(), NoMemory>
    requires { to < length links.old.items }
    ensures ok { OnOk result (rows_of links.new.items ≡ with_link (rows_of links.old.items) to link) }
    ensures err { OnErr result (rows_of links.new.items ≡ rows_of links.old.items) }
{
    let row = &mut links[to];
    row.push(link)?;
    Ok(())
}

/// Whether the link into the vertex with the number `to` is an edge between these vertices.
fn is_link_of(vertices: &[Vertex], to: usize, link: Link) -> bool
    ensures { IsTrue result ↔ ((e : Edge) × IsEdgeAt vertices.now to link e) }
{
    if to >= vertices.len() || link.from >= vertices.len() {
        return false;
    }
    is_kind_of(vertices, &vertices[link.from], link.kind)
}

/// Whether an edge from this vertex can have this kind.
fn is_kind_of(vertices: &[Vertex], from: &Vertex, kind: LinkKind) -> bool
    ensures { IsTrue result ↔ ((k : Kind) × IsKindAt vertices.now kind from.now k) }
{
    match kind {
        LinkKind::Control(_) => true,
        LinkKind::Independent => has_name(from),
        LinkKind::Carried(w) => has_name(from) && w < vertices.len(),
        LinkKind::Order(u) => u < vertices.len(),
    }
}

/// Whether the vertex defines a name.
fn has_name(vertex: &Vertex) -> bool
    ensures { IsTrue result ↔ IsSome (name_of vertex.now) }
{
    vertex.defines().is_some()
}

fn has_link(row: &[Link], link: Link) -> bool
    ensures { IsTrue result ↔ Contains row.now link }
{
    row.contains(&link)
}

/// Copies of the vertices, each of which stands once.
fn copy_set(alloc: Global, vertices: &[Vertex]) -> Result<IndexSet<Vertex>, NoMemory>
    requires { IsOnce vertices.now }
    ensures { IfOk result (λ s. s.keys ≡ vertices.now) }
{
    let copies = copies(alloc, vertices)?;
    indexed(alloc, copies)
}

/// The vertices, each of which stands once, found by hash.
fn indexed(alloc: Global, vertices: Vec<Vertex>) -> Result<IndexSet<Vertex>, NoMemory>
    requires { IsOnce vertices.items }
    ensures { IfOk result (λ s. s.keys ≡ vertices.items) }
{
    let set = IndexSet::from_iter(alloc, vertices)?;
    Ok(set)
}

/// So many rows with no link.
fn blank_rows(alloc: Global, count: usize) -> Result<Vec<Vec<Link>>, NoMemory>
    ensures { IfOk result (λ rows. rows_of rows.items ≡ replicate count []) }
{
    let mut rows = Vec::new(alloc);
    for _ in 0..count {
        rows.push(Vec::new(alloc))?;
    }
    Ok(rows)
}

/// Puts each row in ascending order.
fn sort_rows(rows: &mut Vec<Vec<Link>>)
    ensures count { length rows.new.items ≡ length rows.old.items }
    ensures same { (at : ℕ) → IsPermutation (row_items (slice_get (rows_of rows.old.items) at))
        (row_items (slice_get (rows_of rows.new.items) at)) }
    ensures sorted { (at : ℕ) → IsSorted ⟦<Link as Ord>⟧.cmp (row_items (slice_get (rows_of rows.new.items) at)) }
{
    for row in rows.iter_mut() {
        row.sort_unstable();
    }
}

fn copy_rows(alloc: Global, rows: &[Vec<Link>]) -> Result<Vec<Vec<Link>>, NoMemory>
    ensures { IfOk result (λ copies. rows_of copies.items ≡ rows_of rows.now) }
{
    let mut copies = Vec::new(alloc);
    for row in rows {
        copies.push(row.to_vec(alloc)?)?;
    }
    Ok(copies)
}
