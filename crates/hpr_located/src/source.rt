//! Files with a program, and where vertices stand in them.
ghost use Rattle.std.specs.Prelude.{◌≡◌, ◌∷◌, IfOk, OnOk, map, string_bytes, zip};
ghost use Rattle.std.specs.BTreeMap.{is_at};
ghost use Rattle.std.specs.Map.{lookup};
ghost use Rattle.hpr_graph.specs.declared.vertex.Vertex.{Vertex};
ghost use Rattle.hpr_graph.specs.Order.{vertex_cmp};
ghost use Rattle.hpr_located.specs.Sources.{part_vertex, standing, standing_of};

use crate::Located;
use hpr_graph::{NoMemory, Vertex};
use hpr_syntax::{Program, Row};
use std::alloc::Global;
use std::collections::BTreeMap;

/// A file with a program: its name, and where the program's parts stand in its text.
#[derive(Drop)]
pub struct Source {
    file: String,
    places: BTreeMap<Vertex, Located>,
}

impl Source {
    /// The file with this name, whose program has its parts at these places, as [`crate::locate`] gives them: in
    /// preorder. It fails only for want of memory.
    pub fn new(
        alloc: Global,
        file: &str,
        program: &Program,
        located: &[Located],
    ) -> Result<Source, NoMemory>
        ensures { IfOk result (λ s. standing_of s ≡ standing file.now program.now located.now) }
    {
        let rows = program.preorder(alloc)?;
        let places = places_of(alloc, &rows, located)?;
        let file = String::from_str(alloc, file)?;
        Ok(Source { file, places })
    }

    /// The name of the file.
    pub fn file(&self) -> &str
        ensures { result.now ≡ (standing_of self.now).file }
    {
        self.file.as_str()
    }

    /// Where the vertex stands, if it does: a part with its tag and its content. Takes one look-up.
    pub fn place(&self, vertex: &Vertex) -> Option<Located>
        ensures { result ≡ (standing_of self.now).place vertex.now }
    {
        self.places.get(vertex).copied()
    }
}

/// Where each part stands. Of parts with one tag and one content the first counts, so the last is put first.
fn places_of(
    alloc: Global,
    rows: &[Row],
    located: &[Located],
) -> Result<BTreeMap<Vertex, Located>, NoMemory>
    ensures { IfOk result (λ places. (v : Vertex) → lookup (is_at (vertex_cmp v)) places.entries
        ≡ lookup (is_at (vertex_cmp v)) (zip (map part_vertex rows.now) located.now)) }
{
    let mut places = BTreeMap::new(alloc);
    let mut left = rows.len().min(located.len());
    while left > 0 {
        left -= 1;
        put_part(alloc, &mut places, &rows[left], located[left])?;
    }
    Ok(places)
}

/// Puts where a part stands.
fn put_part(
    alloc: Global,
    places: &mut BTreeMap<Vertex, Located>,
    row: &Row,
    located: Located,
) -> Result<(), NoMemory>
    ensures { OnOk result ((v : Vertex) → lookup (is_at (vertex_cmp v)) places.new.entries
        ≡ lookup (is_at (vertex_cmp v)) ((part_vertex row.now, located) ∷ places.old.entries)) }
{
    let vertex = Vertex::Part(row.tag, row.content.copy(alloc)?);
    places.insert(vertex, located)?;
    Ok(())
}
