//! Whether a point is marked.
ghost use Rattle.std.specs.Prelude.{◌↔◌, IsTrue};
ghost use Rattle.hpr_search.specs.Marks.{IsMarked};

/// Whether the point is marked; no point past the last is.
pub fn is_marked(marks: &[bool], point: usize) -> bool
    ensures { IsTrue result ↔ IsMarked marks.now point }
{
    point < marks.len() && marks[point]
}
