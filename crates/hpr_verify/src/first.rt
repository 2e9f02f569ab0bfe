//! The first difference of two rows that ascend.
ghost use Rattle.std.specs.Prelude.{◌≡◌};
ghost use Rattle.std.specs.Cmp.{IsTotalOrder};
ghost use Rattle.std.specs.declared.cmp.Ordering.{Ordering};
ghost use Rattle.std.specs.declared.cmp.Ordering.TheVariants.{Equal};
ghost use Rattle.hpr_graph.specs.InOrder.{Ascends};
ghost use Rattle.hpr_verify.specs.First.{IsFirstApart, row_by};

use crate::{Holder, Vertex};
use hpr_graph::{Link, compare_vertices};
use std::cmp::Ordering;

/// Items that stand in rows that ascend.
pub(crate) trait InRow {
    /// The order in which they ascend.
    ghost order: { Self → Self → Ordering };

    /// How two of them compare.
    fn compare(&self, other: &Self) -> Ordering
        ensures { result ≡ order self.now other.now };

    /// The order is total.
    ghost total: { IsTotalOrder order };

    /// Items that tie are the same.
    ghost exact: { (x y : Self) → order x y ≡ Equal → x ≡ y };
}

/// Vertices by their order.
impl InRow for Vertex {
    ghost use Rattle.hpr_graph.specs.Order.{vertex_cmp};
    ghost use Rattle.hpr_graph.proofs.VertexOrder.{vertex_total, vertex_tied};

    ghost order = { vertex_cmp };

    ghost total = { vertex_total };

    ghost exact = { vertex_tied };

    fn compare(&self, other: &Vertex) -> Ordering {
        compare_vertices(self, other)
    }
}

/// Links by their order: that of the edges into one vertex, where the vertices ascend.
impl InRow for Link {
    ghost use Rattle.hpr_graph.specs.contracts.link.LinkOrd.TheImpl.Laws.{total-law};
    ghost use Rattle.hpr_graph.proofs.LinkOrder.{link_equal};

    ghost order = { ⟦<Link as Ord>⟧.cmp };

    ghost total = { total-law };

    ghost exact = { link_equal };

    fn compare(&self, other: &Link) -> Ordering {
        self.cmp(other)
    }
}

/// The place of the first item that one of two rows alone has, and whose it is; none where both have the
/// same. Both ascend. Compares the items at each place up to it.
pub(crate) fn first_apart<T: InRow>(offered: &[T], merged: &[T]) -> Option<(usize, Holder)>
    requires offered { Ascends T.order offered.now }
    requires merged { Ascends T.order merged.now }
    ensures { IsFirstApart T.order offered.now merged.now result }
{
    let shared = offered.len().min(merged.len());
    for at in 0..shared {
        match offered[at].compare(&merged[at]) {
            Ordering::Less => return Some((at, Holder::Offered)),
            Ordering::Equal => {}
            Ordering::Greater => return Some((at, Holder::Merged)),
        }
    }
    match offered.len().cmp(&merged.len()) {
        Ordering::Less => Some((shared, Holder::Merged)),
        Ordering::Equal => None,
        Ordering::Greater => Some((shared, Holder::Offered)),
    }
}

/// The row of this holder.
pub(crate) fn row_by<'a, T>(holder: Holder, offered: &'a [T], merged: &'a [T]) -> &'a [T]
    ensures { result.now ≡ row_by holder offered.now merged.now }
{
    match holder {
        Holder::Offered => offered,
        Holder::Merged => merged,
    }
}
