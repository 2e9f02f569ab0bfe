//! The arrangements of a graph, one by one.
ghost use Rattle.std.specs.Prelude.{◌≡◌, [], ◌∷◌, IfOk, IfSome, IfNone, OnErr};
ghost use Rattle.hpr_graph.specs.Numbered.{graph_in};
ghost use Rattle.hpr_graph.specs.Arrangements.{AreArrangements};
ghost use Rattle.hpr_order.specs.Regions.{AreRegionsOf};
ghost use Rattle.hpr_order.specs.Arranging.{IsRanking, AreIssued, orders_in};

use crate::RegionTree;
use crate::building::program_in;
use crate::numbers::final_names;
use crate::ordered::{OrderedItems, parts_in_order};
use hpr_forest::Orders;
use hpr_graph::{Graph, Name, NoMemory, Vertex};
use hpr_syntax::proper::read_issued;
use hpr_syntax::{Issued, Program};
use std::alloc::{AllocError, Global};
use std::marker::Model;

/// The arrangements of a graph that are still to come: the programs that its parts and control edges allow,
/// in the order of their ranks.
///
/// A contract sees the list of these programs. It takes no more memory however many there are.
pub struct Arrangements {
    ordered: OrderedItems,
    issued: Issued,
    finals: Vec<Name>,
    next: Option<Vec<usize>>,
    alloc: Global,
}

impl Model for Arrangements {
    ghost use Rattle.std.specs.Prelude.{List};
    ghost use Rattle.hpr_syntax.specs.Tree.{Tree, tree_coded};
    ghost use Rattle.std.specs.Coded.{coded_list};
    ghost use Rattle.hpr_order.specs.Arranging.{programs_of, coming, IsSearching};

    ghost Value = { List Tree };

    ghost coded = { coded_list tree_coded };

    ghost view = { λ a. programs_of a.ordered.items.items a.issued a.finals.items (coming a.next a.ordered.orders) };

    ghost invariant = { λ a. IsSearching a.ordered.items.items a.issued a.finals.items
        (coming a.next a.ordered.orders) };
}

/// What is still to come is dropped in one call.
impl Drop for Arrangements {
    fn drop(self) {
        let Arrangements {
            ordered: _,
            issued: _,
            finals: _,
            next: _,
            alloc: _,
        } = self;
    }
}

/// Takes the next order.
fn next_order(orders: &mut Option<Orders>) -> Result<Option<Vec<usize>>, AllocError>
    ensures some { IfOk result (λ o. IfSome o (λ order. orders_in orders.old ≡ order.items ∷ orders_in orders.new)) }
    ensures none { IfOk result (λ o. IfNone o ((orders_in orders.old ≡ []) × (orders_in orders.new ≡ []))) }
    ensures err { OnErr result (orders_in orders.new ≡ orders_in orders.old) }
{
    match orders {
        None => Ok(None),
        Some(orders) => orders.next_one(),
    }
}

impl Arrangements {
    /// Begins with all arrangements of the graph, by the rank of its parts and with these issued numbers.
    ///
    /// An arrangement is a program whose parts are those of the graph, whose control edges into parts are
    /// those of the graph, whose finals are the names of the graph's Final vertices in ascending order, and
    /// in which no independent flow edge and no order edge between two parts goes from right to left. Of two
    /// arrangements the one is first whose part is first in the rank, where their preorders first differ.
    /// There is none where the parts break a limit of programs, where one has a wrong name, or where what
    /// directs goes round in a circle. An error is want of memory.
    pub fn start(
        alloc: Global,
        graph: &Graph,
        regions: &RegionTree,
        rank: &[Vertex],
        issued: &Issued,
    ) -> Result<Arrangements, NoMemory>
        requires regions { AreRegionsOf graph.now regions.now }
        requires rank { IsRanking (graph_in graph.now) rank.now }
        requires issued { AreIssued (graph_in graph.now) issued.now }
        ensures all { IfOk result (λ o. AreArrangements (graph_in graph.now) rank.now issued.now o) }
    {
        read_issued(issued);
        let issued = issued.copy(alloc)?;
        let finals = final_names(alloc, graph)?;
        let mut ordered = parts_in_order(alloc, graph, regions, rank)?;
        let next = next_order(&mut ordered.orders)?;
        Ok(Arrangements {
            ordered,
            issued,
            finals,
            next,
            alloc,
        })
    }

    /// Takes the next arrangement; `None` after the last one. An error is want of memory, and leaves the
    /// arrangements as they were.
    pub fn next_one(&mut self) -> Result<Option<Program>, NoMemory>
        ensures some { IfOk result (λ o. IfSome o (λ p. self.old ≡ p ∷ self.new)) }
        ensures none { IfOk result (λ o. IfNone o ((self.old ≡ []) × (self.new ≡ []))) }
        ensures err { OnErr result (self.new ≡ self.old) }
    {
        let Some(order) = &self.next else {
            return Ok(None);
        };
        let program = program_in(
            self.alloc,
            &self.ordered.items,
            order,
            &self.issued,
            &self.finals,
        )?;
        self.next = next_order(&mut self.ordered.orders)?;
        Ok(Some(program))
    }
}
