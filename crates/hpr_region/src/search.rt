//! The search itself: what is placed, what may stand next, and what clashes.
ghost use Rattle.std.specs.Prelude.{◌≡◌, ℕ, ◌<◌, ◌≤◌, ◌↔◌, ◌++◌, [], ◌∷◌, List, Some, None, true, false, slice_get, length, IfOk, IfSome, IfNone, IsTrue};
ghost use Rattle.hpr_syntax.specs.Issued.{Issued};
ghost use Rattle.hpr_syntax.specs.Tree.{Tree};
ghost use Rattle.hpr_graph.specs.declared.vertex.Vertex.{Vertex};
ghost use Rattle.hpr_graph.specs.Numbered.{Numbered, graph_in};
ghost use Rattle.hpr_graph.specs.Arrangements.{IsArrangement};
ghost use Rattle.hpr_graph.specs.Answer.{Fits};
ghost use Rattle.hpr_graph.specs.Clashes.{Clashes};
ghost use Rattle.hpr_forest.specs.Choices.{Follows};
ghost use Rattle.hpr_order.specs.Regions.{AreRegionsOf};
ghost use Rattle.hpr_order.specs.Arranging.{IsRanking};
ghost use Rattle.hpr_region.specs.Plans.{BeginsWith, IsBegun, IsPlanOf, IsReady, clash_in, may_follow, number_at, placed_in, size_of, vertex_at, vertices_at};

use crate::needs::{add_needs, no_needs, take_needs};
use crate::pending::{count_placed, count_taken_back, none_placed};
use crate::plan::Plan;
use crate::planning::{blank_row, plan_of};
use crate::rivals::Rivals;
use crate::summary::Summary;
use hpr_forest::Pending;
use hpr_graph::links::number_at;
use hpr_graph::{Graph, NoMemory, Vertex};
use hpr_order::{RegionTree, places_of};
use std::alloc::Global;
use std::marker::Model;

/// A search for arrangements of a graph, part by part: the parts placed so far, which are the front of the
/// preorder of an arrangement, and what may be placed next.
///
/// A part is named by the number of its vertex, or as an item: by its place among the parts in the order of
/// the rank. A contract sees what the search knows from its start, and the items placed so far. A started
/// search takes no memory.
pub struct Search {
    plan: Plan,
    places: Vec<Option<usize>>,
    items: Vec<usize>,
    placed: Vec<usize>,
    marks: Vec<bool>,
    summary: Summary,
    rivals: Rivals,
    needs: Vec<u128>,
    /// What is still to be placed, by the plan's tables.
    pending: Option<Pending>,
}

impl Model for Search {
    ghost use Rattle.std.specs.Coded.{codes};
    ghost use Rattle.hpr_region.specs.contracts.plan.Plan as plans;
    ghost use Rattle.hpr_region.specs.Plans.{State};
    ghost use Rattle.hpr_region.specs.States.{IsState};

    ghost Value = { State };

    ghost coded = { Prim.hlevel (codes, plans.the_row.coded) };

    ghost view = { λ s. record { plan = s.plan; placed = s.items.items } };

    ghost invariant = { λ s. IsState s.plan s.places.items s.items s.placed s.marks s.summary s.rivals s.needs
        s.pending };
}

/// All are dropped in one call.
impl Drop for Search {
    fn drop(self) {
        let Search {
            plan: _,
            places: _,
            items: _,
            placed: _,
            marks: _,
            summary: _,
            rivals: _,
            needs: _,
            pending: _,
        } = self;
    }
}

impl Search {
    /// Begins with nothing placed. The regions are the graph's, and the rank has each part of the graph, and
    /// nothing twice. Reserves all that the search needs: the other calls take no memory. An error is want of
    /// memory.
    pub fn start(
        alloc: Global,
        graph: &Graph,
        regions: &RegionTree,
        rank: &[Vertex],
    ) -> Result<Search, NoMemory>
        requires regions { AreRegionsOf graph.now regions.now }
        requires rank { IsRanking (graph_in graph.now) rank.now }
        ensures plan { IfOk result (λ s. IsPlanOf graph.now rank.now s.plan) }
        ensures none { IfOk result (λ s. s.placed ≡ []) }
    {
        let plan = plan_of(alloc, graph, regions, rank)?;
        started(alloc, graph.vertex_count(), plan)
    }

    /// How many parts there are.
    pub fn size(&self) -> usize
        ensures { result ≡ size_of self.now.plan }
    {
        self.plan.numbers.len()
    }

    /// How many parts are placed. Each of them may stand next behind those before it.
    pub fn count(&self) -> usize
        ensures count { result ≡ length self.now.placed }
        ensures front { Follows (may_follow self.now.plan) [] self.now.placed }
    {
        self.items.len()
    }

    /// The number of the vertex of an item.
    pub fn number_at(&self, item: usize) -> usize
        requires { item < size_of self.now.plan }
        ensures number { result ≡ number_at self.now.plan item }
        ensures there { slice_get self.now.plan.numbers.items item ≡ Some result }
    {
        self.plan.numbers[item]
    }

    /// The numbers of the vertices placed so far.
    pub fn placed(&self) -> &[usize]
        ensures { result.now ≡ placed_in self.now }
    {
        &self.placed
    }

    /// The least item, from `from` on, that may be placed next; `None` where there is none. Looks at those alone before
    /// which none are left to be placed.
    pub fn next_ready(&self, from: usize) -> Option<usize>
        ensures can { IfSome result (λ c. may_follow self.now.plan self.now.placed c ≡ true) }
        ensures within { IfSome result (λ c. c < size_of self.now.plan) }
        ensures from { IfSome result (λ c. from ≤ c) }
        ensures least { IfSome result (λ c. (d : ℕ) → from ≤ d → d < c
            → may_follow self.now.plan self.now.placed d ≡ false) }
        ensures none { IfNone result ((d : ℕ) → from ≤ d → d < size_of self.now.plan
            → may_follow self.now.plan self.now.placed d ≡ false) }
    {
        let Some(choices) = &self.plan.choices else {
            return None;
        };
        let Some(pending) = &self.pending else {
            return None;
        };
        choices.next_ready(pending, &self.marks, &self.items, from)
    }

    /// Whether the item, which may be placed next, doesn't clash with the parts placed so far. Looks at what it uses
    /// and what goes into it alone.
    pub fn admits(&self, item: usize) -> bool
        requires ready { may_follow self.now.plan self.now.placed item ≡ true }
        ensures { IsTrue result ↔ (clash_in self.now.plan self.now.placed item ≡ false) }
    {
        !self.plan.flows.clashes(
            &self.summary,
            &self.rivals,
            &self.needs,
            &self.marks,
            &self.items,
            item,
        )
    }

    /// Places the item, which may be placed next.
    pub fn push(&mut self, item: usize)
        requires ready { may_follow self.old.plan self.old.placed item ≡ true }
        ensures plan { self.new.plan ≡ self.old.plan }
        ensures placed { self.new.placed ≡ self.old.placed ++ item ∷ [] }
    {
        let number = self.plan.numbers[item];
        self.summary.push(&self.plan, item);
        add_needs(
            &mut self.needs,
            &self.plan,
            &self.rivals,
            &self.marks,
            &self.items,
            item,
        );
        count_placed(&mut self.pending, &self.plan, &self.items, item);
        self.items.push_reserved(item);
        self.placed.push_reserved(number);
        self.marks[item] = true;
    }

    /// Takes the last item back; `None` where nothing is placed, which stays so.
    pub fn pop(&mut self) -> Option<usize>
        ensures plan { self.new.plan ≡ self.old.plan }
        ensures some { IfSome result (λ item. self.old.placed ≡ self.new.placed ++ item ∷ []) }
        ensures within { IfSome result (λ item. item < size_of self.old.plan) }
        ensures none { IfNone result ((self.old.placed ≡ []) × (self.new.placed ≡ [])) }
    {
        let item = self.items.pop()?;
        self.summary.pop(&self.plan, item);
        self.placed.pop();
        self.marks[item] = false;
        count_taken_back(&mut self.pending, &self.plan, &self.items, item);
        take_needs(
            &mut self.needs,
            &self.plan,
            &self.rivals,
            &self.marks,
            &self.items,
            item,
        );
        Some(item)
    }

    /// Whether some arrangement's preorder begins with the vertices placed so far and then this one, which is
    /// given by its number. Of issued numbers such an arrangement may have any that its tags allow.
    pub fn ready(&self, child: usize) -> bool
        ensures ready { IsTrue result ↔ IsReady self.now child }
        ensures exact { (g : Numbered) (rank : List Vertex) → IsPlanOf g rank self.now.plan
            → IsTrue result ↔ IsBegun g (placed_in self.now ++ child ∷ []) }
    {
        match number_at(&self.places, child) {
            None => false,
            Some(item) => self.may_follow(item),
        }
    }

    /// Whether the item may be placed next.
    fn may_follow(&self, item: usize) -> bool
        requires { item < size_of self.now.plan }
        ensures { result ≡ may_follow self.now.plan self.now.placed item }
    {
        match self.next_ready(item) {
            Some(found) => found == item,
            None => false,
        }
    }

    /// The item with this vertex number, which is ready.
    fn item_of(&self, child: usize) -> usize
        requires { IsReady self.now child }
        ensures item { slice_get self.now.plan.numbers.items result ≡ Some child }
        ensures follows { may_follow self.now.plan self.now.placed result ≡ true }
        ensures front { Follows (may_follow self.now.plan) [] self.now.placed }
    {
        number_at(&self.places, child).unwrap()
    }

    /// Whether the part with this vertex number, which is ready, may be worth placing. False wherever it clashes
    /// with the vertices placed so far, and false only where no arrangement that has the graph begins so.
    pub fn admissible(&self, child: usize) -> bool
        requires ready { IsReady self.now child }
        ensures clash { (g : Numbered) (rank : List Vertex) (k : ℕ) → IsPlanOf g rank self.now.plan
            → slice_get self.now.plan.numbers.items k ≡ Some child
            → Clashes (graph_in g) (vertices_at g self.now.plan self.now.placed) (vertex_at g self.now.plan k)
            → result ≡ false }
        ensures law { (g : Numbered) (rank : List Vertex) (issued : Issued) (p : Tree)
            → IsPlanOf g rank self.now.plan → result ≡ false → IsArrangement (graph_in g) issued p
            → BeginsWith g (placed_in self.now ++ child ∷ []) p → ¬ Fits (graph_in g) p }
    {
        self.admits(self.item_of(child))
    }

    /// Places the part with this vertex number, which is ready.
    pub fn place(&mut self, child: usize)
        requires ready { IsReady self.old child }
        ensures plan { self.new.plan ≡ self.old.plan }
        ensures placed { placed_in self.new ≡ placed_in self.old ++ child ∷ [] }
    {
        let item = self.item_of(child);
        self.push(item);
    }

    /// Takes the last vertex back, and answers its number; `None` exactly where nothing is placed.
    pub fn take_back(&mut self) -> Option<usize>
        ensures plan { self.new.plan ≡ self.old.plan }
        ensures some { IfSome result (λ child. placed_in self.old ≡ placed_in self.new ++ child ∷ []) }
        ensures none { IfNone result ((placed_in self.old ≡ []) × (placed_in self.new ≡ [])) }
    {
        let item = self.pop()?;
        Some(self.plan.numbers[item])
    }
}

/// The search by this plan, with nothing placed, where the graph has so many vertices.
fn started(alloc: Global, vertices: usize, plan: Plan) -> Result<Search, NoMemory>
    requires within { (k n : ℕ) → slice_get plan.numbers.items k ≡ Some n → n < vertices }
    ensures plan { IfOk result (λ s. s.plan ≡ plan) }
    ensures none { IfOk result (λ s. s.placed ≡ []) }
{
    let size = plan.numbers.len();
    let places = places_of(alloc, vertices, &plan.numbers)?;
    let items = Vec::with_capacity(alloc, size)?;
    let placed = Vec::with_capacity(alloc, size)?;
    let marks = blank_row(alloc, size)?;
    let summary = Summary::start(alloc, &plan.flows)?;
    let rivals = Rivals::start(alloc, &plan.flows)?;
    let needs = no_needs(alloc, plan.flows.size())?;
    let pending = none_placed(alloc, &plan.choices)?;
    Ok(Search {
        plan,
        places,
        items,
        placed,
        marks,
        summary,
        rivals,
        needs,
        pending,
    })
}
