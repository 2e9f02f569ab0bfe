//! The parts of a graph by their numbers, and as items.
ghost use Rattle.std.specs.Prelude.{◌≡◌, ℕ, ◌<◌, ◌↔◌, ◌⊎◌, List, true, false, Some, None, All, length, slice_get, Contains, replicate, IfOk, IfSome, IfNone, OnOk, IsTrue, vec_len};
ghost use Rattle.hpr_terms.specs.declared.tag.Tag.{Tag};
ghost use Rattle.hpr_syntax.specs.declared.rows.Content.{Content};
ghost use Rattle.hpr_graph.specs.Graphs.{IsOnce};
ghost use Rattle.hpr_graph.specs.Answer.{IsPart};
ghost use Rattle.hpr_graph.specs.declared.vertex.Vertex.TheVariants.{Final};
ghost use Rattle.hpr_graph.specs.Numbered.{IsNumbered, graph_in};
ghost use Rattle.hpr_graph.specs.InOrder.{Ascends};
ghost use Rattle.hpr_graph.specs.Order.{name_cmp};
ghost use Rattle.hpr_order.specs.Regions.{AreRegionsOf};
ghost use Rattle.hpr_order.specs.Arranging.{IsRanking, IsProperItem};
ghost use Rattle.hpr_order.specs.declared.item.Item.{Item};
ghost use Rattle.hpr_order.specs.Numbers.{ArePartsOf, AreRanked, AreFinals, AreItemsAt, AreItemsOf, AreAsked, ArePlaces, IsPartAt, IsItemAt, IsAskedBy, DirectsBy, slot_by};

use crate::RegionTree;
use crate::item::{Item, item_of};
use hpr_graph::links::number_at;
use hpr_graph::{Graph, Link, LinkKind, Name, NoMemory, Vertex};
use hpr_syntax::proper::read_names;
use hpr_terms::names::in_order;
use std::alloc::{AllocError, Global};

/// The numbers of the graph's parts in the order of their rank.
pub(crate) fn ranked_parts(
    alloc: Global,
    graph: &Graph,
    rank: &[Vertex],
) -> Result<Vec<usize>, NoMemory>
    requires { IsRanking (graph_in graph.now) rank.now }
    ensures parts { IfOk result (λ ns. ArePartsOf graph.now ns.items) }
    ensures ranked { IfOk result (λ ns. AreRanked graph.now rank.now ns.items) }
{
    let _vertices = graph.vertices();
    let mut numbers = Vec::new(alloc);
    for vertex in rank {
        let Some(number) = part_number(graph, vertex) else {
            continue;
        };
        numbers.push(number)?;
    }
    Ok(numbers)
}

/// The number of a part in the graph; none of another vertex. Takes one look-up by hash.
fn part_number(graph: &Graph, vertex: &Vertex) -> Option<usize>
    ensures found { IfSome result (λ n. slice_get graph.now.vertices n ≡ Some vertex.now) }
    ensures part { IfSome result (λ n. IsPart vertex.now) }
    ensures none { IfNone result (IsPart vertex.now → ¬ Contains graph.now.vertices vertex.now) }
{
    if is_part(vertex) {
        graph.number_of(vertex)
    } else {
        None
    }
}

fn is_part(vertex: &Vertex) -> bool
    ensures { IsTrue result ↔ IsPart vertex.now }
{
    matches!(vertex, Vertex::Part(_, _))
}

/// For each number below the count, its place among these numbers, which are below it, each once; none where
/// it isn't one of them. An error is want of memory.
pub fn places_of(
    alloc: Global,
    count: usize,
    numbers: &[usize],
) -> Result<Vec<Option<usize>>, NoMemory>
    requires within { All (λ n. n < count) numbers.now }
    requires once { IsOnce numbers.now }
    ensures { IfOk result (λ ps. ArePlaces numbers.now ps.items) }
{
    let mut places = no_places(alloc, count)?;
    for (place, number) in numbers.iter().enumerate() {
        places[*number] = Some(place);
    }
    Ok(places)
}

/// So many times none.
pub(crate) fn no_places(alloc: Global, count: usize) -> Result<Vec<Option<usize>>, AllocError>
    ensures { IfOk result (λ ps. ps.items ≡ replicate count None) }
{
    vec![in alloc; None; count]
}

/// The parts with these numbers as items.
pub(crate) fn items_at(
    alloc: Global,
    graph: &Graph,
    regions: &RegionTree,
    numbers: &[usize],
) -> Result<Vec<Item>, NoMemory>
    requires regions { AreRegionsOf graph.now regions.now }
    requires numbers { ArePartsOf graph.now numbers.now }
    ensures { IfOk result (λ items. AreItemsOf graph.now numbers.now items.items) }
{
    let places = places_of(alloc, graph.vertices().len(), numbers)?;
    items_by(alloc, graph, regions, &places, numbers)
}

/// The same, by the places of the numbers.
fn items_by(
    alloc: Global,
    graph: &Graph,
    regions: &RegionTree,
    places: &[Option<usize>],
    numbers: &[usize],
) -> Result<Vec<Item>, NoMemory>
    requires numbered { IsNumbered graph.now }
    requires regions { AreRegionsOf graph.now regions.now }
    requires numbers { ArePartsOf graph.now numbers.now }
    requires places { ArePlaces numbers.now places.now }
    ensures { IfOk result (λ items. AreItemsOf graph.now numbers.now items.items) }
{
    let mut items = Vec::new(alloc);
    for number in numbers {
        items.push(item_at(alloc, graph, regions, places, *number)?)?;
    }
    Ok(items)
}

/// The part with this number as an item.
fn item_at(
    alloc: Global,
    graph: &Graph,
    regions: &RegionTree,
    places: &[Option<usize>],
    number: usize,
) -> Result<Item, NoMemory>
    requires part { (t : Tag) × (c : Content) × IsPartAt graph.now number t c }
    requires count { length regions.now ≡ length graph.now.vertices }
    ensures at { IfOk result (λ i. IsItemAt graph.now regions.now places.now number i) }
    ensures proper { IfOk result (λ i. IsProperItem i) }
{
    match graph.vertex(number) {
        Vertex::Part(tag, content) => {
            let slot = slot_by(places, regions.parent(number));
            item_of(alloc, *tag, content, slot)
        }
        _ => unreachable!(),
    }
}

/// Where a vertex stands whose control edge comes from there.
fn slot_by(places: &[Option<usize>], parent: Option<(usize, bool)>) -> Option<(usize, bool)>
    ensures { result ≡ slot_by places.now parent }
{
    let (from, label) = parent?;
    let place = number_at(places, from)?;
    Some((place, label))
}

/// The names of the graph's Final vertices in ascending order. An error is want of memory.
pub fn final_names(alloc: Global, graph: &Graph) -> Result<Vec<Name>, NoMemory>
    ensures { IfOk result (λ xs. AreFinals (graph_in graph.now) xs.items) }
{
    let names = finals_in_order(alloc, graph)?;
    read_names(&names);
    Ok(names)
}

fn finals_in_order(alloc: Global, graph: &Graph) -> Result<Vec<Name>, NoMemory>
    ensures names { IfOk result (λ xs. (x : List ℕ) → Contains xs.items x ↔ (graph_in graph.now).vertex (Final x)) }
    ensures ascending { IfOk result (λ xs. Ascends name_cmp xs.items) }
{
    let mut names = Vec::new(alloc);
    for vertex in graph.vertices() {
        let Vertex::Final(name) = vertex else {
            continue;
        };
        names.push(name.copy(alloc)?)?;
    }
    in_order(names)
}

/// Whether an edge between two parts has its source to the left of its target.
fn directs(kind: LinkKind) -> bool
    ensures { IsTrue result ↔ DirectsBy kind }
{
    match kind {
        LinkKind::Independent => true,
        LinkKind::Order(_) => true,
        _ => false,
    }
}

/// The pairs of items of which the first must stand to the left of the second.
pub(crate) fn asked_pairs(
    alloc: Global,
    graph: &Graph,
    numbers: &[usize],
) -> Result<Vec<(usize, usize)>, NoMemory>
    requires { ArePartsOf graph.now numbers.now }
    ensures { IfOk result (λ pairs. (items : List Item) → AreItemsAt graph.now numbers.now items
        → AreAsked (graph_in graph.now) items pairs.items) }
{
    let places = places_of(alloc, graph.vertices().len(), numbers)?;
    pairs_by(alloc, graph, &places, numbers)
}

/// The same, by the places of the numbers.
fn pairs_by(
    alloc: Global,
    graph: &Graph,
    places: &[Option<usize>],
    numbers: &[usize],
) -> Result<Vec<(usize, usize)>, NoMemory>
    requires numbered { IsNumbered graph.now }
    requires numbers { ArePartsOf graph.now numbers.now }
    requires places { ArePlaces numbers.now places.now }
    ensures { IfOk result (λ pairs. (items : List Item) → AreItemsAt graph.now numbers.now items
        → AreAsked (graph_in graph.now) items pairs.items) }
{
    let mut pairs = Vec::new(alloc);
    for (place, number) in numbers.iter().enumerate() {
        add_pairs(places, graph.edges_into(*number), place, &mut pairs)?;
    }
    Ok(pairs)
}

/// Adds the pairs of the edges into one item.
fn add_pairs(
    places: &[Option<usize>],
    links: &[Link],
    item: usize,
    pairs: &mut Vec<(usize, usize)>,
) -> Result<(), NoMemory>
    ensures { OnOk result ((s t : ℕ) → Contains pairs.new.items (s, t)
        ↔ (Contains pairs.old.items (s, t) ⊎ ((t ≡ item) × IsAskedBy places.now links.now s))) }
{
    for link in links {
        if !directs(link.kind) {
            continue;
        }
        let Some(source) = number_at(places, link.from) else {
            continue;
        };
        pairs.push((source, item))?;
    }
    Ok(())
}
