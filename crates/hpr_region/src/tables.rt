//! The tables by which items clash.
ghost use Rattle.std.specs.Prelude.{◌≡◌, ℕ, ◌<◌, ◌↔◌, ◌⊎◌, Some, None, List, All, Contains, length, map, slice_get, get_or, vec_len, IfOk, OnOk, IsTrue};
ghost use Rattle.std.specs.Cmp.Lexicographic.{slice_cmp};
ghost use Rattle.std.specs.List.Sorted.{IsStrictlySortedBy};
ghost use Rattle.std.specs.Ordering.{nat_cmp};
ghost use Rattle.hpr_syntax.specs.declared.rows.Content.{Content};
ghost use Rattle.hpr_syntax.specs.Rows.{assigned};
ghost use Rattle.hpr_graph.specs.Numbered.{IsNumbered, graph_in};
ghost use Rattle.hpr_forest.specs.Blocks.{row_at};
ghost use Rattle.hpr_graph.specs.Moves.{number_at};
ghost use Rattle.hpr_search.specs.Rows.{IsPushed, numbers_at, numbers_of, with_number};
ghost use Rattle.hpr_order.specs.declared.item.Item.{Item};
ghost use Rattle.hpr_order.specs.Numbers.{ArePartsOf, AreItemsOf, ArePlaces};
ghost use Rattle.hpr_region.specs.Making.{AreDefinedIn, AreSlotsOf, AreVariablesOf, AreUsesOf, IsReadFrom};
ghost use Rattle.hpr_region.specs.Tables.{AreFlowsOf, AreReaders, AreUsed, IsVariable};

use crate::flows::Flows;
use hpr_graph::links::number_at;
use hpr_graph::{Graph, Link, LinkKind, Name, NoMemory};
use hpr_order::{Item, places_of};
use hpr_syntax::Content;
use hpr_terms::names::{in_order, place_of};
use std::alloc::Global;

/// The tables of the parts with these numbers, which are the items.
pub(crate) fn flows_of(
    alloc: Global,
    graph: &Graph,
    numbers: &[usize],
    items: &[Item],
) -> Result<Flows, NoMemory>
    requires numbers { ArePartsOf graph.now numbers.now }
    requires items { AreItemsOf graph.now numbers.now items.now }
    ensures flows { IfOk result (λ f. AreFlowsOf graph.now numbers.now f) }
    ensures count { IfOk result (λ f. vec_len f.slots ≡ length numbers.now) }
{
    let readers = readers_of(alloc, graph, numbers)?;
    let names = defined_names(alloc, items)?;
    let flows = flows_by(alloc, items, &names, readers)?;
    Ok(flows)
}

/// The tables of the items, by the numbers of the names that they define; what reads each item is given.
fn flows_by(
    alloc: Global,
    items: &[Item],
    names: &[Name],
    readers: Vec<Vec<usize>>,
) -> Result<Flows, NoMemory>
    requires names { IsStrictlySortedBy (slice_cmp nat_cmp) names.now }
    requires all { AreDefinedIn names.now items.now }
    requires count { vec_len readers ≡ length items.now }
    requires within { (k u : ℕ) → Contains (row_at (slice_get readers.items k)) u → u < length items.now }
    ensures slots { IfOk result (λ f. AreSlotsOf items.now f.slots.items) }
    ensures variables { IfOk result (λ f. AreVariablesOf names.now items.now f.variables.items) }
    ensures uses { IfOk result (λ f. AreUsesOf names.now items.now f.uses.items) }
    ensures readers { IfOk result (λ f. f.readers ≡ readers) }
    ensures count { IfOk result (λ f. vec_len f.slots ≡ length items.now) }
{
    let slots = slots_of(alloc, items)?;
    let variables = variables_of(alloc, items, names)?;
    let uses = uses_of(alloc, items, names)?;
    Ok(Flows {
        slots,
        variables,
        uses,
        readers,
        names: names.len(),
    })
}

/// The slot of each item.
fn slots_of(alloc: Global, items: &[Item]) -> Result<Vec<Option<(usize, bool)>>, NoMemory>
    ensures count { IfOk result (λ slots. vec_len slots ≡ length items.now) }
    ensures slots { IfOk result (λ slots. AreSlotsOf items.now slots.items) }
{
    let mut slots = Vec::new(alloc);
    for item in items {
        slots.push(item.slot)?;
    }
    Ok(slots)
}

/// The number of the variable that each item defines, if it defines one.
fn variables_of(
    alloc: Global,
    items: &[Item],
    names: &[Name],
) -> Result<Vec<Option<usize>>, NoMemory>
    requires names { IsStrictlySortedBy (slice_cmp nat_cmp) names.now }
    requires all { AreDefinedIn names.now items.now }
    ensures count { IfOk result (λ vs. vec_len vs ≡ length items.now) }
    ensures variables { IfOk result (λ vs. AreVariablesOf names.now items.now vs.items) }
{
    let mut variables = Vec::new(alloc);
    for item in items {
        variables.push(variable_in(names, &item.content))?;
    }
    Ok(variables)
}

/// The number of the name that a part which says this defines, if it is one of these.
fn variable_in(names: &[Name], content: &Content) -> Option<usize>
    requires names { IsStrictlySortedBy (slice_cmp nat_cmp) names.now }
    requires all { (x : List ℕ) → assigned content.now ≡ Some x → Contains names.now x }
    ensures { IsVariable names.now result (assigned content.now) }
{
    let name = content.assigned()?;
    place_of(names, name)
}

/// The numbers of the variables that each item uses.
fn uses_of(alloc: Global, items: &[Item], names: &[Name]) -> Result<Vec<Vec<usize>>, NoMemory>
    requires names { IsStrictlySortedBy (slice_cmp nat_cmp) names.now }
    ensures count { IfOk result (λ rows. vec_len rows ≡ length items.now) }
    ensures uses { IfOk result (λ rows. AreUsesOf names.now items.now rows.items) }
{
    let mut rows = Vec::new(alloc);
    for item in items {
        rows.push(uses_in(alloc, names, &item.content)?)?;
    }
    Ok(rows)
}

/// The numbers of the names, among these, that a part which says this uses.
fn uses_in(alloc: Global, names: &[Name], content: &Content) -> Result<Vec<usize>, NoMemory>
    requires names { IsStrictlySortedBy (slice_cmp nat_cmp) names.now }
    ensures { IfOk result (λ row. AreUsed names.now row.items content.now) }
{
    let used = content.used_names(alloc)?;
    numbers_among(alloc, names, &used)
}

/// The numbers of those names that are among these.
fn numbers_among(alloc: Global, names: &[Name], used: &[Name]) -> Result<Vec<usize>, NoMemory>
    requires names { IsStrictlySortedBy (slice_cmp nat_cmp) names.now }
    ensures { IfOk result (λ row. (r : ℕ) → Contains row.items r
        ↔ ((x : List ℕ) × (slice_get names.now r ≡ Some x) × Contains used.now x)) }
{
    let mut row = Vec::new(alloc);
    for name in used {
        let Some(number) = place_of(names, name) else {
            continue;
        };
        row.push(number)?;
    }
    Ok(row)
}

/// The names that the items define, in order.
fn defined_names(alloc: Global, items: &[Item]) -> Result<Vec<Name>, NoMemory>
    ensures ascending { IfOk result (λ names. IsStrictlySortedBy (slice_cmp nat_cmp) names.items) }
    ensures all { IfOk result (λ names. AreDefinedIn names.items items.now) }
{
    let mut names = Vec::new(alloc);
    for item in items {
        let Some(name) = item.content.assigned() else {
            continue;
        };
        names.push(name.copy(alloc)?)?;
    }
    in_order(names)
}

/// For each item those into which an independent flow edge goes from it.
fn readers_of(alloc: Global, graph: &Graph, numbers: &[usize]) -> Result<Vec<Vec<usize>>, NoMemory>
    requires numbers { ArePartsOf graph.now numbers.now }
    ensures count { IfOk result (λ rows. vec_len rows ≡ length numbers.now) }
    ensures within { IfOk result (λ rows. (k u : ℕ) → Contains (numbers_at (numbers_of rows.items) k) u → u < length numbers.now) }
    ensures readers { IfOk result (λ rows. AreReaders graph.now numbers.now (numbers_of rows.items)) }
{
    let places = places_of(alloc, graph.vertices().len(), numbers)?;
    readers_by(alloc, graph, &places, numbers)
}

/// The same, by the places of the numbers.
fn readers_by(
    alloc: Global,
    graph: &Graph,
    places: &[Option<usize>],
    numbers: &[usize],
) -> Result<Vec<Vec<usize>>, NoMemory>
    requires numbered { IsNumbered graph.now }
    requires numbers { ArePartsOf graph.now numbers.now }
    requires places { ArePlaces numbers.now places.now }
    ensures count { IfOk result (λ rows. vec_len rows ≡ length numbers.now) }
    ensures within { IfOk result (λ rows. (k u : ℕ) → Contains (numbers_at (numbers_of rows.items) k) u → u < length numbers.now) }
    ensures readers { IfOk result (λ rows. AreReaders graph.now numbers.now (numbers_of rows.items)) }
{
    let mut rows = blank_rows(alloc, numbers.len())?;
    for (item, number) in numbers.iter().enumerate() {
        add_readers(places, graph.edges_into(*number), item, &mut rows)?;
    }
    Ok(rows)
}

/// So many empty rows.
pub(crate) fn blank_rows(alloc: Global, count: usize) -> Result<Vec<Vec<usize>>, NoMemory>
    ensures count { IfOk result (λ rows. length rows.items ≡ count) }
    ensures blank { IfOk result (λ rows. (at n : ℕ) → ¬ Contains (numbers_at (numbers_of rows.items) at) n) }
{
    let mut rows = Vec::new(alloc);
    for _ in 0..count {
        rows.push(Vec::new(alloc))?;
    }
    Ok(rows)
}

fn is_independent(kind: LinkKind) -> bool
    ensures { IsTrue result ↔ (kind ≡ LinkKind.Independent) }
{
    match kind {
        LinkKind::Independent => true,
        _ => false,
    }
}

/// Puts an item into the row of each item from which one of these links, which are those into it, is an
/// independent flow edge.
fn add_readers(
    places: &[Option<usize>],
    links: &[Link],
    item: usize,
    rows: &mut Vec<Vec<usize>>,
) -> Result<(), NoMemory>
    requires { (n k : ℕ) → number_at places.now n ≡ Some k → k < length rows.old.items }
    ensures count { length rows.new.items ≡ length rows.old.items }
    ensures rows { OnOk result ((a b : ℕ) → Contains (numbers_at (numbers_of rows.new.items) a) b
        ↔ (Contains (numbers_at (numbers_of rows.old.items) a) b ⊎ ((b ≡ item) × IsReadFrom places.now links.now a))) }
{
    for link in links {
        if !is_independent(link.kind) {
            continue;
        }
        let Some(source) = number_at(places, link.from) else {
            continue;
        };
        push_at(rows, source, item)?;
    }
    Ok(())
}

/// Puts the number at the end of a row.
pub(crate) fn push_at(rows: &mut Vec<Vec<usize>>, at: usize, number: usize) -> Result<(), NoMemory>
    requires { at < length rows.old.items }
    ensures count { length rows.new.items ≡ length rows.old.items }
    ensures pushed { OnOk result (IsPushed (numbers_of rows.old.items) at number (numbers_of rows.new.items)) }
    ensures exact { OnOk result (numbers_of rows.new.items ≡ with_number (numbers_of rows.old.items) at number) }
{
    let row = &mut rows[at];
    row.push(number)?;
    Ok(())
}
