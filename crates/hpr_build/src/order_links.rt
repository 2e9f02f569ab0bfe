//! The order edges of a graph.
ghost use Rattle.std.specs.Prelude.{◌≡◌, ◌↔◌, ◌⊎◌, ℕ, [], Contains, IfOk, OnOk, IsErrOf, length, map, vec_len};
ghost use Rattle.std.specs.List.Sorted.{IsStrictlyIncreasing};
ghost use Rattle.hpr_paths.specs.Spots.{UsesAt};
ghost use Rattle.hpr_paths.specs.Successors.{spots};
ghost use Rattle.hpr_reach.specs.Reaches.{Reaches};
ghost use Rattle.hpr_graph.specs.declared.link.Link.{Link};
ghost use Rattle.hpr_graph.specs.Numbered.{HasLink};
ghost use Rattle.hpr_build.specs.declared.pushes.NewLink.{NewLink};
ghost use Rattle.hpr_build.specs.Links.{IsOrderLink, HasMoreLinks};
ghost use Rattle.hpr_build.specs.NewLinks.{order_link, OrdersAt, OrdersOf};
ghost use Rattle.hpr_build.specs.Reaching.{HasFlows};
ghost use Rattle.hpr_graph.specs.Graphs.{IsOnce};
ghost use Rattle.hpr_build.specs.Stages.{AreTables, IsVariable, IsBegun};

use crate::error::BuildError;
use crate::flow_links::target_of;
use crate::orders::{Ordered, order_of};
use crate::pushes::{NewLink, push_links};
use crate::reaching::reaching_rows;
use crate::tables::{Tables, Variable, row_at, variable_at};
use hpr_graph::{Draft, Link, LinkKind};
use hpr_paths::NoMemory;
use std::alloc::Global;

/// The order edges for the use with this number as links.
fn order_links(alloc: Global, user: usize, pairs: &[Ordered]) -> Result<Vec<NewLink>, NoMemory>
    ensures { IfOk result (λ links. links.items ≡ map (order_link user) pairs.now) }
{
    let mut links = Vec::with_capacity(alloc, pairs.len())?;
    for pair in pairs {
        links.push(NewLink {
            to: pair.right,
            link: Link {
                from: pair.left,
                kind: LinkKind::Order(user),
            },
        })?;
    }
    Ok(links)
}

/// The order edges for one use of the name as links.
fn links_at(
    alloc: Global,
    tables: &Tables,
    variable: &Variable,
    reaching: &[usize],
    user: usize,
) -> Result<Vec<NewLink>, NoMemory>
    requires tables { AreTables tables.now }
    requires variable { IsVariable tables.now.program.now variable.now }
    requires ascending { IsStrictlyIncreasing reaching.now }
    requires reaching { (p : ℕ) → Contains reaching.now p ↔ (Contains variable.now.definitions.now p
        × Reaches (spots tables.now.program.now) variable.now.name.now [] p user) }
    requires user { UsesAt (spots tables.now.program.now) user variable.now.name.now }
    ensures exact { IfOk result (λ links. (n : NewLink) → Contains links.items n
        ↔ OrdersAt tables.now.program.now variable.now.name.now user n.to n.link) }
    ensures once { IfOk result (λ links. IsOnce links.items) }
{
    let pairs = order_of(alloc, &tables.places, reaching)?;
    let number = target_of(tables.exit, variable.final_number, user);
    let links = order_links(alloc, number, &pairs)?;
    Ok(links)
}

/// Puts the order edges for one use of the name into the graph.
fn push_orders_at(
    alloc: Global,
    tables: &Tables,
    variable: &Variable,
    reaching: &[usize],
    user: usize,
    graph: &mut Draft,
) -> Result<(), BuildError>
    requires tables { AreTables tables.now }
    requires variable { IsVariable tables.now.program.now variable.now }
    requires ascending { IsStrictlyIncreasing reaching.now }
    requires reaching { (p : ℕ) → Contains reaching.now p ↔ (Contains variable.now.definitions.now p
        × Reaches (spots tables.now.program.now) variable.now.name.now [] p user) }
    requires user { UsesAt (spots tables.now.program.now) user variable.now.name.now }
    requires begun { IsBegun tables.now.program.now tables.now.inits.items tables.now.most graph.old }
    requires fresh { (to : ℕ) (l : Link) → HasLink graph.old to l
        → ¬ OrdersAt tables.now.program.now variable.now.name.now user to l }
    ensures begun { OnOk result (IsBegun tables.now.program.now tables.now.inits.items tables.now.most graph.new) }
    ensures added { OnOk result ((to : ℕ) (l : Link) → HasLink graph.new to l
        ↔ (HasLink graph.old to l ⊎ OrdersAt tables.now.program.now variable.now.name.now user to l)) }
    ensures too_many { IsErrOf result BuildError.TooManyEdges
        → HasMoreLinks tables.now.program.now tables.now.inits.items tables.now.most }
{
    let links = links_at(alloc, tables, variable, reaching, user)?;
    push_links(tables, &links, graph)
}

/// Puts the order edges for the uses of one name into the graph: none, where it has fewer than two definitions.
fn push_orders_of(
    alloc: Global,
    tables: &Tables,
    variable: &Variable,
    graph: &mut Draft,
) -> Result<(), BuildError>
    requires tables { AreTables tables.now }
    requires variable { IsVariable tables.now.program.now variable.now }
    requires begun { IsBegun tables.now.program.now tables.now.inits.items tables.now.most graph.old }
    requires fresh { (to : ℕ) (l : Link) → HasLink graph.old to l
        → ¬ OrdersOf tables.now.program.now variable.now.name.now to l }
    requires flows { HasFlows tables.now.program.now tables.now.inits.items graph.old }
    ensures begun { OnOk result (IsBegun tables.now.program.now tables.now.inits.items tables.now.most graph.new) }
    ensures added { OnOk result ((to : ℕ) (l : Link) → HasLink graph.new to l
        ↔ (HasLink graph.old to l ⊎ OrdersOf tables.now.program.now variable.now.name.now to l)) }
    ensures too_many { IsErrOf result BuildError.TooManyEdges
        → HasMoreLinks tables.now.program.now tables.now.inits.items tables.now.most }
{
    if variable.definitions.len() < 2 {
        return Ok(());
    }
    let rows = reaching_rows(alloc, tables, variable, graph)?;
    for (at, user) in variable.users.iter().enumerate() {
        push_orders_at(alloc, tables, variable, row_at(&rows, at), *user, graph)?;
    }
    Ok(())
}

/// Puts the order edges into the graph.
pub(crate) fn push_orders(
    alloc: Global,
    tables: &Tables,
    graph: &mut Draft,
) -> Result<(), BuildError>
    requires tables { AreTables tables.now }
    requires begun { IsBegun tables.now.program.now tables.now.inits.items tables.now.most graph.old }
    requires fresh { (to : ℕ) (l : Link) → HasLink graph.old to l → ¬ IsOrderLink tables.now.program.now to l }
    requires flows { HasFlows tables.now.program.now tables.now.inits.items graph.old }
    ensures begun { OnOk result (IsBegun tables.now.program.now tables.now.inits.items tables.now.most graph.new) }
    ensures added { OnOk result ((to : ℕ) (l : Link) → HasLink graph.new to l
        ↔ (HasLink graph.old to l ⊎ IsOrderLink tables.now.program.now to l)) }
    ensures too_many { IsErrOf result BuildError.TooManyEdges
        → HasMoreLinks tables.now.program.now tables.now.inits.items tables.now.most }
{
    for at in 0..tables.variables.names.len() {
        push_orders_of(alloc, tables, &variable_at(tables, at), graph)?;
    }
    Ok(())
}
