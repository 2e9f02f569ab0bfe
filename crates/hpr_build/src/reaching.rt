//! For each use of a name the definitions that reach it.
ghost use Rattle.std.specs.Prelude.{◌≡◌, ◌↔◌, ◌<◌, ◌≤◌, ℕ, [], All, Contains, IfOk, IsTrue, length, vec_len};
ghost use Rattle.std.specs.List.Sorted.{IsStrictlyIncreasing};
ghost use Rattle.hpr_search.specs.Marks.{IsMarked};
ghost use Rattle.hpr_paths.specs.Spots.{UsesAt};
ghost use Rattle.hpr_paths.specs.Successors.{spots};
ghost use Rattle.hpr_reach.specs.Reaches.{Reaches};
ghost use Rattle.hpr_build.specs.Links.{vertices_of};
ghost use Rattle.hpr_build.specs.Reaching.{AreReached, AreReaching, HasFlowFrom, HasFlows, IsFlowKind, IsSourceBelow};
ghost use Rattle.hpr_build.specs.Stages.{AreTables, IsVariable};

use crate::flow_links::target_of;
use crate::flows::marked;
use crate::lists::{ascending, push_if};
use crate::tables::{Tables, Variable};
use hpr_graph::{Draft, Link, LinkKind};
use hpr_paths::{Name, NoMemory, Succ};
use hpr_reach::{BitRow, reach};
use hpr_search::is_marked;
use std::alloc::Global;

/// No more definitions than these reach most uses, so that their list seldom grows.
const FEW_SOURCES: usize = 8;

/// Whether an edge of this kind is a flow edge.
fn is_flow(kind: LinkKind) -> bool
    ensures { IsTrue result ↔ IsFlowKind kind }
{
    match kind {
        LinkKind::Control(_) => false,
        LinkKind::Independent => true,
        LinkKind::Carried(_) => true,
        LinkKind::Order(_) => false,
    }
}

/// Whether the link is a flow edge from one of the marked definitions.
fn is_from(definers: &[bool], link: Link) -> bool
    ensures { IsTrue result ↔ (IsFlowKind link.kind × IsMarked definers.now link.from) }
{
    is_flow(link.kind) && is_marked(definers, link.from)
}

/// Those of the marked definitions from which one of the links is a flow edge, ascending.
fn sources_among(alloc: Global, definers: &[bool], links: &[Link]) -> Result<Vec<usize>, NoMemory>
    ensures ascending { IfOk result (λ sources. IsStrictlyIncreasing sources.items) }
    ensures exact { IfOk result (λ sources. (p : ℕ) → Contains sources.items p
        ↔ (IsMarked definers.now p × HasFlowFrom links.now p)) }
{
    let mut sources = Vec::with_capacity(alloc, FEW_SOURCES)?;
    for link in links {
        push_if(is_from(definers, *link), link.from, &mut sources)?;
    }
    Ok(ascending(sources))
}

/// The definitions of the name, which are marked, that reach one use of it: by the flow edges in the graph.
fn row_for(
    alloc: Global,
    tables: &Tables,
    variable: &Variable,
    definers: &[bool],
    user: usize,
    graph: &Draft,
) -> Result<Vec<usize>, NoMemory>
    requires tables { AreTables tables.now }
    requires variable { IsVariable tables.now.program.now variable.now }
    requires definers { (p : ℕ) → IsMarked definers.now p ↔ Contains variable.now.definitions.now p }
    requires user { UsesAt (spots tables.now.program.now) user variable.now.name.now }
    requires vertices { graph.now.vertices ≡ vertices_of tables.now.program.now tables.now.inits.items }
    requires flows { HasFlows tables.now.program.now tables.now.inits.items graph.now }
    ensures ascending { IfOk result (λ row. IsStrictlyIncreasing row.items) }
    ensures exact { IfOk result (λ row. (p : ℕ) → Contains row.items p ↔ (Contains variable.now.definitions.now p
        × Reaches (spots tables.now.program.now) variable.now.name.now [] p user)) }
{
    let to = target_of(tables.exit, variable.final_number, user);
    sources_among(alloc, definers, graph.edges_into(to))
}

/// What each of the points reaches.
fn searches(
    alloc: Global,
    succ: &Succ,
    name: &Name,
    points: &[usize],
) -> Result<Vec<BitRow>, NoMemory>
    requires { All (λ p. p < length succ.now) points.now }
    ensures len { IfOk result (λ rows. vec_len rows ≡ length points.now) }
    ensures exact { IfOk result (λ rows. AreReached succ.now name.now points.now rows.items) }
{
    let mut rows = Vec::new(alloc);
    for point in points {
        rows.push(reach(alloc, succ, *point, name, 0)?)?;
    }
    Ok(rows)
}

/// Those of the points whose rows mark the user, ascending.
fn points_to(
    alloc: Global,
    points: &[usize],
    rows: &[BitRow],
    user: usize,
) -> Result<Vec<usize>, NoMemory>
    requires { length points.now ≤ length rows.now }
    ensures ascending { IfOk result (λ row. IsStrictlyIncreasing row.items) }
    ensures exact { IfOk result (λ row. (p : ℕ) → Contains row.items p
        ↔ IsSourceBelow (length points.now) points.now rows.now user p) }
{
    let mut row = Vec::with_capacity(alloc, FEW_SOURCES)?;
    for (at, point) in points.iter().enumerate() {
        push_if(rows[at].has(user), *point, &mut row)?;
    }
    Ok(ascending(row))
}

/// For each of the users of the name the definitions that reach it, by a search from each definition.
fn rows_by_searches(
    alloc: Global,
    tables: &Tables,
    variable: &Variable,
) -> Result<Vec<Vec<usize>>, NoMemory>
    requires tables { AreTables tables.now }
    requires variable { IsVariable tables.now.program.now variable.now }
    ensures len { IfOk result (λ rows. vec_len rows ≡ length variable.now.users.now) }
    ensures exact { IfOk result (λ rows. AreReaching (spots tables.now.program.now) variable.now.name.now
        variable.now.definitions.now variable.now.users.now rows.items) }
{
    let definitions = variable.definitions;
    let reached = searches(alloc, &tables.succ, variable.name, definitions)?;
    let mut rows = Vec::with_capacity(alloc, variable.users.len())?;
    for user in variable.users {
        rows.push(points_to(alloc, definitions, &reached, *user)?)?;
    }
    Ok(rows)
}

/// Whether searches from the definitions come to fewer points than there are edges into the users, by what a
/// point has of edges on average. Either way the rows are the same.
fn is_dense(tables: &Tables, variable: &Variable, graph: &Draft) -> bool {
    let points = tables.succ.points();
    let searched = variable.definitions.len().saturating_mul(points);
    searched
        < variable
            .users
            .len()
            .saturating_mul(graph.edge_count() / points)
}

/// For each of the users of the name the definitions that reach it: the sources of the flow edges into it,
/// which are in the graph.
///
/// Looks at each edge into a user.
fn rows_by_edges(
    alloc: Global,
    tables: &Tables,
    variable: &Variable,
    graph: &Draft,
) -> Result<Vec<Vec<usize>>, NoMemory>
    requires tables { AreTables tables.now }
    requires variable { IsVariable tables.now.program.now variable.now }
    requires vertices { graph.now.vertices ≡ vertices_of tables.now.program.now tables.now.inits.items }
    requires flows { HasFlows tables.now.program.now tables.now.inits.items graph.now }
    ensures len { IfOk result (λ rows. vec_len rows ≡ length variable.now.users.now) }
    ensures exact { IfOk result (λ rows. AreReaching (spots tables.now.program.now) variable.now.name.now
        variable.now.definitions.now variable.now.users.now rows.items) }
{
    let definers = marked(alloc, tables.succ.points(), variable.definitions)?;
    let mut rows = Vec::with_capacity(alloc, variable.users.len())?;
    for user in variable.users {
        let row = row_for(alloc, tables, variable, &definers, *user, graph)?;
        rows.push(row)?;
    }
    Ok(rows)
}

/// For each of the users of the name the definitions that reach it.
///
/// Looks at the edges into the users, or at what the definitions reach, whichever are fewer.
pub(crate) fn reaching_rows(
    alloc: Global,
    tables: &Tables,
    variable: &Variable,
    graph: &Draft,
) -> Result<Vec<Vec<usize>>, NoMemory>
    requires tables { AreTables tables.now }
    requires variable { IsVariable tables.now.program.now variable.now }
    requires vertices { graph.now.vertices ≡ vertices_of tables.now.program.now tables.now.inits.items }
    requires flows { HasFlows tables.now.program.now tables.now.inits.items graph.now }
    ensures len { IfOk result (λ rows. vec_len rows ≡ length variable.now.users.now) }
    ensures exact { IfOk result (λ rows. AreReaching (spots tables.now.program.now) variable.now.name.now
        variable.now.definitions.now variable.now.users.now rows.items) }
{
    if is_dense(tables, variable, graph) {
        return rows_by_searches(alloc, tables, variable);
    }
    rows_by_edges(alloc, tables, variable, graph)
}
