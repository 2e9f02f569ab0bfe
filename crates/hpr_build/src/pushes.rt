//! Links put into a graph, up to a limit.
ghost use Rattle.std.specs.Prelude.{◌≡◌, ◌↔◌, ◌⊎◌, ◌<◌, ◌≤◌, ℕ, Contains, OnOk, IsErrOf};
ghost use Rattle.hpr_graph.specs.declared.link.Link.{Link};
ghost use Rattle.hpr_graph.specs.Numbered.{HasLink, IsLink, IsNumbered, link_count};
ghost use Rattle.hpr_build.specs.declared.pushes.NewLink.{NewLink};
ghost use Rattle.hpr_graph.specs.Graphs.{IsOnce};
ghost use Rattle.hpr_build.specs.Links.{IsLinkOf, HasMoreLinks};
ghost use Rattle.hpr_build.specs.Stages.{AreTables, IsBegun};

use crate::error::BuildError;
use crate::tables::Tables;
use hpr_graph::{Draft, Link};

/// A link with the number of its target.
#[derive(Clone, Copy)]
pub(crate) struct NewLink {
    pub(crate) to: usize,
    pub(crate) link: Link,
}

/// Puts a link that isn't there into the graph, and refuses where the graph has more than `most`
/// links then.
fn push_link(graph: &mut Draft, most: usize, new: NewLink) -> Result<(), BuildError>
    requires link { IsLink graph.old new.to new.link }
    requires fresh { ¬ HasLink graph.old new.to new.link }
    ensures vertices { graph.new.vertices ≡ graph.old.vertices }
    ensures added { OnOk result ((to : ℕ) (l : Link) → HasLink graph.new to l
        ↔ (HasLink graph.old to l ⊎ ((to ≡ new.to) × (l ≡ new.link)))) }
    ensures room { OnOk result (link_count graph.new ≤ most) }
    ensures full { IsErrOf result BuildError.TooManyEdges → most < link_count graph.new }
    ensures numbered { IsErrOf result BuildError.TooManyEdges → IsNumbered graph.new }
    ensures only { IsErrOf result BuildError.TooManyEdges → (to : ℕ) (l : Link) → HasLink graph.new to l
        → (HasLink graph.old to l ⊎ ((to ≡ new.to) × (l ≡ new.link))) }
{
    graph.push_new_link(new.to, new.link)?;
    if graph.edge_count() > most {
        return Err(BuildError::TooManyEdges);
    }
    Ok(())
}

/// Puts links that aren't there into the graph of the program, and refuses where the graph has more
/// than it may have then.
pub(crate) fn push_links(
    tables: &Tables,
    links: &[NewLink],
    graph: &mut Draft,
) -> Result<(), BuildError>
    requires tables { AreTables tables.now }
    requires begun { IsBegun tables.now.program.now tables.now.inits.items tables.now.most graph.old }
    requires once { IsOnce links.now }
    requires links { (n : NewLink) → Contains links.now n
        → IsLinkOf tables.now.program.now tables.now.inits.items n.to n.link }
    requires fresh { (n : NewLink) → Contains links.now n → ¬ HasLink graph.old n.to n.link }
    ensures begun { OnOk result (IsBegun tables.now.program.now tables.now.inits.items tables.now.most graph.new) }
    ensures added { OnOk result ((to : ℕ) (l : Link) → HasLink graph.new to l
        ↔ (HasLink graph.old to l ⊎ Contains links.now (record { to = to; link = l }))) }
    ensures too_many { IsErrOf result BuildError.TooManyEdges
        → HasMoreLinks tables.now.program.now tables.now.inits.items tables.now.most }
{
    for new in links {
        push_link(graph, tables.most, *new)?;
    }
    Ok(())
}
