//! The command `affected`.
ghost use Rattle.std.specs.Prelude.{IfOk};
ghost use Rattle.hpr_graph.specs.Numbered.{graph_in};
ghost use Rattle.hpr_graph.specs.Whole.{IsWhole};
ghost use Rattle.hpr_located.specs.Sources.{standing_of};
ghost use Rattle.hpr_kit.specs.Graphs.{AreReasonsTold, OnGraph};
ghost use Rattle.hpr_kit.specs.Private.Graphs.{Says};
ghost use Rattle.hpr_kit.specs.Private.Replies.{seen};

use crate::graphs::{graph_for, print_line};
use crate::load::Halt;
use crate::reply::Reply;
use hpr_graph::Graph;
use hpr_impact::{reasons, reasons_value};
use hpr_located::Source;
use hpr_syntax::{NoMemory, Program};
use std::alloc::Global;

/// The affected points of a variant of base, with their reasons.
pub(crate) fn affected_reply(
    alloc: Global,
    base: &str,
    base_program: &Program,
    variant: &str,
    program: &Program,
    source: Source,
) -> Result<Reply, Halt>
    ensures { Says (λ a. OnGraph base.now base_program.now (λ h. OnGraph variant.now program.now
        (λ g. AreReasonsTold g h (standing_of source) a) a) a) result }
{
    let _base_body = base_program.body();
    let _body = program.body();
    let base_graph = graph_for(alloc, base, base_program)?;
    let graph = graph_for(alloc, variant, program)?;
    Ok(reasons_told(alloc, &graph, &base_graph, source)?)
}

fn reasons_told(
    alloc: Global,
    graph: &Graph,
    base: &Graph,
    source: Source,
) -> Result<Reply, NoMemory>
    requires graph { IsWhole (graph_in graph.now) }
    requires base { IsWhole (graph_in base.now) }
    ensures { IfOk result (λ reply. AreReasonsTold graph.now base.now (standing_of source) (seen reply)) }
{
    let found = reasons(alloc, graph, base)?;
    let value = reasons_value(alloc, found.as_slice(), &[source])?;
    print_line(alloc, &value)
}
