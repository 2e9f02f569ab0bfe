//! The command `impact`.
ghost use Rattle.std.specs.Prelude.{◌≡◌, ◌<◌, All, IfOk, length, map};
ghost use Rattle.hpr_located.specs.Sources.{standing_of};
ghost use Rattle.hpr_kit.specs.Graphs.{IsImpactTold, OnGraph, OnPoints};
ghost use Rattle.hpr_kit.specs.Private.Graphs.{Says};
ghost use Rattle.hpr_kit.specs.Private.Replies.{seen};

use crate::graphs::{graph_for, print_line};
use crate::load::Halt;
use crate::refused::says;
use crate::reply::{Reply, Stop, prints};
use crate::status::Status;
use hpr_graph::Graph;
use hpr_impact::{impact_marks, impact_text, impact_value};
use hpr_inputs as inputs;
use hpr_located::Source;
use hpr_syntax::{NoMemory, Program};
use hprkit_words::ImpactForm;
use std::alloc::Global;

/// What a change at some points of the program of a file can reach, in this form.
pub(crate) fn impact_reply(
    alloc: Global,
    file: &str,
    bytes: &[u8],
    program: &Program,
    source: Source,
    points: &[&str],
    form: ImpactForm,
) -> Result<Reply, Halt>
    ensures { Says (λ a. OnGraph file.now program.now (λ g. OnPoints g (map (λ w. w.now) points.now)
        (λ ns. IsImpactTold form g ns bytes.now (standing_of source) a) a) a) result }
{
    let graph = graph_for(alloc, file, program)?;
    reached_reply(alloc, &graph, bytes, source, points, form)
}

/// The same of its graph.
fn reached_reply(
    alloc: Global,
    graph: &Graph,
    bytes: &[u8],
    source: Source,
    points: &[&str],
    form: ImpactForm,
) -> Result<Reply, Halt>
    ensures { Says (λ a. OnPoints graph.now (map (λ w. w.now) points.now)
        (λ ns. IsImpactTold form graph.now ns bytes.now (standing_of source) a) a) result }
{
    match inputs::read_points(alloc, graph, points) {
        Ok(numbers) => Ok(impact_told(alloc, graph, numbers.as_slice(), bytes, source, form)?),
        Err(inputs::Stop::Refused(message)) => {
            Err(Halt::Refused(says(alloc, Status::Refused, message.into_bytes())))
        }
        Err(inputs::Stop::ReadFault(_)) => unreachable!(),
        Err(inputs::Stop::Memory) => Err(Halt::Stop(Stop::Memory)),
    }
}

fn impact_told(
    alloc: Global,
    graph: &Graph,
    numbers: &[usize],
    bytes: &[u8],
    source: Source,
    form: ImpactForm,
) -> Result<Reply, NoMemory>
    requires { All (λ n. n < length graph.now.vertices) numbers.now }
    ensures { IfOk result (λ reply.
        IsImpactTold form graph.now numbers.now bytes.now (standing_of source) (seen reply)) }
{
    match form {
        ImpactForm::Points => Ok(prints(alloc, impact_text(alloc, graph, numbers)?)),
        ImpactForm::Json => print_line(alloc, &impact_value(alloc, graph, numbers, &[source])?),
        ImpactForm::Marks => {
            let text = impact_marks(alloc, graph, numbers, bytes, &source)?;
            Ok(prints(alloc, text))
        }
    }
}
