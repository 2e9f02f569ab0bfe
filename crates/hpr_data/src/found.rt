//! What a request comes to, before it is told.
use hpr_graph::{Graph, ManyConflict};
use hpr_refusals::Refusal;
use hpr_run::Outcome;
use hpr_syntax::{NoMemory, Program};
use hpr_verify::Verdict;

/// What a request comes to.
#[derive(Drop)]
pub(crate) enum Found {
    /// The program of an integration.
    Merged(Program),
    /// The variants interfere: these are all conflicts.
    Interference(Vec<ManyConflict>),
    /// No program has the merged graph, which has so many parts.
    NoProgram(usize),
    /// The budget of so many tries is spent.
    Spent(u64),
    /// The affected points of this graph, by their numbers.
    Affected(Graph, Vec<usize>),
    /// The graph of a program.
    Graph(Graph),
    /// The verdict on a merged program that was made elsewhere.
    Judged(Verdict),
    /// How a run went.
    Ran(Outcome),
}

/// Why a request comes to nothing that it asks for.
#[derive(Drop)]
pub(crate) enum Stop<'a> {
    /// It is none of the five commands.
    NoCall,
    /// A word of the state is refused, with this message.
    Word(String),
    /// No text has this name.
    Absent(&'a str),
    /// The text with this name is refused.
    Refused(&'a str, Refusal),
    /// The program of the text with this name has a graph with too many edges.
    TooManyEdges(&'a str),
    /// Memory ran out.
    Memory,
}

impl<'a> From<NoMemory> for Stop<'a> {
    ghost use Rattle.std.specs.Prelude.{◌≡◌};
    ghost use Rattle.hpr_data.specs.declared.found.Stop.TheVariants.{Memory};

    ghost from_gives = { λ _ stop. stop ≡ Memory };

    fn from(_error: NoMemory) -> Stop<'a> {
        Stop::Memory
    }
}
