//! Traces: the instances of a run, and how it went.
use hpr_run::Outcome;
use hpr_syntax::{Name, Tag};

/// Where the value of a name comes from.
#[derive(Clone, Copy)]
pub enum Origin {
    /// No step before defined the name: the value is that of the first state.
    Initial,
    /// The item with this number, from 0, is the last one before that defined the name.
    Instance(usize),
}

/// What a read shows of a value.
#[derive(Clone, Copy)]
pub enum Reading {
    /// The number.
    Number(i64),
    /// How many numbers were written to the stream, or how many elements of the array aren't 0.
    Size(usize),
}

/// A name that a step reads.
#[derive(Drop)]
pub struct Read {
    pub name: Name,
    pub value: Reading,
    pub origin: Origin,
}

/// A finished step of a run: an assignment, a store, a write, or an evaluation of a predicate (Reps and Yang 1988).
#[derive(Drop)]
pub struct Instance {
    /// The part.
    pub tag: Tag,
    /// The turn of each loop that encloses the part, from 0, the outermost loop first. A loop
    /// encloses its own predicate, which so counts its own evaluations.
    pub turns: Vec<u64>,
    /// The names that the part uses, ascending, each once.
    pub reads: Vec<Read>,
    /// The number that was assigned, stored, written or decided by.
    pub value: i64,
}

/// A run, step by step.
#[derive(Drop)]
pub struct Traced {
    /// The finished steps in their order. A faulting step is none.
    pub items: Vec<Instance>,
    pub outcome: Outcome,
}
