//! Runs of programs.
ghost use Rattle.std.specs.Prelude.{◌≡◌, ◌≤◌, ◌+◌, None, IfOk, OnOk};
ghost use Rattle.hpr_syntax.specs.Body.{done};
ghost use Rattle.hpr_syntax.specs.BodyOf.{before};
ghost use Rattle.hpr_arrays.specs.Elements.{Elements};
ghost use Rattle.hpr_syntax.specs.Value.{is_true, value};
ghost use Rattle.hpr_syntax.specs.Contents.{answer_of, stored, number_or_zero, shown_of};
ghost use Rattle.hpr_syntax.specs.Parts.{tag_of, expr_of, index_of};
ghost use Rattle.hpr_syntax.specs.Rows.{content_of};
ghost use Rattle.hpr_run.specs.Acts.{given, given_of, stored_of};
ghost use Rattle.hpr_syntax.specs.Run.{run, final_values};
ghost use Rattle.hpr_run.specs.Observed.{observing, walk, walk_turns, known_in};
ghost use Rattle.hpr_run.specs.Outcomes.{outcome_of, Stepped, Did};

use crate::observer::{Nobody, Observer};
use crate::state::State;
use crate::values::{Fault, eval, index};
use hpr_syntax::{Block, Expr, Name, NoMemory, Program, Stmt, Tag, Value, expr_of};
use hpr_terms::limits::MAX_WRITTEN;
use std::alloc::Global;
use std::marker::Model;

/// Variables with their values, in an order.
///
/// A contract sees them as the list of the pairs.
#[derive(Drop)]
pub struct FinalValues {
    list: Vec<(Name, Value)>,
}

impl Model for FinalValues {
    ghost use Rattle.hpr_syntax.specs.Run.{FinalValues as Seen};

    ghost Value = { Seen };

    ghost use Rattle.std.specs.Coded.{codes};
    ghost use Rattle.hpr_syntax.specs.Private.ValueCode.{value_coded};

    ghost coded = { Prim.hlevel (codes, value_coded) };

    ghost view = { λ a. a.list.items };
}

impl FinalValues {
    /// The variables with their values, in their order.
    pub fn list(&self) -> &[(Name, Value)]
        ensures { result.now ≡ self.now }
    {
        &self.list
    }
}

/// How a run goes. A step is one assignment, one store, one write or one evaluation of a predicate.
#[derive(Drop)]
pub enum Outcome {
    /// The program ended after so many steps, with these values of the names of `end`, in its order.
    Ends { finals: FinalValues, steps: u64 },
    /// The part with this tag gives nothing. Its step is among the steps.
    Faults { tag: Tag, fault: Fault, steps: u64 },
    /// So many steps were done, which is all there were to spend, and there is a further one to do.
    More { steps: u64 },
}

// Why a run goes no further.
#[derive(Drop)]
enum Stop {
    Faulty(Tag, Fault),
    Spent,
    Memory,
}

impl From<NoMemory> for Stop {
    ghost use Rattle.std.specs.Prelude.{◌≡◌};
    ghost use Rattle.hpr_run.specs.declared.interpreter.Stop.TheVariants.{Memory};

    ghost from_gives = { λ _ e. e ≡ Memory };

    fn from(_error: NoMemory) -> Stop {
        Stop::Memory
    }
}

/// Runs a program from a state with at most this many steps. The state stays as it is.
///
/// The run is the usual one of a while program (Reps and Yang, 1988), bounded by steps and with
/// faults, which are ours; so are writes, and the arrays. A step allocates only where it assigns to a name that is new to
/// the state, stores or writes, and the recursion is as deep as the program's blocks and expressions. It fails only for
/// want of memory.
pub fn run(alloc: Global, program: &Program, state: &State, most: u64) -> Result<Outcome, NoMemory>
    ensures { IfOk result (λ o. outcome_of o ≡ run program.now state.now most) }
{
    let mut nobody = Nobody;
    run_observed(alloc, program, state, most, &(), &mut nobody)
}

/// The same run, with an observer that is told each finished step, and the turns under which the
/// program stands. What the observer allocates may fail for want of memory too.
pub fn run_observed<O: Observer>(
    alloc: Global,
    program: &Program,
    state: &State,
    most: u64,
    around: &O::Turns,
    observer: &mut O,
) -> Result<Outcome, NoMemory>
    ensures outcome { IfOk result (λ o. outcome_of o ≡ run program.now state.now most) }
    ensures known { OnOk result (observer.new
        ≡ known_in (walk (observing O.in_turn O.told O.assigned) program.now.body around.now observer.old
        state.now most)) }
{
    let mut state = state.copy(alloc)?;
    let mut left = most;
    match walk_block(
        alloc,
        program.body(),
        around,
        &mut state,
        &mut left,
        observer,
    ) {
        Ok(()) => Ok(Outcome::Ends {
            finals: final_values(alloc, program.finals(), &state)?,
            steps: most - left,
        }),
        Err(Stop::Faulty(tag, fault)) => Ok(Outcome::Faults {
            tag,
            fault,
            steps: most - left,
        }),
        Err(Stop::Spent) => Ok(Outcome::More { steps: most }),
        Err(Stop::Memory) => Err(NoMemory),
    }
}

/// The variables with their values in the state, in their order.
pub fn final_values(alloc: Global, names: &[Name], state: &State) -> Result<FinalValues, NoMemory>
    ensures { IfOk result (λ finals. finals ≡ final_values names.now state.now) }
{
    let mut list = Vec::new(alloc);
    for name in names {
        list.push((name.copy(alloc)?, state.value(alloc, name)?))?;
    }
    Ok(FinalValues { list })
}

#[cycle(walk)]
fn walk_block<O: Observer>(
    alloc: Global,
    block: &Block,
    around: &O::Turns,
    state: &mut State,
    left: &mut u64,
    observer: &mut O,
) -> Result<(), Stop>
    ensures did { let w = observing O.in_turn O.told O.assigned in
        Did result (walk w block.now around.now observer.old state.old left.old) observer.new state.new left.new }
    ensures fewer { left.new ≤ left.old }
{
    for stmt in &block.stmts {
        walk_stmt(alloc, stmt, around, state, left, observer)?;
    }
    Ok(())
}

#[cycle(walk)]
fn walk_stmt<O: Observer>(
    alloc: Global,
    stmt: &Stmt,
    around: &O::Turns,
    state: &mut State,
    left: &mut u64,
    observer: &mut O,
) -> Result<(), Stop>
    ensures did { let w = observing O.in_turn O.told O.assigned in
        Did result (walk w (before stmt.now done) around.now observer.old state.old left.old)
        observer.new state.new left.new }
    ensures fewer { left.new ≤ left.old }
{
    match stmt {
        Stmt::Assign(_, name, _) => {
            walk_assignment(alloc, stmt, name, around, state, left, observer)
        }
        Stmt::If(_, _, yes, no) => {
            if is_true(take_step(alloc, stmt, around, state, left, observer)?) {
                walk_block(alloc, yes, around, state, left, observer)
            } else {
                walk_block(alloc, no, around, state, left, observer)
            }
        }
        Stmt::While(_, _, body) => walk_loop(alloc, stmt, body, around, state, left, observer),
        Stmt::Write(_, name, _) => walk_write(alloc, stmt, name, around, state, left, observer),
        Stmt::Store(_, array, index, _) => {
            walk_store(alloc, stmt, array, index, around, state, left, observer)
        }
    }
}

fn walk_assignment<O: Observer>(
    alloc: Global,
    stmt: &Stmt,
    name: &Name,
    around: &O::Turns,
    state: &mut State,
    left: &mut u64,
    observer: &mut O,
) -> Result<(), Stop>
    requires { stmt.now ≡ Stmt.Assign (tag_of stmt.now) name.now (expr_of stmt.now) }
    ensures did { let w = observing O.in_turn O.told O.assigned in
        Did result (walk w (before stmt.now done) around.now observer.old state.old left.old)
        observer.new state.new left.new }
    ensures fewer { left.new ≤ left.old }
{
    let number = take_step(alloc, stmt, around, state, left, observer)?;
    observer.assign(alloc, name)?;
    state.assign(alloc, name, number)?;
    Ok(())
}

#[inline(never)]
fn walk_write<O: Observer>(
    alloc: Global,
    stmt: &Stmt,
    name: &Name,
    around: &O::Turns,
    state: &mut State,
    left: &mut u64,
    observer: &mut O,
) -> Result<(), Stop>
    requires { stmt.now ≡ Stmt.Write (tag_of stmt.now) name.now (expr_of stmt.now) }
    ensures did { let w = observing O.in_turn O.told O.assigned in
        Did result (walk w (before stmt.now done) around.now observer.old state.old left.old)
        observer.new state.new left.new }
    ensures fewer { left.new ≤ left.old }
{
    let number = take_step(alloc, stmt, around, state, left, observer)?;
    observer.assign(alloc, name)?;
    state.write(alloc, name, number)?;
    Ok(())
}

// A store has an index besides its number, so it takes its step by itself.
#[inline(never)]
fn walk_store<O: Observer>(
    alloc: Global,
    stmt: &Stmt,
    array: &Name,
    index: &Expr,
    around: &O::Turns,
    state: &mut State,
    left: &mut u64,
    observer: &mut O,
) -> Result<(), Stop>
    requires { stmt.now ≡ Stmt.Store (tag_of stmt.now) array.now index.now (expr_of stmt.now) }
    ensures did { let w = observing O.in_turn O.told O.assigned in
        Did result (walk w (before stmt.now done) around.now observer.old state.old left.old)
        observer.new state.new left.new }
    ensures fewer { left.new ≤ left.old }
{
    if *left == 0 {
        return Err(Stop::Spent);
    }
    *left -= 1;
    let (at, number) = match act_store(index, expr_of(stmt), state) {
        Ok(acted) => acted,
        Err(fault) => return Err(Stop::Faulty(stmt.tag(), fault)),
    };
    observer.tell(alloc, around, stmt, number, state)?;
    observer.assign(alloc, array)?;
    state.store(alloc, array, at, number)?;
    Ok(())
}

// A loop makes no more turns than it has steps, and one to see that none is left.
#[cycle(walk)]
fn walk_loop<O: Observer>(
    alloc: Global,
    stmt: &Stmt,
    body: &Block,
    around: &O::Turns,
    state: &mut State,
    left: &mut u64,
    observer: &mut O,
) -> Result<(), Stop>
    requires { stmt.now ≡ Stmt.While (tag_of stmt.now) (expr_of stmt.now) body.now }
    ensures did { let w = observing O.in_turn O.told O.assigned in
        Did result (walk_turns w 0 (left.old + 1) (tag_of stmt.now) (expr_of stmt.now) (walk w body.now) around.now
        observer.old state.old left.old)
        observer.new state.new left.new }
    ensures fewer { left.new ≤ left.old }
{
    for turn in 0..=*left {
        let turns = observer.enter(alloc, around, turn)?;
        if !is_true(take_step(alloc, stmt, &turns, state, left, observer)?) {
            return Ok(());
        }
        walk_block(alloc, body, &turns, state, left, observer)?;
    }
    Err(Stop::Spent)
}

fn is_true(number: i64) -> bool
    ensures { result ≡ is_true number }
{
    number != 0
}

// What a store does in the state, by the expressions of its index and of its number: both. The fault of the index comes
// before that of the number, and that before the range of the index.
fn act_store(place: &Expr, expr: &Expr, state: &State) -> Result<(u16, i64), Fault>
    ensures given { (es : Elements) → stored_of es result
        ≡ stored (value place.now state.now) (value expr.now state.now) es }
    ensures shown { IfOk result (λ r. r.1 ≡ number_or_zero (value expr.now state.now)) }
{
    let at = eval(place, state)?;
    let number = eval(expr, state)?;
    match index(at) {
        Some(at) => Ok((at, number)),
        None => Err(Fault::IndexRange),
    }
}

// What any other part does in the state: the number of its expression, where it gives something.
#[inline(always)]
fn act(stmt: &Stmt, state: &State) -> Result<i64, Fault>
    requires { index_of stmt.now ≡ None }
    ensures given { given_of (content_of stmt.now) state.now result ≡ answer_of (content_of stmt.now) state.now }
    ensures shown { IfOk result (λ z. z ≡ shown_of (content_of stmt.now) state.now) }
{
    let number = eval(expr_of(stmt), state)?;
    match stmt {
        Stmt::Write(_, name, _) if state.written(name) >= MAX_WRITTEN => Err(Fault::OutputFull),
        _ => Ok(number),
    }
}

// One step of a part that isn't a store: the number of its expression, if a step is left.
#[inline(always)]
fn take_step<O: Observer>(
    alloc: Global,
    stmt: &Stmt,
    around: &O::Turns,
    state: &State,
    left: &mut u64,
    observer: &mut O,
) -> Result<i64, Stop>
    requires { index_of stmt.now ≡ None }
    ensures stepped { let c = content_of stmt.now in
        Stepped result (tag_of stmt.now) (answer_of c state.now) (given c state.now)
        (O.told around.now (tag_of stmt.now) c (shown_of c state.now) state.now observer.old)
        observer.old left.old observer.new left.new }
    ensures fewer { left.new ≤ left.old }
{
    if *left == 0 {
        return Err(Stop::Spent);
    }
    *left -= 1;
    match act(stmt, state) {
        Ok(number) => {
            observer.tell(alloc, around, stmt, number, state)?;
            Ok(number)
        }
        Err(fault) => Err(Stop::Faulty(stmt.tag(), fault)),
    }
}
