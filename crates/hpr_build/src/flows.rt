//! The flow edges from one definition, by points.
ghost use Rattle.std.specs.Prelude.{◌≡◌, ℕ, ◌+◌, ◌-◌, ◌<◌, ◌≤◌, ◌⊎◌, ◌↔◌, [], None, false, vec_len, length, All, Contains, OnOk, IfOk, IsTrue, map, replicate, slice_index_or};
ghost use Rattle.hpr_search.specs.Marks.{IsMarked};
ghost use Rattle.hpr_paths.specs.Spots.{nest_at, defined_at};
ghost use Rattle.hpr_reach.specs.Reaches.{back_to, Reaches};
ghost use Rattle.hpr_reach.specs.Flows.{Leaves, ComesRound, GoesOn, PartsAt};
ghost use Rattle.hpr_build.specs.declared.flows.Flow.{Flow};
ghost use Rattle.hpr_build.specs.Flows.{IsFlowAt, CutsTo, AreCuts, IsCarriedBy, CarriesTo, AreCarries, IsFlowBelow};
ghost use Rattle.hpr_graph.specs.Graphs.{IsOnce};

use crate::lists::push_if;
use hpr_paths::{Name, NoMemory, Step, Succ};
use hpr_reach::{BitRow, reach};
use hpr_search::is_marked;
use std::alloc::{AllocError, Global};

/// Most definitions reach no more users than these, so that their list seldom grows.
const FEW_USERS: usize = 8;

/// How a value comes to a use: without the back edge of a loop that encloses both ends, or with
/// that of the loop at this point, which encloses both.
#[derive(Clone, Copy)]
pub(crate) enum FlowKind {
    Independent,
    Carried(usize),
}

/// A flow edge from a definition, by the point that uses the value.
#[derive(Clone, Copy)]
pub(crate) struct Flow {
    pub(crate) to: usize,
    pub(crate) kind: FlowKind,
}

/// What a definition reaches where the back edges of the outermost loops around it are cut: for
/// each number of loops the place of its row. A number that cuts no more than the one before has
/// the same row.
struct CutRows {
    rows: Vec<BitRow>,
    places: Vec<usize>,
}

/// The rows and their places are dropped in one call.
impl Drop for CutRows {
    fn drop(self) {
        let CutRows { rows: _, places: _ } = self;
    }
}

/// Whether the point defines the name.
fn is_defined(succ: &Succ, point: usize, name: &Name) -> bool
    requires { point < length succ.now }
    ensures { IsTrue result ↔ (defined_at succ.now point ≡ Some name.now) }
{
    match succ.defines(point) {
        Some(defined) => defined.is_same(name),
        None => false,
    }
}

/// Whether the value leaves the point: the point is its definition, or the value comes there and
/// stays.
fn leaves(succ: &Succ, from: usize, name: &Name, row: &BitRow, point: usize) -> bool
    requires point { point < length succ.now }
    requires row { CutsTo succ.now name.now from 0 row.now }
    ensures { IsTrue result ↔ Leaves succ.now name.now from point }
{
    point == from || (row.has(point) && !is_defined(succ, point, name))
}

/// Marks the loops to which one of the steps is a back edge.
fn mark_backs(round: &mut Vec<bool>, steps: &[Step])
    requires { All (λ s. s.to < vec_len round.old) steps.now }
    ensures len { vec_len round.new ≡ vec_len round.old }
    ensures marks { (w : ℕ) → IsMarked round.new.items w ↔ (IsMarked round.old.items w
        ⊎ Contains steps.now (back_to w)) }
{
    for step in steps {
        if step.back {
            round[step.to] = true;
        }
    }
}

fn blank(alloc: Global, points: usize) -> Result<Vec<bool>, AllocError>
    ensures { IfOk result (λ row. row.items ≡ replicate points false) }
{
    vec![in alloc; false; points]
}

/// Marks the loops to whose predicates the value comes round.
fn rounds(
    alloc: Global,
    succ: &Succ,
    from: usize,
    name: &Name,
    row: &BitRow,
) -> Result<Vec<bool>, NoMemory>
    requires from { from < length succ.now }
    requires size { length row.now ≡ length succ.now }
    requires row { CutsTo succ.now name.now from 0 row.now }
    ensures { IfOk result (λ round. (w : ℕ) → IsMarked round.items w ↔ ComesRound succ.now name.now w from) }
{
    let mut round = blank(alloc, succ.points())?;
    mark_backs(&mut round, succ.next(from));
    let points = row.points();
    for point in points {
        if leaves(succ, from, name, row, *point) {
            mark_backs(&mut round, succ.next(*point));
        }
    }
    Ok(round)
}

/// A row that marks these points.
pub(crate) fn marked(alloc: Global, count: usize, points: &[usize]) -> Result<Vec<bool>, NoMemory>
    requires { All (λ p. p < count) points.now }
    ensures { IfOk result (λ row. (p : ℕ) → IsMarked row.items p ↔ Contains points.now p) }
{
    let mut row = blank(alloc, count)?;
    for point in points {
        row[*point] = true;
    }
    Ok(row)
}

/// The points of the row that are users.
fn reached_users(alloc: Global, row: &BitRow, users: &[bool]) -> Result<Vec<usize>, NoMemory>
    ensures exact { IfOk result (λ points. (p : ℕ) → Contains points.items p
        ↔ (IsMarked row.now p × IsMarked users.now p)) }
    ensures once { IfOk result (λ points. IsOnce points.items) }
{
    let mut reached = Vec::with_capacity(alloc, FEW_USERS)?;
    let points = row.points();
    for point in points {
        push_if(is_marked(users, *point), *point, &mut reached)?;
    }
    Ok(reached)
}

/// The place of the row with so many loops cut: of a new one where the last of them is one that the
/// value comes round to, and else of the last row, which has one less cut.
fn add_row(
    alloc: Global,
    succ: &Succ,
    from: usize,
    name: &Name,
    cut: usize,
    comes: bool,
    rows: &mut Vec<BitRow>,
) -> Result<usize, NoMemory>
    requires from { from < length succ.now }
    requires cut { cut ≤ length (nest_at succ.now from) }
    requires some { 0 < vec_len rows.old }
    requires last { ¬ IsTrue comes → CutsTo succ.now name.now from cut
        (slice_index_or rows.old.items (vec_len rows.old - 1) []) }
    ensures last { IfOk result (λ place. vec_len rows.new ≡ place + 1) }
    ensures kept { OnOk result ((i : ℕ) → i < length rows.old.items → (i < length rows.new.items)
        × (slice_index_or rows.new.items i [] ≡ slice_index_or rows.old.items i [])) }
    ensures row { IfOk result (λ place. CutsTo succ.now name.now from cut (slice_index_or rows.new.items place [])) }
{
    if comes {
        rows.push(reach(alloc, succ, from, name, cut)?)?;
    }
    Ok(rows.len() - 1)
}

/// What the definition reaches with each number of loops cut, all of them at most, where `all` is
/// what it reaches with none cut, and `round` marks the loops to which the value comes round.
fn cut_rows(
    alloc: Global,
    succ: &Succ,
    from: usize,
    name: &Name,
    all: BitRow,
    round: &[bool],
) -> Result<CutRows, NoMemory>
    requires from { from < length succ.now }
    requires all { CutsTo succ.now name.now from 0 all }
    requires round { (w : ℕ) → IsMarked round.now w ↔ ComesRound succ.now name.now w from }
    ensures count { IfOk result (λ cuts. vec_len cuts.places ≡ length (nest_at succ.now from) + 1) }
    ensures exact { IfOk result (λ cuts. AreCuts succ.now name.now from
        (vec_len cuts.places) cuts.rows.items cuts.places.items) }
{
    let nest = succ.nest(from);
    let mut rows = Vec::new(alloc);
    rows.push(all)?;
    let mut places = Vec::new(alloc);
    places.push(0)?;
    for (i, w) in nest.iter().enumerate() {
        let comes = is_marked(round, *w);
        places.push(add_row(alloc, succ, from, name, i + 1, comes, &mut rows)?)?;
    }
    Ok(CutRows { rows, places })
}

/// What the predicate of the loop reaches, if the value comes round to it.
fn carried_row(
    alloc: Global,
    succ: &Succ,
    w: usize,
    name: &Name,
    comes: bool,
) -> Result<Option<BitRow>, NoMemory>
    requires { w < length succ.now }
    ensures { IfOk result (λ row. (u : ℕ) → IsCarriedBy row w u ↔ (IsTrue comes × GoesOn succ.now name.now w u)) }
{
    if !comes {
        return Ok(None);
    }
    Ok(Some(reach(alloc, succ, w, name, 0)?))
}

/// What is reached through the back edge of each loop around the definition, the outermost first.
fn carried_rows(
    alloc: Global,
    succ: &Succ,
    from: usize,
    name: &Name,
    round: &[bool],
) -> Result<Vec<Option<BitRow>>, NoMemory>
    requires from { from < length succ.now }
    requires round { (w : ℕ) → IsMarked round.now w ↔ ComesRound succ.now name.now w from }
    ensures count { IfOk result (λ rows. vec_len rows ≡ length (nest_at succ.now from)) }
    ensures exact { IfOk result (λ rows. AreCarries succ.now name.now from (vec_len rows) rows.items) }
{
    let mut rows = Vec::new(alloc);
    for w in succ.nest(from) {
        rows.push(carried_row(alloc, succ, *w, name, is_marked(round, *w))?)?;
    }
    Ok(rows)
}

/// How many loops enclose both.
fn common_count(a: &[usize], b: &[usize]) -> usize
    ensures { PartsAt a.now b.now result }
{
    let mut common = 0;
    while common < a.len() && common < b.len() && a[common] == b[common] {
        common += 1;
    }
    common
}

/// Whether the value is carried to the point by the loop.
fn is_carried(row: &Option<BitRow>, w: usize, user: usize) -> bool
    ensures { IsTrue result ↔ IsCarriedBy row.now w user }
{
    match row {
        None => false,
        Some(row) => user == w || row.has(user),
    }
}

/// Puts the flow edges to one point behind the others.
fn push_flows(
    user: usize,
    common: usize,
    nest: &[usize],
    cut: &BitRow,
    carries: &[Option<BitRow>],
    into: &mut Vec<Flow>,
) -> Result<(), NoMemory>
    requires carries { common ≤ length carries.now }
    requires nest { common ≤ length nest.now }
    ensures exact { OnOk result ((f : Flow) → Contains into.new.items f
        ↔ (Contains into.old.items f ⊎ IsFlowBelow common nest.now cut.now carries.now user f)) }
    ensures once { OnOk result (IsOnce into.old.items → IsOnce nest.now
        → ((f : Flow) → Contains into.old.items f → f.to ≡ user → ⊥) → IsOnce into.new.items) }
{
    let independent = Flow {
        to: user,
        kind: FlowKind::Independent,
    };
    push_if(cut.has(user), independent, into)?;
    for i in 0..common {
        let carried = Flow {
            to: user,
            kind: FlowKind::Carried(nest[i]),
        };
        push_if(is_carried(&carries[i], nest[i], user), carried, into)?;
    }
    Ok(())
}

/// The row with so many loops cut.
fn cut_row(cuts: &CutRows, cut: usize) -> &BitRow
    requires place { cut < vec_len cuts.now.places }
    requires row { slice_index_or cuts.now.places.items cut 0 < vec_len cuts.now.rows }
    ensures { result.now ≡ slice_index_or cuts.now.rows.items (slice_index_or cuts.now.places.items cut 0) [] }
{
    &cuts.rows[cuts.places[cut]]
}

/// The flow edges for the name from the point to those of the users that it flows to, where `all` is
/// what it reaches with none cut.
fn flows_to(
    alloc: Global,
    succ: &Succ,
    from: usize,
    name: &Name,
    all: BitRow,
    users: &[usize],
) -> Result<Vec<Flow>, NoMemory>
    requires from { from < length succ.now }
    requires size { length all ≡ length succ.now }
    requires all { CutsTo succ.now name.now from 0 all }
    requires users { All (λ u. u < length succ.now) users.now }
    ensures once { IfOk result (λ flows. IsOnce users.now → IsOnce flows.items) }
    ensures exact { IfOk result (λ flows. (f : Flow) → Contains flows.items f
        ↔ (Contains users.now f.to × IsFlowAt succ.now name.now from f.to f.kind)) }
{
    let round = rounds(alloc, succ, from, name, &all)?;
    let cuts = cut_rows(alloc, succ, from, name, all, &round)?;
    let carries = carried_rows(alloc, succ, from, name, &round)?;
    let nest = succ.nest(from);
    let mut flows = Vec::with_capacity(alloc, users.len())?;
    for user in users {
        let common = common_count(nest, succ.nest(*user));
        push_flows(
            *user,
            common,
            nest,
            cut_row(&cuts, common),
            &carries,
            &mut flows,
        )?;
    }
    Ok(flows)
}

/// The flow edges from a point that no loop encloses to the points that it reaches: none is carried.
fn plain_flows(alloc: Global, reached: &[usize]) -> Result<Vec<Flow>, NoMemory>
    ensures { IfOk result (λ flows. flows.items
        ≡ map (λ u. record { to = u; kind = FlowKind.Independent }) reached.now) }
{
    let mut flows = Vec::with_capacity(alloc, reached.len())?;
    for point in reached {
        flows.push(Flow {
            to: *point,
            kind: FlowKind::Independent,
        })?;
    }
    Ok(flows)
}

/// The flow edges from Enter to those of the users that the row marks: none is carried, since no loop encloses Enter.
pub(crate) fn enter_flows(
    alloc: Global,
    row: &BitRow,
    users: &[usize],
) -> Result<Vec<Flow>, NoMemory>
    ensures once { IfOk result (λ flows. IsOnce users.now → IsOnce flows.items) }
    ensures exact { IfOk result (λ flows. (f : Flow) → Contains flows.items f
        ↔ ((f.kind ≡ FlowKind.Independent) × Contains users.now f.to × IsMarked row.now f.to)) }
{
    let mut flows = Vec::new(alloc);
    for user in users {
        let flow = Flow {
            to: *user,
            kind: FlowKind::Independent,
        };
        push_if(row.has(*user), flow, &mut flows)?;
    }
    Ok(flows)
}

/// The flow edges for the name from the point to those of the marked points that it flows to, as if it
/// defined the name (Horwitz, Prins and Reps 1989).
///
/// Takes one search for each loop around the point that the value comes round to, one more with
/// that loop's back edges cut, and one with none cut; where no loop is around the point, this one alone. Each
/// search looks at the points that it reaches, and at no others.
pub(crate) fn flows_from(
    alloc: Global,
    succ: &Succ,
    from: usize,
    name: &Name,
    users: &[bool],
) -> Result<Vec<Flow>, NoMemory>
    requires { from < length succ.now }
    ensures once { IfOk result (λ flows. IsOnce flows.items) }
    ensures exact { IfOk result (λ flows. (f : Flow) → Contains flows.items f
        ↔ (IsMarked users.now f.to × IsFlowAt succ.now name.now from f.to f.kind)) }
{
    let all = reach(alloc, succ, from, name, 0)?;
    let reached = reached_users(alloc, &all, users)?;
    if succ.nest(from).is_empty() {
        return plain_flows(alloc, &reached);
    }
    flows_to(alloc, succ, from, name, all, &reached)
}
