//! One search over the steps of a program.
ghost use Rattle.std.specs.Prelude.{◌≡◌, ◌↔◌, ◌<◌, ◌≤◌, ◌++◌, ℕ, All, IfOk, OnOk, length, take};
ghost use Rattle.std.specs.Option.{option_copied};
ghost use Rattle.hpr_search.specs.Marks.{IsMarked};
ghost use Rattle.hpr_paths.specs.Spots.{next_at, nest_at, defined_at};
ghost use Rattle.hpr_reach.specs.Reaches.{Reaches};
ghost use Rattle.hpr_reach.specs.OpenSteps.{is_at, targets, open_steps, Stops, ReachesPast};

use crate::bits::BitRow;
use hpr_paths::{Name, NoMemory, Step, Succ};
use hpr_search::{Digraph, reached};
use std::alloc::{AllocError, Global};

/// The points of a program with the steps that lead on from them: none from a point that defines
/// the name, and no back edge to one of the loops. Without a name no point stops a path.
#[derive(Drop)]
struct OpenSteps<'a> {
    succ: &'a Succ,
    name: Option<&'a Name>,
    loops: &'a [usize],
}

impl Digraph for OpenSteps<'_> {
    ghost use Rattle.std.specs.Prelude.{length};
    ghost use Rattle.std.specs.Option.{option_copied};
    ghost use Rattle.hpr_reach.specs.OpenSteps.{open_steps};

    ghost points = { λ g. length g.succ.now };

    ghost steps = { λ g. open_steps g.succ.now (option_copied g.name) g.loops.now };

    fn point_count(&self) -> usize {
        self.succ.points()
    }

    fn push_steps(&self, point: usize, into: &mut Vec<usize>) -> Result<(), AllocError> {
        let steps = self.succ.next(point);
        if is_at(self.succ, point, self.name) {
            return Ok(());
        }
        push_targets(steps, self.loops, into)
    }
}

/// Whether the point defines the name.
fn is_at(succ: &Succ, point: usize, name: Option<&Name>) -> bool
    requires { point < length succ.now }
    ensures { result ≡ is_at (option_copied name.entry) (defined_at succ.now point) }
{
    match (name, succ.defines(point)) {
        (Some(name), Some(defined)) => name.is_same(defined),
        _ => false,
    }
}

/// Puts the points of the steps that are no back edge to one of the loops behind the list.
fn push_targets(steps: &[Step], loops: &[usize], into: &mut Vec<usize>) -> Result<(), AllocError>
    ensures { OnOk result (into.new.items ≡ into.old.items ++ targets loops.now steps.now) }
{
    for step in steps {
        if !(step.back && loops.contains(&step.to)) {
            into.push(step.to)?;
        }
    }
    Ok(())
}

/// Where the first step of a path may lead, whatever the point itself defines.
fn first_targets(
    alloc: Global,
    succ: &Succ,
    from: usize,
    loops: &[usize],
) -> Result<Vec<usize>, AllocError>
    requires { from < length succ.now }
    ensures targets { IfOk result (λ v. v.items ≡ targets loops.now (next_at succ.now from)) }
    ensures within { IfOk result (λ v. All (λ q. q < length succ.now) v.items) }
{
    let mut starts = Vec::new(alloc);
    push_targets(succ.next(from), loops, &mut starts)?;
    Ok(starts)
}

/// Marks the points to which a path goes that no point strictly in between stops by defining the
/// name, with no back edge to one of the loops.
pub(crate) fn reach_past(
    alloc: Global,
    succ: &Succ,
    from: usize,
    name: Option<&Name>,
    loops: &[usize],
) -> Result<BitRow, NoMemory>
    requires { from < length succ.now }
    ensures size { IfOk result (λ row. length row ≡ length succ.now) }
    ensures exact { IfOk result (λ row. (q : ℕ) → IsMarked row q ↔ ReachesPast succ.now
        (Stops succ.now (option_copied name.entry)) loops.now from q) }
{
    let starts = first_targets(alloc, succ, from, loops)?;
    let graph = OpenSteps { succ, name, loops };
    Ok(BitRow::new(reached(alloc, &graph, starts.as_slice())?))
}

/// Marks the points to which an undisturbed path for the name goes, with no back edge to one of
/// the first `cut` loops that enclose `from`, the outermost first.
///
/// An undisturbed path has at least one step, and no point strictly in between defines the name
/// (Horwitz, Prins and Reps 1989). So what `from` itself defines is no matter, and `from` is
/// marked only where a path comes back to it. `from` is below `points`, and `cut` is at most the
/// length of its nest. Looks once at each step that leaves a marked point.
pub fn reach(
    alloc: Global,
    succ: &Succ,
    from: usize,
    name: &Name,
    cut: usize,
) -> Result<BitRow, NoMemory>
    requires from { from < length succ.now }
    requires cut { cut ≤ length (nest_at succ.now from) }
    ensures size { IfOk result (λ row. length row ≡ length succ.now) }
    ensures exact { IfOk result (λ row. (q : ℕ) → IsMarked row q ↔ Reaches succ.now name.now
        (take cut (nest_at succ.now from)) from q) }
{
    let loops = &succ.nest(from)[..cut];
    reach_past(alloc, succ, from, Some(name), loops)
}
