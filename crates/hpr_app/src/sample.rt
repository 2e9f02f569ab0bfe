//! The command `sample`.
ghost use Rattle.std.specs.Prelude.{◌≡◌, ◌++◌, IfOk, codes, string_bytes};
ghost use Rattle.std.specs.Fmt.{decimal};
ghost use Rattle.hpr_sample.specs.Sample.{IsSampleSize};
ghost use Rattle.hpr_inputs.specs.Answer.{Merges};
ghost use Rattle.hpr_inputs.specs.Decision.{prints};
ghost use Rattle.hpr_decisions.specs.Graphs.{OnGraphs};
ghost use Rattle.hpr_decisions.specs.Sampled.{IsSampled, SampleOutcome, sample_line};

use crate::integrate::stopped;
use hpr_engine::integrate;
use hpr_inputs::{Kind, Report, Stop};
use hpr_sample::{SampleSet, sample};
use hpr_syntax::Program;
use hpr_terms::limits::DEFAULT_TRIES;
use std::alloc::{AllocError, Global};

/// Makes the sample of a seed, integrates its two variants with their base, and prints how many parts
/// each of the programs has. Where there is no merged program, it is said why.
pub fn sample_seed(alloc: Global, seed: u64, parts: usize) -> Result<Report, Stop>
    requires { IsSampleSize parts }
    ensures { Merges (SampleOutcome seed parts) result }
{
    let set = sample(alloc, seed, parts)?;
    integrate_set(alloc, seed, parts, &set)
}

/// The answer for the programs of a sample.
fn integrate_set(alloc: Global, seed: u64, parts: usize, set: &SampleSet) -> Result<Report, Stop>
    ensures { Merges (λ r. OnGraphs (codes "base") set.now.base (codes "A") set.now.a (codes "B") set.now.b
        (IsSampled seed parts set.now.base set.now.a set.now.b r) r) result }
{
    match integrate(alloc, &set.base, &set.a, &set.b, DEFAULT_TRIES) {
        Ok(merged) => show_parts(alloc, seed, parts, set, &merged),
        Err(stop) => stopped(alloc, "base", "A", "B", DEFAULT_TRIES, &stop),
    }
}

/// The report where there is a merged program.
fn show_parts(
    alloc: Global,
    seed: u64,
    parts: usize,
    set: &SampleSet,
    merged: &Program,
) -> Result<Report, Stop>
    ensures { Merges (λ r. r ≡ prints Kind.Done
        (sample_line seed parts set.now.base set.now.a set.now.b merged.now)) result }
{
    let base = set.base.part_count();
    let a = set.a.part_count();
    let b = set.b.part_count();
    let line = parts_line(alloc, seed, parts, base, a, b, merged.part_count())?;
    Ok(Report {
        kind: Kind::Done,
        text: line.into_bytes(),
    })
}

/// The line of a sample, whose programs have so many parts.
fn parts_line(
    alloc: Global,
    seed: u64,
    parts: usize,
    base: usize,
    a: usize,
    b: usize,
    merged: usize,
) -> Result<String, AllocError>
    ensures { IfOk result (λ line. string_bytes line ≡ codes "sample " ++ decimal seed ++ codes " " ++ decimal parts
        ++ codes ": base " ++ decimal base ++ codes " parts, A " ++ decimal a ++ codes ", B " ++ decimal b
        ++ codes ", merged " ++ decimal merged ++ codes "\n") }
{
    let mut line = begun(alloc, seed, parts)?;
    let middle = bases(alloc, base, a)?;
    line.push_str(middle.as_str())?;
    let end = ended(alloc, b, merged)?;
    line.push_str(end.as_str())?;
    Ok(line)
}

fn begun(alloc: Global, seed: u64, parts: usize) -> Result<String, AllocError>
    ensures { IfOk result (λ text. string_bytes text ≡ codes "sample " ++ decimal seed ++ codes " " ++ decimal parts
        ++ codes ": base ") }
{
    format!(in alloc; "sample {seed} {parts}: base ")
}

fn bases(alloc: Global, base: usize, a: usize) -> Result<String, AllocError>
    ensures { IfOk result (λ text. string_bytes text ≡ decimal base ++ codes " parts, A " ++ decimal a ++ codes ", B ") }
{
    format!(in alloc; "{base} parts, A {a}, B ")
}

fn ended(alloc: Global, b: usize, merged: usize) -> Result<String, AllocError>
    ensures { IfOk result (λ text. string_bytes text ≡ decimal b ++ codes ", merged " ++ decimal merged ++ codes "\n") }
{
    format!(in alloc; "{b}, merged {merged}\n")
}
