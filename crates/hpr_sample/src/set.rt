//! The sample of a seed.
ghost use Rattle.std.specs.Prelude.{◌≡◌, IfOk};
ghost use Rattle.hpr_sample.specs.Sample as spec;
ghost use Rattle.hpr_sample.specs.Sample.{IsSampleSize};

use crate::base::base;
use crate::variant::with_part;
use hpr_syntax::Program;
use hpr_terms::{Binary, NoMemory};
use rand_core::SeedableRng;
use rand_xoshiro::SplitMix64;
use std::alloc::Global;

/// A base and two variants of it, each with one part more.
pub struct SampleSet {
    pub base: Program,
    pub a: Program,
    pub b: Program,
}

// By hand, so that each way out of a function that holds a sample is one call.
impl Drop for SampleSet {
    fn drop(self) {
        let SampleSet {
            base: _,
            a: _,
            b: _,
        } = self;
    }
}

/// The sample of a seed, of so many parts: 1 to 3,998, so that base with both new parts is a program.
///
/// The words of the generator `SplitMix64`, begun with the seed, are drawn in turn: for the groups of
/// assignments, conditionals and loops of the base over the variables `v0` to `v7` and `c`, and then for
/// the place and the operands of A's part `a := V + V;` and of B's part `b := V * V;`.
///
/// # Errors
///
/// `NoMemory` alone.
pub fn sample(alloc: Global, seed: u64, parts: usize) -> Result<SampleSet, NoMemory>
    requires { IsSampleSize parts }
    ensures base { IfOk result (λ s. s.base ≡ (spec.sample seed parts).base) }
    ensures a { IfOk result (λ s. s.a ≡ (spec.sample seed parts).a) }
    ensures b { IfOk result (λ s. s.b ≡ (spec.sample seed parts).b) }
{
    let mut words = SplitMix64::seed_from_u64(seed);
    let base = base(alloc, &mut words, parts)?;
    let a = with_part(alloc, &mut words, &base, 2, "a", Binary::Add)?;
    let b = with_part(alloc, &mut words, &base, 3, "b", Binary::Mul)?;
    Ok(SampleSet { base, a, b })
}
