//! Calls of hpr_sample, and of the generator that it draws from.
use hpr_rows::{Out, Row, put_count, put_program};
use hpr_sample::{SampleSet, sample};
use hpr_terms::limits::MAX_PARTS;
use rand_core::SeedableRng;
use rand_core::utils::NextWord;
use rand_xoshiro::SplitMix64;
use std::alloc::Global;

/// Answers the call.
pub(crate) fn call(row: Row<'_>, out: &mut Out) -> Option<()> {
    match row.word(1)? {
        "words" => words(row, out),
        _ => programs(row, out),
    }
}

// `words SEED`: the first two words of the generator.
fn words(row: Row<'_>, out: &mut Out) -> Option<()> {
    let mut words = SplitMix64::seed_from_u64(row.count(2)?);
    put_count(out, "word ", words.next_word());
    put_count(out, "word ", words.next_word());
    Some(())
}

// `programs SEED PARTS`: base, A and B.
fn programs(row: Row<'_>, out: &mut Out) -> Option<()> {
    let seed = row.count(2)?;
    let parts = row.number(3)?;
    if parts < 1 || parts > MAX_PARTS - 2 {
        return None;
    }
    match sample(row.alloc, seed, parts) {
        Ok(set) => put_set(row.alloc, out, &set),
        Err(_) => out.cut(),
    }
    Some(())
}

fn put_set(alloc: Global, out: &mut Out, set: &SampleSet) {
    put_program(alloc, out, &set.base);
    put_program(alloc, out, &set.a);
    put_program(alloc, out, &set.b);
}
