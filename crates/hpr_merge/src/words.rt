//! Searches from up to 64 points at once.
ghost use Rattle.std.specs.Prelude.{◌≡◌, ◌↔◌, ◌⊎◌, ◌<◌, ◌≤◌, ◌^◌, ◌∷◌, ℕ, [], true, false, All, Some, IfOk};
ghost use Rattle.std.specs.Prelude.{length, replicate, slice_get, slice_index, sum};
ghost use Rattle.hpr_slice.specs.Steps.{AreStepsWithin};
ghost use Rattle.hpr_merge.specs.Words.{HasBit, IsClosed, IsSpread, MarkEach};

use hpr_graph::NoMemory;
use std::alloc::Global;

/// For each of so many vertices a word, whose bit `i` is set exactly where the steps lead from the vertex to
/// the point number `i`, or where it is this point. Goes over all steps, and again as long as that set bits.
pub(crate) fn reach_words(
    alloc: Global,
    steps: &[(usize, usize)],
    count: usize,
    points: &[usize],
) -> Result<Vec<u64>, NoMemory>
    requires steps { AreStepsWithin count steps.now }
    requires few { length points.now ≤ 64 }
    requires points { All (λ p. p < count) points.now }
    ensures count { IfOk result (λ words. length words.items ≡ count) }
    ensures marks { IfOk result (λ words. MarkEach steps.now points.now words.items) }
{
    let mut words = start_words(alloc, count, points)?;
    spread(steps, &mut words);
    Ok(words)
}

/// For each of so many vertices a word, in which each point has its own bit set.
fn start_words(alloc: Global, count: usize, points: &[usize]) -> Result<Vec<u64>, NoMemory>
    requires few { length points.now ≤ 64 }
    requires points { All (λ p. p < count) points.now }
    ensures count { IfOk result (λ words. length words.items ≡ count) }
    ensures bits { IfOk result (λ words. (x i : ℕ) → HasBit (slice_index words.items x) i
        ↔ (slice_get points.now i ≡ Some x)) }
{
    let mut words = blank_words(alloc, count)?;
    for at in 0..points.len() {
        put_bit(&mut words, points[at], at);
    }
    Ok(words)
}

/// So many words in which no bit is set.
fn blank_words(alloc: Global, count: usize) -> Result<Vec<u64>, NoMemory>
    ensures { IfOk result (λ words. words.items ≡ replicate count 0) }
{
    Ok(vec![in alloc; 0; count]?)
}

/// Sets the bit `bit` of one word.
fn put_bit(words: &mut Vec<u64>, at: usize, bit: usize)
    requires at { at < length words.old.items }
    requires bit { bit < 64 }
    ensures count { length words.new.items ≡ length words.old.items }
    ensures bits { (x i : ℕ) → HasBit (slice_index words.new.items x) i
        ↔ (HasBit (slice_index words.old.items x) i ⊎ ((x ≡ at) × (i ≡ bit))) }
{
    words[at] |= 1 << bit;
}

/// Gives each step's first vertex the bits of its second, until all have them.
fn spread(steps: &[(usize, usize)], words: &mut Vec<u64>)
    requires { AreStepsWithin (length words.old.items) steps.now }
    ensures spread { IsSpread steps.now words.old.items words.new.items }
    ensures closed { IsClosed steps.now words.new.items }
{
    let mut more = true;
    while more {
        more = sweep(steps, words);
    }
}

/// Gives each step's first vertex the bits that its second has at that time, and says whether that set any.
fn sweep(steps: &[(usize, usize)], words: &mut Vec<u64>) -> bool
    requires { AreStepsWithin (length words.old.items) steps.now }
    ensures spread { IsSpread steps.now words.old.items words.new.items }
    ensures rises { sum words.old.items ≤ sum words.new.items }
    ensures more { result ≡ true → sum words.old.items < sum words.new.items }
    ensures fits { (k : ℕ) → slice_index words.old.items k < 2 ^ 64 }
    ensures closed { result ≡ false → IsClosed steps.now words.new.items }
{
    let mut more = false;
    for step in steps {
        if widen(words, *step) {
            more = true;
        }
    }
    more
}

/// Gives the first vertex of the step the bits of its second, and says whether that set any.
fn widen(words: &mut Vec<u64>, step: (usize, usize)) -> bool
    requires from { step.0 < length words.old.items }
    requires to { step.1 < length words.old.items }
    ensures spread { IsSpread (step ∷ []) words.old.items words.new.items }
    ensures more { result ≡ true → sum words.old.items < sum words.new.items }
    ensures same { result ≡ false → words.new.items ≡ words.old.items }
    ensures closed { result ≡ false → IsClosed (step ∷ []) words.new.items }
{
    let (from, to) = step;
    let own = words[from];
    let both = own | words[to];
    words[from] = both;
    both != own
}
