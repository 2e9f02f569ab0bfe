//! Draws from the words of a generator.
ghost use Rattle.std.specs.Prelude.{◌≡◌, ◌<◌};
ghost use Rattle.hpr_sample.specs.Draws.{draw};

use rand_core::utils::NextWord;
use rand_xoshiro::SplitMix64;

/// The next word, modulo n.
#[tactic(auto, unfolding(crate::specs::Draws::draw))]
pub(crate) fn draw(words: &mut SplitMix64, n: u64) -> u64
    requires { 0 < n }
    ensures drawn { draw n words.old ≡ record { made = result; words = words.new } }
    ensures below { result < n }
{
    words.next_word() % n
}
