//! The words of a generator.

ghost use Rattle.std.specs.Prelude.{◌≡◌};
ghost use Rattle.workload_gen.specs.Draws.{after_words, seeded, words_of};

use rand_core::utils::NextWord;
use rand_pcg::Lcg64Xsh32;

/// The stream of the generator, which PCG's own examples use too.
const STREAM: u64 = 54;

/// The generator of a seed.
pub fn seeded(seed: u64) -> Lcg64Xsh32
    ensures { result ≡ seeded seed }
{
    Lcg64Xsh32::new(seed, STREAM)
}

/// The next words of a generator, as many as the array has.
pub fn draw<const N: usize>(generator: &mut Lcg64Xsh32) -> [u32; N]
    ensures words { result ≡ words_of N generator.old }
    ensures state { generator.new ≡ after_words N generator.old }
{
    let mut words = [0; N];
    for word in &mut words {
        *word = generator.next_word();
    }
    words
}
