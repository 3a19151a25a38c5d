//! The random words: SplitMix64 of rand_xoshiro, with a count of the words drawn. The count lets
//! contracts name each word by its number.
ghost use Rattle.std.specs.Prelude.{◌≡◌, ◌+◌, ◌<◌, ◌^◌};
ghost use Rattle.wot_random.specs.Words.{state_after, word};

use rand_core::SeedableRng;
use rand_core::utils::NextWord;
use rand_xoshiro::SplitMix64;

/// The words of SplitMix64 from a start on.
#[derive(Drop)]
pub struct Words {
    generator: SplitMix64,
    /// The eight octets of the generator's seed, as a little-endian number.
    pub start: u64,
    /// How many words were drawn.
    pub drawn: u64,
    ghost in_place: { generator ≡ state_after start drawn },
}

impl Words {
    /// A generator from which no word was drawn.
    #[tactic(auto, unfolding(crate::specs::Words::state_after))]
    pub fn new(start: u64) -> Words
        ensures start { result.start ≡ start }
        ensures none { result.drawn ≡ 0 }
    {
        Words {
            generator: SplitMix64::seed_from_u64(start),
            start,
            drawn: 0,
        }
    }

    /// Draws the next word.
    pub fn draw(&mut self) -> u64
        requires { self.old.drawn < 2 ^ 63 }
        ensures word { result ≡ word self.old.start self.old.drawn }
        ensures start { self.new.start ≡ self.old.start }
        ensures drawn { self.new.drawn ≡ self.old.drawn + 1 }
    {
        let drawn = self.generator.next_word();
        self.drawn += 1;
        drawn
    }
}
