// Drawing from a generator.
ghost use Rattle.std.specs.Prelude.{◌≡◌, ◌^◌, ◌<◌};
ghost use Rattle.words.specs.Flow.{from};
ghost use Rattle.words.specs.Refusals.{Refuses};
ghost use Rattle.words.specs.Generators.{stretched, generator_flow, generator_few};
ghost use Rattle.words.specs.declared.Mark.{Mark};

use crate::{Generator, LONGEST, Mark, OutOfRange, Source};
use shake::Shake256;

impl Generator {
    pub fn new(seed: [u8; 32], count: u64) -> Result<Generator, OutOfRange>
        ensures { Refuses (2 ^ 40 < count) result (λ g. generator_flow g ≡ from (stretched seed 0 count) Mark.Spent) }
    {
        if count > LONGEST as u64 {
            return Err(OutOfRange);
        }
        let mut hasher = Shake256::new();
        hasher.absorb(&seed);
        Ok(Generator {
            seed,
            reader: hasher.finish(),
            at: 0,
            count,
        })
    }
}

impl Source for Generator {
    ghost flow = { generator_flow };

    ghost few = { generator_few };

    #[inline]
    fn draw(&mut self) -> Result<u32, Mark> {
        if self.at == self.count {
            return Err(Mark::Spent);
        }
        let word = self.reader.next_u32();
        self.at += 1;
        Ok(word)
    }
}
