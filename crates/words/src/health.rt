// A health check on a source: it withholds the word that would be the cutoff-th equal one in a row, and all that follow.
ghost use Rattle.std.specs.Prelude.{◌≡◌, true, false, MatchResult};
ghost use Rattle.words.specs.Health.{health_flow, health_few, Admits, Steady};
ghost use Rattle.words.specs.declared.Mark.{Mark};

use crate::watch::{Cutoff, Watch};
use crate::{Mark, Source};

impl Watch {
    // The mark, once a word was withheld.
    pub fn check(&self) -> Result<(), Mark>
        ensures { MatchResult result (λ _. self.now.failed ≡ false) (λ mark. (mark ≡ Mark.Unhealthy) × (self.now.failed ≡ true)) }
    {
        if self.failed {
            return Err(Mark::Unhealthy);
        }
        Ok(())
    }

    // Lets the next word through and takes note of it, or withholds it where the run would then be as long as the cutoff.
    pub fn admit(&mut self, word: u32) -> Result<u32, Mark>
        ensures { MatchResult result
            (λ passed. (passed ≡ word) × Admits true word self.old self.new)
            (λ mark. (mark ≡ Mark.Unhealthy) × Admits false word self.old self.new) }
    {
        let run = if word == self.last { self.run + 1 } else { 1 };
        if run >= self.cutoff {
            self.failed = true;
            return Err(Mark::Unhealthy);
        }
        self.last = word;
        self.run = run;
        Ok(word)
    }
}

/// A source with a health check on it.
#[derive(Drop)]
pub struct Health<S> {
    watch: Watch,
    source: S,
}

impl<S: Source> Health<S> {
    /// The longest front of the source that has no `cutoff` equal words in a row.
    pub fn new(source: S, cutoff: Cutoff) -> Health<S>
        ensures { Steady cutoff.value (S.flow source) (health_flow result.watch (S.flow result.source)) }
    {
        Health {
            watch: Watch::start(cutoff),
            source,
        }
    }
}

impl<S: Source> Source for Health<S> {
    ghost flow = { λ h. health_flow h.watch (S.flow h.source) };

    ghost few = { λ h. health_few h.watch (S.flow h.source) (S.Source.few h.source) };

    fn draw(&mut self) -> Result<u32, Mark> {
        self.watch.check()?;
        let word = self.source.draw()?;
        self.watch.admit(word)
    }
}
