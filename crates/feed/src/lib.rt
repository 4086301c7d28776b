// A word source that is put together at run time: a tape of its own words or a generator, under any number of health checks.
#![tactic(auto)]

ghost use Rattle.std.specs.Prelude.{◌≡◌, ◌^◌, ◌<◌, ◌≤◌, [], vec_len, IfOk, MatchResult};
ghost use Rattle.feed.specs.Feed.{feed_few, feed_flow};
ghost use Rattle.words.specs.Flow.{Drawn, from};
ghost use Rattle.words.specs.Generators.{generator_flow, stretched};
ghost use Rattle.words.specs.Health.{Steady, health_flow};
ghost use Rattle.words.specs.Refusals.{Refuses};
ghost use Rattle.words.specs.declared.Mark.{Mark};

use std::alloc::{AllocError, Global};
use words::{Cutoff, Generator, Mark, OutOfRange, Source, Tape, Watch};

// A source whose kind is known only at run time.
#[derive(Drop)]
pub enum Feed {
    Tape(Tape<Vec<u32>>),
    Stretched(Generator),
    // No Health over a boxed feed: boxes would have to be sources for it, to save the two steps of a draw.
    Checked(Watch, Box<Feed>),
}

impl Feed {
    // All of these words, and then the mark `Spent`.
    pub fn tape(words: Vec<u32>) -> Result<Feed, OutOfRange>
        ensures { Refuses (2 ^ 40 < vec_len words) result (λ f. feed_flow f ≡ from words.items Mark.Spent) }
    {
        Ok(Feed::Tape(Tape::new(words)?))
    }

    // No word, and the mark `Spent`.
    pub fn empty(heap: Global) -> Feed
        ensures { feed_flow result ≡ from [] Mark.Spent }
    {
        Feed::Tape(Tape::of_few(Vec::new(heap)))
    }

    // The first `count` words of SHAKE256 of a seed, and then the mark `Spent`.
    pub fn generator(seed: [u8; 32], count: u64) -> Result<Feed, OutOfRange>
        ensures { Refuses (2 ^ 40 < count) result (λ f. feed_flow f ≡ from (stretched seed 0 count) Mark.Spent) }
    {
        Ok(Feed::Stretched(Generator::new(seed, count)?))
    }

    // A health check over the feed as it stands.
    pub fn checked(self, heap: Global, cutoff: Cutoff) -> Result<Feed, AllocError>
        ensures { IfOk result (λ f. Steady cutoff.value (feed_flow self) (feed_flow f)) }
    {
        let below = Box::new(heap, self)?;
        Ok(Feed::Checked(Watch::start(cutoff), below))
    }

    // The same in place, where a feed that finds no memory for its check must still be there.
    pub fn put_check(&mut self, heap: Global, cutoff: Cutoff) -> Result<(), AllocError>
        ensures { MatchResult result (λ _. Steady cutoff.value (feed_flow self.old) (feed_flow self.new)) (λ _. self.new ≡ self.old) }
    {
        let mut below = Box::new(heap, Feed::empty(heap))?;
        *below = std::mem::replace(self, Feed::empty(heap));
        *self = Feed::Checked(Watch::start(cutoff), below);
        Ok(())
    }
}

// The word that comes next, through each check from the lowest up. A draw through a pile of checks is this function alone.
fn draw_through(feed: &mut Feed) -> Result<u32, Mark>
    ensures { Drawn result (feed_flow feed.old) (feed_flow feed.new) }
{
    match feed {
        Feed::Tape(tape) => tape.draw(),
        Feed::Stretched(generator) => generator.draw(),
        Feed::Checked(watch, below) => {
            watch.check()?;
            let word = draw_through(below)?;
            watch.admit(word)
        }
    }
}

impl Source for Feed {
    ghost flow = { feed_flow };

    ghost few = { feed_few };

    // The first two arms once more, so that a draw with no check is short enough to stand at each call.
    #[inline]
    fn draw(&mut self) -> Result<u32, Mark> {
        match self {
            Feed::Tape(tape) => tape.draw(),
            Feed::Stretched(generator) => generator.draw(),
            Feed::Checked(..) => draw_through(self),
        }
    }
}
