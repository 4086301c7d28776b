// A list of words, lent or owned.
ghost use Rattle.std.specs.Prelude.{◌≡◌, ◌^◌, ◌<◌, ◌≤◌, length};
ghost use Rattle.words.specs.Flow.{from};
ghost use Rattle.words.specs.Refusals.{Refuses};
ghost use Rattle.words.specs.Tapes.{tape_flow, tape_few};
ghost use Rattle.words.specs.declared.Mark.{Mark};

use crate::{LONGEST, Mark, OutOfRange, Source};
use std::convert::AsSlice;

/// A list of words, ending with the mark `Spent`.
#[derive(Drop)]
pub struct Tape<B: AsSlice<u32>> {
    words: B,
    // A place, and no rest of the list: a list that is owned has no smaller one in it.
    at: usize,
    ghost few: { length (B.items words) ≤ 2 ^ 40 },
}

impl<B: AsSlice<u32>> Tape<B> {
    /// All of a list that is not too long, and then the mark `Spent`.
    pub fn of_few(words: B) -> Tape<B>
        requires { length (B.items words) ≤ 2 ^ 40 }
        ensures { tape_flow (B.items result.words) result.at ≡ from (B.items words) Mark.Spent }
    {
        Tape { words, at: 0 }
    }
}

impl<B: AsSlice<u32> + Drop> Tape<B> {
    /// All of `words`, and then the mark `Spent`.
    pub fn new(words: B) -> Result<Tape<B>, OutOfRange>
        ensures { Refuses (2 ^ 40 < length (B.items words)) result (λ t. tape_flow (B.items t.words) t.at ≡ from (B.items words) Mark.Spent) }
    {
        if words.as_slice().len() > LONGEST {
            return Err(OutOfRange);
        }
        Ok(Tape::of_few(words))
    }
}

impl<B: AsSlice<u32>> Source for Tape<B> {
    ghost flow = { λ t. tape_flow (B.items t.words) t.at };

    ghost few = { λ t. tape_few (B.items t.words) t.at t.few };

    #[inline]
    fn draw(&mut self) -> Result<u32, Mark> {
        let word = *self.words.as_slice().get(self.at).ok_or(Mark::Spent)?;
        self.at += 1;
        Ok(word)
    }
}
