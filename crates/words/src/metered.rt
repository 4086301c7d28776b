// A lent source, with a count of the words drawn from it.
ghost use Rattle.std.specs.Prelude.{◌≡◌};
ghost use Rattle.words.specs.Flow.{metered};

use crate::{Mark, Source};

/// A source that counts what is drawn from the one lent to it. Its origin tells a caller of generic code both which source is lent
/// and how far the count has come.
#[derive(Drop)]
pub struct Metered<'a, S: Source> {
    pub src: &'a mut S,
    pub count: u64,
}

impl<'a, S: Source> Metered<'a, S> {
    /// A meter on the source that is lent, from 0 on.
    pub fn new(src: &'a mut S) -> Metered<'a, S>
        ensures { result ≡ record { src = src.entry; count = 0 } }
    {
        Metered { src, count: 0 }
    }

    /// How many words were drawn, if the count began at 0.
    pub fn count(&self) -> u64
        ensures { result ≡ self.now.count }
    {
        self.count
    }
}

impl<'a, S: Source> Source for Metered<'a, S> {
    ghost flow = { λ m. metered m.src.ghost_name m.count (S.flow m.src.now) };

    ghost few = { λ m. S.Source.few m.src.now };

    #[inline]
    fn draw(&mut self) -> Result<u32, Mark> {
        let word = self.src.draw()?;
        // Cannot wrap where the count began at 0, since no source has so many words.
        self.count = self.count.wrapping_add(1);
        Ok(word)
    }
}
