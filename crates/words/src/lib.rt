// Word sources. Each is a finite list of 32-bit words with a mark at its end; a later kind joins by meeting `Source` alone.
#![tactic(auto)]

ghost use Rattle.std.specs.Prelude.{◌≡◌, ℕ, ◌^◌, ◌≤◌, length};
ghost use Rattle.words.specs.Flow.{Flow, Drawn};
ghost use Rattle.words.specs.Marks.{mark_number};

mod generator;
mod health;
mod metered;
mod tape;
mod watch;

pub use generator::Generator;
pub use health::Health;
pub use metered::Metered;
pub use tape::Tape;
pub use watch::{Cutoff, Watch};

/// Why a source has no more words.
#[derive(Clone, Copy, Debug, PartialEq, Eq)]
pub enum Mark {
    Spent,
    Unhealthy,
}

impl Mark {
    /// The number by which the world outside knows the mark. A match, since it reads like the definition.
    pub fn number(self) -> u8
        ensures { result ≡ mark_number self }
    {
        match self {
            Mark::Spent => 1,
            Mark::Unhealthy => 2,
        }
    }
}

// How many words a source may have.
const LONGEST: usize = 1 << 40;

/// A source that cannot be made: too long a list, or a cutoff that no check has.
#[derive(Clone, Copy)]
pub struct OutOfRange;

impl OutOfRange {
    /// The number by which the world outside knows the refusal. Nothing here asks for it: it is a promise to others.
    pub fn number(self) -> u8
        ensures { result ≡ 11 }
    {
        11
    }
}

/// A finite list of words with a mark at its end.
pub trait Source {
    // What is still to come. No draw changes the mark or the origin.
    ghost flow: { Self → Flow };

    // No source is long, so that a count of words never wraps.
    ghost few: { (s : Self) → length (flow s).words ≤ 2 ^ 40 };

    // The first word, which is then gone; on an empty list the mark, and nothing changes.
    fn draw(&mut self) -> Result<u32, Mark>
        ensures { Drawn result (flow self.old) (flow self.new) };
}
