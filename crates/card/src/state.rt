// What a card holds, and what calls tell of it.
ghost use Rattle.std.specs.Prelude.{◌≡◌};

use refusal::Counts;
use shares::ShareCount;

/// A loaded card: how many shares its key is in, and the counter of its last record, 0 before the first.
#[derive(Drop)]
pub struct Card {
    pub(crate) shares: ShareCount,
    pub(crate) counter: u16,
}

/// A new card, and how many words its masks took.
#[derive(Drop)]
pub struct Loaded {
    pub card: Card,
    pub masks: u64,
}

/// A record that was made: its counter, and what the signing took.
#[derive(Clone, Copy)]
pub struct Signed {
    pub counter: u16,
    pub counts: Counts,
}

/// What a card tells of itself.
#[derive(Clone, Copy)]
pub struct Report {
    pub counter: u16,
    pub shares: u8,
}

impl Card {
    pub(crate) fn new(shares: ShareCount) -> Card
        ensures { (result.shares.count ≡ shares.count) × (result.counter ≡ 0) }
    {
        Card { shares, counter: 0 }
    }

    pub fn report(&self) -> Report
        ensures counter { result.counter ≡ self.now.counter }
        ensures shares { result.shares ≡ self.now.shares.count }
    {
        Report {
            counter: self.counter,
            shares: self.shares.count,
        }
    }
}
