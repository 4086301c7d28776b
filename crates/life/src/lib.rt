// A card's whole life, and what holds over it.
#![tactic(auto)]

ghost use Rattle.life.specs.Laws.{NewerLaw, PlacesLaw, AlikeLaw, NumbersLaw};

mod call;

pub use call::Call;

/// What a card keeps over every life: a till takes its records by their counters alone, each attempt has nonce words of its own,
/// cards that differ in their shares alone answer alike, and records are numbered.
pub fn promises_hold()
    ensures newer { NewerLaw }
    ensures places { PlacesLaw }
    ensures alike { AlikeLaw }
    ensures numbered { NumbersLaw }
{}
