// What a scenario keeps, and what its lines do to it.
#![tactic(auto)]

mod areas;
mod card_state;
mod in_set;
mod state;
mod till_state;

pub use state::World;
