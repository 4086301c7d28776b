// What the lines of a scenario answer, and how it is told.
#![tactic(auto)]

mod answer;
mod text;

pub use answer::{Answer, Told};
pub use text::{Hex, Listed};
