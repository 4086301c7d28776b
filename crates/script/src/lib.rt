// The lines of a scenario: what a line's text asks for.
#![tactic(auto)]

mod command;
mod decimal;
mod hex;
mod line;
mod stream;
mod unread;

pub use command::{Action, Call, Command, SetName, Shown, Supply};
pub use decimal::{Entry, number, numbers};
pub use hex::{hex_32, hex_bytes};
pub use line::parse;
pub use stream::Stream;
pub use unread::Unread;
