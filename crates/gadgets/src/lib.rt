// Masked arithmetic: what signing does to shared words and residues.
// No function here brings two shares of one value together: each works share by share, or calls refresh, sec_and or open.
#![tactic(auto)]

pub mod adder;
pub mod convert;
pub mod limit;
pub mod modular;

pub use adder::{sec_add, sec_below};
pub use convert::{to_residues, to_words};
pub use limit::Limit;
pub use modular::sec_add_modp;
