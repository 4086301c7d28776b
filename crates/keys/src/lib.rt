// A secret key in shares, in an area that a caller lends: making the shares, remasking them, and the public key of the secret.
#![tactic(auto)]

mod public_key;
mod remask;
mod secret;
mod sharing;
mod split;

pub use public_key::publish;
pub use remask::{check_key, remask_counted};
pub use secret::Secret;
pub use sharing::{check_load, clear, load_counted};
