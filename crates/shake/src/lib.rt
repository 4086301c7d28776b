// SHAKE256 of FIPS 202: a message is absorbed in parts of any length, then output is squeezed out without end.
#![tactic(auto)]

ghost use Rattle.std.specs.Prelude.{◌<◌};

mod absorb;
mod block;
mod digest;
mod squeeze;

pub use digest::{hash, vectors_hold};

// A state whose block is done up to byte `pos`: a number, as the bytes are those of 25 lanes and no slice.
#[derive(Drop)]
struct Sponge {
    state: [u64; 25],
    pos: usize,
    ghost within: { pos < 136 },
}

// A hasher that takes in a message.
#[derive(Drop)]
pub struct Shake256 {
    sponge: Sponge,
}

// A hasher that gives its output.
#[derive(Drop)]
pub struct Squeezer {
    sponge: Sponge,
}
