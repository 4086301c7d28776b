ghost use Rattle.std.specs.Prelude.{◌≡◌, ℕ, ◌%◌, List, [], ◌∷◌, ◌++◌};
ghost use Rattle.shake.specs.Progress.{Absorbing, Reading};

use crate::block::{RATE, xor_byte};
use crate::{Shake256, Sponge, Squeezer};

impl Shake256 {
    pub fn new() -> Shake256
        ensures { Absorbing [] result }
    {
        Shake256 {
            sponge: Sponge {
                state: [0; 25],
                pos: 0,
            },
        }
    }

    fn absorb_byte(&mut self, byte: u8)
        ensures { (m : List ℕ) → Absorbing m self.old → Absorbing (m ++ byte ∷ []) self.new }
    {
        xor_byte(&mut self.sponge.state, self.sponge.pos, byte);
        self.sponge.advance(1);
    }

    // Eight bytes at a lane's start at once.
    fn absorb_lane(&mut self, bytes: &[u8; 8])
        requires { self.old.sponge.pos % 8 ≡ 0 }
        ensures { (m : List ℕ) → Absorbing m self.old → Absorbing (m ++ bytes.now) self.new }
    {
        self.sponge.state[self.sponge.pos / 8] ^= u64::from_le_bytes(*bytes);
        self.sponge.advance(8);
    }

    // The next part of the message.
    pub fn absorb(&mut self, bytes: &[u8])
        ensures { (m : List ℕ) → Absorbing m self.old → Absorbing (m ++ bytes.now) self.new }
    {
        let mut rest = bytes;
        while let [byte, after_byte @ ..] = rest {
            rest = match rest.split_first_chunk::<8>() {
                Some((lane, after_lane)) if self.sponge.pos % 8 == 0 => {
                    self.absorb_lane(lane);
                    after_lane
                }
                _ => {
                    self.absorb_byte(*byte);
                    after_byte
                }
            };
        }
    }

    // Ends the message: the suffix and the padding are two bytes of the last block.
    pub fn finish(self) -> Squeezer
        ensures { (m : List ℕ) → Absorbing m self → Reading m 0 result }
    {
        let Sponge { mut state, pos } = self.sponge;
        xor_byte(&mut state, pos, 0x1f);
        xor_byte(&mut state, RATE - 1, 0x80);
        keccak::permute(&mut state);
        Squeezer {
            sponge: Sponge { state, pos: 0 },
        }
    }
}
