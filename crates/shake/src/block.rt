ghost use Rattle.std.specs.Prelude.{◌≡◌, ◌+◌, ◌%◌, ◌<◌, ◌≤◌};
ghost use Rattle.shake.specs.Progress.{passed};
ghost use Rattle.shake.specs.Sponge.{xor_byte};

use crate::Sponge;

// The bytes of a block.
pub(crate) const RATE: usize = 136;

impl Sponge {
    // Goes `count` bytes on. At the block's end the state is permuted, and the next block begins.
    pub(crate) fn advance(&mut self, count: usize)
        requires { self.old.pos + count ≤ 136 }
        ensures state { self.new.state ≡ passed (self.old.pos + count) self.old.state }
        ensures place { self.new.pos ≡ (self.old.pos + count) % 136 }
    {
        let next = self.pos + count;
        if next < RATE {
            self.pos = next;
        } else {
            keccak::permute(&mut self.state);
            self.pos = 0;
        }
    }
}

// Adds a byte, modulo two, to byte `pos` of the block.
pub(crate) fn xor_byte(state: &mut [u64; 25], pos: usize, byte: u8)
    requires { pos < 136 }
    ensures { state.new ≡ xor_byte state.old pos byte }
{
    state[pos / 8] ^= (byte as u64) << (8 * (pos % 8));
}
