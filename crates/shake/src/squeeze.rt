ghost use Rattle.std.specs.Prelude.{◌≡◌, ℕ, ◌+◌, ◌*◌, ◌/◌, ◌%◌, ◌^◌, ◌≤◌, List, map, length, slice_index};
ghost use Rattle.std.specs.List.{range_with_len};
ghost use Rattle.shake.specs.Sponge.{shake_byte, shake_word16, shake_word32};
ghost use Rattle.shake.specs.Progress.{Reading};

use crate::Squeezer;

impl Squeezer {
    // The rest of the lane that the next byte stands in, with that byte lowest.
    fn rest_of_lane(&self) -> u64
        ensures { result ≡ slice_index self.now.sponge.state (self.now.sponge.pos / 8) / 2 ^ (8 * (self.now.sponge.pos % 8)) }
    {
        self.sponge.state[self.sponge.pos / 8] >> (8 * (self.sponge.pos % 8))
    }

    pub fn next_byte(&mut self) -> u8
        ensures { (m : List ℕ) (i : ℕ) → Reading m i self.old → (result ≡ shake_byte m i) × Reading m (i + 1) self.new }
    {
        let byte = (self.rest_of_lane() & 0xff) as u8;
        self.sponge.advance(1);
        byte
    }

    // The next N bytes, one by one: they stand in two lanes.
    #[cold]
    fn bytes_apart<const N: usize>(&mut self) -> [u8; N]
        ensures { (m : List ℕ) (i : ℕ) → Reading m i self.old → (result ≡ map (shake_byte m) (range_with_len i N)) × Reading m (i + N) self.new }
    {
        let mut bytes = [0; N];
        self.squeeze(&mut bytes);
        bytes
    }

    // The next N bytes, from their lane at once where they stand in one.
    fn next_bytes<const N: usize>(&mut self) -> [u8; N]
        requires { N ≤ 8 }
        ensures { (m : List ℕ) (i : ℕ) → Reading m i self.old → (result ≡ map (shake_byte m) (range_with_len i N)) × Reading m (i + N) self.new }
    {
        match self.rest_of_lane().to_le_bytes().first_chunk::<N>() {
            Some(bytes) if self.sponge.pos % 8 + N <= 8 => {
                let bytes = *bytes;
                self.sponge.advance(N);
                bytes
            }
            _ => self.bytes_apart(),
        }
    }

    // The next two bytes, the low one first.
    pub fn next_u16(&mut self) -> u16
        ensures { (m : List ℕ) (i : ℕ) → Reading m i self.old → (result ≡ shake_word16 m i) × Reading m (i + 2) self.new }
    {
        u16::from_le_bytes(self.next_bytes())
    }

    // The next four bytes, the lowest first.
    pub fn next_u32(&mut self) -> u32
        ensures { (m : List ℕ) (i : ℕ) → Reading m i self.old → (result ≡ shake_word32 m i) × Reading m (i + 4) self.new }
    {
        u32::from_le_bytes(self.next_bytes())
    }

    // Fills `out` with the next bytes.
    pub fn squeeze(&mut self, out: &mut [u8])
        ensures { (m : List ℕ) (i : ℕ) → Reading m i self.old → (out.new ≡ map (shake_byte m) (range_with_len i (length out.old))) × Reading m (i + length out.old) self.new }
    {
        for byte in out.iter_mut() {
            *byte = self.next_byte();
        }
    }
}
