// Words stretched from a seed.
ghost use Rattle.std.specs.Prelude.{◌*◌, ◌^◌, ◌≤◌};
ghost use Rattle.shake.specs.Progress.{Reading};

pub mod source;

use shake::Squeezer;

/// The first words of SHAKE256 of a seed, and then the mark `Spent`. Word i is bytes 4 i to 4 i + 3 of the output, the lowest first.
#[derive(Drop)]
pub struct Generator {
    seed: [u8; 32],
    reader: Squeezer,
    // A place and a count, and no range: the fact on the reader tells its place.
    at: u64,
    count: u64,
    ghost reading: { Reading seed (4 * at) reader },
    ghost within: { at ≤ count },
    ghost few: { count ≤ 2 ^ 40 },
}
