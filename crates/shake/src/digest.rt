ghost use Rattle.std.specs.Prelude.{◌≡◌, length};
ghost use Rattle.shake.specs.Sponge.{shake256};
ghost use Rattle.shake.specs.Vectors.{VectorsHold};

use crate::Shake256;

// Fills `out` with the front of SHAKE256 of the message.
pub fn hash(message: &[u8], out: &mut [u8])
    ensures { out.new ≡ shake256 message.now (length out.old) }
{
    let mut hasher = Shake256::new();
    hasher.absorb(message);
    let mut squeezer = hasher.finish();
    squeezer.squeeze(out);
}

// Known answers hold of the definition.
pub fn vectors_hold()
    ensures { VectorsHold }
{}
