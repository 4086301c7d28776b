// A record's parts, where they lie in its bytes.
ghost use Rattle.record.specs.Layout.{unpacked};
ghost use Rattle.std.specs.Prelude.{◌≡◌, [], ◌∷◌};

#[derive(Drop)]
pub struct Record<'a> {
    pub counter: u16,
    pub digest: &'a [u8; 32],
    // z1 and then z2, two bytes a coefficient
    pub z: &'a [u8],
    // four coefficients a byte
    pub challenge: &'a [u8],
}

// The four codes in a byte of the challenge, the lowest bits first.
pub fn codes(byte: u8) -> [u8; 4]
    ensures { result ≡ unpacked (byte ∷ []) }
{
    [byte & 3, (byte >> 2) & 3, (byte >> 4) & 3, byte >> 6]
}
