// Plain verification of a record that has been read.
ghost use Rattle.std.specs.Prelude.{◌≡◌, ℕ, ◌+◌, ◌*◌, ◌/◌, ◌<◌, ◌≤◌, List, [], ◌∷◌, map, length};
ghost use Rattle.challenge.specs.Challenge.{challenge};
ghost use Rattle.record.specs.Layout.{coefficient, unpacked, z_of};
ghost use Rattle.ring.specs.Ring.{Residues, residue};
ghost use Rattle.till.specs.Verification.{PublicKey, answering, commitment};

use challenge::challenge;
use params::ParamSet;
use record::{Record, codes};
use ring::{MOST, Multiply, Poly, add_assign, sub_assign, to_residue};

// The residues of coefficients that stand in two bytes each. Here and below by place: of a slice that is lent out in parts, as by
// `zip` or in chunks, nothing is known when the loans end.
fn read_z<S: ParamSet>(z: &mut [u32], bytes: &[u8])
    requires { length bytes.now ≡ 2 * length z.old }
    ensures value { z.new ≡ map (residue S.params.p) (z_of bytes.now) }
    ensures residues { Residues S.params.p z.new }
{
    let (pairs, _) = bytes.as_chunks::<2>();
    for (i, coefficient) in z.iter_mut().enumerate() {
        *coefficient = to_residue::<S>(i16::from_le_bytes(pairs[i]));
    }
}

// The residue of a code: 0 is 0, 1 is +1, 3 is −1.
fn coefficient<S: ParamSet>(code: u8) -> u32
    ensures { result ≡ coefficient S.params.p code }
{
    if code == 3 {
        S::modulus() - 1
    } else {
        code as u32
    }
}

// The coefficients in a byte of a challenge.
fn read_byte<S: ParamSet>(byte: u8) -> [u32; 4]
    ensures { result ≡ map (coefficient S.params.p) (unpacked (byte ∷ [])) }
{
    let [a, b, c, d] = codes(byte);
    [
        coefficient::<S>(a),
        coefficient::<S>(b),
        coefficient::<S>(c),
        coefficient::<S>(d),
    ]
}

// The coefficients of a challenge, from four codes a byte.
fn read_challenge<S: ParamSet>(c: &mut [u32], bytes: &[u8])
    requires { length c.old ≡ 4 * length bytes.now }
    ensures value { c.new ≡ map (coefficient S.params.p) (unpacked bytes.now) }
    ensures residues { Residues S.params.p c.new }
{
    for (i, byte) in bytes.iter().enumerate() {
        c[4 * i..4 * i + 4].copy_from_slice(&read_byte::<S>(*byte));
    }
}

// a·z1 + z2 − t·c.
fn commitment<S: ParamSet, M: Multiply<S>>(
    r: &mut [u32],
    a: Poly<'_, S>,
    t: Poly<'_, S>,
    z1: Poly<'_, S>,
    z2: Poly<'_, S>,
    c: Poly<'_, S>,
)
    requires { length r.old ≡ S.params.n }
    ensures { r.new ≡ commitment S.params.p a.entry.words.now t.entry.words.now z1.entry.words.now z2.entry.words.now c.entry.words.now }
{
    let mut room = [0; MOST];
    let tc = &mut room[0..S::degree()];
    M::multiply(tc, t, c);
    M::multiply(r, a, z1);
    add_assign(r, z2);
    sub_assign(r, Poly::<S>::new(tc));
}

// Whether a record's challenge is the one that its answer calls for.
pub(crate) fn answers<S: ParamSet, M: Multiply<S>>(key: &[u32], record: &Record<'_>) -> bool
    requires key { PublicKey S.params key.now }
    requires z { length «record».now.z.now ≡ 4 * S.params.n }
    requires challenge { 4 * length «record».now.challenge.now ≡ S.params.n }
    ensures { result ≡ answering S.params key.now «record».now }
{
    let n = S::degree();
    let mut z_room = [0; 2 * MOST];
    let mut c_room = [0; MOST];
    let mut r_room = [0; MOST];
    let mut expected_room = [0; MOST];
    let z = &mut z_room[0..2 * n];
    let c = &mut c_room[0..n];
    let r = &mut r_room[0..n];
    let expected = &mut expected_room[0..n];
    read_z::<S>(z, record.z);
    read_challenge::<S>(c, record.challenge);
    let (a, t) = key.split_at(n);
    let (z1, z2) = z.split_at(n);
    commitment::<S, M>(
        r,
        Poly::new(a),
        Poly::new(t),
        Poly::new(z1),
        Poly::new(z2),
        Poly::new(c),
    );
    // Named first: no field that is a lent array can be lent as a slice.
    let digest = record.digest;
    challenge::<S>(expected, r, digest, record.counter);
    *expected == *c
}
