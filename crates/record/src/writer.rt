// The writer: the fields of a record into the area lent for it.
ghost use Rattle.record.specs.Layout.{code_of, kind, le2, le4, packed, size, z_bytes};
ghost use Rattle.record.specs.Writing.{ReadsBack, answered, content_of, left_in};
ghost use Rattle.std.specs.Prelude.{◌≡◌, ℕ, ◌+◌, ◌-◌, ◌*◌, ◌<◌, ◌&&◌, ◌++◌, map, length, slice_index, ◌==◌};

use crate::{kind, size};
use params::ParamSet;
use refusal::Refusal;

// Length, kind and counter.
fn head<S: ParamSet>(counter: u16) -> [u8; 8]
    ensures { result ≡ le4 (size S.params - 4) ++ (le2 (kind S.params) ++ le2 counter) }
{
    let [l0, l1, l2, l3] = ((size::<S>() - 4) as u32).to_le_bytes();
    let [k0, k1] = kind::<S>().to_le_bytes();
    let [c0, c1] = counter.to_le_bytes();
    [l0, l1, l2, l3, k0, k1, c0, c1]
}

// Two bytes a coefficient. They are written by their place: of a slice that is lent out in parts nothing is known when the loans end.
fn write_z(part: &mut [u8], z: &[i16])
    requires { length part.old ≡ 2 * length z.now }
    ensures { part.new ≡ z_bytes z.now }
{
    for (i, coefficient) in z.iter().enumerate() {
        part[2 * i..2 * i + 2].copy_from_slice(&coefficient.to_le_bytes());
    }
}

// The code of a residue of the challenge.
fn code(residue: u32) -> u8
    ensures value { result ≡ code_of residue }
    ensures small { result < 4 }
{
    if residue < 2 { residue as u8 } else { 3 }
}

// Four codes in a byte, the first in the lowest bits.
fn pack(codes: [u8; 4]) -> u8
    requires { (slice_index codes 0 < 4) × (slice_index codes 1 < 4) × (slice_index codes 2 < 4) × (slice_index codes 3 < 4) }
    ensures { result ≡ slice_index codes 0 + 4 * slice_index codes 1 + 16 * slice_index codes 2 + 64 * slice_index codes 3 }
{
    let [a, b, c, d] = codes;
    a + 4 * b + 16 * c + 64 * d
}

// Four coefficients a byte, by place as above.
fn write_challenge(part: &mut [u8], residues: &[u32])
    requires { length residues.now ≡ 4 * length part.old }
    ensures { part.new ≡ packed (map code_of residues.now) }
{
    let (fours, _) = residues.as_chunks::<4>();
    for (i, byte) in part.iter_mut().enumerate() {
        let [a, b, c, d] = fours[i];
        *byte = pack([code(a), code(b), code(c), code(d)]);
    }
}

// Where the challenge begins.
fn challenge_start<S: ParamSet>() -> usize
    ensures { result ≡ 40 + 4 * S.params.n }
{
    40 + 4 * S::degree()
}

// The sizes of the area and of both parts are those of the set.
fn sizes_fit<S: ParamSet>(area: usize, z: usize, c: usize) -> bool
    ensures { result ≡ (area == size S.params && (z == 2 * S.params.n && c == S.params.n)) }
{
    let n = S::degree();
    area == size::<S>() && z == 2 * n && c == n
}

// Writes a record into the area lent for it: z1 and then z2, and the residues of the challenge. The four parts come together
// only at the one call, so a struct of them would be made there and taken apart here.
pub fn write<S: ParamSet>(
    out: &mut [u8],
    counter: u16,
    digest: &[u8; 32],
    z: &[i16],
    c: &[u32],
) -> Result<(), Refusal>
    ensures answer { result ≡ answered S.params out.old (content_of counter digest.now z.now c.now) }
    ensures after { out.new ≡ left_in S.params out.old (content_of counter digest.now z.now c.now) }
    ensures reads_back { ReadsBack S.params (content_of counter digest.now z.now c.now) result out.new }
{
    if !sizes_fit::<S>(out.len(), z.len(), c.len()) {
        return Err(Refusal::AreaSize);
    }
    // By the layout's own numbers: of an area that is split for writing nothing is known when the parts are joined again.
    let z_end = challenge_start::<S>();
    out[0..8].copy_from_slice(&head::<S>(counter));
    out[8..40].copy_from_slice(digest);
    write_z(&mut out[40..z_end], z);
    write_challenge(&mut out[z_end..size::<S>()], c);
    Ok(())
}
