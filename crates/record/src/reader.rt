// The reader: the tests of a record in their order, and then its parts.
ghost use Rattle.params.specs.Params.{reach};
ghost use Rattle.record.specs.Layout.{num2, num4, size, unpacked, z_of};
ghost use Rattle.record.specs.Reading.{Opens, Parts, Reads, far};
ghost use Rattle.refusal.specs.declared.Refusal.TheVariants.{OutOfReach, UnusedCode};
ghost use Rattle.refusal.specs.Tests.{Tested, at_index};
ghost use Rattle.search.specs.First.{first_at};
ghost use Rattle.std.specs.Prelude.{◌≡◌, ℕ, ◌+◌, ◌*◌, ◌/◌, ◌%◌, ◌^◌, ◌<◌, ◌≤◌, [], ◌∷◌, length, take, drop, Some, None, MatchOption, IsSomeAnd, ◌==◌, nat_eq};
ghost use Rattle.std.specs.Int.{w16};
ghost use Rattle.std.proofs.Common.{to_z};

use crate::{Record, codes, kind, size};
use params::ParamSet;
use refusal::Refusal;

// A record's first fields, and the bytes behind them.
#[derive(Drop)]
struct Head<'a> {
    length: u32,
    kind: u16,
    rest: &'a [u8],
}

fn read_head(bytes: &[u8]) -> Option<Head<'_>>
    ensures { MatchOption result (length bytes.now < 6) (λ h. (6 ≤ length bytes.now) × (h.length ≡ num4 bytes.now 0) × (h.kind ≡ num2 bytes.now 4) × (h.rest.now ≡ drop 6 bytes.now)) }
{
    let [l0, l1, l2, l3, k0, k1, rest @ ..] = bytes else {
        return None;
    };
    Some(Head {
        length: u32::from_le_bytes([*l0, *l1, *l2, *l3]),
        kind: u16::from_le_bytes([*k0, *k1]),
        rest,
    })
}

// The coefficient in two bytes lies too far from 0.
fn is_far<S: ParamSet>(bytes: [u8; 2]) -> bool
    ensures { result ≡ far S.params (to_z w16 (num2 bytes 0)) }
{
    i16::from_le_bytes(bytes).unsigned_abs() as u32 > S::reach()
}

// The first coefficient of z that lies too far from 0.
fn first_far<S: ParamSet>(z: &[u8]) -> Option<usize>
    ensures { result ≡ first_at (far S.params) (z_of z.now) }
{
    let (coefficients, _) = z.as_chunks::<2>();
    coefficients.iter().position(|bytes| is_far::<S>(*bytes))
}

// The first code of a byte that means nothing.
fn first_unused_in(byte: u8) -> Option<usize>
    ensures { result ≡ first_at (λ code. nat_eq code 2) (unpacked (byte ∷ [])) }
{
    codes(byte).iter().position(|code| *code == 2)
}

// No coefficient of z lies too far from 0.
fn check_reach<S: ParamSet>(z: &[u8]) -> Result<(), Refusal>
    ensures { Tested (at_index OutOfReach (first_at (far S.params) (z_of z.now))) result }
{
    first_far::<S>(z).map_or(Ok(()), |index| Err(Refusal::OutOfReach { index }))
}

// No code of the challenge means nothing. A loop, since `find_map` would add the two places up in a closure within a closure.
fn check_codes(challenge: &[u8]) -> Result<(), Refusal>
    requires { length challenge.now ≤ 2 ^ 40 }
    ensures { Tested (at_index UnusedCode (first_at (λ code. nat_eq code 2) (unpacked challenge.now))) result }
{
    for (i, byte) in challenge.iter().enumerate() {
        if let Some(place) = first_unused_in(*byte) {
            return Err(Refusal::UnusedCode {
                index: 4 * i + place,
            });
        }
    }
    Ok(())
}

// What stands behind the kind, once length and kind are those of the set.
fn open_body<S: ParamSet>(bytes: &[u8]) -> Result<&[u8], Refusal>
    ensures { Opens S.params bytes.now result }
{
    let head = read_head(bytes).ok_or(Refusal::RecordSize)?;
    if bytes.len() != size::<S>() || head.length as usize != size::<S>() - 4 {
        return Err(Refusal::RecordSize);
    }
    if head.kind != kind::<S>() {
        return Err(Refusal::Kind);
    }
    Ok(head.rest)
}

// The parts of a body, each where it lies. A body of its size has them all.
fn split_body<S: ParamSet>(body: &[u8]) -> Option<Record<'_>>
    requires { length body.now + 6 ≡ size S.params }
    ensures { IsSomeAnd result (Parts S.params body.now) }
{
    let (counter, rest) = body.split_first_chunk::<2>()?;
    let (digest, rest) = rest.split_first_chunk::<32>()?;
    let (z, challenge) = rest.split_at(4 * S::degree());
    Some(Record {
        counter: u16::from_le_bytes(*counter),
        digest,
        z,
        challenge,
    })
}

// A record's parts, or the first refusal.
pub fn read<S: ParamSet>(bytes: &[u8]) -> Result<Record<'_>, Refusal>
    ensures { Reads S.params bytes.now result }
{
    let body = open_body::<S>(bytes)?;
    // A body that was opened has its size, so there are parts.
    let record = split_body::<S>(body).ok_or(Refusal::RecordSize)?;
    check_reach::<S>(record.z)?;
    check_codes(record.challenge)?;
    Ok(record)
}
