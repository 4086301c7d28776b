// A signing: attempts until one passes, or no try is left.
#![tactic(auto)]

ghost use Rattle.std.specs.Prelude.{◌≡◌, ◌*◌, ◌<◌, ◌≤◌, length};
ghost use Rattle.std.specs.NonZero.{non_zero_u32_get};
ghost use Rattle.record.specs.Layout.{size};
ghost use Rattle.attempt.specs.Attempt.{signs};
ghost use Rattle.signing.specs.Signing.{Follows, plain_run};

pub mod counted;
pub mod failure;

use attempt::{Subject, attempt};
pub use counted::sign_counted;
pub use failure::Failure;
use params::ParamSet;
use ring::Multiply;
use std::num::NonZeroU32;
use words::Source;

/// Attempts on shares in the key area, at most `tries`; tells how many were begun until one passed.
// The areas and the sources are lent one by one, as for an attempt.
pub fn sign_in<const M: usize, S: ParamSet, P: Multiply<S>, N: Source, W: Source>(
    tries: NonZeroU32,
    subject: Subject<'_, S>,
    work: &mut [u32],
    record: &mut [u8],
    nonces: &mut N,
    masks: &mut W,
) -> Result<u32, Failure>
    requires shares { M ≡ subject.shares.count }
    requires work { length work.old ≡ 6 * M * S.params.n }
    requires record { length «record».old ≡ size S.params }
    ensures { Follows S.params M (non_zero_u32_get tries) result «record».old «record».new (N.flow nonces.old) (N.flow nonces.new) (W.flow masks.old) (W.flow masks.new) (plain_run S.params M (signs S.params M subject.entry) (non_zero_u32_get tries) (N.flow nonces.old) (W.flow masks.old)) }
{
    'attempts: for number in 1..=tries.get() {
        let passed = attempt::<M, S, P, N, W>(number, subject, work, record, nonces, masks)?;
        if passed {
            return Ok(number);
        }
    }
    Err(Failure::TriesFailed)
}
