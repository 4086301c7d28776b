// A signing at a share count that is known when the program runs, with what it took.
ghost use Rattle.std.specs.Prelude.{◌≡◌, ◌-◌, ◌*◌, ◌/◌, ◌<◌, ◌≤◌, length};
ghost use Rattle.std.specs.NonZero.{non_zero_u32_get};
ghost use Rattle.record.specs.Layout.{size};
ghost use Rattle.attempt.specs.Attempt.{signs};
ghost use Rattle.signing.specs.Signing.{Follows, attempts_begun, plain_run};
ghost use Rattle.plain.specs.Run.{counts_of};

use crate::failure::Failure;
use crate::sign_in;
use attempt::{Stopped, Subject};
use params::ParamSet;
use refusal::Counts;
use ring::Multiply;
use shares::at_share_count;
use std::num::NonZeroU32;
use words::{Metered, Source};

fn sign_shares<S: ParamSet, P: Multiply<S>, N: Source, W: Source>(
    tries: NonZeroU32,
    subject: Subject<'_, S>,
    work: &mut [u32],
    record: &mut [u8],
    nonces: &mut N,
    masks: &mut W,
) -> Result<u32, Failure>
    requires work { length work.old ≡ 6 * subject.shares.count * S.params.n }
    requires record { length «record».old ≡ size S.params }
    ensures { Follows S.params subject.entry.shares.count (non_zero_u32_get tries) result «record».old «record».new (N.flow nonces.old) (N.flow nonces.new) (W.flow masks.old) (W.flow masks.new) (plain_run S.params subject.entry.shares.count (signs S.params subject.entry.shares.count subject.entry) (non_zero_u32_get tries) (N.flow nonces.old) (W.flow masks.old)) }
{
    at_share_count!(
        subject.shares,
        sign_in::<_, S, P, N, W>(tries, subject, work, record, nonces, masks)
    )
}

// How many attempts were begun.
fn attempts_begun(ending: &Result<u32, Failure>, tries: u32) -> u32
    ensures { result ≡ attempts_begun tries ending.now }
{
    match ending {
        Ok(attempts) => *attempts,
        Err(Failure::Halted(Stopped::Nonces(fault) | Stopped::Masks(fault))) => fault.attempt,
        Err(Failure::TriesFailed) => tries,
    }
}

/// A signing, and what it took. Each candidate takes a nonce word for each share, so the whole candidates are as many as those words hold.
// A pair, since the counts are promised of a signing that fails too. Areas and sources are lent one by one, as for an attempt.
pub fn sign_counted<S: ParamSet, P: Multiply<S>, N: Source, W: Source>(
    tries: NonZeroU32,
    subject: Subject<'_, S>,
    work: &mut [u32],
    record: &mut [u8],
    nonces: &mut N,
    masks: &mut W,
) -> (Result<u32, Failure>, Counts)
    requires work { length work.old ≡ 6 * subject.shares.count * S.params.n }
    requires record { length «record».old ≡ size S.params }
    ensures follows { Follows S.params subject.entry.shares.count (non_zero_u32_get tries) result.0 «record».old «record».new (N.flow nonces.old) (N.flow nonces.new) (W.flow masks.old) (W.flow masks.new) (plain_run S.params subject.entry.shares.count (signs S.params subject.entry.shares.count subject.entry) (non_zero_u32_get tries) (N.flow nonces.old) (W.flow masks.old)) }
    ensures counts { result.1 ≡ counts_of (plain_run S.params subject.entry.shares.count (signs S.params subject.entry.shares.count subject.entry) (non_zero_u32_get tries) (N.flow nonces.old) (W.flow masks.old)) }
{
    let mut nonce_meter = Metered::new(nonces);
    let mut mask_meter = Metered::new(masks);
    let ending = sign_shares::<S, P, Metered<N>, Metered<W>>(
        tries,
        subject,
        work,
        record,
        &mut nonce_meter,
        &mut mask_meter,
    );
    let drawn = nonce_meter.count();
    let counts = Counts {
        attempts: attempts_begun(&ending, tries.get()),
        candidates: drawn / subject.shares.count as u64,
        nonces: drawn,
        masks: mask_meter.count(),
    };
    (ending, counts)
}
