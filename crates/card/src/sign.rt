// Signing: the tests, the guard of the work area, and what a signing answers.
ghost use Rattle.std.specs.Prelude.{◌≡◌, ◌+◌, ◌-◌, ◌*◌, ◌<◌, ◌≤◌, length, Err, IfOk};
ghost use Rattle.std.specs.NonZero.{non_zero_u32_get};
ghost use Rattle.card.specs.Sign.{SignBy, TestsSign, answer_of, outcome_in, sign_tests, tries_test};
ghost use Rattle.attempt.specs.Attempt.{subject_of};
ghost use Rattle.refusal.specs.Tests.{Tested, first_hit};

use crate::scrub::Scrub;
use crate::state::{Card, Signed};
use attempt::{Stopped, Subject};
use params::ParamSet;
use refusal::{Area, Counts, Refusal, check_residues};
use ring::{Multiply, Poly};
use signing::{Failure, sign_counted};
use std::num::NonZeroU32;
use words::Source;

// The refusal of a signing that gave no record. No `From`, as the counts go into it too.
fn refusal(failure: Failure, counts: Counts) -> Refusal
    ensures { Err result ≡ answer_of (outcome_in failure) counts }
{
    match failure {
        Failure::Halted(Stopped::Nonces(fault)) => Refusal::NoncesEndedAt { fault, counts },
        Failure::Halted(Stopped::Masks(fault)) => Refusal::MasksEndedAt { fault, counts },
        Failure::TriesFailed => Refusal::TriesFailed { counts },
    }
}

// The tries are 1 to 255.
fn check_tries(tries: u32) -> Result<NonZeroU32, Refusal>
    ensures tested { Tested (tries_test tries) result }
    ensures tries { IfOk result (λ tested. non_zero_u32_get tested ≡ tries) }
{
    NonZeroU32::new(tries)
        .filter(|tries| tries.get() <= 255)
        .ok_or(Refusal::Tries)
}

impl Card {
    // The tests of a sign, and its tries.
    fn check_sign<S: ParamSet>(
        &self,
        tries: u32,
        key: &[u32],
        public: &[u32],
        work: &[u32],
        record: &[u8],
    ) -> Result<NonZeroU32, Refusal>
        ensures tests { TestsSign S.params self.now.shares.count self.now.counter tries key.now public.now work.now «record».now result }
        ensures tries { IfOk result (λ tested. non_zero_u32_get tested ≡ tries) }
    {
        let n = S::degree();
        let rows = self.shares.count as usize * n;
        if public.len() != 2 * n
            || key.len() != 2 * rows
            || work.len() != 6 * rows
            || record.len() != record::size::<S>()
        {
            return Err(Refusal::AreaSize);
        }
        check_residues(Area::Public, public, S::modulus())?;
        check_residues(Area::Key, key, S::modulus())?;
        let tries = check_tries(tries)?;
        if self.counter == u16::MAX {
            return Err(Refusal::CounterEnd);
        }
        Ok(tries)
    }

    /// Signs a digest within so many tries, and writes the record into the area lent for it.
    // The areas and the sources are lent one by one, as for an attempt: the promise says of each what becomes of it.
    pub fn sign<S: ParamSet, P: Multiply<S>, N: Source, W: Source>(
        &mut self,
        digest: &[u8; 32],
        tries: u32,
        key: &[u32],
        public: &[u32],
        work: &mut [u32],
        record: &mut [u8],
        nonces: &mut N,
        masks: &mut W,
    ) -> Result<Signed, Refusal>
        ensures signed { SignBy S.params self.old.shares.count digest.now tries key.now public.now (first_hit (sign_tests S.params self.old.shares.count self.old.counter tries key.now public.now work.old «record».old)) result self.old.counter self.new.counter work.old work.new «record».old «record».new (N.flow nonces.old) (N.flow nonces.new) (W.flow masks.old) (W.flow masks.new) }
        ensures shares { self.new.shares.count ≡ self.old.shares.count }
        ensures digest { length digest.now ≡ 32 }
    {
        let tries = self.check_sign::<S>(tries, key, public, work, record)?;
        let counter = self.counter + 1;
        let subject = Subject {
            shares: self.shares,
            key,
            a: Poly::new(&public[0..S::degree()]),
            digest,
            counter,
        };
        let guard = Scrub { area: work };
        let (ending, counts) = sign_counted::<S, P, N, W>(
            tries, subject, guard.area, record, nonces, masks,
        );
        ending.map_err(|failure| refusal(failure, counts))?;
        self.counter = counter;
        Ok(Signed { counter, counts })
    }
}
