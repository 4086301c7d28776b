// The till: it takes a card's records under the card's public key, each with a counter above the last.
#![tactic(auto)]

ghost use Rattle.std.specs.Prelude.{◌≡◌, true, is_ok};
ghost use Rattle.till.specs.Verdict.{Accepts, above, last_after, verdict};

mod payment;
mod public;
mod verify;

use params::ParamSet;
pub use payment::Payment;
use public::check_key;
use record::read;
use refusal::Refusal;
use ring::Multiply;
use std::marker::PhantomData;
use verify::answers;

// Whether a counter is above the last one, if there is one.
fn above(last: Option<u16>, counter: u16) -> bool
    ensures { result ≡ above last counter }
{
    last.is_none_or(|last| counter > last)
}

// A till for cards of the set S: their public key, and the last counter it took, if it took any.
#[derive(Drop)]
pub struct Till<'a, S: ParamSet> {
    key: &'a [u32],
    last: Option<u16>,
    set: PhantomData<S>,
}

impl<'a, S: ParamSet> Till<'a, S> {
    pub fn new(key: &'a [u32], last: Option<u16>) -> Till<'a, S>
        ensures key { result.key.now ≡ key.now }
        ensures last { result.last ≡ last }
    {
        Till {
            key,
            last,
            set: PhantomData,
        }
    }

    // The last counter that the till took.
    pub fn last(&self) -> Option<u16>
        ensures { result ≡ self.now.last }
    {
        self.last
    }

    // Takes a record, or says why not.
    pub fn check<M: Multiply<S>>(&mut self, bytes: &[u8]) -> Result<Payment, Refusal>
        ensures answer { result ≡ verdict S.params self.old.key.now self.old.last bytes.now }
        ensures last { self.new.last ≡ last_after self.old.last result }
        ensures key { self.new.key.now ≡ self.old.key.now }
        ensures accepts { is_ok result ≡ true → Accepts S.params self.old.key.now self.old.last bytes.now }
        ensures accepted { Accepts S.params self.old.key.now self.old.last bytes.now → is_ok result ≡ true }
    {
        check_key::<S>(self.key)?;
        let record = read::<S>(bytes)?;
        if !answers::<S, M>(self.key, &record) {
            return Err(Refusal::OtherChallenge);
        }
        if !above(self.last, record.counter) {
            return Err(Refusal::Stale);
        }
        self.last = Some(record.counter);
        Ok(Payment {
            counter: record.counter,
            digest: *record.digest,
        })
    }
}
