// A till: its key area, and the last counter it took.
ghost use Rattle.till.specs.Verdict.{last_after};
ghost use Rattle.world.specs.Tills.{check_answer, till_after, verdict_of};
ghost use Rattle.std.specs.Prelude.{◌≡◌};

use crate::in_set::in_set;
use answers::Answer;
use params::ParamSet;
use refusal::Refusal;
use ring::LongProduct;
use script::SetName;
use till::{Payment, Till};

// No `Till`: that is of a set's type, and which set it is shows only when the program runs.
#[derive(Drop)]
pub struct TillState {
    pub key: Vec<u32>,
    pub last: Option<u16>,
}

impl TillState {
    // Shows a till of the set S a record.
    fn check<S: ParamSet>(&mut self, bytes: &[u8]) -> Result<Payment, Refusal>
        ensures answer { result ≡ verdict_of S.params self.old bytes.now }
        ensures last { self.new.last ≡ last_after self.old.last result }
        ensures key { self.new.key ≡ self.old.key }
    {
        let mut till = Till::<S>::new(self.key.as_slice(), self.last);
        let answer = till.check::<LongProduct>(bytes);
        let last = till.last();
        self.last = last;
        answer
    }
}

// Shows a till, if there is one, these bytes.
pub(crate) fn check(set: SetName, till: &mut Option<TillState>, bytes: &[u8]) -> Answer
    ensures answer { result ≡ check_answer set till.old bytes.now }
    ensures after { till.new ≡ till_after set till.old bytes.now }
{
    match till {
        Some(till) => Answer::Checked(in_set!(set, till.check(bytes))),
        None => Answer::NoTill,
    }
}
