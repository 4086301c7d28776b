// The state, and a method for each line.
ghost use Rattle.std.specs.Prelude.{◌≡◌, length, set, IfOk, IsOk, MatchResult, nat_lt, vec_len};
ghost use Rattle.world.specs.Cards.{Loads, Reshared, with_secret, with_sizes};
ghost use Rattle.world.specs.State.{CardLine, Called, CutShort, FillLine, Fresh, LoadLine, OfCheck, Pokes, Repeated, RepeatsChecks, public, with_a, with_card, with_t, with_till, words_of};
ghost use Rattle.world.specs.Tills.{Made, params_of};

use crate::areas::{joined, part, poke};
use crate::card_state::{CardState, Unfilled};
use crate::in_set::in_set;
use crate::till_state::{TillState, check};
use answers::Answer;
use params::ParamSet;
use refusal::{Area, Refusal};
use script::{Call, SetName, Shown, Stream, Supply};
use std::alloc::{AllocError, Global};

#[derive(Drop)]
pub struct World {
    set: SetName,
    a: Vec<u32>,
    t: Vec<u32>,
    card: CardState,
    till: Option<TillState>,
    // The last record made, no bytes if none was: what a till is then shown, so no `Option`.
    made: Vec<u8>,
}

impl World {
    // A world at the start: zeros in a and t, one share, no card, no till.
    pub fn new(heap: Global, set: SetName) -> Result<World, AllocError>
        ensures { IfOk result (Fresh set) }
    {
        in_set!(set, World::start(heap, set))
    }

    // The same, at the type of the set that has this name.
    fn start<S: ParamSet>(heap: Global, set: SetName) -> Result<World, AllocError>
        requires { params_of set ≡ S.params }
        ensures { IfOk result (Fresh set) }
    {
        let a = vec![in heap; 0; S::degree()]?;
        let t = vec![in heap; 0; S::degree()]?;
        let card = CardState::new::<S>(heap)?;
        Ok(World {
            set,
            a,
            t,
            card,
            till: None,
            made: Vec::new(heap),
        })
    }

    // The words of a, which begin the public area.
    pub fn a(&self) -> &[u32]
        ensures { result.now ≡ self.now.a.items }
    {
        self.a.as_slice()
    }

    // The words of t, which end it.
    pub fn t(&self) -> &[u32]
        ensures { result.now ≡ self.now.t.items }
    {
        self.t.as_slice()
    }

    // A copy of the public area, in one piece.
    fn public(&self, heap: Global) -> Result<Vec<u32>, AllocError>
        ensures { IfOk result (λ v. v.items ≡ public self.now) }
    {
        joined(heap, self.a.as_slice(), self.t.as_slice())
    }

    pub fn set_a(&mut self, words: Vec<u32>)
        ensures { self.new ≡ with_a self.old words }
    {
        self.a = words;
    }

    pub fn set_t(&mut self, words: Vec<u32>)
        ensures { self.new ≡ with_t self.old words }
    {
        self.t = words;
    }

    pub fn set_secret(&mut self, secret: Vec<i8>)
        ensures { self.new ≡ with_card self.old (with_secret self.old.card secret) }
    {
        self.card.secret = secret;
    }

    // Another share count: a new key area, and no card.
    pub fn set_shares(&mut self, heap: Global, shares: u8) -> Result<(), AllocError>
        ensures shares { MatchResult result (λ _. Reshared (params_of self.old.set) shares self.old.card self.new.card) (λ _. self.new.card ≡ self.old.card) }
        ensures rest { self.new ≡ with_card self.old self.new.card }
    {
        in_set!(self.set, self.card.set_shares(heap, shares))
    }

    // The sizes of the areas that later signings are lent.
    pub fn set_work(&mut self, words: u32)
        ensures { self.new ≡ with_card self.old (with_sizes self.old.card words self.old.card.room) }
    {
        self.card.work = words as usize;
    }

    pub fn set_room(&mut self, bytes: u32)
        ensures { self.new ≡ with_card self.old (with_sizes self.old.card self.old.card.work bytes) }
    {
        self.card.room = bytes as usize;
    }

    // Puts another source in a source's place, or a health check over it. A refusal is told and want of memory ends the call:
    // no `From`, as the one error goes two ways.
    pub fn fill(
        &mut self,
        heap: Global,
        stream: Stream,
        supply: Supply,
    ) -> Result<Answer, AllocError>
        ensures { MatchResult result (λ a. FillLine stream supply self.old a self.new) (λ _. self.new ≡ self.old) }
    {
        match self.card.refill(heap, stream, supply) {
            Ok(()) => Ok(Answer::Filled(stream, Ok(()))),
            Err(Unfilled::Refused(refusal)) => Ok(Answer::Filled(stream, Err(refusal))),
            Err(Unfilled::Memory(error)) => Err(error),
        }
    }

    // Loads a card, lent the public area in one piece.
    fn load_card(&mut self, public: &mut [u32]) -> Result<u64, Refusal>
        ensures loads { Loads (params_of self.old.set) self.old.card public.old result self.new.card public.new }
        ensures rest { self.new ≡ with_card self.old self.new.card }
    {
        in_set!(self.set, self.card.load(public))
    }

    // Loads a card.
    pub fn load(&mut self, heap: Global) -> Result<Answer, AllocError>
        ensures { MatchResult result (λ a. LoadLine self.old a self.new) (λ _. self.new ≡ self.old) }
    {
        let mut public = self.public(heap)?;
        let loaded = self.load_card(public.as_mut_slice());
        part(
            public.as_slice(),
            self.a.as_mut_slice(),
            self.t.as_mut_slice(),
        );
        Ok(Answer::Loaded(loaded))
    }

    // Writes a word of the public area, or says that it has no such word: a `bool`, which is promised to callers.
    pub fn poke_public(&mut self, index: usize, value: u32) -> bool
        ensures within { result ≡ nat_lt index (length (public self.old)) }
        ensures public { public self.new ≡ set (public self.old) index value }
        ensures rest { (self.new.set ≡ self.old.set) × ((self.new.till ≡ self.old.till) × (self.new.made ≡ self.old.made)) }
        ensures card { self.new.card ≡ self.old.card }
        ensures split { vec_len self.new.a ≡ vec_len self.old.a }
    {
        match index.checked_sub(self.a.len()) {
            None => poke(self.a.as_mut_slice(), index, value),
            Some(index) => poke(self.t.as_mut_slice(), index, value),
        }
    }

    // Writes a word of an area, or says that it has no such word, as `poke_public` does.
    pub fn poke(&mut self, area: Area, index: usize, value: u32) -> bool
        ensures within { result ≡ nat_lt index (length (words_of self.old area)) }
        ensures after { Pokes area index value self.old self.new }
    {
        match area {
            Area::Public => self.poke_public(index, value),
            Area::Key => poke(self.card.key.as_mut_slice(), index, value),
        }
    }

    // A copy of the words of an area.
    pub fn show(&self, heap: Global, area: Area) -> Result<Vec<u32>, AllocError>
        ensures { IfOk result (λ v. v.items ≡ words_of self.now area) }
    {
        match area {
            Area::Public => self.public(heap),
            Area::Key => Vec::from_slice(heap, self.card.key.as_slice()),
        }
    }

    // A new till with a copy of the public area.
    pub fn new_till(&mut self, heap: Global, last: Option<u16>) -> Result<(), AllocError>
        ensures till { MatchResult result (λ _. Made (public self.old) last self.new.till) (λ _. self.new.till ≡ self.old.till) }
        ensures rest { self.new ≡ with_till self.old self.new.till }
    {
        let key = self.public(heap)?;
        self.till = Some(TillState { key, last });
        Ok(())
    }

    // The last record made, no bytes if none was.
    pub fn made(&self) -> &[u8]
        ensures { result.now ≡ self.now.made.items }
    {
        self.made.as_slice()
    }

    fn card_call(&mut self, heap: Global, call: life::Call) -> Result<Answer, AllocError>
        ensures { MatchResult result (λ a. CardLine self.old call a self.new) (λ _. self.new ≡ self.old) }
    {
        let public = self.public(heap)?;
        in_set!(
            self.set,
            self.card
                .call(heap, &call, public.as_slice(), &mut self.made)
        )
    }

    // Makes a call once. A check wants no memory.
    pub fn call(&mut self, heap: Global, call: &Call) -> Result<Answer, AllocError>
        ensures called { MatchResult result (λ a. Called self.old call.now a self.new) (λ _. self.new ≡ self.old) }
        ensures checked { OfCheck call.now → IsOk result }
    {
        match call {
            Call::Check(Shown::Bytes(bytes)) => {
                Ok(check(self.set, &mut self.till, bytes.as_slice()))
            }
            Call::Check(Shown::Last) => Ok(check(self.set, &mut self.till, self.made.as_slice())),
            Call::Sign { digest, tries } => self.card_call(
                heap,
                life::Call::Sign {
                    digest: *digest,
                    tries: *tries,
                },
            ),
            Call::Remask => self.card_call(heap, life::Call::Remask),
            Call::Report => self.card_call(heap, life::Call::Report),
        }
    }

    // Makes a call again and again: how many times it did what it was asked, and the last answer.
    pub fn repeat(
        &mut self,
        heap: Global,
        times: u32,
        call: &Call,
    ) -> Result<(u32, Option<Answer>), AllocError>
        ensures repeated { MatchResult result (λ x. Repeated self.old call.now times x.0 x.1 self.new) (λ _. CutShort self.old call.now times self.new) }
        ensures checks { RepeatsChecks self.old call.now times result self.new }
    {
        let mut done = 0;
        let mut last = None;
        'calls: for _ in 0..times {
            let answer = self.call(heap, call)?;
            done += u32::from(answer.is_ok());
            last = Some(answer);
        }
        Ok((done, last))
    }
}
