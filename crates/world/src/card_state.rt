// A card, and what its calls are lent.
ghost use Rattle.std.specs.Prelude.{◌≡◌, ◌*◌, IfOk, MatchResult, Ok};
ghost use Rattle.world.specs.Cards.{Calls, Fresh, Kept, Loads, Records, Refills, Reshared, Supplies, Unfills};
ghost use Rattle.refusal.specs.declared.Refusal.TheVariants.{SourceRange};
ghost use Rattle.world.specs.declared.card_state.Unfilled.TheVariants.{Memory, Refused};

use crate::areas::lent_size;
use answers::Answer;
use calls::{Reply, load, perform};
use card::Card;
use feed::Feed;
use life::Call;
use params::ParamSet;
use refusal::Refusal;
use ring::LongProduct;
use script::{Stream, Supply};
use std::alloc::{AllocError, Global};
use words::{Cutoff, OutOfRange};

#[derive(Drop)]
pub struct CardState {
    pub secret: Vec<i8>,
    pub shares: u8,
    pub key: Vec<u32>,
    pub nonces: Feed,
    pub masks: Feed,
    pub card: Option<Card>,
    // How many words of work area and bytes of record area a signing is lent.
    pub work: usize,
    pub room: usize,
}

// The words of work area that a signing needs.
fn work_size<S: ParamSet>(shares: u8) -> usize
    ensures { result ≡ 6 * shares * S.params.n }
{
    6 * shares as usize * S::degree()
}

// Why a word source stays what it was.
#[derive(Drop)]
pub(crate) enum Unfilled {
    Refused(Refusal),
    Memory(AllocError),
}

impl From<OutOfRange> for Unfilled {
    ghost from_gives = { λ _ r. r ≡ Refused SourceRange };

    fn from(_e: OutOfRange) -> Unfilled {
        Unfilled::Refused(Refusal::SourceRange)
    }
}

impl From<AllocError> for Unfilled {
    ghost from_gives = { λ e r. r ≡ Memory e };

    fn from(e: AllocError) -> Unfilled {
        Unfilled::Memory(e)
    }
}

// Puts another source in a source's place, or a health check over it; where none can be made so, it stays.
fn refill(feed: &mut Feed, heap: Global, supply: Supply) -> Result<(), Unfilled>
    ensures { MatchResult result (λ told. Supplies supply (Ok told) feed.old feed.new) (Kept supply feed.old feed.new) }
{
    match supply {
        Supply::Tape(words) => *feed = Feed::tape(words)?,
        Supply::Generator { seed, count } => *feed = Feed::generator(seed, count)?,
        Supply::Health { cutoff } => feed.put_check(heap, Cutoff::new(cutoff)?)?,
    }
    Ok(())
}

// Where a record was made, the record area becomes the last record.
fn keep(reply: Reply, record: Vec<u8>, made: &mut Vec<u8>)
    ensures { Records reply «record».items made.old made.new }
{
    if let Reply::Signed(Ok(_)) = reply {
        *made = record;
    }
}

impl CardState {
    // One share, an empty secret, empty sources, and no card.
    pub(crate) fn new<S: ParamSet>(heap: Global) -> Result<CardState, AllocError>
        ensures { IfOk result (Fresh S.params) }
    {
        let key = vec![in heap; 0; 2 * S::degree()]?;
        Ok(CardState {
            secret: Vec::new(heap),
            shares: 1,
            key,
            nonces: Feed::empty(heap),
            masks: Feed::empty(heap),
            card: None,
            work: work_size::<S>(1),
            room: record::size::<S>(),
        })
    }

    // Another share count: a new key area, and no card.
    pub(crate) fn set_shares<S: ParamSet>(
        &mut self,
        heap: Global,
        shares: u8,
    ) -> Result<(), AllocError>
        ensures { MatchResult result (λ _. Reshared S.params shares self.old self.new) (λ _. self.new ≡ self.old) }
    {
        let key = vec![in heap; 0; 2 * shares as usize * S::degree()]?;
        self.shares = shares;
        self.key = key;
        self.card = None;
        self.work = work_size::<S>(shares);
        self.room = record::size::<S>();
        Ok(())
    }

    // Puts another source in the place of the one of this name.
    pub(crate) fn refill(
        &mut self,
        heap: Global,
        stream: Stream,
        supply: Supply,
    ) -> Result<(), Unfilled>
        ensures { MatchResult result (λ told. Refills stream supply (Ok told) self.old self.new) (Unfills stream supply self.old self.new) }
    {
        // Two arms: with the feed picked first the proof has to take the two cases apart again.
        match stream {
            Stream::Nonces => refill(&mut self.nonces, heap, supply),
            Stream::Masks => refill(&mut self.masks, heap, supply),
        }
    }

    // Loads a card. Where the masks end there is none afterwards; at any other refusal the one that was there stays.
    pub(crate) fn load<S: ParamSet>(&mut self, public: &mut [u32]) -> Result<u64, Refusal>
        ensures { Loads S.params self.old public.old result self.new public.new }
    {
        // Both arms, since both say what becomes of the card.
        match load::<S, LongProduct, Feed>(
            self.shares,
            self.secret.as_slice(),
            public,
            self.key.as_mut_slice(),
            &mut self.masks,
        ) {
            Ok(loaded) => {
                self.card = Some(loaded.card);
                Ok(loaded.masks)
            }
            Err(refusal) => {
                if let Refusal::MasksEnded { .. } = refusal {
                    self.card = None;
                }
                Err(refusal)
            }
        }
    }

    // Makes a call of the card, if there is one. A record that it made becomes the last one.
    pub(crate) fn call<S: ParamSet>(
        &mut self,
        heap: Global,
        call: &Call,
        public: &[u32],
        made: &mut Vec<u8>,
    ) -> Result<Answer, AllocError>
        ensures { MatchResult result (λ a. Calls S.params call.now self.old.card self.old public.now made.old a self.new made.new) (λ _. (self.new ≡ self.old) × (made.new ≡ made.old)) }
    {
        let words = lent_size(self.work, work_size::<S>(self.shares));
        let bytes = lent_size(self.room, record::size::<S>());
        let mut work = vec![in heap; 0; words]?;
        let mut record = vec![in heap; 0; bytes]?;
        let Some(mut card) = self.card.take() else {
            return Ok(Answer::NoCard(*call));
        };
        let reply = perform::<S, LongProduct, Feed, Feed>(
            &mut card,
            call,
            self.key.as_mut_slice(),
            public,
            work.as_mut_slice(),
            record.as_mut_slice(),
            &mut self.nonces,
            &mut self.masks,
        );
        self.card = Some(card);
        keep(reply, record, made);
        Ok(Answer::from(reply))
    }
}
