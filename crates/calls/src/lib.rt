// One call on a card, with the areas and the sources lent for it; and what that means for the card's whole life.
#![tactic(auto)]

ghost use Rattle.polys.specs.Area.{recombined};
ghost use Rattle.std.specs.Prelude.{◌≡◌, [], OnOk};
ghost use Rattle.refusal.specs.Tests.{first_hit};
ghost use Rattle.keys.specs.Load.{load_tests};
ghost use Rattle.card.specs.Load.{LoadBy};
ghost use Rattle.calls.specs.Goings.{Begins, Continues, state_of};
ghost use Rattle.calls.specs.Replies.{Areas, Performs, areas};

mod reply;

use card::{Card, Loaded};
use life::Call;
use params::ParamSet;
use refusal::Refusal;
pub use reply::Reply;
use ring::Multiply;
use words::Source;

/// Makes a card, whose life begins.
pub fn load<S: ParamSet, P: Multiply<S>, W: Source>(
    shares: u8,
    secret: &[i8],
    public: &mut [u32],
    key: &mut [u32],
    masks: &mut W,
) -> Result<Loaded, Refusal>
    ensures loaded { LoadBy S.params shares secret.now (first_hit (load_tests S.params shares secret.now public.old key.old)) result public.old public.new key.old key.new (W.flow masks.old) (W.flow masks.new) }
    ensures begins { OnOk result (Begins S.params shares secret.now public.old (areas key.new public.new [] []) (W.flow masks.new)) }
{
    card::load::<S, P, W>(shares, secret, public, key, masks)
}

/// Makes a call: sign, remask or report.
// The areas and the sources are lent one by one, as in `Card::sign`.
pub fn perform<S: ParamSet, P: Multiply<S>, N: Source, W: Source>(
    card: &mut Card,
    call: &Call,
    key: &mut [u32],
    public: &[u32],
    work: &mut [u32],
    record: &mut [u8],
    nonces: &mut N,
    masks: &mut W,
) -> Reply
    ensures performs { Performs S.params card.old.shares.count call.now result card.old.counter card.new.counter (areas key.old public.now work.old «record».old) (areas key.new public.now work.new «record».new) (N.flow nonces.old) (N.flow nonces.new) (W.flow masks.old) (W.flow masks.new) }
    ensures shares { card.new.shares.count ≡ card.old.shares.count }
    ensures same { recombined S.params card.old.shares.count key.new ≡ recombined S.params card.old.shares.count key.old }
    ensures life { Continues S.params card.old.shares.count call.now result (state_of card.old.counter (N.flow nonces.old) (W.flow masks.old)) (state_of card.new.counter (N.flow nonces.new) (W.flow masks.new)) (areas key.old public.now work.old «record».old) (areas key.new public.now work.new «record».new) }
{
    match call {
        Call::Sign { digest, tries } => Reply::Signed(card.sign::<S, P, N, W>(
            digest, *tries, key, public, work, record, nonces, masks,
        )),
        Call::Remask => Reply::Remasked(card.remask::<S, W>(key, masks)),
        Call::Report => Reply::Reported(card.report()),
    }
}
