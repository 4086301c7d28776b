// The card: its key, in shares, and its counter. The key and the public polynomials stand in areas that each call is lent.
#![tactic(auto)]

ghost use Rattle.card.specs.Load.{LoadBy};
ghost use Rattle.card.specs.Remask.{RemaskBy};
ghost use Rattle.keys.specs.Load.{Loadable, load_tests, residues_of};
ghost use Rattle.keys.specs.Remask.{key_tests};
ghost use Rattle.polys.specs.Area.{recombined};
ghost use Rattle.refusal.specs.Tests.{first_hit};
ghost use Rattle.ring.specs.Ring.{Residues};
ghost use Rattle.std.specs.Prelude.{◌≡◌, OnOk};

mod scrub;
mod sign;
mod state;

use keys::{Secret, check_key, check_load, clear, load_counted, publish, remask_counted};
use params::ParamSet;
use refusal::Refusal;
use ring::Multiply;
pub use state::{Card, Loaded, Report, Signed};
use words::Source;

/// Puts the secret key into the key area, in so many shares, and the public key's t behind its a.
pub fn load<S: ParamSet, M: Multiply<S>, W: Source>(
    shares: u8,
    secret: &[i8],
    public: &mut [u32],
    key: &mut [u32],
    masks: &mut W,
) -> Result<Loaded, Refusal>
    ensures loaded { LoadBy S.params shares secret.now (first_hit (load_tests S.params shares secret.now public.old key.old)) result public.old public.new key.old key.new (W.flow masks.old) (W.flow masks.new) }
    ensures value { OnOk result (recombined S.params shares key.new ≡ residues_of S.params secret.now) }
    ensures residues { OnOk result (Residues S.params.p key.new) }
    ensures public { OnOk result (Residues S.params.p public.new) }
    ensures loadable { OnOk result (Loadable S.params shares secret.now public.old key.old) }
{
    let count = check_load::<S>(shares, secret, public, key)?;
    let secret = Secret::new(secret);
    let (ending, taken) = load_counted::<S, W>(count, secret, key, masks);
    // No `?`: a load that ends early clears the key area first.
    if let Err(mark) = ending {
        clear(key);
        return Err(Refusal::MasksEnded { mark });
    }
    publish::<S, M>(secret, public);
    Ok(Loaded {
        card: Card::new(count),
        masks: taken,
    })
}

impl Card {
    /// Puts new shares of the same key into the key area, and tells how many words that took.
    pub fn remask<S: ParamSet, W: Source>(
        &self,
        key: &mut [u32],
        masks: &mut W,
    ) -> Result<u64, Refusal>
        ensures remasked { RemaskBy S.params self.now.shares.count (first_hit (key_tests S.params self.now.shares.count key.old)) result key.old key.new (W.flow masks.old) (W.flow masks.new) }
        ensures same { recombined S.params self.now.shares.count key.new ≡ recombined S.params self.now.shares.count key.old }
        ensures residues { Residues S.params.p key.old → Residues S.params.p key.new }
    {
        check_key::<S>(self.shares.count, key)?;
        let (ending, count) = remask_counted::<S, W>(self.shares, key, masks);
        ending.map_err(|mark| Refusal::MasksEnded { mark })?;
        Ok(count)
    }
}
