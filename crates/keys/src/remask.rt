// New shares of the same key.
ghost use Rattle.std.specs.Prelude.{◌≡◌, ℕ, ◌+◌, ◌-◌, ◌*◌, ◌/◌, ◌<◌, ◌≤◌, ◌≢◌, length};
ghost use Rattle.keys.specs.Key.{KeyArea};
ghost use Rattle.keys.specs.Remask.{TestsKey, Remasks};
ghost use Rattle.polys.specs.Area.{shares_of};
ghost use Rattle.shares.specs.Groups.{residue_rule};
ghost use Rattle.shares.specs.Refresh.{Refreshed};
ghost use Rattle.shares.specs.Rule.{Within};

use params::ParamSet;
use polys::{coefficients, gather, scatter};
use refusal::{Area, Refusal, check_residues};
use shares::{Residues, ShareCount, Shares, at_share_count, refresh};
use words::{Mark, Metered, Source};

/// A key area has its size, and each word is a residue.
pub fn check_key<S: ParamSet>(shares: u8, key: &[u32]) -> Result<(), Refusal>
    ensures { TestsKey S.params shares key.now result }
{
    if key.len() != 2 * shares as usize * S::degree() {
        return Err(Refusal::AreaSize);
    }
    check_residues(Area::Key, key, S::modulus())
}

// Refreshes the shares of coefficient c.
fn remask_coefficient<const M: usize, S: ParamSet, W: Source>(
    key: &mut [u32],
    c: usize,
    masks: &mut W,
) -> Result<(), Mark>
    requires most { M ≤ 8 }
    requires sized { length key.old ≡ 2 * M * S.params.n }
    requires inside { c < 2 * S.params.n }
    requires within { Within (residue_rule S.params.p) (shares_of S.params.n M key.old c) }
    ensures refreshed { Refreshed (residue_rule S.params.p) M result (shares_of S.params.n M key.old c) (shares_of S.params.n M key.new c) (W.flow masks.old) (W.flow masks.new) }
    ensures others { (k : ℕ) → k ≢ c → shares_of S.params.n M key.new k ≡ shares_of S.params.n M key.old k }
{
    let n = S::degree();
    let mut shares: Shares<M> = gather(key, n, c);
    let outcome = refresh::<M, Residues<S>, W>(&mut shares, masks);
    scatter(shares, key, n, c);
    outcome
}

// Refreshes the shares of each coefficient, those of s1 first.
fn remask_key<const M: usize, S: ParamSet, W: Source>(
    key: &mut [u32],
    masks: &mut W,
) -> Result<(), Mark>
    requires most { M ≤ 8 }
    requires area { KeyArea S.params M key.old }
    ensures { Remasks S.params M result key.old key.new (W.flow masks.old) (W.flow masks.new) }
{
    // By index, since the shares of one coefficient stand far apart in the area.
    for c in 0..coefficients::<S>() {
        remask_coefficient::<M, S, W>(key, c, masks)?;
    }
    Ok(())
}

// The same at a share count that is known when the program runs.
fn remask_shares<S: ParamSet, W: Source>(
    shares: ShareCount,
    key: &mut [u32],
    masks: &mut W,
) -> Result<(), Mark>
    requires area { KeyArea S.params shares.count key.old }
    ensures { Remasks S.params shares.count result key.old key.new (W.flow masks.old) (W.flow masks.new) }
{
    at_share_count!(shares, remask_key::<_, S, W>(key, masks))
}

/// Refreshes the shares of each coefficient, those of s1 first, and tells how many words were taken.
// A pair, since the count is promised of a remask that ends early too.
pub fn remask_counted<S: ParamSet, W: Source>(
    shares: ShareCount,
    key: &mut [u32],
    masks: &mut W,
) -> (Result<(), Mark>, u64)
    requires area { KeyArea S.params shares.count key.old }
    ensures remasks { Remasks S.params shares.count result.0 key.old key.new (W.flow masks.old) (W.flow masks.new) }
    ensures count { result.1 ≡ length (W.flow masks.old).words - length (W.flow masks.new).words }
{
    let mut meter = Metered::new(masks);
    let outcome = remask_shares::<S, Metered<W>>(shares, key, &mut meter);
    let count = meter.count();
    (outcome, count)
}
