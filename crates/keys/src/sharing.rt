// The secret key in shares.
ghost use Rattle.std.specs.Prelude.{◌≡◌, ℕ, ◌+◌, ◌-◌, ◌*◌, ◌/◌, ◌<◌, ◌≤◌, ◌≢◌, length, replicate, IfOk};
ghost use Rattle.keys.specs.Load.{Holds, Splits, TestsLoad, load_cost, not_ternary};
ghost use Rattle.polys.specs.Area.{shares_of};
ghost use Rattle.ring.specs.Ring.{residue};
ghost use Rattle.search.specs.First.{first_at};
ghost use Rattle.shares.specs.Groups.{residue_rule};
ghost use Rattle.words.specs.Spending.{Spends};

use crate::secret::Secret;
use crate::split::split;
use params::ParamSet;
use polys::scatter;
use refusal::{Area, Refusal, check_residues};
use ring::to_residue;
use shares::{Residues, ShareCount, Shares, at_share_count};
use words::{Mark, Metered, Source};

fn is_not_ternary(coefficient: i8) -> bool
    ensures { result ≡ not_ternary coefficient }
{
    coefficient.unsigned_abs() > 1
}

// The lowest index of a coefficient that is not −1, 0 or 1.
fn first_not_ternary(secret: &[i8]) -> Option<usize>
    ensures { result ≡ first_at not_ternary secret.now }
{
    secret
        .iter()
        .position(|coefficient| is_not_ternary(*coefficient))
}

/// The tests of a load, and its share count.
pub fn check_load<S: ParamSet>(
    shares: u8,
    secret: &[i8],
    public: &[u32],
    key: &[u32],
) -> Result<ShareCount, Refusal>
    ensures tests { TestsLoad S.params shares secret.now public.now key.now result }
    ensures count { IfOk result (λ tested. tested.count ≡ shares) }
{
    let n = S::degree();
    let count = ShareCount::new(shares).ok_or(Refusal::ShareCount)?;
    if public.len() != 2 * n || secret.len() != 2 * n || key.len() != 2 * shares as usize * n {
        return Err(Refusal::AreaSize);
    }
    check_residues(Area::Public, &public[0..n], S::modulus())?;
    first_not_ternary(secret).map_or(Ok(count), |index| Err(Refusal::NotTernary { index }))
}

// The residue of a secret coefficient.
pub(crate) fn secret_residue<S: ParamSet>(coefficient: i8) -> u32
    ensures { result ≡ residue S.params.p coefficient }
{
    to_residue::<S>(coefficient as i16)
}

/// Zeros in a whole area.
pub fn clear(key: &mut [u32])
    ensures { key.new ≡ replicate (length key.old) 0 }
{
    key.fill(0);
}

// Puts shares of a value into the key area, as coefficient c.
// Each function that writes the area asks for its length: a struct with the `&mut` in it would need a clause in each, and a fact in each
// loop, that it lends the same area still.
fn load_coefficient<const M: usize, S: ParamSet, W: Source>(
    value: u32,
    key: &mut [u32],
    c: usize,
    masks: &mut W,
) -> Result<(), Mark>
    requires some { 0 < M }
    requires most { M ≤ 8 }
    requires sized { length key.old ≡ 2 * M * S.params.n }
    requires inside { c < 2 * S.params.n }
    requires value { value < S.params.p }
    ensures split { Spends ((residue_rule S.params.p).cost * (M - 1)) result (W.flow masks.old) (W.flow masks.new) (λ _. Splits (residue_rule S.params.p) M (W.flow masks.old).words value (shares_of S.params.n M key.new c)) }
    ensures others { (k : ℕ) → k ≢ c → shares_of S.params.n M key.new k ≡ shares_of S.params.n M key.old k }
{
    let shares: Shares<M> = split::<M, Residues<S>, W>(value, masks)?;
    scatter(shares, key, S::degree(), c);
    Ok(())
}

// Puts shares of each coefficient into the key area, those of s1 first. The area's length is asked for, as above.
fn load_key<const M: usize, S: ParamSet, W: Source>(
    secret: Secret<'_, S>,
    key: &mut [u32],
    masks: &mut W,
) -> Result<(), Mark>
    requires some { 0 < M }
    requires most { M ≤ 8 }
    requires sized { length key.old ≡ 2 * M * S.params.n }
    ensures { Spends (load_cost S.params M) result (W.flow masks.old) (W.flow masks.new) (λ _. Holds S.params M secret.entry.coefficients.now (W.flow masks.old).words key.new) }
{
    for (c, coefficient) in secret.coefficients.iter().enumerate() {
        let value = secret_residue::<S>(*coefficient);
        load_coefficient::<M, S, W>(value, key, c, masks)?;
    }
    Ok(())
}

// The same at a share count that is known when the program runs.
fn load_shares<S: ParamSet, W: Source>(
    shares: ShareCount,
    secret: Secret<'_, S>,
    key: &mut [u32],
    masks: &mut W,
) -> Result<(), Mark>
    requires sized { length key.old ≡ 2 * shares.count * S.params.n }
    ensures { Spends (load_cost S.params shares.count) result (W.flow masks.old) (W.flow masks.new) (λ _. Holds S.params shares.count secret.entry.coefficients.now (W.flow masks.old).words key.new) }
{
    at_share_count!(shares, load_key::<_, S, W>(secret, key, masks))
}

/// Puts shares of each coefficient into the key area, those of s1 first, and tells how many words were taken.
// A pair, since the count is promised of a load that ends early too. The meter stands in `remask_counted` again: no closure is over any source.
pub fn load_counted<S: ParamSet, W: Source>(
    shares: ShareCount,
    secret: Secret<'_, S>,
    key: &mut [u32],
    masks: &mut W,
) -> (Result<(), Mark>, u64)
    requires sized { length key.old ≡ 2 * shares.count * S.params.n }
    ensures holds { Spends (load_cost S.params shares.count) result.0 (W.flow masks.old) (W.flow masks.new) (λ _. Holds S.params shares.count secret.entry.coefficients.now (W.flow masks.old).words key.new) }
    ensures count { result.1 ≡ length (W.flow masks.old).words - length (W.flow masks.new).words }
{
    let mut meter = Metered::new(masks);
    let outcome = load_shares::<S, Metered<W>>(shares, secret, key, &mut meter);
    let count = meter.count();
    (outcome, count)
}
