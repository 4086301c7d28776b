// The response in shares: the check that no coefficient lies too far from 0, and its opening.
#![tactic(auto)]

ghost use Rattle.std.specs.Prelude.{◌≡◌, ◌+◌, ◌*◌, ◌^◌, ◌<◌, true, map, length, unsigned_abs};
ghost use Rattle.polys.specs.Area.{recombined, shares_of};
ghost use Rattle.record.specs.Reading.{all_near};
ghost use Rattle.response.specs.Pass.{pass_bit};
ghost use Rattle.ring.specs.Ring.{centre};
ghost use Rattle.shares.specs.Groups.{residue_rule, word_of};
ghost use Rattle.shares.specs.Refresh.{pairs};
ghost use Rattle.shares.specs.Rule.{recombine};
ghost use Rattle.words.specs.Spending.{Spends};

use linear::public;
use params::ParamSet;
use polys::{Shared, coefficients};
use ring::centred;
use shares::{Shares, Words, open};
use steps::check_coefficient;
use words::{Mark, Source};

// Shares of 1 where each coefficient lies near enough to 0, and else of 0.
fn pass<const M: usize, S: ParamSet, W: Source>(
    z: Shared<'_, 2, M, S>,
    masks: &mut W,
) -> Result<Shares<M>, Mark>
    ensures { Spends (2 * S.params.n * ((33 * M + 16) * pairs M)) result (W.flow masks.old) (W.flow masks.new) (λ q. word_of q ≡ pass_bit (all_near S.params (map (centre S.params.p) (recombined S.params M z.entry.area.now)))) }
{
    let mut pass = public(1);
    // By number: the shares of a coefficient stand apart in the area.
    'coefficients: for c in 0..coefficients::<S>() {
        pass = check_coefficient::<M, S, W>(z.coefficient(c), pass, masks)?;
    }
    Ok(pass)
}

/// Whether each coefficient of z lies near enough to 0. Nothing else of z is opened.
pub fn check<const M: usize, S: ParamSet, W: Source>(
    z: Shared<'_, 2, M, S>,
    masks: &mut W,
) -> Result<bool, Mark>
    ensures { Spends (2 * S.params.n * ((33 * M + 16) * pairs M) + pairs M) result (W.flow masks.old) (W.flow masks.new) (λ b. b ≡ all_near S.params (map (centre S.params.p) (recombined S.params M z.entry.area.now))) }
{
    let shares = pass(z, masks)?;
    let bit = open::<M, Words, W>(shares, masks)?;
    Ok(bit == 1)
}

// Opens coefficient c of z, as the integer that it stands for.
fn open_centred<const M: usize, S: ParamSet, W: Source>(
    z: Shared<'_, 2, M, S>,
    c: usize,
    masks: &mut W,
) -> Result<i16, Mark>
    requires inside { c < 2 * S.params.n }
    requires near { unsigned_abs (centre S.params.p (recombine (residue_rule S.params.p) (shares_of S.params.n M z.area.now c))) < 2 ^ 15 }
    ensures { Spends ((residue_rule S.params.p).cost * pairs M) result (W.flow masks.old) (W.flow masks.new) (λ v. v ≡ centre S.params.p (recombine (residue_rule S.params.p) (shares_of S.params.n M z.entry.area.now c))) }
{
    let value = z.open_coefficient(c, masks)?;
    Ok(centred::<S>(value) as i16)
}

/// Opens z, each coefficient in turn, as the integers that it stands for.
pub fn open_response<const M: usize, S: ParamSet, W: Source>(
    out: &mut [i16],
    z: Shared<'_, 2, M, S>,
    masks: &mut W,
) -> Result<(), Mark>
    requires out { length out.old ≡ 2 * S.params.n }
    requires near { all_near S.params (map (centre S.params.p) (recombined S.params M z.area.now)) ≡ true }
    ensures { Spends (2 * S.params.n * ((residue_rule S.params.p).cost * pairs M)) result (W.flow masks.old) (W.flow masks.new) (λ _. out.new ≡ map (centre S.params.p) (recombined S.params M z.entry.area.now)) }
{
    'coefficients: for (c, coefficient) in out.iter_mut().enumerate() {
        *coefficient = open_centred(z, c, masks)?;
    }
    Ok(())
}
