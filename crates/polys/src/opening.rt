// Polynomials opened, coefficient by coefficient.
ghost use Rattle.std.specs.Prelude.{◌≡◌, ◌+◌, ◌*◌, ◌/◌, ◌<◌, ◌≤◌, length, OnOk};
ghost use Rattle.polys.specs.Area.{shares_of, values};
ghost use Rattle.ring.specs.Ring.{Residues};
ghost use Rattle.shares.specs.Groups.{residue_rule};
ghost use Rattle.shares.specs.Refresh.{pairs};
ghost use Rattle.shares.specs.Rule.{recombine};
ghost use Rattle.words.specs.Spending.{Spends};

use crate::column::coefficient;
use crate::shared::Shared;
use params::ParamSet;
use shares::open;
use words::{Mark, Source};

/// Opens coefficient c of an area of residues.
// Beside the method of `Shared`, as `coefficient` is.
pub fn open_coefficient<const M: usize, S: ParamSet, W: Source>(
    area: &[u32],
    c: usize,
    masks: &mut W,
) -> Result<u32, Mark>
    requires most { M ≤ 8 }
    requires inside { (c / S.params.n + 1) * M * S.params.n ≤ length area.now }
    requires residues { Residues S.params.p area.now }
    ensures { Spends ((residue_rule S.params.p).cost * pairs M) result (W.flow masks.old) (W.flow masks.new) (λ v. v ≡ recombine (residue_rule S.params.p) (shares_of S.params.n M area.now c)) }
{
    let shares = coefficient::<M, S>(area, c);
    open::<M, shares::Residues<S>, W>(shares, masks)
}

impl<'a, const K: usize, const M: usize, S: ParamSet> Shared<'a, K, M, S> {
    /// Opens coefficient c, counted through the polynomials.
    pub fn open_coefficient<W: Source>(self, c: usize, masks: &mut W) -> Result<u32, Mark>
        requires inside { c < K * S.params.n }
        ensures { Spends ((residue_rule S.params.p).cost * pairs M) result (W.flow masks.old) (W.flow masks.new) (λ v. v ≡ recombine (residue_rule S.params.p) (shares_of S.params.n M self.entry.area.now c)) }
    {
        open_coefficient::<M, S, W>(self.area, c, masks)
    }
}

/// Opens a polynomial in shares, each coefficient in turn.
pub fn open_poly<const M: usize, S: ParamSet, W: Source>(
    out: &mut [u32],
    r: Shared<'_, 1, M, S>,
    masks: &mut W,
) -> Result<(), Mark>
    requires out { length out.old ≡ S.params.n }
    ensures opened { Spends (S.params.n * ((residue_rule S.params.p).cost * pairs M)) result (W.flow masks.old) (W.flow masks.new) (λ _. out.new ≡ values S.params M S.params.n r.entry.area.now) }
    ensures residues { OnOk result (Residues S.params.p out.new) }
{
    'coefficients: for (c, coefficient) in out.iter_mut().enumerate() {
        *coefficient = r.open_coefficient(c, masks)?;
    }
    Ok(())
}
