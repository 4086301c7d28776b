// Polynomials in shares, with what is known of the area that they stand in.
ghost use Rattle.std.specs.Prelude.{◌≡◌, ⊤, ◌*◌, ◌<◌, ◌≤◌, length};
ghost use Rattle.polys.specs.Area.{shares_of};
ghost use Rattle.ring.specs.Ring.{Residues};
ghost use Rattle.shares.specs.Groups.{residue_rule};
ghost use Rattle.shares.specs.Rule.{Within};

use crate::column::coefficient;
use params::ParamSet;
use shares::Shares;
use std::alloc::AllocError;
use std::marker::PhantomData;

/// K polynomials, each in M shares, in an area that is lent: M rows of n residues to a polynomial.
pub struct Shared<'a, const K: usize, const M: usize, S: ParamSet> {
    pub area: &'a [u32],
    set: PhantomData<S>,
    ghost some: { 0 < M },
    ghost most: { M ≤ 8 },
    ghost sized: { length area.now ≡ K * M * S.params.n },
    ghost residues: { Residues S.params.p area.now },
}

// By hand: no derive copies a struct that has ghost fields and a type parameter.
impl<'a, const K: usize, const M: usize, S: ParamSet> Clone for Shared<'a, K, M, S> {
    ghost is_clone = { λ x y. y ≡ x };

    ghost is_infallible = { λ _. ⊤ };

    fn clone(&self) -> Result<Self, AllocError> {
        Ok(*self)
    }
}

impl<'a, const K: usize, const M: usize, S: ParamSet> Copy for Shared<'a, K, M, S> {}

impl<'a, const K: usize, const M: usize, S: ParamSet> Shared<'a, K, M, S> {
    pub fn new(area: &'a [u32]) -> Self
        requires some { 0 < M }
        requires most { M ≤ 8 }
        requires sized { length area.now ≡ K * M * S.params.n }
        requires residues { Residues S.params.p area.now }
        ensures { result.area.now ≡ area.now }
    {
        let set = PhantomData;
        Shared { area, set }
    }

    /// The shares of coefficient c, counted through the polynomials.
    pub fn coefficient(self, c: usize) -> Shares<M>
        requires inside { c < K * S.params.n }
        ensures shares { result ≡ shares_of S.params.n M self.entry.area.now c }
        ensures within { Within (residue_rule S.params.p) result }
    {
        coefficient::<M, S>(self.area, c)
    }
}
