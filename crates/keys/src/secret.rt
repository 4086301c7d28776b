// A secret key before it is put in shares, with what is known of its length.
ghost use Rattle.std.specs.Prelude.{◌≡◌, ⊤, ◌*◌, length};

use params::ParamSet;
use std::alloc::AllocError;
use std::marker::PhantomData;

/// A secret key that is lent: the coefficients of s1, and then those of s2, one byte each.
// Any byte will do, since a residue is made of any: that each is −1, 0 or 1 is a test of a load.
pub struct Secret<'a, S: ParamSet> {
    pub coefficients: &'a [i8],
    set: PhantomData<S>,
    ghost sized: { length coefficients.now ≡ 2 * S.params.n },
}

// By hand: no derive copies a struct that has ghost fields and a type parameter.
impl<'a, S: ParamSet> Clone for Secret<'a, S> {
    ghost is_clone = { λ x y. y ≡ x };

    ghost is_infallible = { λ _. ⊤ };

    fn clone(&self) -> Result<Self, AllocError> {
        Ok(*self)
    }
}

impl<'a, S: ParamSet> Copy for Secret<'a, S> {}

impl<'a, S: ParamSet> Secret<'a, S> {
    pub fn new(coefficients: &'a [i8]) -> Self
        requires sized { length coefficients.now ≡ 2 * S.params.n }
        ensures { result.coefficients.now ≡ coefficients.now }
    {
        let set = PhantomData;
        Secret { coefficients, set }
    }
}
