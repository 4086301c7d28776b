// What an attempt is of.
ghost use Rattle.std.specs.Prelude.{◌≡◌, ◌*◌, ⊤, length};
ghost use Rattle.ring.specs.Ring.{Residues};

use params::ParamSet;
use ring::Poly;
use shares::ShareCount;
use std::alloc::AllocError;

/// What is signed, and with which key: the key's area, in so many shares, beside the public polynomial a, and the digest and the counter.
pub struct Subject<'a, S: ParamSet> {
    pub shares: ShareCount,
    pub key: &'a [u32],
    pub a: Poly<'a, S>,
    pub digest: &'a [u8; 32],
    pub counter: u16,
    ghost sized: { length key.now ≡ 2 * shares.count * S.params.n },
    ghost residues: { Residues S.params.p key.now },
}

// By hand: a derive would ask that S be Copy, and `derive_where` refuses a struct with ghost fields.
impl<'a, S: ParamSet> Clone for Subject<'a, S> {
    ghost is_clone = { λ x y. y ≡ x };

    ghost is_infallible = { λ _. ⊤ };

    fn clone(&self) -> Result<Subject<'a, S>, AllocError> {
        Ok(*self)
    }
}

impl<'a, S: ParamSet> Copy for Subject<'a, S> {}
