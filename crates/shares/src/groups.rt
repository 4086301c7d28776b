// The two groups that values are shared in.
ghost use Rattle.shares.specs.Groups.{word_rule, residue_rule};
ghost use Rattle.shares.specs.Lawful.{word_laws, set_laws};

use crate::Group;
use params::ParamSet;
use std::marker::PhantomData;
use words::{Mark, Source};

/// 32-bit words under exclusive or.
pub struct Words;

/// The residues of a set's modulus under addition.
pub struct Residues<P: ParamSet> {
    set: PhantomData<P>,
}

impl Group for Words {
    ghost rule = { word_rule };

    ghost laws = { word_laws };

    fn unit() -> u32 {
        0
    }

    fn join(a: u32, b: u32) -> u32 {
        a ^ b
    }

    fn inverse(a: u32) -> u32 {
        a
    }

    fn mask<S: Source>(src: &mut S) -> Result<u32, Mark> {
        src.draw()
    }
}

impl<P: ParamSet> Group for Residues<P> {
    ghost rule = { residue_rule P.params.p };

    ghost laws = { set_laws P.params P.sound };

    fn unit() -> u32 {
        0
    }

    fn join(a: u32, b: u32) -> u32 {
        let p = P::modulus();
        let sum = a + b;
        if sum < p { sum } else { sum - p }
    }

    fn inverse(a: u32) -> u32 {
        if a == 0 { 0 } else { P::modulus() - a }
    }

    #[inline]
    fn mask<S: Source>(src: &mut S) -> Result<u32, Mark> {
        let high = src.draw()?;
        let low = src.draw()?;
        let p = P::modulus();
        Ok(((high as u64 * (1 << 32) + low as u64) % p as u64) as u32)
    }
}
