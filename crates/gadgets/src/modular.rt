// Addition modulo p of shared words below p.
ghost use Rattle.std.specs.Prelude.{◌≡◌, ◌+◌, ◌*◌, ◌%◌, ◌<◌};
ghost use Rattle.words.specs.Spending.{Spends};
ghost use Rattle.shares.specs.Groups.{word_of};
ghost use Rattle.shares.specs.Refresh.{pairs};

use crate::adder::sec_add;
use linear::{negated, not, public, spread_top_bit, xor};
use params::ParamSet;
use shares::{Shares, Words, fresh, sec_and};
use words::{Mark, Source};

/// Shares of `x + y` modulo `p`. The sum and the sum less `p` are both made, and the top bit of the second selects, spread over the whole word.
pub fn sec_add_modp<const M: usize, P: ParamSet, S: Source>(
    x: Shares<M>,
    y: Shares<M>,
    src: &mut S,
) -> Result<Shares<M>, Mark>
    requires some { 0 < M }
    requires first { word_of x < P.params.p }
    requires second { word_of y < P.params.p }
    ensures { Spends (32 * pairs M) result (S.flow src.old) (S.flow src.new) (λ z. word_of z ≡ (word_of x.entry + word_of y.entry) % P.params.p) }
{
    let sum = sec_add(x, y, src)?;
    let less = sec_add(sum, public(negated(P::modulus())), src)?;
    let negative = spread_top_bit(less);
    // The selecting word meets `sum` and `less`, which it was made of: refreshed for each.
    let keep = fresh::<M, Words, S>(negative, src)?;
    let kept = sec_and(sum, keep, src)?;
    let drop = fresh::<M, Words, S>(negative, src)?;
    let reduced = sec_and(less, not(drop), src)?;
    Ok(xor(kept, reduced))
}
