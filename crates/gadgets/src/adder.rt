// Addition of shared words.
ghost use Rattle.std.specs.Prelude.{◌≡◌, ◌+◌, ◌*◌, ◌%◌, ◌^◌, ◌<◌};
ghost use Rattle.words.specs.Spending.{Spends};
ghost use Rattle.shares.specs.Groups.{word_of};
ghost use Rattle.shares.specs.Refresh.{pairs};
ghost use Rattle.gadgets.specs.Masked.{runs};
ghost use Rattle.gadgets.specs.Words.{generated, propagated, is_below};

use crate::limit::Limit;
use linear::{negated, public, shift_left, top_bit, xor};
use shares::{Shares, Words, fresh, sec_and};
use words::{Mark, Source};

// One level of the adder: from runs of `places` places to runs of twice as many.
fn widen<const M: usize, S: Source>(
    g: Shares<M>,
    p: Shares<M>,
    places: u32,
    src: &mut S,
) -> Result<(Shares<M>, Shares<M>), Mark>
    requires small { places < 32 }
    ensures { Spends (3 * pairs M) result (S.flow src.old) (S.flow src.new) (λ z. (word_of z.0 ≡ generated places (word_of g.entry) (word_of p.entry)) × (word_of z.1 ≡ propagated places (word_of p.entry)) × (z.1 ≡ runs M places p.entry (S.flow src.old).words)) }
{
    let carried = sec_and(shift_left(g, places), p, src)?;
    // Both operands of the next sec_and come from p, so one is refreshed.
    let shifted = fresh::<M, Words, S>(shift_left(p, places), src)?;
    let run = sec_and(p, shifted, src)?;
    Ok((xor(g, carried), run))
}

/// Shares of `x + y` modulo 2^32, by a Kogge-Stone adder.
pub fn sec_add<const M: usize, S: Source>(
    x: Shares<M>,
    y: Shares<M>,
    src: &mut S,
) -> Result<Shares<M>, Mark>
    ensures { Spends (14 * pairs M) result (S.flow src.old) (S.flow src.new) (λ z. word_of z ≡ (word_of x.entry + word_of y.entry) % 2 ^ 32) }
{
    let sum = xor(x, y);
    let mut p = sum;
    let mut g = sec_and(x, y, src)?;
    for level in 0..4u32 {
        (g, p) = widen(g, p, 1 << level, src)?;
    }
    // The last level needs no further runs.
    let carried = sec_and(shift_left(g, 16), p, src)?;
    Ok(xor(sum, shift_left(xor(g, carried), 1)))
}

/// Shares of 1 where `x` is below `limit`, else of 0: the top bit of `x - limit`.
pub fn sec_below<const M: usize, S: Source>(
    x: Shares<M>,
    limit: Limit,
    src: &mut S,
) -> Result<Shares<M>, Mark>
    requires some { 0 < M }
    requires small { word_of x < 2 ^ 31 }
    ensures { Spends (15 * pairs M) result (S.flow src.old) (S.flow src.new) (λ z. word_of z ≡ is_below (word_of x.entry) limit.value) }
{
    let minus = fresh::<M, Words, S>(public(negated(limit.value)), src)?;
    let difference = sec_add(x, minus, src)?;
    Ok(top_bit(difference))
}
