// A value in shares: masks, and the value less their sum.
ghost use Rattle.std.specs.Prelude.{◌≡◌, ◌-◌, ◌*◌, ◌<◌, ◌≤◌};
ghost use Rattle.keys.specs.Load.{Splits};
ghost use Rattle.words.specs.Spending.{Spends};

use shares::{Group, Shares, draw_masks, recombine};
use words::{Mark, Source};

// The value less the sum of the masks.
fn less<G: Group>(value: u32, sum: u32) -> u32
    requires { (value < G.rule.order) × (sum < G.rule.order) }
    ensures { result ≡ G.rule.op value (G.rule.inverse sum) }
{
    let inverse = G::inverse(sum);
    G::join(value, inverse)
}

// Shares of a value: share 0 is the value less the others, which are masks.
pub(crate) fn split<const M: usize, G: Group, W: Source>(
    value: u32,
    source: &mut W,
) -> Result<Shares<M>, Mark>
    requires some { 0 < M }
    requires most { M ≤ 8 }
    requires value { value < G.rule.order }
    ensures { Spends (G.rule.cost * (M - 1)) result (W.flow source.old) (W.flow source.new) (Splits G.rule M (W.flow source.old).words value) }
{
    let mut shares = draw_masks::<M, G, W>(source)?;
    let sum = recombine::<M, G>(shares);
    shares[0] = less::<G>(value, sum);
    Ok(shares)
}
