// Opening: the only way in which a shared value becomes known.
ghost use Rattle.std.specs.Prelude.{◌≡◌, ◌*◌, ◌<◌};
ghost use Rattle.words.specs.Spending.{Spends};
ghost use Rattle.shares.specs.Rule.{Within, recombine};
ghost use Rattle.shares.specs.Refresh.{pairs};

use crate::{Group, Shares, fresh};
use words::{Mark, Source};

/// The value that the shares stand for.
pub fn recombine<const M: usize, G: Group>(shares: Shares<M>) -> u32
    requires within { Within G.rule shares }
    ensures { result ≡ recombine G.rule shares.entry }
{
    let mut value = G::unit();
    for share in shares {
        value = G::join(value, share);
    }
    value
}

/// Opens a value: its shares are refreshed first, so that what is joined is independent of earlier steps.
pub fn open<const M: usize, G: Group, S: Source>(
    shares: Shares<M>,
    src: &mut S,
) -> Result<u32, Mark>
    requires within { Within G.rule shares }
    ensures { Spends (G.rule.cost * pairs M) result (S.flow src.old) (S.flow src.new) (λ v. v ≡ recombine G.rule shares.entry) }
{
    let shares = fresh::<M, G, S>(shares, src)?;
    Ok(recombine::<M, G>(shares))
}
