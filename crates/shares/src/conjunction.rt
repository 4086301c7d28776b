// Bitwise and of two shared words.
ghost use Rattle.std.specs.Prelude.{◌≡◌, bit_and};
ghost use Rattle.words.specs.Spending.{Spends};
ghost use Rattle.shares.specs.Groups.{word_of};
ghost use Rattle.shares.specs.Refresh.{pairs};
ghost use Rattle.shares.specs.Conjoined.{products, conjoined};

use crate::Shares;
use words::{Mark, Source};

fn share_products<const M: usize>(x: Shares<M>, y: Shares<M>) -> Shares<M>
    ensures { result ≡ products x.entry y.entry }
{
    let mut out = x;
    // By index into the other array, since after a zip over `iter_mut` nothing is known of what was written.
    for (i, share) in out.iter_mut().enumerate() {
        *share &= y[i];
    }
    out
}

/// Shares of `x & y`: the products share by share, and for each pair of shares a word and both cross products.
pub fn sec_and<const M: usize, S: Source>(
    x: Shares<M>,
    y: Shares<M>,
    src: &mut S,
) -> Result<Shares<M>, Mark>
    ensures { Spends (pairs M) result (S.flow src.old) (S.flow src.new) (λ z. (z ≡ conjoined M x.entry y.entry (S.flow src.old).words) × (word_of z ≡ bit_and (word_of x.entry) (word_of y.entry))) }
{
    let mut out = share_products(x, y);
    // Both shares of a pair are of one array, so the pairs go by index.
    for i in 0..M {
        for j in i + 1..M {
            let r = src.draw()?;
            out[i] ^= r;
            // The mask goes in first, so that no cross product ever stands bare.
            out[j] ^= (r ^ (x[i] & y[j])) ^ (x[j] & y[i]);
        }
    }
    Ok(out)
}
