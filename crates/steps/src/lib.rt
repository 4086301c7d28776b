// The steps of signing on one coefficient: a candidate for a nonce, and the check of a response.
#![tactic(auto)]

ghost use Rattle.std.specs.Prelude.{◌≡◌, ◌+◌, ◌*◌, ◌%◌, ◌^◌, ◌<◌, take, bit_and};
ghost use Rattle.params.specs.Params.{reach};
ghost use Rattle.words.specs.Spending.{Spends};
ghost use Rattle.shares.specs.Rule.{Within};
ghost use Rattle.shares.specs.Groups.{residue_rule, word_of, residue_of};
ghost use Rattle.shares.specs.Refresh.{pairs};
ghost use Rattle.gadgets.specs.Words.{is_below};
ghost use Rattle.steps.specs.Candidate.{Judged, Renewed, Tried};

use gadgets::{Limit, sec_below, to_words};
use linear::low_bits;
use params::ParamSet;
use shares::{Group, Residues, Shares, Words, fresh, open, sec_and};
use words::{Mark, Source};

/// Which source ended, and what is told of that.
#[derive(Clone, Copy)]
pub enum Ended<T> {
    Nonces(T),
    Masks(T),
}

fn draw_shares<const M: usize, S: Source>(src: &mut S) -> Result<Shares<M>, Mark>
    ensures { Spends M result (S.flow src.old) (S.flow src.new) (λ z. z ≡ take M (S.flow src.old).words) }
{
    let mut out = [0; M];
    for share in &mut out {
        *share = src.draw()?;
    }
    Ok(out)
}

// Only whether x is below the limit is opened.
fn judge<const M: usize, S: Source>(
    x: Shares<M>,
    limit: Limit,
    src: &mut S,
) -> Result<Option<Shares<M>>, Mark>
    requires some { 0 < M }
    requires small { word_of x < 2 ^ 31 }
    ensures judged { Spends (17 * pairs M) result (S.flow src.old) (S.flow src.new) (λ o. Judged limit.value (word_of x.entry) o) }
    ensures shares { Renewed M x.entry result (S.flow src.old) }
{
    let x = fresh::<M, Words, S>(x, src)?;
    let below = sec_below(x, limit, src)?;
    let bit = open::<M, Words, S>(below, src)?;
    Ok((bit == 1).then_some(x))
}

/// One candidate: the low `bits` bits of the next `M` nonce words are its shares, and it is refused unless it is below `limit`.
pub fn candidate<const M: usize, N: Source, S: Source>(
    bits: u32,
    limit: Limit,
    nonces: &mut N,
    masks: &mut S,
) -> Result<Option<Shares<M>>, Ended<Mark>>
    requires some { 0 < M }
    requires narrow { bits < 31 }
    ensures { Tried M bits limit.value result (N.flow nonces.old) (N.flow nonces.new) (S.flow masks.old) (S.flow masks.new) }
{
    let words = draw_shares(nonces).map_err(Ended::Nonces)?;
    judge(low_bits(words, bits), limit, masks).map_err(Ended::Masks)
}

/// Shares of the pass bit `pass`, cleared unless the coefficient `z` lies within the set's reach of 0.
pub fn check_coefficient<const M: usize, P: ParamSet, S: Source>(
    z: Shares<M>,
    pass: Shares<M>,
    src: &mut S,
) -> Result<Shares<M>, Mark>
    requires some { 0 < M }
    requires within { Within (residue_rule P.params.p) z }
    ensures { Spends ((33 * M + 16) * pairs M) result (S.flow src.old) (S.flow src.new) (λ q. word_of q ≡ bit_and (is_below ((residue_of P.params.p z.entry + reach P.params) % P.params.p) (2 * reach P.params + 1)) (word_of pass.entry)) }
{
    let reach = P::reach();
    let mut moved = z;
    moved[0] = Residues::<P>::join(z[0], reach);
    let word = to_words::<M, P, S>(moved, src)?;
    let limit = Limit {
        value: 2 * reach + 1,
    };
    let inside = sec_below(word, limit, src)?;
    sec_and(inside, pass, src)
}
