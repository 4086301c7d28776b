// From residue shares to word shares, and back.
ghost use Rattle.std.specs.Prelude.{◌≡◌, ◌+◌, ◌-◌, ◌*◌, ◌<◌};
ghost use Rattle.words.specs.Spending.{Spends};
ghost use Rattle.shares.specs.Rule.{Within};
ghost use Rattle.shares.specs.Groups.{residue_rule, word_of, residue_of};
ghost use Rattle.shares.specs.Refresh.{pairs};
ghost use Rattle.gadgets.specs.Masked.{Masked};

use crate::modular::sec_add_modp;
use linear::{each, public};
use params::ParamSet;
use shares::{Group, Residues, Shares, Words, draw_masks, fresh, open};
use words::{Mark, Source};

/// Word shares of the residue that `x` stands for. Each residue share is shared anew as a word, and these are added.
pub fn to_words<const M: usize, P: ParamSet, S: Source>(
    x: Shares<M>,
    src: &mut S,
) -> Result<Shares<M>, Mark>
    requires some { 0 < M }
    requires within { Within (residue_rule P.params.p) x }
    ensures { Spends (M * (33 * pairs M)) result (S.flow src.old) (S.flow src.new) (λ z. word_of z ≡ residue_of P.params.p x.entry) }
{
    let mut sum = [0; M];
    for share in x {
        let part = fresh::<M, Words, S>(public(share), src)?;
        sum = sec_add_modp::<M, P, S>(sum, part, src)?;
    }
    Ok(sum)
}

/// Residue shares of the word that `x` stands for. All shares but the first are masks; the first is what they leave of the word, opened.
pub fn to_residues<const M: usize, P: ParamSet, S: Source>(
    x: Shares<M>,
    src: &mut S,
) -> Result<Shares<M>, Mark>
    requires some { 0 < M }
    requires below { word_of x < P.params.p }
    ensures { Spends ((residue_rule P.params.p).cost * (M - 1) + (M + 1) * (33 * pairs M)) result (S.flow src.old) (S.flow src.new) (λ z. Within (residue_rule P.params.p) z × (residue_of P.params.p z ≡ word_of x.entry) × Masked P.params.p M (S.flow src.old).words z) }
{
    let mut out = draw_masks::<M, Residues<P>, S>(src)?;
    let negatives = each(out, |share| Residues::<P>::inverse(share));
    let less = to_words::<M, P, S>(negatives, src)?;
    let rest = sec_add_modp::<M, P, S>(less, x, src)?;
    out[0] = open::<M, Words, S>(rest, src)?;
    Ok(out)
}
