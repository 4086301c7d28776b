// Nonces: the coefficients of y1 and y2, drawn in shares.
#![tactic(auto)]

ghost use Rattle.std.specs.Prelude.{◌≡◌, ◌+◌, ◌-◌, ◌*◌, ◌/◌, ◌%◌, ◌<◌, ◌≤◌, length, OnOk};
ghost use Rattle.words.specs.Spending.{Spends};
ghost use Rattle.shares.specs.Rule.{Within};
ghost use Rattle.shares.specs.Groups.{residue_rule, residue_of, word_of};
ghost use Rattle.shares.specs.Refresh.{pairs};
ghost use Rattle.gadgets.specs.Masked.{Masked};
ghost use Rattle.polys.specs.Area.{recombined};
ghost use Rattle.ring.specs.Ring.{Residues};
ghost use Rattle.plain.specs.Costs.{mask_words};
ghost use Rattle.plain.specs.Nonces.{LeastBits, bits, coefficient, limit};
ghost use Rattle.plain.specs.Run.{at};
ghost use Rattle.drawing.specs.Drawing.{Draws};
ghost use Rattle.drawing.specs.Resume.{Subject};

pub mod halt;

use gadgets::{Limit, to_residues};
pub use halt::Halt;
use params::ParamSet;
use polys::{coefficients, scatter};
use refusal::{Coefficient, Step};
use shares::{Group, Residues as ResidueGroup, Shares};
use steps::{Ended, candidate};
use words::{Mark, Source};

/// What an accepted candidate is below.
pub fn candidate_limit<S: ParamSet>() -> Limit
    ensures { result.value ≡ limit S.params }
{
    Limit {
        value: 2 * S::nonce_bound() + 1,
    }
}

/// How many low bits of a nonce word make a candidate: as few as can tell all that are accepted.
pub fn candidate_bits<S: ParamSet>() -> u32
    ensures is { result ≡ bits S.params }
    ensures least { LeastBits (limit S.params) result }
    ensures few { result ≤ 24 }
{
    u32::BITS - candidate_limit::<S>().value.leading_zeros()
}

// The place of the i-th coefficient of y1 and y2.
#[tactic(auto, using(std::proofs::lemmas::Nat::div_below))]
fn at<S: ParamSet>(i: usize) -> Coefficient
    requires { i < 2 * S.params.n }
    ensures { result ≡ at S.params i }
{
    let n = S::degree();
    Coefficient {
        polynomial: (i / n) as u8 + 1,
        index: i % n,
    }
}

// Residue shares of the coefficient that an accepted candidate stands for.
fn convert<const M: usize, S: ParamSet, W: Source>(
    x: Shares<M>,
    masks: &mut W,
) -> Result<Shares<M>, Mark>
    requires some { 0 < M }
    requires below { word_of x < limit S.params }
    ensures { Spends (mask_words S.params * (M - 1) + (M + 1) * (33 * pairs M)) result (W.flow masks.old) (W.flow masks.new) (λ y. Within (residue_rule S.params.p) y × (residue_of S.params.p y ≡ coefficient S.params (word_of x.entry)) × Masked S.params.p M (W.flow masks.old).words y) }
{
    let mut y = to_residues::<M, S, W>(x, masks)?;
    let less = ResidueGroup::<S>::inverse(S::nonce_bound());
    y[0] = ResidueGroup::<S>::join(y[0], less);
    Ok(y)
}

/// Draws the coefficients of y1 and then of y2: for each, candidates until one is accepted.
pub fn draw<const M: usize, S: ParamSet, N: Source, W: Source>(
    y: &mut [u32],
    nonces: &mut N,
    masks: &mut W,
) -> Result<(), Halt>
    requires some { 0 < M }
    requires most { M ≤ 8 }
    requires sized { length y.old ≡ 2 * M * S.params.n }
    ensures drawn { (u : Subject) → Draws S.params M u result (recombined S.params M y.new) (N.flow nonces.old) (N.flow nonces.new) (W.flow masks.old) (W.flow masks.new) }
    ensures residues { OnOk result (Residues S.params.p y.new) }
{
    let n = S::degree();
    let bits = candidate_bits::<S>();
    let limit = candidate_limit::<S>();
    // Both loops in one function, left by label: what a draw does is one sentence.
    'draw: {
        'coefficients: for i in 0..coefficients::<S>() {
            let place = at::<S>(i);
            let x: Shares<M> = 'candidates: loop {
                match candidate(bits, limit, nonces, masks) {
                    Ok(Some(x)) => break 'candidates x,
                    Ok(None) => {}
                    Err(ended) => {
                        let step = Step::Candidate(place);
                        break 'draw Err(Halt { ended, step });
                    }
                }
            };
            let shares = convert::<M, S, W>(x, masks).map_err(|mark| Halt {
                ended: Ended::Masks(mark),
                step: Step::Conversion(place),
            })?;
            scatter(shares, y, n, i);
        }
        Ok(())
    }
}
