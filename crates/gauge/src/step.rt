// One gadget on one column.
ghost use Rattle.std.specs.Prelude.{◌≡◌, ◌<◌, ◌≤◌};
ghost use Rattle.words.specs.Spending.{Spends};
ghost use Rattle.shares.specs.Rule.{Within};
ghost use Rattle.shares.specs.Groups.{residue_rule, word_of};
ghost use Rattle.gauge.specs.Gauge.{Gives, cost, small};
ghost use Rattle.gauge.specs.declared.gadget.Gadget.{Gadget};

use drawing::{candidate_bits, candidate_limit};
use gadgets::{sec_add, sec_add_modp, to_residues, to_words};
use linear::{each, public};
use params::ParamSet;
use shares::{Residues, Shares, Words, fresh, open, sec_and};
use steps::{Ended, candidate, check_coefficient};
use words::{Mark, Source, Tape};

/// What a gadget makes of a column, or the mark where the masks end.
pub type Made<const M: usize> = Result<Shares<M>, Mark>;

/// A gadget, by its type: each has a loop of its own.
pub trait Step<const M: usize> {
    ghost gadget: { Gadget };

    fn run<S: ParamSet, W: Source>(x: Shares<M>, y: Shares<M>, masks: &mut W) -> Made<M>
        requires count { (0 < M) × (M ≤ 8) }
        ensures { Spends (cost gadget M) result (W.flow masks.old) (W.flow masks.new) (Gives S.params M gadget x.entry y.entry) };
}

/// Each share cut to so few bits that it is a residue, and so is the word that they stand for.
fn small<const M: usize, S: ParamSet>(x: Shares<M>) -> Shares<M>
    ensures is { result ≡ small S.params x.entry }
    ensures within { Within (residue_rule S.params.p) result }
    ensures below { word_of result < S.params.p }
{
    let mask = (1u32 << (candidate_bits::<S>() - 1)) - 1;
    each(x, |share| share & mask)
}

pub struct RefreshWords;

impl<const M: usize> Step<M> for RefreshWords {
    ghost gadget = { Gadget.RefreshWords };

    fn run<S: ParamSet, W: Source>(x: Shares<M>, y: Shares<M>, masks: &mut W) -> Made<M>
        requires count { (0 < M) × (M ≤ 8) }
        ensures { Spends (cost Gadget.RefreshWords M) result (W.flow masks.old) (W.flow masks.new) (Gives S.params M Gadget.RefreshWords x.entry y.entry) }
    {
        fresh::<M, Words, W>(x, masks)
    }
}

pub struct RefreshResidues;

impl<const M: usize> Step<M> for RefreshResidues {
    ghost gadget = { Gadget.RefreshResidues };

    fn run<S: ParamSet, W: Source>(x: Shares<M>, y: Shares<M>, masks: &mut W) -> Made<M>
        requires count { (0 < M) × (M ≤ 8) }
        ensures { Spends (cost Gadget.RefreshResidues M) result (W.flow masks.old) (W.flow masks.new) (Gives S.params M Gadget.RefreshResidues x.entry y.entry) }
    {
        fresh::<M, Residues<S>, W>(small::<M, S>(x), masks)
    }
}

pub struct SecAnd;

impl<const M: usize> Step<M> for SecAnd {
    ghost gadget = { Gadget.SecAnd };

    fn run<S: ParamSet, W: Source>(x: Shares<M>, y: Shares<M>, masks: &mut W) -> Made<M>
        requires count { (0 < M) × (M ≤ 8) }
        ensures { Spends (cost Gadget.SecAnd M) result (W.flow masks.old) (W.flow masks.new) (Gives S.params M Gadget.SecAnd x.entry y.entry) }
    {
        sec_and(x, y, masks)
    }
}

pub struct SecAdd;

impl<const M: usize> Step<M> for SecAdd {
    ghost gadget = { Gadget.SecAdd };

    fn run<S: ParamSet, W: Source>(x: Shares<M>, y: Shares<M>, masks: &mut W) -> Made<M>
        requires count { (0 < M) × (M ≤ 8) }
        ensures { Spends (cost Gadget.SecAdd M) result (W.flow masks.old) (W.flow masks.new) (Gives S.params M Gadget.SecAdd x.entry y.entry) }
    {
        sec_add(x, y, masks)
    }
}

pub struct SecAddModp;

impl<const M: usize> Step<M> for SecAddModp {
    ghost gadget = { Gadget.SecAddModp };

    fn run<S: ParamSet, W: Source>(x: Shares<M>, y: Shares<M>, masks: &mut W) -> Made<M>
        requires count { (0 < M) × (M ≤ 8) }
        ensures { Spends (cost Gadget.SecAddModp M) result (W.flow masks.old) (W.flow masks.new) (Gives S.params M Gadget.SecAddModp x.entry y.entry) }
    {
        sec_add_modp::<M, S, W>(small::<M, S>(x), small::<M, S>(y), masks)
    }
}

pub struct ToWords;

impl<const M: usize> Step<M> for ToWords {
    ghost gadget = { Gadget.ToWords };

    fn run<S: ParamSet, W: Source>(x: Shares<M>, y: Shares<M>, masks: &mut W) -> Made<M>
        requires count { (0 < M) × (M ≤ 8) }
        ensures { Spends (cost Gadget.ToWords M) result (W.flow masks.old) (W.flow masks.new) (Gives S.params M Gadget.ToWords x.entry y.entry) }
    {
        to_words::<M, S, W>(small::<M, S>(x), masks)
    }
}

pub struct ToResidues;

impl<const M: usize> Step<M> for ToResidues {
    ghost gadget = { Gadget.ToResidues };

    fn run<S: ParamSet, W: Source>(x: Shares<M>, y: Shares<M>, masks: &mut W) -> Made<M>
        requires count { (0 < M) × (M ≤ 8) }
        ensures { Spends (cost Gadget.ToResidues M) result (W.flow masks.old) (W.flow masks.new) (Gives S.params M Gadget.ToResidues x.entry y.entry) }
    {
        to_residues::<M, S, W>(small::<M, S>(x), masks)
    }
}

pub struct Open;

impl<const M: usize> Step<M> for Open {
    ghost gadget = { Gadget.Open };

    fn run<S: ParamSet, W: Source>(x: Shares<M>, y: Shares<M>, masks: &mut W) -> Made<M>
        requires count { (0 < M) × (M ≤ 8) }
        ensures { Spends (cost Gadget.Open M) result (W.flow masks.old) (W.flow masks.new) (Gives S.params M Gadget.Open x.entry y.entry) }
    {
        let value = open::<M, Residues<S>, W>(small::<M, S>(x), masks)?;
        Ok(public(value))
    }
}

pub struct Candidate;

impl<const M: usize> Step<M> for Candidate {
    ghost gadget = { Gadget.Candidate };

    // The column's words are the nonces.
    fn run<S: ParamSet, W: Source>(x: Shares<M>, y: Shares<M>, masks: &mut W) -> Made<M>
        requires count { (0 < M) × (M ≤ 8) }
        ensures { Spends (cost Gadget.Candidate M) result (W.flow masks.old) (W.flow masks.new) (Gives S.params M Gadget.Candidate x.entry y.entry) }
    {
        let mut nonces = Tape::of_few(&x[..]);
        match candidate(
            candidate_bits::<S>(),
            candidate_limit::<S>(),
            &mut nonces,
            masks,
        ) {
            Ok(accepted) => Ok(accepted.unwrap_or([0; M])),
            Err(Ended::Nonces(mark) | Ended::Masks(mark)) => Err(mark),
        }
    }
}

pub struct CheckCoefficient;

impl<const M: usize> Step<M> for CheckCoefficient {
    ghost gadget = { Gadget.CheckCoefficient };

    fn run<S: ParamSet, W: Source>(x: Shares<M>, y: Shares<M>, masks: &mut W) -> Made<M>
        requires count { (0 < M) × (M ≤ 8) }
        ensures { Spends (cost Gadget.CheckCoefficient M) result (W.flow masks.old) (W.flow masks.new) (Gives S.params M Gadget.CheckCoefficient x.entry y.entry) }
    {
        check_coefficient::<M, S, W>(small::<M, S>(x), y, masks)
    }
}
