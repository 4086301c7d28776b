// The gadgets, for a program that times them: a call does one gadget on 512 columns of shares in a row, so that the call itself counts
// for little. It stands beside the card, and nothing of the card uses it.
#![tactic(auto)]

ghost use Rattle.std.specs.Prelude.{◌≡◌, ◌*◌, ◌<◌, ◌≤◌, length};
ghost use Rattle.gauge.specs.Gauge.{Columns, Gauged, GaugedBy, Sized, cost, set_of, status_of};
ghost use Rattle.words.specs.Spending.{Spends};

mod columns;
mod gadget;
mod step;

use columns::{COLUMNS, run_columns};
use gadget::Gadget;
use params::{ParamSet, SetI, SetS};
use refusal::Refusal;
use shares::{ShareCount, at_share_count};
use step::{
    Candidate, CheckCoefficient, Open, RefreshResidues, RefreshWords, SecAdd, SecAddModp, SecAnd,
    ToResidues, ToWords,
};
use words::{Generator, Mark, Source, Tape};

// A gadget that is known when the program runs, on all columns.
fn run_gadget<const M: usize, S: ParamSet, W: Source>(
    gadget: Gadget,
    out: &mut [u32],
    x: &[u32],
    y: &[u32],
    masks: &mut W,
) -> Result<(), Mark>
    requires some { 0 < M }
    requires most { M ≤ 8 }
    requires sized { Sized M out.old x.now y.now }
    ensures { Spends (512 * cost gadget M) result (W.flow masks.old) (W.flow masks.new) (λ _. Columns S.params M gadget x.now y.now out.new) }
{
    match gadget {
        Gadget::RefreshWords => run_columns::<M, RefreshWords, S, W>(out, x, y, masks),
        Gadget::RefreshResidues => run_columns::<M, RefreshResidues, S, W>(out, x, y, masks),
        Gadget::SecAnd => run_columns::<M, SecAnd, S, W>(out, x, y, masks),
        Gadget::SecAdd => run_columns::<M, SecAdd, S, W>(out, x, y, masks),
        Gadget::SecAddModp => run_columns::<M, SecAddModp, S, W>(out, x, y, masks),
        Gadget::ToWords => run_columns::<M, ToWords, S, W>(out, x, y, masks),
        Gadget::ToResidues => run_columns::<M, ToResidues, S, W>(out, x, y, masks),
        Gadget::Open => run_columns::<M, Open, S, W>(out, x, y, masks),
        Gadget::Candidate => run_columns::<M, Candidate, S, W>(out, x, y, masks),
        Gadget::CheckCoefficient => run_columns::<M, CheckCoefficient, S, W>(out, x, y, masks),
    }
}

// The same at a share count that is known when the program runs.
fn run_shares<S: ParamSet, W: Source>(
    gadget: Gadget,
    shares: ShareCount,
    out: &mut [u32],
    x: &[u32],
    y: &[u32],
    masks: &mut W,
) -> Result<(), Mark>
    requires sized { Sized shares.count out.old x.now y.now }
    ensures { Spends (512 * cost gadget shares.count) result (W.flow masks.old) (W.flow masks.new) (λ _. Columns S.params shares.count gadget x.now y.now out.new) }
{
    at_share_count!(shares, run_gadget::<_, S, W>(gadget, out, x, y, masks))
}

// The tests of a call, and the gadget.
fn gauge<S: ParamSet, W: Source>(
    number: u8,
    shares: u8,
    out: &mut [u32],
    x: &[u32],
    y: &[u32],
    masks: &mut W,
) -> Result<(), Refusal>
    ensures { GaugedBy S.params number shares x.now y.now out.old out.new (length (W.flow masks.old).words) result }
{
    let gadget = Gadget::from_number(number).ok_or(Refusal::Kind)?;
    let count = ShareCount::new(shares).ok_or(Refusal::ShareCount)?;
    let size = COLUMNS * shares as usize;
    if out.len() != size || x.len() != size || y.len() != size {
        return Err(Refusal::AreaSize);
    }
    match run_shares::<S, W>(gadget, count, out, x, y, masks) {
        Ok(()) => Ok(()),
        Err(mark) => Err(Refusal::MasksEnded { mark }),
    }
}

fn status(ending: Result<(), Refusal>) -> u8
    ensures { result ≡ status_of ending }
{
    match ending {
        Ok(()) => 0,
        Err(refusal) => refusal.number(),
    }
}

// The same in one of the two sets.
fn gauge_in_set<W: Source>(
    field: bool,
    number: u8,
    shares: u8,
    out: &mut [u32],
    x: &[u32],
    y: &[u32],
    masks: &mut W,
) -> u8
    ensures { Gauged (set_of field) number shares x.now y.now out.old out.new (length (W.flow masks.old).words) result }
{
    let ending = if field {
        gauge::<SetI, W>(number, shares, out, x, y, masks)
    } else {
        gauge::<SetS, W>(number, shares, out, x, y, masks)
    };
    status(ending)
}

/// Does a gadget, by its number, on each column of `x` and `y`, in set I or else in set S, with masks from a tape. The answer is 0, or the number of a refusal.
#[unsafe(no_mangle)]
pub extern "C" fn cavrudez_gauge_tape(
    number: u8,
    field: bool,
    shares: u8,
    out: &mut [u32],
    x: &[u32],
    y: &[u32],
    words: &[u32],
) -> u8
    ensures { Gauged (set_of field) number shares x.now y.now out.old out.new (length words.now) result }
{
    match Tape::new(words) {
        Ok(mut masks) => gauge_in_set(field, number, shares, out, x, y, &mut masks),
        Err(_) => status(Err(Refusal::SourceRange)),
    }
}

/// The same with so many masks from a generator, whose seed is always the same.
#[unsafe(no_mangle)]
pub extern "C" fn cavrudez_gauge_generator(
    number: u8,
    field: bool,
    shares: u8,
    out: &mut [u32],
    x: &[u32],
    y: &[u32],
    count: u64,
) -> u8
    ensures { Gauged (set_of field) number shares x.now y.now out.old out.new count result }
{
    match Generator::new([0; 32], count) {
        Ok(mut masks) => gauge_in_set(field, number, shares, out, x, y, &mut masks),
        Err(_) => status(Err(Refusal::SourceRange)),
    }
}
