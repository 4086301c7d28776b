// One gadget on all columns.
ghost use Rattle.std.specs.Prelude.{◌≡◌, ◌*◌, ◌<◌, ◌≤◌, length};
ghost use Rattle.words.specs.Spending.{Spends};
ghost use Rattle.gauge.specs.Gauge.{Columns, Sized, cost};

use crate::step::Step;
use params::ParamSet;
use polys::{gather, scatter};
use words::{Mark, Source};

/// How many columns an area has.
pub const COLUMNS: usize = 512;

/// Each column of `out` becomes what the gadget makes of the same column of `x` and of `y`.
pub fn run_columns<const M: usize, G: Step<M>, S: ParamSet, W: Source>(
    out: &mut [u32],
    x: &[u32],
    y: &[u32],
    masks: &mut W,
) -> Result<(), Mark>
    requires some { 0 < M }
    requires most { M ≤ 8 }
    requires sized { Sized M out.old x.now y.now }
    ensures { Spends (512 * cost G.gadget M) result (W.flow masks.old) (W.flow masks.new) (λ _. Columns S.params M G.gadget x.now y.now out.new) }
{
    for c in 0..COLUMNS {
        let z = G::run::<S, W>(gather(x, COLUMNS, c), gather(y, COLUMNS, c), masks)?;
        scatter(z, out, COLUMNS, c);
    }
    Ok(())
}
